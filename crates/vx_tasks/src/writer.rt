ghost use Rattle.std.specs.Prelude.{◌≡◌};

use std::alloc::Global;
use std::marker::Model;
use vx_json::Codec;
use vx_value::Bytes;

// Memory of more bytes isn't kept for the next batch.
const KEPT: usize = 1 << 18;

/// How a sink writes what it holds, and the memory in which it wrote last. Contracts see the codec.
#[derive(Drop)]
pub struct Writer {
    codec: Codec,
    room: Bytes,
}

impl Model for Writer {
    ghost use Rattle.vx_codec.specs.declared.codec.Codec.{Codec};

    ghost Value = { Codec };

    ghost view = { λ w. w.codec };
}

impl Writer {
    /// A sink that writes by a codec, and wrote nothing yet. It takes no memory.
    pub fn new(alloc: Global, codec: Codec) -> Self
        ensures { result ≡ codec }
    {
        Writer {
            codec,
            room: Bytes::new(alloc),
        }
    }

    /// By which codec it writes.
    pub fn codec(&self) -> Codec
        ensures { result ≡ self.now }
    {
        self.codec
    }

    // The memory in which it wrote last.
    pub(crate) fn into_room(self) -> Bytes {
        self.room
    }

    // A sink that writes by a codec, in the memory of what was written last, unless that is long.
    pub(crate) fn behind(alloc: Global, codec: Codec, last: Bytes) -> Self
        ensures { result ≡ codec }
    {
        if last.len() > KEPT {
            return Writer::new(alloc, codec);
        }
        Writer { codec, room: last }
    }
}
