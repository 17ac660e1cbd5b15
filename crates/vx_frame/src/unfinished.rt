ghost use Rattle.std.specs.Prelude.{◌≡◌, []};

use std::alloc::Global;
use vx_value::Bytes;

/// What a stream left unfinished.
#[derive(Drop)]
pub struct Unfinished {
    /// How many bytes the stream has had.
    pub seen: u64,
    /// The bytes behind its last line feed, or, of a line that is too long, as many as tell so.
    pub held: Bytes,
}

impl Unfinished {
    /// Nothing, where a line begins. It takes no memory.
    pub fn nothing(alloc: Global, seen: u64) -> Self
        ensures seen { result.seen ≡ seen }
        ensures held { result.held ≡ [] }
    {
        Unfinished {
            seen,
            held: Bytes::new(alloc),
        }
    }
}
