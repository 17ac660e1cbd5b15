ghost use Rattle.std.specs.Prelude.{◌≡◌, IfSome};
ghost use Rattle.vx_sourcecore.specs.Sources.{HasFramed};

use std::alloc::Global;
use vx_frame::{Framer, LineList, with_room_for};

/// The lines that bytes of a stream complete, and how many more are too long; `None` where no memory is found.
pub(crate) fn framed(
    alloc: Global,
    framer: &mut Framer,
    stream: u64,
    bytes: &[u8],
) -> Option<(LineList, u64)>
    requires { framer.old.overlong ≡ 0 }
    ensures observed { framer.new.overlong ≡ 0 }
    ensures framed { IfSome result
        (λ lines. HasFramed framer.old stream bytes.now lines.0 lines.1 framer.new) }
{
    let mut lines = with_room_for(alloc, bytes).ok()?;
    let fed = framer.feed(stream, bytes, &mut lines);
    let overlong = framer.take_overlong();
    if fed.is_err() {
        return None;
    }
    Some((lines, overlong))
}
