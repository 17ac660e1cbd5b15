ghost use Rattle.std.specs.Prelude.{◌≡◌, [], length, ◌<◌, IfOk, IsOk};

use std::alloc::Global;
use vx_value::{Bytes, ItemList, WantOfMemory};

// How many bytes of a stream a line is reckoned to take where room is made for lines.
const BYTES_A_LINE: usize = 64;

/// A line of a stream.
#[derive(Drop)]
pub struct Line {
    /// The stream's number.
    pub stream: u64,
    /// The bytes of the line, without its line feed.
    pub bytes: Bytes,
    /// How many bytes of the stream came before the next line, counted from its last end.
    pub end: u64,
}

/// A list of lines.
pub type LineList = ItemList<Line>;

/// No lines, with room for those that bytes of a stream are reckoned to end, so that the list seldom grows. For fewer than 64 bytes it takes
/// no memory, and so it doesn't want any.
pub fn with_room_for(alloc: Global, bytes: &[u8]) -> Result<LineList, WantOfMemory>
    ensures empty { IfOk result (λ lines. lines ≡ []) }
    ensures ok { length bytes.now < 64 → IsOk result }
{
    match Vec::with_capacity(alloc, bytes.len() / BYTES_A_LINE) {
        Ok(lines) => Ok(LineList::from_vec(lines)),
        Err(_) => Err(WantOfMemory),
    }
}
