ghost use Rattle.std.specs.Prelude.{◌≡◌, [], ◌+◌, ◌≤◌, ◌<◌, ◌++◌, ◌^◌, length, map, take, drop, false, true, IfOk, OnOk, OnErr};
ghost use Rattle.vx_frame.specs.Frames.{capped};
ghost use Rattle.vx_frame.specs.Framings.{lines_behind, overlong_behind, left_behind, line_of};
ghost use Rattle.vx_frame.specs.Pieces.{kept, counted};

use crate::line::{Line, LineList, with_room_for};
use crate::unfinished::Unfinished;
use memchr::memchr;
use std::alloc::Global;
use std::mem;
use vx_value::{Bytes, WantOfMemory};

/// What the bytes of a piece bring.
#[derive(Drop)]
pub struct Advance {
    /// The lines that they end.
    pub lines: LineList,
    /// How many lines were too long so far.
    pub overlong: u64,
    /// What they leave unfinished.
    pub left: Unfinished,
}

/// Adds bytes to a line, of which at most `room` are kept. For want of memory the line is as before.
pub fn extend(held: &mut Bytes, bytes: &[u8], room: usize) -> Result<(), WantOfMemory>
    requires { length held.old ≤ room }
    ensures ok { OnOk result (held.new ≡ take room (held.old ++ bytes.now)) }
    ensures err { OnErr result (held.new ≡ held.old) }
{
    let free = room - held.len();
    if bytes.len() <= free {
        held.push_slice(bytes)
    } else {
        held.push_slice(&bytes[..free])
    }
}

/// The bytes behind an index.
pub fn behind(bytes: &[u8], i: usize) -> &[u8]
    requires { i < length bytes.now }
    ensures { result.now ≡ drop (i + 1) bytes.now }
{
    &bytes[i + 1..]
}

impl Advance {
    // Ends the line that the part ends.
    fn end_line(
        &mut self,
        alloc: Global,
        limit: u32,
        stream: u64,
        part: &[u8],
    ) -> Result<(), WantOfMemory>
        requires held { length self.old.left.held ≤ limit + 1 }
        requires overlong { self.old.overlong ≡ capped self.old.overlong }
        ensures lines { OnOk result
            (self.new.lines ≡ self.old.lines
            ++ map (line_of stream)
            (kept limit
            (record {
              bytes = take (limit + 1) (self.old.left.held ++ part.now);
              end = capped (self.old.left.seen + length part.now + 1);
            }) [])) }
        ensures overlong { OnOk result
            (self.new.overlong
            ≡ capped
            (counted limit (take (limit + 1) (self.old.left.held ++ part.now)) self.old.overlong)) }
        ensures seen { OnOk result
            (self.new.left.seen ≡ capped (self.old.left.seen + length part.now + 1)) }
        ensures held { OnOk result (self.new.left.held ≡ []) }
    {
        let room = limit as usize + 1;
        extend(&mut self.left.held, part, room)?;
        let seen = self.left.seen.saturating_add(part.len() as u64);
        self.left.seen = seen.saturating_add(1);
        if self.left.held.len() == room {
            self.overlong = self.overlong.saturating_add(1);
            self.left.held.clear();
            return Ok(());
        }
        let bytes = mem::replace(&mut self.left.held, Bytes::new(alloc));
        let line = Line {
            stream,
            bytes,
            end: self.left.seen,
        };
        match self.lines.push(line) {
            Ok(()) => Ok(()),
            Err(_) => Err(WantOfMemory),
        }
    }

    /// What the bytes of a piece bring to what a stream left unfinished.
    pub fn of(
        alloc: Global,
        limit: u32,
        overlong: u64,
        stream: u64,
        left: Unfinished,
        bytes: &[u8],
    ) -> Result<Advance, WantOfMemory>
        requires { length left.held ≤ limit + 1 }
        ensures lines { IfOk result
            (λ a. a.lines ≡ map (line_of stream) (lines_behind limit false left bytes.now)) }
        ensures overlong { IfOk result
            (λ a. a.overlong ≡ capped (overlong + overlong_behind limit false left bytes.now)) }
        ensures left { IfOk result (λ a. a.left ≡ left_behind limit left bytes.now) }
    {
        let room = limit as usize + 1;
        let mut advance = Advance {
            lines: with_room_for(alloc, bytes)?,
            overlong,
            left,
        };
        let mut rest = bytes;
        while let Some(i) = memchr(b'\n', rest) {
            advance.end_line(alloc, limit, stream, &rest[..i])?;
            rest = behind(rest, i);
        }
        extend(&mut advance.left.held, rest, room)?;
        advance.left.seen = advance.left.seen.saturating_add(rest.len() as u64);
        Ok(advance)
    }
}
