ghost use Rattle.std.specs.Prelude.{◌≡◌, [], ◌∷◌, ◌+◌, ◌≤◌, ◌++◌, length, map, false, IfOk, IfErr, OnOk, OnErr};
ghost use Rattle.vx_frame.specs.Frames.{capped};
ghost use Rattle.vx_frame.specs.Framings.{lines_behind, overlong_behind, left_behind, line_of};
ghost use Rattle.vx_frame.specs.Pieces.{kept, counted};

use crate::advance::{Advance, behind, extend};
use crate::line::{Line, LineList};
use crate::unfinished::Unfinished;
use memchr::memchr;
use std::alloc::Global;
use std::mem;
use vx_value::{Bytes, WantOfMemory};

// Adds a line to others, and then more lines. For want of memory the line comes back, and the others are as before.
fn append_behind(out: &mut LineList, line: Line, more: LineList) -> Result<(), Line>
    ensures ok { OnOk result (out.new ≡ out.old ++ line ∷ more) }
    ensures err { OnErr result (out.new ≡ out.old) }
    ensures back { IfErr result (λ back. back ≡ line) }
{
    out.push(line)?;
    match out.append(more) {
        Ok(()) => Ok(()),
        Err(_) => match out.pop() {
            Some(line) => Err(line),
            None => unreachable!(),
        },
    }
}

// Takes a whole line's bytes out, and adds it to others, unless it is too long, and then more lines. For want of memory
// all is as before.
fn give_lines(
    alloc: Global,
    limit: u32,
    stream: u64,
    whole: &mut Unfinished,
    more: LineList,
    out: &mut LineList,
) -> Result<(), WantOfMemory>
    ensures ok { OnOk result
        (out.new ≡ out.old
        ++ (map (line_of stream)
        (kept limit (record { bytes = whole.old.held; end = whole.old.seen }) []) ++ more)) }
    ensures err_whole { OnErr result (whole.new ≡ whole.old) }
    ensures err_out { OnErr result (out.new ≡ out.old) }
{
    if whole.held.len() > limit as usize {
        return match out.append(more) {
            Ok(()) => Ok(()),
            Err(_) => Err(WantOfMemory),
        };
    }
    let line = Line {
        stream,
        bytes: mem::replace(&mut whole.held, Bytes::new(alloc)),
        end: whole.seen,
    };
    match append_behind(out, line, more) {
        Ok(()) => Ok(()),
        Err(line) => {
            whole.held = line.bytes;
            Err(WantOfMemory)
        }
    }
}

// How many lines were too long so far, with one more line.
fn count_long(limit: u32, line: &Bytes, overlong: u64) -> u64
    ensures { result ≡ capped (counted limit line.now overlong) }
{
    if line.len() > limit as usize {
        overlong.saturating_add(1)
    } else {
        overlong
    }
}

// Ends a whole line, and takes the bytes behind it. For want of memory all is as before.
fn end_whole(
    alloc: Global,
    limit: u32,
    overlong: u64,
    stream: u64,
    whole: &mut Unfinished,
    rest: &[u8],
    out: &mut LineList,
) -> Result<u64, WantOfMemory>
    ensures lines { OnOk result (out.new ≡ out.old ++ map (line_of stream) (
        kept limit (record { bytes = whole.old.held; end = whole.old.seen }) []
        ++ lines_behind limit false (record { seen = whole.old.seen; held = [] }) rest.now)) }
    ensures overlong { IfOk result (λ n. n ≡ capped (overlong + counted limit whole.old.held
        (overlong_behind limit false (record { seen = whole.old.seen; held = [] }) rest.now))) }
    ensures left { OnOk result (whole.new
        ≡ left_behind limit (record { seen = whole.old.seen; held = [] }) rest.now) }
    ensures err_whole { OnErr result (whole.new ≡ whole.old) }
    ensures err_out { OnErr result (out.new ≡ out.old) }
{
    let begun = Unfinished::nothing(alloc, whole.seen);
    let overlong = count_long(limit, &whole.held, overlong);
    let advance = Advance::of(alloc, limit, overlong, stream, begun, rest)?;
    let Advance {
        lines,
        overlong,
        left,
    } = advance;
    give_lines(alloc, limit, stream, whole, lines, out)?;
    *whole = left;
    Ok(overlong)
}

/// Takes the bytes of a piece behind what a stream left unfinished: adds the lines that they end to `out`, and
/// answers how many lines were too long so far. For want of memory `left` and `out` are as before.
///
/// What was held before is neither read nor copied, so that the work is that of the piece and its lines.
pub fn take_piece(
    alloc: Global,
    limit: u32,
    overlong: u64,
    stream: u64,
    left: &mut Unfinished,
    bytes: &[u8],
    out: &mut LineList,
) -> Result<u64, WantOfMemory>
    requires { length left.old.held ≤ limit + 1 }
    ensures lines { OnOk result (out.new ≡ out.old
        ++ map (line_of stream) (lines_behind limit false left.old bytes.now)) }
    ensures overlong { IfOk result
        (λ n. n ≡ capped (overlong + overlong_behind limit false left.old bytes.now)) }
    ensures left { OnOk result (left.new ≡ left_behind limit left.old bytes.now) }
    ensures err_left { OnErr result (left.new ≡ left.old) }
    ensures err_out { OnErr result (out.new ≡ out.old) }
{
    let room = limit as usize + 1;
    let Some(i) = memchr(b'\n', bytes) else {
        extend(&mut left.held, bytes, room)?;
        left.seen = left.seen.saturating_add(bytes.len() as u64);
        return Ok(overlong);
    };
    let held = left.held.len();
    let seen = left.seen;
    extend(&mut left.held, &bytes[..i], room)?;
    left.seen = seen.saturating_add(i as u64).saturating_add(1);
    match end_whole(alloc, limit, overlong, stream, left, behind(bytes, i), out) {
        Ok(overlong) => Ok(overlong),
        Err(WantOfMemory) => {
            left.held.truncate(held);
            left.seen = seen;
            Err(WantOfMemory)
        }
    }
}
