ghost use Rattle.std.specs.Prelude.{◌≤◌, length, IfOk, OnOk};
ghost use Rattle.vx_bench.specs.Copies.{IsJudged, IsCopied, AreCounted, AreCopied};

use std::alloc::Global;
use vx_frame::LineList;
use vx_json::{JsonFault, read, write};
use vx_value::{Bytes, WantOfMemory};

/// Whether a line is an event.
fn is_event(alloc: Global, line: &[u8]) -> Result<bool, WantOfMemory>
    ensures { IfOk result (IsJudged line.now) }
{
    match read(alloc, line) {
        Ok(_) => Ok(true),
        Err(JsonFault::WantOfMemory) => Err(WantOfMemory),
        Err(_) => Ok(false),
    }
}

/// How many of some lines are events.
#[tactic(auto, using(crate::proofs::Appending::count_next))]
pub fn count_events(alloc: Global, lines: &LineList) -> Result<usize, WantOfMemory>
    ensures count { IfOk result (AreCounted lines.now) }
    ensures few { IfOk result (λ n. n ≤ length lines.now) }
{
    let mut count: usize = 0;
    for line in lines.as_slice() {
        count += usize::from(is_event(alloc, line.bytes.as_slice())?);
    }
    Ok(count)
}

/// Writes a line in the one spelling of its event, with a line feed, where it is one, and else nothing. For want of memory
/// a part may be written.
fn copy_line(alloc: Global, line: &[u8], out: &mut Bytes) -> Result<bool, WantOfMemory>
    ensures { IfOk result (λ done. IsCopied line.now done out.old out.new) }
{
    match read(alloc, line) {
        Ok(event) => {
            write(&event, out)?;
            out.push_slice(b"\n")?;
            Ok(true)
        }
        Err(JsonFault::WantOfMemory) => Err(WantOfMemory),
        Err(_) => Ok(false),
    }
}

/// Writes the lines that are events, each in its one spelling and with a line feed. For want of memory a part may be
/// written.
#[tactic(auto, using(crate::proofs::Appending::copy_next))]
pub fn copy_lines(alloc: Global, lines: &LineList, out: &mut Bytes) -> Result<(), WantOfMemory>
    ensures { OnOk result (AreCopied lines.now out.old out.new) }
{
    for line in lines.as_slice() {
        let _ = copy_line(alloc, line.bytes.as_slice(), out)?;
    }
    Ok(())
}
