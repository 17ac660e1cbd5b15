use crate::batch::{copy_lines, count_events};
use crate::bench_fault::BenchFault;
use crate::layers::judged;
use crate::task::Task;
use std::io;
use std::io::{Read, Write};
use vx_frame::{Framer, LineList};
use vx_json::{JsonFault, read};
use vx_value::Bytes;

/// The most bytes that are read at once.
const PIECE: usize = 65_536;

/// The most bytes that a line may have.
const LIMIT: u32 = 102_400;

/// The next piece of standard input, which is empty at the end.
fn take<'a>(rt: &HostRuntime, room: &'a mut [u8]) -> Result<&'a [u8], BenchFault> {
    let mut stdin = rt.stdin();
    match stdin.read(room) {
        Ok(n) => Ok(&room[..n]),
        Err(_) => Err(BenchFault::Input),
    }
}

/// Writes bytes to standard output.
fn give(rt: &HostRuntime, bytes: &[u8]) -> Result<(), BenchFault> {
    match io::writer(rt).write_all(bytes) {
        Ok(()) => Ok(()),
        Err(_) => Err(BenchFault::Output),
    }
}

/// Prints a number.
fn report(rt: &HostRuntime, count: u64) -> Result<(), BenchFault> {
    match println!(rt; "{count}") {
        Ok(()) => Ok(()),
        Err(_) => Err(BenchFault::Output),
    }
}

/// Does a task on standard input.
pub fn run(rt: &HostRuntime, task: Task) -> Result<(), BenchFault> {
    match task {
        Task::Lines | Task::Read => report(rt, counted(rt, task)?),
        Task::Copy => copy(rt),
        Task::Text => report(rt, fields_of_all(rt)?),
        Task::Layers => report_layers(rt),
    }
}

/// Prints how a plan of many layers was judged.
fn report_layers(rt: &HostRuntime) -> Result<(), BenchFault> {
    let (targets, waits, silent) = judged(rt.alloc())?;
    match println!(rt; "{targets} targets, waits: {waits}, where no sink acknowledges: {silent}") {
        Ok(()) => Ok(()),
        Err(_) => Err(BenchFault::Output),
    }
}

/// How many lines the input has, or how many of them are events.
fn counted(rt: &HostRuntime, task: Task) -> Result<u64, BenchFault> {
    let alloc = rt.alloc();
    let mut framer = Framer::new(alloc, LIMIT);
    let mut lines = LineList::new(alloc);
    let mut room = [0u8; PIECE];
    let mut count: u64 = 0;
    for _ in 0..u64::MAX {
        let piece = take(rt, &mut room)?;
        if piece.is_empty() {
            framer.finish(0, &mut lines)?;
        } else {
            framer.feed(0, piece, &mut lines)?;
        }
        let more = match task {
            Task::Read => count_events(alloc, &lines)?,
            _ => lines.len(),
        };
        count = count.saturating_add(more as u64);
        lines.truncate(0);
        if piece.is_empty() {
            break;
        }
    }
    Ok(count)
}

/// Copies the lines of the input that are events.
fn copy(rt: &HostRuntime) -> Result<(), BenchFault> {
    let alloc = rt.alloc();
    let mut framer = Framer::new(alloc, LIMIT);
    let mut lines = LineList::new(alloc);
    let mut out = Bytes::new(alloc);
    let mut room = [0u8; PIECE];
    for _ in 0..u64::MAX {
        let piece = take(rt, &mut room)?;
        if piece.is_empty() {
            framer.finish(0, &mut lines)?;
        } else {
            framer.feed(0, piece, &mut lines)?;
        }
        out.clear();
        copy_lines(alloc, &lines, &mut out)?;
        give(rt, out.as_slice())?;
        lines.truncate(0);
        if piece.is_empty() {
            break;
        }
    }
    Ok(())
}

/// How many fields the event has that the whole input is.
fn fields_of_all(rt: &HostRuntime) -> Result<u64, BenchFault> {
    let alloc = rt.alloc();
    let mut text = Bytes::new(alloc);
    let mut room = [0u8; PIECE];
    for _ in 0..u64::MAX {
        let piece = take(rt, &mut room)?;
        if piece.is_empty() {
            break;
        }
        text.push_slice(piece)?;
    }
    match read(alloc, text.as_slice()) {
        Ok(event) => Ok(event.fields.len() as u64),
        Err(JsonFault::WantOfMemory) => Err(BenchFault::WantOfMemory),
        Err(fault) => Err(BenchFault::Refused(fault)),
    }
}
