//! A source that is read to its end, turn by turn.

use std::alloc::Global;
use std::process::Abort;
use std::test::Fail;
use vx_ends::{ActList, MemoryPort, Port, Step, StepList};
use vx_json::Decoding;
use vx_sourcecore::{Cut, NewLines, SourceCore, Turned};
use vx_value::{Bytes, Text, WantOfMemory};

/// Adds a step.
fn add(steps: &mut StepList, step: Step) -> Result<(), WantOfMemory> {
    match steps.push(step) {
        Ok(()) => Ok(()),
        Err(_) => Err(WantOfMemory),
    }
}

/// A port with two short lines, one of ten bytes and an unfinished one, then nothing, a failure and both ends.
fn port(alloc: Global) -> Result<MemoryPort, Fail> {
    let mut steps = StepList::new(alloc);
    add(
        &mut steps,
        Step::Bytes {
            stream: 7,
            bytes: Bytes::copy_of(alloc, b"{}\n[]\n0123456789\n{}")?,
        },
    )?;
    add(&mut steps, Step::Idle)?;
    add(&mut steps, Step::Fail)?;
    add(&mut steps, Step::StreamEnded(7))?;
    add(&mut steps, Step::AllEnded)?;
    Ok(MemoryPort::new(alloc, steps, ActList::new(alloc)))
}

/// What a turn brought: its kind, its stream and its bytes, and of its lines the number of their events, their end and
/// their counts.
#[derive(Clone, Copy, PartialEq)]
struct Came {
    kind: &'static str,
    stream: u64,
    bytes: u32,
    lines: Option<(usize, u64, NewLines)>,
}

/// A turn that brought nothing.
const IDLE: Came = Came {
    kind: "nothing",
    stream: 0,
    bytes: 0,
    lines: None,
};

/// A turn at which the port failed.
const FAULT: Came = Came {
    kind: "a fault",
    ..IDLE
};

/// What is told of lines.
fn lines_of(cut: &Option<Cut>) -> Option<(usize, u64, NewLines)> {
    let cut = cut.as_ref()?;
    Some((cut.events.len(), cut.end, cut.new))
}

/// What is told of a turn.
fn observed_of(turned: &Turned) -> Came {
    match turned {
        Turned::Lines { stream, n, cut, .. } => Came {
            kind: "lines",
            stream: *stream,
            bytes: *n,
            lines: lines_of(cut),
        },
        Turned::StreamEnded { stream, cut } => Came {
            stream: *stream,
            lines: lines_of(cut),
            kind: "the end of a stream",
            ..IDLE
        },
        Turned::AllEnded { cut, .. } => Came {
            lines: lines_of(cut),
            kind: "the end of all",
            ..IDLE
        },
        Turned::Idle => IDLE,
        Turned::Failed { at_start: false } => FAULT,
        Turned::Failed { at_start: true } => Came {
            kind: "no start",
            ..IDLE
        },
    }
}

/// Makes a turn, and checks what it brings.
fn turns<P: Port>(
    rt: &impl Abort,
    core: &mut SourceCore,
    port: &mut P,
    want: &Came,
) -> Result<(), Fail> {
    let turned = core.turn(port)?;
    assert!(rt; observed_of(&turned) == *want);
    Ok(())
}

/// The lines of the first turn: one gives an event, one doesn't, and one is too long.
const READ: Came = Came {
    kind: "lines",
    stream: 7,
    bytes: 19,
    lines: Some((
        1,
        6,
        NewLines {
            lines: 2,
            overlong: 1,
            undecodable: 1,
        },
    )),
};

/// The line that the stream's end completes.
const ENDED: Came = Came {
    kind: "the end of a stream",
    stream: 7,
    bytes: 0,
    lines: Some((
        1,
        19,
        NewLines {
            lines: 1,
            overlong: 0,
            undecodable: 0,
        },
    )),
};

/// Nothing is left at the end of all.
const ENDED_ALL: Came = Came {
    kind: "the end of all",
    stream: 0,
    bytes: 0,
    lines: Some((
        0,
        0,
        NewLines {
            lines: 0,
            overlong: 0,
            undecodable: 0,
        },
    )),
};

/// What the turns bring, one after the other.
const TURNS: &[Came] = &[READ, IDLE, FAULT, ENDED, ENDED_ALL];

/// A source that reads events of a file, in lines of at most five bytes.
fn core(alloc: Global) -> Result<SourceCore, WantOfMemory> {
    let source_type = Text::copy_of(alloc, "file")?;
    let file = Text::copy_of(alloc, "app.log")?;
    SourceCore::new(alloc, 5, Decoding::Json, source_type, Some(file))
}

#[test]
fn a_source_turns(rt: HostRuntime) -> Result<(), Fail> {
    let mut port = port(rt.alloc())?;
    let mut core = core(rt.alloc())?;
    for want in TURNS {
        turns(&rt, &mut core, &mut port, want)?;
    }
    Ok(())
}

#[test]
fn a_port_that_may_not_be_there(rt: HostRuntime) -> Result<(), Fail> {
    let mut none: Option<MemoryPort> = None;
    assert!(rt; none.start().is_err());
    none.close();
    let mut some = Some(port(rt.alloc())?);
    let mut core = core(rt.alloc())?;
    turns(&rt, &mut core, &mut some, &READ)?;
    some.close();
    Ok(())
}
