//! Runs on JSON, and on lines as long as may be.

use crate::runs::{EMPTY, Run, given, played, runs};
use std::alloc::Global;
use std::process::Abort;
use std::sync::Wait;
use std::test::Fail;
use vx_ends::{Step, StepList};
use vx_fixtures::{Play, add};
use vx_value::Bytes;

/// An object whose fields come in another order, read as JSON and written so.
const ONE_OBJECT: Run = Run {
    text: "sources.in = { type = 'stdin', decoding.codec = 'json' }
sinks.out = { type = 'console', inputs = ['in'], encoding.codec = 'json' }
",
    steps: &[Play::Piece(0, "{\"n\":0.25,\"b\":1,\"a\":null}\n")],
    shown: "source in read=26 lines=1 overlong=0 undecodable=0 events=1 unread=0 batches=1 delivered=1 errored=0 rejected=0 confirmed=26
sink out taken=1 newest=0 attempts=1 delivered=1 errored=0 rejected=0 bytes=48
",
    given: &[
        "",
        "{\"a\":null,\"b\":1,\"n\":0.25,\"source_type\":\"stdin\"}\n",
    ],
    ..EMPTY
};

#[test]
fn json_in_and_out(rt: HostRuntime) -> Result<(), Fail> {
    runs(&rt, rt.alloc(), &ONE_OBJECT)
}

/// A line of 102,400 bytes, and one of a byte more.
const AT_THE_LIMIT: Run = Run {
    shown: "source in read=204803 lines=1 overlong=1 undecodable=0 events=1 unread=0 batches=1 delivered=1 errored=0 rejected=0 confirmed=102401
sink out taken=1 newest=0 attempts=1 delivered=1 errored=0 rejected=0 bytes=102401
",
    ..EMPTY
};

/// A line of so many bytes.
fn line_of(alloc: Global, length: usize) -> Result<Bytes, Fail> {
    let line = vec![in alloc; b'x'; length]?;
    let mut bytes = Bytes::copy_of(alloc, line.as_slice())?;
    bytes.push_slice(b"\n")?;
    Ok(bytes)
}

/// The step of a source that gives a line of so many bytes.
fn step_of(alloc: Global, length: usize) -> Result<Step, Fail> {
    let bytes = line_of(alloc, length)?;
    Ok(Step::Bytes { stream: 0, bytes })
}

/// The steps of a source that gives both lines.
fn both_lines(alloc: Global) -> Result<StepList, Fail> {
    let mut steps = StepList::new(alloc);
    add(&mut steps, step_of(alloc, 102_400)?)?;
    add(&mut steps, step_of(alloc, 102_401)?)?;
    Ok(steps)
}

/// Does that run, and checks what the console was given.
fn gives_one<R: Wait + Abort>(rt: &R, alloc: Global) -> Result<(), Fail> {
    let ended = played(rt, alloc, &AT_THE_LIMIT, both_lines(alloc)?)?;
    let line = line_of(alloc, 102_400)?;
    assert!(rt; given(&ended, 1) == line.as_slice());
    Ok(())
}

#[test]
fn line_limit(rt: HostRuntime) -> Result<(), Fail> {
    gives_one(&rt, rt.alloc())
}
