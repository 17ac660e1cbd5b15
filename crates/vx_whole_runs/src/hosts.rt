//! Whole runs through transforms that the program hands in.

use crate::runs::{EMPTY, Run, played_by, runs, were_given};
use std::alloc::Global;
use std::process::Abort;
use std::sync::Wait;
use std::test::Fail;
use vx_fixtures::{Play, steps};
use vx_keeping::{HostList, HostTransform, Hosted, Numbering};
use vx_value::Text;

/// A console behind a transform that is handed in.
const HANDED_IN: &str = "sources.in = { type = 'stdin' }
transforms.numbering = { type = 'host', inputs = ['in'] }
sinks.out = { type = 'console', inputs = ['numbering'], encoding.codec = 'json' }
";

/// A run through a numbering of two lines.
const NUMBERED: Run = Run {
    text: HANDED_IN,
    steps: &[Play::Piece(0, "a\nb\n")],
    shown: "source in read=4 lines=2 overlong=0 undecodable=0 events=2 unread=0 batches=1 delivered=1 errored=0 rejected=0 confirmed=4
transform numbering taken=2 sent=2 dropped=0 unread=0
sink out taken=2 newest=0 attempts=2 delivered=2 errored=0 rejected=0 bytes=98
",
    given: &[
        "",
        "",
        "{\"message\":\"a\",\"number\":0,\"source_type\":\"stdin\"}\n{\"message\":\"b\",\"number\":1,\"source_type\":\"stdin\"}\n",
    ],
    ..EMPTY
};

/// The same text, where no such transform is handed in.
const UNKNOWN: Run = Run {
    text: HANDED_IN,
    status: 78,
    printed: "vector: no host transform numbering\n",
    shown: "",
    given: &[],
    ..EMPTY
};

/// The same, where one that is handed in stands behind another: each numbers what it is given by itself.
const NUMBERED_TWICE: Run = Run {
    text: "sources.in = { type = 'stdin' }
transforms.first = { type = 'host', inputs = ['in'] }
transforms.second = { type = 'host', inputs = ['first'] }
sinks.out = { type = 'console', inputs = ['second'], encoding.codec = 'json' }
",
    shown: "source in read=4 lines=2 overlong=0 undecodable=0 events=2 unread=0 batches=1 delivered=1 errored=0 rejected=0 confirmed=4
transform first taken=2 sent=2 dropped=0 unread=0
transform second taken=2 sent=2 dropped=0 unread=0
sink out taken=2 newest=0 attempts=2 delivered=2 errored=0 rejected=0 bytes=98
",
    given: &[
        "",
        "",
        "",
        "{\"message\":\"a\",\"number\":0,\"source_type\":\"stdin\"}\n{\"message\":\"b\",\"number\":1,\"source_type\":\"stdin\"}\n",
    ],
    ..NUMBERED
};

// A numbering for the component of a name.
fn numbering(alloc: Global, name: &str) -> Result<HostTransform, Fail> {
    let name = Text::copy_of(alloc, name)?;
    let numbering = Box::new(alloc, Hosted::new(Numbering::new()))?;
    Ok(HostTransform::new(name, numbering))
}

// Does a run where numberings of these names are handed in, and checks all that must come of it.
fn runs_numbering<R: Wait + Abort>(
    rt: &R,
    alloc: Global,
    run: &Run,
    names: &[&str],
) -> Result<(), Fail> {
    let mut hosts = HostList::new(alloc);
    for name in names {
        hosts.push(numbering(alloc, *name)?)?;
    }
    let ended = played_by(rt, alloc, run, steps(alloc, run.steps)?, hosts)?;
    were_given(rt, &ended, run.given);
    Ok(())
}

#[test]
fn host_numbering(rt: HostRuntime) -> Result<(), Fail> {
    runs_numbering(&rt, rt.alloc(), &NUMBERED, &["numbering"])
}

#[test]
fn host_behind_another(rt: HostRuntime) -> Result<(), Fail> {
    runs_numbering(&rt, rt.alloc(), &NUMBERED_TWICE, &["second", "first"])
}

#[test]
fn host_that_is_not_handed_in(rt: HostRuntime) -> Result<(), Fail> {
    runs(&rt, rt.alloc(), &UNKNOWN)
}
