//! Runs of two consoles.

use crate::runs::{EMPTY, Run, runs};
use std::test::Fail;
use vx_ends::Act;
use vx_fixtures::Play;

/// A line for two consoles that acknowledge, which the first refuses when it is to finish.
const REFUSED_BY_ONE: Run = Run {
    text: "acknowledgements = true
sources.in = { type = 'stdin' }
sinks.s1 = { type = 'console', inputs = ['in'], encoding.codec = 'text' }
sinks.s2 = { type = 'console', target = 'stderr', inputs = ['i*'], encoding.codec = 'text' }
",
    steps: &[Play::Piece(0, "a\n")],
    sink: "s1",
    acts: &[Act::Pass, Act::Pass, Act::Refuse],
    shown: "source in read=2 lines=1 overlong=0 undecodable=0 events=1 unread=0 batches=1 delivered=0 errored=0 rejected=1 confirmed=0
sink s1 taken=1 newest=0 attempts=1 delivered=0 errored=0 rejected=1 bytes=2
sink s2 taken=1 newest=0 attempts=1 delivered=1 errored=0 rejected=0 bytes=2
",
    given: &["", "a\n", "a\n"],
    ..EMPTY
};

#[test]
fn refused_by_one_of_two_sinks(rt: HostRuntime) -> Result<(), Fail> {
    runs(&rt, rt.alloc(), &REFUSED_BY_ONE)
}
