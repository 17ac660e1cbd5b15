//! A whole run through a buffer that drops what comes.

use crate::runs::{EMPTY, Run, runs};
use std::test::Fail;
use vx_fixtures::Play;

/// A console whose buffer has room for one event, and drops what comes where that is taken: the first event is written,
/// and the two behind it are dropped.
const DROPPING: Run = Run {
    text: "sources.in = { type = 'stdin' }
sinks.out = { type = 'console', inputs = ['in'], encoding.codec = 'text', buffer = { max_events = 1, when_full = 'drop_newest' } }
",
    steps: &[Play::Piece(0, "a\nb\nc\n")],
    shown: "source in read=6 lines=3 overlong=0 undecodable=0 events=3 unread=0 batches=1 delivered=1 errored=0 rejected=0 confirmed=6
sink out taken=1 newest=2 attempts=1 delivered=1 errored=0 rejected=0 bytes=2
",
    given: &["", "a\n"],
    ..EMPTY
};

#[test]
fn chain_of_one_drops_newest(rt: HostRuntime) -> Result<(), Fail> {
    runs(&rt, rt.alloc(), &DROPPING)
}
