//! Whole runs of sinks that make failed attempts again.

use crate::runs::{EMPTY, Run, runs};
use std::test::Fail;
use vx_ends::Act;
use vx_fixtures::Play;

/// A line of which a console takes three bytes before it fails; then it takes all of it.
const GIVEN_IN_PART: Run = Run {
    steps: &[Play::Piece(0, "abcdefg\n")],
    acts: &[Act::Pass, Act::Part(3), Act::Fail],
    lasted: 1_000,
    shown: "source in read=8 lines=1 overlong=0 undecodable=0 events=1 unread=0 batches=1 delivered=1 errored=0 rejected=0 confirmed=8
sink out taken=1 newest=0 attempts=2 delivered=1 errored=0 rejected=0 bytes=11
",
    given: &["", "abcabcdefg\n"],
    ..EMPTY
};

#[test]
fn partial_give_is_retried(rt: HostRuntime) -> Result<(), Fail> {
    runs(&rt, rt.alloc(), &GIVEN_IN_PART)
}

/// A console that doesn't start, with four attempts behind the first, a second, a second, two and two after each other.
const NEVER_STARTED: Run = Run {
    text: "sources.in = { type = 'stdin' }
sinks.out = { type = 'console', inputs = ['in'], encoding.codec = 'text', request = { retry_attempts = 4, retry_initial_backoff_secs = 1, retry_max_duration_secs = 2 } }
",
    steps: &[Play::Piece(0, "a\n")],
    acts: &[Act::Fail, Act::Fail, Act::Fail, Act::Fail, Act::Fail],
    lasted: 6_000,
    shown: "source in read=2 lines=1 overlong=0 undecodable=0 events=1 unread=0 batches=1 delivered=0 errored=1 rejected=0 confirmed=2
sink out taken=1 newest=0 attempts=5 delivered=0 errored=1 rejected=0 bytes=0
",
    given: &["", ""],
    ..EMPTY
};

#[test]
fn five_failed_starts_of_a_sink(rt: HostRuntime) -> Result<(), Fail> {
    runs(&rt, rt.alloc(), &NEVER_STARTED)
}

/// Two lines at once that are refused: that attempt isn't made again. The third line is written.
const REFUSED: Run = Run {
    text: "sources.in = { type = 'stdin' }
sinks.out = { type = 'console', inputs = ['in'], encoding.codec = 'text', batch.max_events = 2 }
",
    steps: &[Play::Piece(0, "a\nb\nc\n")],
    acts: &[Act::Pass, Act::Refuse],
    shown: "source in read=6 lines=3 overlong=0 undecodable=0 events=3 unread=0 batches=1 delivered=0 errored=0 rejected=1 confirmed=6
sink out taken=3 newest=0 attempts=2 delivered=1 errored=0 rejected=2 bytes=2
",
    given: &["", "c\n"],
    ..EMPTY
};

#[test]
fn a_refused_batch_is_not_tried_again(rt: HostRuntime) -> Result<(), Fail> {
    runs(&rt, rt.alloc(), &REFUSED)
}
