//! Runs in which a confirm or the end of an attempt fails.

use crate::runs::{EMPTY, Run, WITHOUT_RETRIES, runs};
use std::test::Fail;
use vx_ends::Act;
use vx_fixtures::Play;

/// A source whose only confirm fails.
const UNCONFIRMED: Run = Run {
    steps: &[Play::Piece(0, "a\n")],
    source: &[Act::Pass, Act::Fail],
    status: 74,
    printed: "vector: source in could not be confirmed\n",
    shown: "source in read=2 lines=1 overlong=0 undecodable=0 events=1 unread=0 batches=1 delivered=1 errored=0 rejected=0 confirmed=0
sink out taken=1 newest=0 attempts=1 delivered=1 errored=0 rejected=0 bytes=2
",
    given: &["", "a\n"],
    ..EMPTY
};

#[test]
fn a_failed_confirm_is_told(rt: HostRuntime) -> Result<(), Fail> {
    runs(&rt, rt.alloc(), &UNCONFIRMED)
}

/// The same, of a source that fails behind that: this is told, and not the confirm.
const LOST: Run = Run {
    steps: &[Play::Piece(0, "a\n"), Play::Fail],
    status: 69,
    printed: "vector: source in failed after 2 bytes\n",
    ..UNCONFIRMED
};

#[test]
fn a_lost_source_is_told_before_its_confirm(rt: HostRuntime) -> Result<(), Fail> {
    runs(&rt, rt.alloc(), &LOST)
}

/// A confirm that fails, and a later one that makes up for it.
const CONFIRMED_LATER: Run = Run {
    text: "acknowledgements = true
sources.in = { type = 'stdin' }
sinks.out = { type = 'console', inputs = ['in'], encoding.codec = 'text' }
",
    steps: &[Play::Piece(0, "a\n"), Play::Piece(0, "b\n")],
    source: &[Act::Pass, Act::Fail],
    shown: "source in read=4 lines=2 overlong=0 undecodable=0 events=2 unread=0 batches=2 delivered=2 errored=0 rejected=0 confirmed=4
sink out taken=2 newest=0 attempts=2 delivered=2 errored=0 rejected=0 bytes=4
",
    given: &["", "a\nb\n"],
    ..EMPTY
};

#[test]
fn a_later_confirm_makes_up_for_one(rt: HostRuntime) -> Result<(), Fail> {
    runs(&rt, rt.alloc(), &CONFIRMED_LATER)
}

/// A sink that fails when it is to finish: its line may be written, and counts as an error.
const NOT_FINISHED: Run = Run {
    text: WITHOUT_RETRIES,
    steps: &[Play::Piece(0, "a\n")],
    acts: &[Act::Pass, Act::Pass, Act::Fail],
    shown: "source in read=2 lines=1 overlong=0 undecodable=0 events=1 unread=0 batches=1 delivered=0 errored=1 rejected=0 confirmed=2
sink out taken=1 newest=0 attempts=1 delivered=0 errored=1 rejected=0 bytes=2
",
    given: &["", "a\n"],
    ..EMPTY
};

#[test]
fn a_failed_finish_is_an_error_of_its_batch(rt: HostRuntime) -> Result<(), Fail> {
    runs(&rt, rt.alloc(), &NOT_FINISHED)
}
