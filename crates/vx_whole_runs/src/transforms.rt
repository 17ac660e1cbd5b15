//! Whole runs through transforms that judge event by event.

use crate::runs::{EMPTY, Run, runs};
use std::test::Fail;
use vx_fixtures::Play;

/// A route by two conditions, with a console for each of its three ports.
const ROUTED: Run = Run {
    text: "sources.in = { type = 'stdin' }
transforms.r = { type = 'route', inputs = ['in'], route.a = 'contains(.message, \"x\")', route.b = 'contains(.message, \"y\")' }
sinks.sa = { type = 'console', inputs = ['r.a'], encoding.codec = 'text' }
sinks.sb = { type = 'console', inputs = ['r.b'], encoding.codec = 'text' }
sinks.su = { type = 'console', inputs = ['r._unmatched'], encoding.codec = 'text' }
",
    steps: &[Play::Piece(0, "xy\nz\n")],
    sink: "sa",
    shown: "source in read=5 lines=2 overlong=0 undecodable=0 events=2 unread=0 batches=1 delivered=1 errored=0 rejected=0 confirmed=5
transform r taken=2 sent=2 dropped=0 unread=0
sink sa taken=1 newest=0 attempts=1 delivered=1 errored=0 rejected=0 bytes=3
sink sb taken=1 newest=0 attempts=1 delivered=1 errored=0 rejected=0 bytes=3
sink su taken=1 newest=0 attempts=1 delivered=1 errored=0 rejected=0 bytes=2
",
    given: &["", "", "xy\n", "xy\n", "z\n"],
    ..EMPTY
};

#[test]
fn route_to_three_sinks(rt: HostRuntime) -> Result<(), Fail> {
    runs(&rt, rt.alloc(), &ROUTED)
}

/// A filter that passes nothing of what comes.
const FILTERED: Run = Run {
    text: "sources.in = { type = 'stdin' }
transforms.f = { type = 'filter', inputs = ['in'], condition = '.message == \"k\"' }
sinks.out = { type = 'console', inputs = ['f'], encoding.codec = 'text' }
",
    steps: &[Play::Piece(0, "a\nb\nc\n")],
    shown: "source in read=6 lines=3 overlong=0 undecodable=0 events=3 unread=0 batches=1 delivered=1 errored=0 rejected=0 confirmed=6
transform f taken=3 sent=0 dropped=3 unread=0
sink out taken=0 newest=0 attempts=0 delivered=0 errored=0 rejected=0 bytes=0
",
    given: &["", "", ""],
    ..EMPTY
};

#[test]
fn filter_drops_all(rt: HostRuntime) -> Result<(), Fail> {
    runs(&rt, rt.alloc(), &FILTERED)
}

/// Two filters that read each other.
const CYCLE: Run = Run {
    text: "sources.s = { type = 'stdin' }
transforms.x = { type = 'filter', inputs = ['y'], condition = 'exists(.message)' }
transforms.y = { type = 'filter', inputs = ['x'], condition = 'exists(.message)' }
sinks.z = { type = 'console', inputs = ['x'], encoding.codec = 'text' }
",
    status: 78,
    printed: "vector: configuration refused: cycle x, y\n",
    shown: "",
    given: &[],
    ..EMPTY
};

#[test]
fn cycle_is_refused(rt: HostRuntime) -> Result<(), Fail> {
    runs(&rt, rt.alloc(), &CYCLE)
}

/// A dedupe that keeps two keys: a repeat is the latest of its key again, and the third key pushes the second out.
const TWO_KEYS: Run = Run {
    text: "sources.in = { type = 'stdin' }
transforms.d = { type = 'dedupe', inputs = ['in'], cache.num_events = 2 }
sinks.out = { type = 'console', inputs = ['d'], encoding.codec = 'text' }
",
    steps: &[Play::Piece(0, "a\nb\na\nc\nb\n")],
    shown: "source in read=10 lines=5 overlong=0 undecodable=0 events=5 unread=0 batches=1 delivered=1 errored=0 rejected=0 confirmed=10
transform d taken=5 sent=4 dropped=1 unread=0
sink out taken=4 newest=0 attempts=4 delivered=4 errored=0 rejected=0 bytes=8
",
    given: &["", "", "a\nb\nc\nb\n"],
    ..EMPTY
};

#[test]
fn dedupe_of_two_keys(rt: HostRuntime) -> Result<(), Fail> {
    runs(&rt, rt.alloc(), &TWO_KEYS)
}

/// A sample of every second line, that passes each `x` uncounted.
const EVERY_SECOND: Run = Run {
    text: "sources.in = { type = 'stdin' }
transforms.s = { type = 'sample', inputs = ['in'], rate = 2, exclude = '.message == \"x\"' }
sinks.out = { type = 'console', inputs = ['s'], encoding.codec = 'text' }
",
    steps: &[Play::Piece(0, "a\nx\nb\nc\n")],
    shown: "source in read=8 lines=4 overlong=0 undecodable=0 events=4 unread=0 batches=1 delivered=1 errored=0 rejected=0 confirmed=8
transform s taken=4 sent=3 dropped=1 unread=0
sink out taken=3 newest=0 attempts=3 delivered=3 errored=0 rejected=0 bytes=6
",
    given: &["", "", "a\nx\nc\n"],
    ..EMPTY
};

#[test]
fn sample_with_exclude(rt: HostRuntime) -> Result<(), Fail> {
    runs(&rt, rt.alloc(), &EVERY_SECOND)
}
