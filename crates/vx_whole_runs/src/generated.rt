//! Whole runs of generated lines, and into black holes.

use crate::runs::{EMPTY, Run, runs};
use std::test::Fail;

/// A hundred thousand generated lines, 64 at a time, parted by a route, and taken by two black holes. Of the generator's
/// words, as another program makes them, so many choose each line.
const ROUTED: Run = Run {
    text: "sources.in = { type = 'demo_logs', format = 'shuffle', seed = 7, count = 100000, lines = ['a', 'b', 'c'], interval = 0 }
transforms.r = { type = 'route', inputs = ['in'], reroute_unmatched = false, route.a = '.message == \"a\"', route.b = '.message == \"b\"' }
sinks.sa = { type = 'blackhole', inputs = ['r.a'] }
sinks.sb = { type = 'blackhole', inputs = ['r.b'] }
",
    shown: "source in read=200000 lines=100000 overlong=0 undecodable=0 events=100000 unread=0 batches=1563 delivered=1563 errored=0 rejected=0 confirmed=0
transform r taken=100000 sent=66680 dropped=33320 unread=0
sink sa taken=33298 newest=0 attempts=33298 delivered=33298 errored=0 rejected=0 bytes=0
sink sb taken=33382 newest=0 attempts=33382 delivered=33382 errored=0 rejected=0 bytes=0
",
    given: &["", "", "", ""],
    ..EMPTY
};

#[test]
fn demo_logs_routed(rt: HostRuntime) -> Result<(), Fail> {
    runs(&rt, rt.alloc(), &ROUTED)
}

/// A generated line that nobody reads, beside a source and a console.
const UNREAD: Run = Run {
    text: "sources.in = { type = 'stdin' }
sources.u = { type = 'demo_logs', format = 'shuffle', count = 1, interval = 0, lines = ['q'] }
sinks.out = { type = 'console', inputs = ['in'], encoding.codec = 'text' }
",
    shown: "source in read=0 lines=0 overlong=0 undecodable=0 events=0 unread=0 batches=0 delivered=0 errored=0 rejected=0 confirmed=0
source u read=2 lines=1 overlong=0 undecodable=0 events=1 unread=1 batches=1 delivered=1 errored=0 rejected=0 confirmed=0
sink out taken=0 newest=0 attempts=0 delivered=0 errored=0 rejected=0 bytes=0
",
    given: &["", "", ""],
    ..EMPTY
};

#[test]
fn unread_source(rt: HostRuntime) -> Result<(), Fail> {
    runs(&rt, rt.alloc(), &UNREAD)
}
