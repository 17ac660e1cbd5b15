//! Whole runs through transforms that merge events.

use crate::runs::{EMPTY, Run, given, played, runs};
use std::alloc::Global;
use std::process::Abort;
use std::sync::Wait;
use std::test::Fail;
use vx_ends::{Act, Step, StepList};
use vx_fixtures::{Play, add};
use vx_value::Bytes;

/// A reduce of one group, and a console that makes no failed attempt again.
const ONE_GROUP: &str = "sources.in = { type = 'stdin' }
transforms.r = { type = 'reduce', inputs = ['in'] }
sinks.out = { type = 'console', inputs = ['r'], encoding.codec = 'text', request.retry_attempts = 0 }
";

/// Two lines of two batches that become one event, which the console can't write: both batches are errored.
const JOINED: Run = Run {
    text: ONE_GROUP,
    steps: &[Play::Piece(0, "a\n"), Play::Piece(0, "b\n")],
    acts: &[Act::Fail],
    shown: "source in read=4 lines=2 overlong=0 undecodable=0 events=2 unread=0 batches=2 delivered=0 errored=2 rejected=0 confirmed=4
transform r taken=2 sent=1 dropped=0 unread=0
sink out taken=1 newest=0 attempts=1 delivered=0 errored=1 rejected=0 bytes=0
",
    given: &["", "", ""],
    ..EMPTY
};

#[test]
fn reduce_joins_two_batches(rt: HostRuntime) -> Result<(), Fail> {
    runs(&rt, rt.alloc(), &JOINED)
}

/// The same, written: the event has the first message, and both batches are delivered.
const JOINED_WELL: Run = Run {
    acts: &[],
    shown: "source in read=4 lines=2 overlong=0 undecodable=0 events=2 unread=0 batches=2 delivered=2 errored=0 rejected=0 confirmed=4
transform r taken=2 sent=1 dropped=0 unread=0
sink out taken=1 newest=0 attempts=1 delivered=1 errored=0 rejected=0 bytes=2
",
    given: &["", "", "a\n"],
    ..JOINED
};

#[test]
fn a_joined_event_has_the_first_message(rt: HostRuntime) -> Result<(), Fail> {
    runs(&rt, rt.alloc(), &JOINED_WELL)
}

/// Two events of one key, of which the second ends the group.
const ENDED_GROUP: Run = Run {
    text: "sources.in = { type = 'stdin', decoding.codec = 'json' }
transforms.r = { type = 'reduce', inputs = ['in'], group_by = ['id'], ends_when = 'exists(.last)' }
sinks.out = { type = 'console', inputs = ['r'], encoding.codec = 'json' }
",
    steps: &[Play::Piece(
        0,
        "{\"id\":1,\"n\":2,\"t\":\"p\"}\n{\"id\":1,\"n\":3,\"t\":\"q\",\"last\":true}\n",
    )],
    shown: "source in read=58 lines=2 overlong=0 undecodable=0 events=2 unread=0 batches=1 delivered=1 errored=0 rejected=0 confirmed=58
transform r taken=2 sent=1 dropped=0 unread=0
sink out taken=1 newest=0 attempts=1 delivered=1 errored=0 rejected=0 bytes=57
",
    given: &[
        "",
        "",
        "{\"id\":1,\"last\":true,\"n\":5,\"source_type\":\"stdin\",\"t\":\"p\"}\n",
    ],
    ..EMPTY
};

#[test]
fn reduce_with_ends_when(rt: HostRuntime) -> Result<(), Fail> {
    runs(&rt, rt.alloc(), &ENDED_GROUP)
}

/// Lines that begin with a blank belong to the line before them. What stands in front of the first such line is a group too, and the
/// last group comes with the end of the input.
const TRACES: Run = Run {
    text: "sources.in = { type = 'stdin' }
transforms.r = { type = 'reduce', inputs = ['in'], starts_when = \"match(.message, r'^[^ ]')\", merge_strategies.message = 'concat_newline' }
sinks.out = { type = 'console', inputs = ['r'], encoding.codec = 'json' }
",
    steps: &[
        Play::Piece(0, " at c\nboom\n at a\n"),
        Play::Piece(0, " at b\nwell\n"),
    ],
    shown: "source in read=28 lines=5 overlong=0 undecodable=0 events=5 unread=0 batches=2 delivered=2 errored=0 rejected=0 confirmed=28
transform r taken=5 sent=3 dropped=0 unread=0
sink out taken=3 newest=0 attempts=3 delivered=3 errored=0 rejected=0 bytes=138
",
    given: &[
        "",
        "",
        "{\"message\":\" at c\",\"source_type\":\"stdin\"}
{\"message\":\"boom\\n at a\\n at b\",\"source_type\":\"stdin\"}
{\"message\":\"well\",\"source_type\":\"stdin\"}
",
    ],
    ..EMPTY
};

#[test]
fn traces_are_joined(rt: HostRuntime) -> Result<(), Fail> {
    runs(&rt, rt.alloc(), &TRACES)
}

/// A group expires a tenth of a second behind its last event, and there is a check each twentieth.
const EXPIRING: &str = "sources.in = { type = 'stdin' }
transforms.r = { type = 'reduce', inputs = ['in'], expire_after_ms = 100, flush_period_ms = 50, merge_strategies.message = 'concat' }
sinks.out = { type = 'console', inputs = ['r'], encoding.codec = 'text' }
";

/// Two lines with a fifth of a second between them: the first is put out before the second comes.
const EXPIRED: Run = Run {
    text: EXPIRING,
    steps: &[
        Play::Piece(0, "a\n"),
        Play::Idle,
        Play::Idle,
        Play::Idle,
        Play::Idle,
        Play::Idle,
        Play::Idle,
        Play::Idle,
        Play::Idle,
        Play::Idle,
        Play::Idle,
        Play::Piece(0, "b\n"),
    ],
    lasted: 200,
    shown: "source in read=4 lines=2 overlong=0 undecodable=0 events=2 unread=0 batches=2 delivered=2 errored=0 rejected=0 confirmed=4
transform r taken=2 sent=2 dropped=0 unread=0
sink out taken=2 newest=0 attempts=2 delivered=2 errored=0 rejected=0 bytes=4
",
    given: &["", "", "a\nb\n"],
    ..EMPTY
};

#[test]
fn a_group_expires(rt: HostRuntime) -> Result<(), Fail> {
    runs(&rt, rt.alloc(), &EXPIRED)
}

/// Three lines, each eight hundredths of a second behind the one before: each keeps the group for another tenth.
const REFRESHED: Run = Run {
    steps: &[
        Play::Piece(0, "a\n"),
        Play::Idle,
        Play::Idle,
        Play::Idle,
        Play::Idle,
        Play::Piece(0, "b\n"),
        Play::Idle,
        Play::Idle,
        Play::Idle,
        Play::Idle,
        Play::Piece(0, "c\n"),
    ],
    lasted: 160,
    shown: "source in read=6 lines=3 overlong=0 undecodable=0 events=3 unread=0 batches=3 delivered=3 errored=0 rejected=0 confirmed=6
transform r taken=3 sent=1 dropped=0 unread=0
sink out taken=1 newest=0 attempts=1 delivered=1 errored=0 rejected=0 bytes=6
",
    given: &["", "", "a b c\n"],
    ..EXPIRED
};

#[test]
fn an_event_keeps_its_group(rt: HostRuntime) -> Result<(), Fail> {
    runs(&rt, rt.alloc(), &REFRESHED)
}

/// Three reduces behind each other, by two names, by one and by none: at the end each puts out what it holds once nothing more can
/// come to it.
const THREE_LAYERS: Run = Run {
    text: "sources.in = { type = 'stdin', decoding.codec = 'json' }
transforms.by_id = { type = 'reduce', inputs = ['in'], group_by = ['id', 'k'] }
transforms.by_kind = { type = 'reduce', inputs = ['by_id'], group_by = ['k'], merge_strategies.id = 'array' }
transforms.whole = { type = 'reduce', inputs = ['by_kind'], merge_strategies.id = 'array', merge_strategies.k = 'concat' }
sinks.out = { type = 'console', inputs = ['whole'], encoding.codec = 'json' }
",
    steps: &[
        Play::Piece(
            0,
            "{\"id\":1,\"k\":\"p\",\"n\":1}\n{\"id\":2,\"k\":\"p\",\"n\":2}\n",
        ),
        Play::Piece(
            0,
            "{\"id\":3,\"k\":\"q\",\"n\":8}\n{\"id\":1,\"k\":\"p\",\"n\":4}\n",
        ),
    ],
    shown: "source in read=92 lines=4 overlong=0 undecodable=0 events=4 unread=0 batches=2 delivered=2 errored=0 rejected=0 confirmed=92
transform by_id taken=4 sent=3 dropped=0 unread=0
transform by_kind taken=3 sent=2 dropped=0 unread=0
transform whole taken=2 sent=1 dropped=0 unread=0
sink out taken=1 newest=0 attempts=1 delivered=1 errored=0 rejected=0 bytes=58
",
    given: &[
        "",
        "",
        "",
        "",
        "{\"id\":[[1,2],[3]],\"k\":\"p q\",\"n\":15,\"source_type\":\"stdin\"}\n",
    ],
    ..EMPTY
};

#[test]
fn three_layers_are_flushed(rt: HostRuntime) -> Result<(), Fail> {
    runs(&rt, rt.alloc(), &THREE_LAYERS)
}

/// A reduce behind one way of a route, and a dedupe behind it, which drops the second group: it has the sum of the first.
const BETWEEN: Run = Run {
    text: "sources.in = { type = 'stdin', decoding.codec = 'json' }
transforms.by_level = { type = 'route', inputs = ['in'], reroute_unmatched = false, route.errors = '.l == \"e\"' }
transforms.sums = { type = 'reduce', inputs = ['by_level.errors'], group_by = ['id'] }
transforms.unlike = { type = 'dedupe', inputs = ['sums'], fields.match = ['n'] }
sinks.out = { type = 'console', inputs = ['unlike'], encoding.codec = 'json' }
",
    steps: &[
        Play::Piece(
            0,
            "{\"id\":1,\"l\":\"e\",\"n\":1}\n{\"id\":2,\"l\":\"e\",\"n\":1}\n{\"id\":1,\"l\":\"i\",\"n\":9}\n",
        ),
        Play::Piece(
            0,
            "{\"id\":1,\"l\":\"e\",\"n\":2}\n{\"id\":2,\"l\":\"e\",\"n\":2}\n{\"id\":3,\"l\":\"e\",\"n\":4}\n",
        ),
    ],
    shown: "source in read=138 lines=6 overlong=0 undecodable=0 events=6 unread=0 batches=2 delivered=2 errored=0 rejected=0 confirmed=138
transform by_level taken=6 sent=5 dropped=1 unread=0
transform sums taken=5 sent=3 dropped=0 unread=0
transform unlike taken=3 sent=2 dropped=1 unread=0
sink out taken=2 newest=0 attempts=2 delivered=2 errored=0 rejected=0 bytes=90
",
    given: &[
        "",
        "",
        "",
        "",
        "{\"id\":1,\"l\":\"e\",\"n\":3,\"source_type\":\"stdin\"}
{\"id\":3,\"l\":\"e\",\"n\":4,\"source_type\":\"stdin\"}
",
    ],
    ..EMPTY
};

#[test]
fn a_reduce_behind_a_route_and_before_a_dedupe(rt: HostRuntime) -> Result<(), Fail> {
    runs(&rt, rt.alloc(), &BETWEEN)
}

/// All lines become one event. One line in ten thousand goes to a console of its own too, which can't write it: of the hundred
/// batches that one is errored, and only those before it are confirmed.
const ONE_FAILS: Run = Run {
    text: "acknowledgements = true
sources.in = { type = 'stdin', decoding.codec = 'json' }
transforms.marked = { type = 'filter', inputs = ['in'], condition = 'exists(.bad)' }
transforms.sum = { type = 'reduce', inputs = ['in'] }
sinks.failing = { type = 'console', target = 'stderr', inputs = ['marked'], encoding.codec = 'json', request.retry_attempts = 0 }
sinks.out = { type = 'console', inputs = ['sum'], encoding.codec = 'json' }
",
    sink: "failing",
    acts: &[Act::Fail],
    shown: "source in read=80011 lines=10000 overlong=0 undecodable=0 events=10000 unread=0 batches=100 delivered=99 errored=1 rejected=0 confirmed=32800
transform marked taken=10000 sent=1 dropped=9999 unread=0
transform sum taken=10000 sent=1 dropped=0 unread=0
sink failing taken=1 newest=0 attempts=1 delivered=0 errored=1 rejected=0 bytes=0
sink out taken=1 newest=0 attempts=1 delivered=1 errored=0 rejected=0 bytes=45
",
    ..EMPTY
};

/// The same lines, of which the one event that they become can't be written: each batch is errored, and none is confirmed.
const ALL_FAIL: Run = Run {
    text: "acknowledgements = true
sources.in = { type = 'stdin', decoding.codec = 'json' }
transforms.sum = { type = 'reduce', inputs = ['in'] }
sinks.out = { type = 'console', inputs = ['sum'], encoding.codec = 'json', request.retry_attempts = 0 }
",
    acts: &[Act::Fail],
    shown: "source in read=80011 lines=10000 overlong=0 undecodable=0 events=10000 unread=0 batches=100 delivered=0 errored=100 rejected=0 confirmed=0
transform sum taken=10000 sent=1 dropped=0 unread=0
sink out taken=1 newest=0 attempts=1 delivered=0 errored=1 rejected=0 bytes=0
",
    ..EMPTY
};

/// Which of the hundred pieces has the marked line.
const MARKED: usize = 41;

/// A hundred lines, of which the first may be marked.
fn hundred_lines(alloc: Global, is_marked: bool) -> Result<Bytes, Fail> {
    let mut bytes = Bytes::new(alloc);
    if is_marked {
        bytes.push_slice(b"{\"n\":1,\"bad\":true}\n")?;
    } else {
        bytes.push_slice(b"{\"n\":1}\n")?;
    }
    for _ in 1..100 {
        bytes.push_slice(b"{\"n\":1}\n")?;
    }
    Ok(bytes)
}

/// The step of a source that gives them.
fn step_of(alloc: Global, is_marked: bool) -> Result<Step, Fail> {
    let bytes = hundred_lines(alloc, is_marked)?;
    Ok(Step::Bytes { stream: 0, bytes })
}

/// The steps of a source that gives a hundred such pieces.
fn hundred_pieces(alloc: Global) -> Result<StepList, Fail> {
    let mut steps = StepList::new(alloc);
    for k in 0..100 {
        add(&mut steps, step_of(alloc, k == MARKED)?)?;
    }
    Ok(steps)
}

/// Does a run of these pieces, and checks what the port of an instance was given.
fn gives<R: Wait + Abort>(
    rt: &R,
    alloc: Global,
    run: &Run,
    instance: usize,
    wanted: &str,
) -> Result<(), Fail> {
    let ended = played(rt, alloc, run, hundred_pieces(alloc)?)?;
    assert!(rt; given(&ended, instance) == wanted.as_bytes());
    Ok(())
}

#[test]
fn one_of_a_hundred_batches_fails(rt: HostRuntime) -> Result<(), Fail> {
    let wanted = "{\"bad\":true,\"n\":10000,\"source_type\":\"stdin\"}\n";
    gives(&rt, rt.alloc(), &ONE_FAILS, 4, wanted)
}

#[test]
fn a_group_of_a_hundred_batches_fails(rt: HostRuntime) -> Result<(), Fail> {
    gives(&rt, rt.alloc(), &ALL_FAIL, 2, "")
}
