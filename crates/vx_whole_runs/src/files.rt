//! Runs that read files and append to them, between ends in memory, and what their ports are made for.

use crate::runs::{EMPTY, Run, ran};
use std::alloc::Global;
use std::process::Abort;
use std::test::Fail;
use vx_ends::{Act, Form, MemoryWorld, PortSpec, PositionList};
use vx_fixtures::Play;
use vx_plan::Plan;
use vx_reading::read_plan;
use vx_run::Ended;
use vx_value::VariableList;

/// The positions that were confirmed to the source.
fn confirmed(ended: &Ended<MemoryWorld>) -> Option<&PositionList> {
    match &ended.ports.get(0)?.port {
        Some(port) => Some(port.confirmed()),
        None => None,
    }
}

/// Checks that one position was confirmed to the source, of stream 0.
fn confirmed_alone(rt: &impl Abort, ended: &Ended<MemoryWorld>, end: u64) {
    match confirmed(ended) {
        Some(positions) => is_alone(rt, positions, end),
        None => assert!(rt; false, "the source has a port"),
    }
}

/// Checks that a position of stream 0 is the only one.
fn is_alone(rt: &impl Abort, positions: &PositionList, end: u64) {
    assert_eq!(rt; positions.len(), 1);
    if let Some(position) = positions.get(0) {
        assert!(rt; (position.stream, position.end) == (0, end));
    }
}

/// A file, and a console that acknowledges and makes no failed attempt again. Three lines come one by one, of which the second can't be
/// written.
const BEHIND_AN_ERROR: Run = Run {
    text: "sources.in = { type = 'file', include = ['app.log'] }
sinks.out = { type = 'console', inputs = ['in'], encoding.codec = 'text', acknowledgements = true, request.retry_attempts = 0 }
",
    steps: &[
        Play::Piece(0, "a\n"),
        Play::Piece(0, "b\n"),
        Play::Piece(0, "c\n"),
    ],
    acts: &[Act::Pass, Act::Pass, Act::Pass, Act::Fail],
    shown: "source in read=6 lines=3 overlong=0 undecodable=0 events=3 unread=0 batches=3 delivered=2 errored=1 rejected=0 confirmed=2
sink out taken=3 newest=0 attempts=3 delivered=2 errored=1 rejected=0 bytes=4
",
    given: &["", "a\nc\n"],
    ..EMPTY
};

/// What comes behind a failed batch isn't confirmed, though it is delivered.
#[test]
fn confirm_stops_at_an_errored_batch(rt: HostRuntime) -> Result<(), Fail> {
    let ended = ran(&rt, rt.alloc(), &BEHIND_AN_ERROR)?;
    confirmed_alone(&rt, &ended, 2);
    Ok(())
}

/// A file of events, of which those of one level go to a console and to another file.
pub(crate) const REALISTIC_TEXT: &str = "data_dir = \"state\"

[acknowledgements]
enabled = true

[sources.app]
type = \"file\"
include = [\"app.log\"]
decoding.codec = \"json\"

[transforms.errors]
type = \"filter\"
inputs = [\"app\"]
condition = '.level == \"${LEVEL:-warn}\"'

[sinks.screen]
type = \"console\"
inputs = [\"errors\"]
encoding.codec = \"json\"

[sinks.archive]
type = \"file\"
inputs = [\"err*\"]
path = \"errors.txt\"

[sinks.archive.encoding]
codec = \"text\"

[[sinks.archive.buffer]]
max_events = 100
when_full = \"overflow\"

[[sinks.archive.buffer]]
max_events = 400
";

/// It is read to its end.
const REALISTIC: Run = Run {
    words: &["--config", "first.toml", "--stats", "--once"],
    variables: &[("LEVEL", "error")],
    text: REALISTIC_TEXT,
    origin: "app",
    steps: &[Play::Piece(
        0,
        "{\"level\":\"error\",\"message\":\"disk full\"}\n{\"level\":\"info\",\"message\":\"ok\"}\n",
    )],
    sink: "screen",
    shown: "source app read=72 lines=2 overlong=0 undecodable=0 events=2 unread=0 batches=1 delivered=1 errored=0 rejected=0 confirmed=72
transform errors taken=2 sent=1 dropped=1 unread=0
sink archive taken=1 newest=0 attempts=1 delivered=1 errored=0 rejected=0 bytes=10
sink screen taken=1 newest=0 attempts=1 delivered=1 errored=0 rejected=0 bytes=78
",
    given: &[
        "",
        "",
        "disk full\n",
        "{\"file\":\"app.log\",\"level\":\"error\",\"message\":\"disk full\",\"source_type\":\"file\"}\n",
    ],
    ..EMPTY
};

#[test]
fn realistic_configuration(rt: HostRuntime) -> Result<(), Fail> {
    let ended = ran(&rt, rt.alloc(), &REALISTIC)?;
    confirmed_alone(&rt, &ended, 72);
    Ok(())
}

/// The folder of the checkpoints, and the path of the checkpoint of `app`.
const CHECKPOINTS: &[(&str, &str)] = &[
    ("", "/var/lib/vector/app.checkpoint.json"),
    ("data_dir = \"state\"\n", "state/app.checkpoint.json"),
    ("data_dir = \"state/\"\n", "state/app.checkpoint.json"),
    ("data_dir = \"/\"\n", "/app.checkpoint.json"),
    ("data_dir = \"\"\n", "/app.checkpoint.json"),
];

/// A file that goes to another one.
const FILES: &str = "[sources.app]
type = \"file\"
include = [\"app.log\"]
[sinks.out]
type = \"file\"
path = \"out.log\"
inputs = [\"app\"]
encoding.codec = \"text\"
";

/// The plan of two files, behind the folder of checkpoints.
fn plan_of_files(alloc: Global, folder: &str) -> Result<Plan, Fail> {
    let text = format!(in alloc; "{folder}{FILES}")?;
    match read_plan(alloc, text.as_bytes(), &VariableList::new(alloc)) {
        Ok(read) => Ok(read.plan),
        Err(_) => Err(Fail::new("refused")),
    }
}

/// Checks what the port of a file that is read is made for.
fn reads_file(rt: &impl Abort, spec: &PortSpec, ends: bool, stands: &str) {
    assert_eq!(rt; spec.name.as_str(), "app");
    match &spec.form {
        Form::FileIn {
            path,
            once,
            checkpoint,
        } => {
            assert_eq!(rt; path.as_str(), "app.log");
            assert_eq!(rt; *once, ends);
            assert_eq!(rt; checkpoint.as_str(), stands);
        }
        _ => assert!(rt; false, "it is no file that is read"),
    }
}

/// Checks the port of a file that is read.
fn has_file_to_read(
    rt: &impl Abort,
    alloc: Global,
    plan: &Plan,
    once: bool,
    checkpoint: &str,
) -> Result<(), Fail> {
    match plan.port_spec(alloc, "app", once)? {
        Some(spec) => reads_file(rt, &spec, once, checkpoint),
        None => assert!(rt; false, "it has a port"),
    }
    Ok(())
}

/// The path of the file to which a port appends.
fn path_of(spec: &PortSpec) -> Option<&str> {
    match &spec.form {
        Form::FileOut { path } => Some(path.as_str()),
        _ => None,
    }
}

/// Checks the port of a file that is appended to.
fn has_file_to_write(rt: &impl Abort, alloc: Global, plan: &Plan) -> Result<(), Fail> {
    match plan.port_spec(alloc, "out", true)? {
        Some(spec) => assert_eq!(rt; path_of(&spec), Some("out.log")),
        None => assert!(rt; false, "it has a port"),
    }
    Ok(())
}

/// Checks the ports of two files.
fn has_files(rt: &impl Abort, alloc: Global, folder: &str, checkpoint: &str) -> Result<(), Fail> {
    let plan = plan_of_files(alloc, folder)?;
    has_file_to_read(rt, alloc, &plan, false, checkpoint)?;
    has_file_to_read(rt, alloc, &plan, true, checkpoint)?;
    has_file_to_write(rt, alloc, &plan)
}

#[test]
fn ports_of_files(rt: HostRuntime) -> Result<(), Fail> {
    for (folder, checkpoint) in CHECKPOINTS {
        has_files(&rt, rt.alloc(), *folder, *checkpoint)?;
    }
    Ok(())
}
