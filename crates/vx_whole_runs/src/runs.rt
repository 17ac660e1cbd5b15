//! Whole runs between ends in memory, with what is printed of their counts.

use std::alloc::Global;
use std::process::Abort;
use std::sync::Wait;
use std::test::Fail;
use vx_ends::{
    Act, Clock, ConfigList, MemoryClock, MemoryPrinter, MemoryWorld, ScriptedList, StepList,
};
use vx_fixtures::{Play, add, config, environment, script, steps, texts};
use vx_keeping::{HostList, NamedHosts};
use vx_run::{Ended, vector};
use vx_value::WantOfMemory;

/// The first configuration.
const FIRST: &str = "[sources.in]
type = \"stdin\"

[sinks.out]
type = \"console\"
inputs = [\"in\"]
encoding.codec = \"text\"
";

/// The same, of a console that makes no failed attempt again.
pub(crate) const WITHOUT_RETRIES: &str = "sources.in = { type = 'stdin' }
sinks.out = { type = 'console', inputs = ['in'], encoding.codec = 'text', request.retry_attempts = 0 }
";

/// How many milliseconds later than it must a run may end.
const LATE: u64 = 100;

/// A call of the program between ends in memory, and what must come of it.
#[derive(Drop)]
pub(crate) struct Run {
    /// The program's words.
    pub(crate) words: &'static [&'static str],
    /// The variables of its environment.
    pub(crate) variables: &'static [(&'static str, &'static str)],
    /// The text at `first.toml`.
    pub(crate) text: &'static str,
    /// The name of the source.
    pub(crate) origin: &'static str,
    /// What the source answers to takes.
    pub(crate) steps: &'static [Play],
    /// How the source meets its other calls.
    pub(crate) source: &'static [Act],
    /// The name of a sink.
    pub(crate) sink: &'static str,
    /// How that sink meets its calls.
    pub(crate) acts: &'static [Act],
    /// The moment that the clock, which begins with 0, has to show at the end at least, in milliseconds, and by which it may be late.
    pub(crate) lasted: u64,
    /// The exit status.
    pub(crate) status: u8,
    /// What is printed to standard error.
    pub(crate) printed: &'static str,
    /// What is printed to standard output.
    pub(crate) shown: &'static str,
    /// What each port was given, that of the source being the first. Where nothing is run, there is none.
    pub(crate) given: &'static [&'static str],
}

/// Words that run the text, and ask for the counts.
const STATS: &[&str] = &["--config", "first.toml", "--stats"];

/// A run of the first configuration whose input is empty.
pub(crate) const EMPTY: Run = Run {
    words: STATS,
    variables: &[],
    text: FIRST,
    origin: "in",
    steps: &[],
    source: &[],
    sink: "out",
    acts: &[],
    lasted: 0,
    status: 0,
    printed: "",
    shown: "source in read=0 lines=0 overlong=0 undecodable=0 events=0 unread=0 batches=0 delivered=0 errored=0 rejected=0 confirmed=0
sink out taken=0 newest=0 attempts=0 delivered=0 errored=0 rejected=0 bytes=0
",
    given: &["", ""],
};

/// The scripts of the source, which plays these steps, and of the sink.
fn scripts(alloc: Global, run: &Run, steps: StepList) -> Result<ScriptedList, WantOfMemory> {
    let mut list = ScriptedList::new(alloc);
    add(&mut list, script(alloc, run.origin, steps, run.source)?)?;
    let sink = script(alloc, run.sink, StepList::new(alloc), run.acts)?;
    add(&mut list, sink)?;
    Ok(list)
}

/// That text at `first.toml`.
fn configs(alloc: Global, text: &str) -> Result<ConfigList, WantOfMemory> {
    let mut list = ConfigList::new(alloc);
    add(&mut list, config(alloc, "first.toml", text)?)?;
    Ok(list)
}

/// The world of a run, whose source plays these steps.
fn world(alloc: Global, run: &Run, steps: StepList) -> Result<MemoryWorld, WantOfMemory> {
    let configs = configs(alloc, run.text)?;
    let scripts = scripts(alloc, run, steps)?;
    Ok(MemoryWorld::new(alloc, configs, scripts))
}

/// Calls the program in the world of a run, whose source plays these steps, and checks the status, what is printed, and
/// how long it lasted.
pub(crate) fn played<R: Wait + Abort>(
    rt: &R,
    alloc: Global,
    run: &Run,
    steps: StepList,
) -> Result<Ended<MemoryWorld>, WantOfMemory> {
    played_by(rt, alloc, run, steps, HostList::new(alloc))
}

/// The same, where the program hands in some transforms.
pub(crate) fn played_by<R: Wait + Abort, H: NamedHosts + Drop>(
    rt: &R,
    alloc: Global,
    run: &Run,
    steps: StepList,
    hosts: H,
) -> Result<Ended<MemoryWorld>, WantOfMemory> {
    let words = texts(alloc, run.words)?;
    let environment = environment(alloc, run.variables)?;
    let world = world(alloc, run, steps)?;
    let mut out = MemoryPrinter::new(alloc, None);
    let mut err = MemoryPrinter::new(alloc, None);
    let clock = MemoryClock::new();
    let ended = vector(
        rt,
        alloc,
        &words,
        &environment,
        world,
        &clock,
        hosts,
        &mut out,
        &mut err,
    );
    assert_eq!(rt; ended.status, run.status);
    assert!(rt; clock.now() >= run.lasted);
    assert!(rt; clock.now() <= run.lasted.saturating_add(LATE));
    assert!(rt; out.printed() == run.shown.as_bytes());
    assert!(rt; err.printed() == run.printed.as_bytes());
    Ok(ended)
}

/// What the port of an instance was given; nothing where it has none.
pub(crate) fn given(ended: &Ended<MemoryWorld>, instance: usize) -> &[u8] {
    match ended.ports.get(instance) {
        Some(end) => match &end.port {
            Some(port) => port.given(),
            None => "".as_bytes(),
        },
        None => "no port".as_bytes(),
    }
}

/// Checks how many ports there are, and what each was given. As many instances are counted.
pub(crate) fn were_given(rt: &impl Abort, ended: &Ended<MemoryWorld>, wanted: &[&str]) {
    assert_eq!(rt; ended.ports.len(), wanted.len());
    for i in 0..wanted.len() {
        assert!(rt; given(ended, i) == wanted[i].as_bytes());
    }
    assert_eq!(rt; ended.tallies.len(), wanted.len());
}

/// Does a run, and checks all that must come of it.
pub(crate) fn ran<R: Wait + Abort>(
    rt: &R,
    alloc: Global,
    run: &Run,
) -> Result<Ended<MemoryWorld>, WantOfMemory> {
    let ended = played(rt, alloc, run, steps(alloc, run.steps)?)?;
    were_given(rt, &ended, run.given);
    Ok(ended)
}

/// The same, of a run of which nothing else is to be checked.
pub(crate) fn runs<R: Wait + Abort>(rt: &R, alloc: Global, run: &Run) -> Result<(), Fail> {
    ran(rt, alloc, run)?;
    Ok(())
}

/// Two lines in one piece.
const TWO_LINES: Run = Run {
    steps: &[Play::Piece(0, "a\nb\n")],
    shown: "source in read=4 lines=2 overlong=0 undecodable=0 events=2 unread=0 batches=1 delivered=1 errored=0 rejected=0 confirmed=4
sink out taken=2 newest=0 attempts=2 delivered=2 errored=0 rejected=0 bytes=4
",
    given: &["", "a\nb\n"],
    ..EMPTY
};

#[test]
fn copies_two_lines(rt: HostRuntime) -> Result<(), Fail> {
    runs(&rt, rt.alloc(), &TWO_LINES)
}

#[test]
fn empty_input(rt: HostRuntime) -> Result<(), Fail> {
    runs(&rt, rt.alloc(), &EMPTY)
}

/// A line without a line feed.
const OPEN_LINE: Run = Run {
    steps: &[Play::Piece(0, "a")],
    shown: "source in read=1 lines=1 overlong=0 undecodable=0 events=1 unread=0 batches=1 delivered=1 errored=0 rejected=0 confirmed=1
sink out taken=1 newest=0 attempts=1 delivered=1 errored=0 rejected=0 bytes=2
",
    given: &["", "a\n"],
    ..EMPTY
};

#[test]
fn unfinished_last_line(rt: HostRuntime) -> Result<(), Fail> {
    runs(&rt, rt.alloc(), &OPEN_LINE)
}
