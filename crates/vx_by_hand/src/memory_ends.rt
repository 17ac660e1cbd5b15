//! The ends in memory, call by call.

use crate::callers::{attempt, give_all, take_once};
use std::alloc::Global;
use std::process::Abort;
use std::test::Fail;
use vx_ends::{
    Act, Clock, ConfigList, Failed, Form, MemoryClock, MemoryPort, MemoryPrinter, MemoryWorld,
    Port, PortSpec, Position, PositionList, Printer, ScriptedList, Took, Trouble, World,
};
use vx_fixtures::{Play, acts, add, config, script, steps};
use vx_value::{Bytes, Text, WantOfMemory};

/// A call of a port and what has to come of it, or what the port has to tell.
enum Call {
    /// It starts.
    Start(Result<(), Trouble>),
    /// It is asked for at most three bytes, and these come.
    Take(Result<Took, Trouble>, &'static str),
    /// It is given these bytes.
    Give(&'static str, Result<u32, Trouble>),
    /// It finishes.
    Finish(Result<(), Trouble>),
    /// One position is confirmed.
    Confirm(Result<(), Trouble>),
    /// It closes.
    Close,
    /// It is given these bytes, until a give fails.
    GiveAll(&'static str, (usize, bool)),
    /// It starts, is given these bytes, and finishes.
    Attempt(&'static str, Result<(), Trouble>),
    /// All that it was given.
    HasGiven(&'static str),
    /// How many positions were confirmed.
    HasConfirmed(usize),
}

/// A port with its script, and its calls one after the other.
struct Calls {
    steps: &'static [Play],
    acts: &'static [Act],
    calls: &'static [Call],
}

/// A port with a script.
fn port(alloc: Global, some: &[Play], acting: &[Act]) -> Result<MemoryPort, WantOfMemory> {
    let steps = steps(alloc, some)?;
    let acts = acts(alloc, acting)?;
    Ok(MemoryPort::new(alloc, steps, acts))
}

/// The bytes that a take brought into this room.
fn brought(room: &[u8], answer: Result<Took, Trouble>) -> &[u8] {
    match answer {
        Ok(Took::Bytes { stream: _, n }) => room.get(..n as usize).unwrap_or(room),
        _ => b"",
    }
}

/// Whether one take with a room of three bytes has that answer, and brings these bytes.
fn takes(port: &mut MemoryPort, want: Result<Took, Trouble>, bytes: &[u8]) -> bool {
    let mut room = [0u8; 3];
    let answer = port.take(&mut room);
    answer == want && brought(&room, answer) == bytes
}

/// Whether a give of these bytes, one at least, has that answer.
fn gives(port: &mut MemoryPort, bytes: &[u8], want: Result<u32, Trouble>) -> bool {
    !bytes.is_empty() && port.give(bytes) == want
}

/// A list of one position.
fn one_position(alloc: Global) -> Result<PositionList, WantOfMemory> {
    let mut list = PositionList::new(alloc);
    add(&mut list, Position { stream: 4, end: 9 })?;
    Ok(list)
}

/// Does one call, and tells whether what has to come of it came.
fn is_met(port: &mut MemoryPort, positions: &PositionList, call: &Call) -> bool {
    match call {
        Call::Start(want) => port.start() == *want,
        Call::Take(want, bytes) => takes(port, *want, bytes.as_bytes()),
        Call::Give(bytes, want) => gives(port, bytes.as_bytes(), *want),
        Call::Finish(want) => port.finish() == *want,
        Call::Confirm(want) => port.confirm(positions) == *want,
        Call::Close => {
            port.close();
            true
        }
        Call::GiveAll(bytes, want) => {
            port.start() == Ok(()) && give_all(port, bytes.as_bytes()) == *want
        }
        Call::Attempt(bytes, want) => attempt(port, bytes.as_bytes()) == *want,
        Call::HasGiven(want) => port.given() == want.as_bytes(),
        Call::HasConfirmed(want) => port.confirmed().len() == *want,
    }
}

/// Makes a port, and does its calls one after the other.
fn serves(rt: &impl Abort, alloc: Global, of: &Calls) -> Result<(), Fail> {
    let positions = one_position(alloc)?;
    let mut port = port(alloc, of.steps, of.acts)?;
    for call in of.calls {
        assert!(rt; is_met(&mut port, &positions, call));
    }
    Ok(())
}

/// A piece is taken in parts. Then nothing comes, and a fault behind a piece of no bytes, and the end of a stream, and
/// behind a piece of that the end of all, for good.
const TAKES: Calls = Calls {
    steps: &[
        Play::Piece(7, "abcde"),
        Play::Idle,
        Play::Piece(7, ""),
        Play::Fail,
        Play::StreamEnded(7),
        Play::Piece(7, "x"),
        Play::AllEnded,
        Play::Fail,
    ],
    acts: &[],
    calls: &[
        Call::Take(Ok(Took::Bytes { stream: 7, n: 3 }), "abc"),
        Call::Take(Ok(Took::Bytes { stream: 7, n: 2 }), "de"),
        Call::Take(Ok(Took::Idle), ""),
        Call::Take(Err(Trouble::Failed), ""),
        Call::Take(Ok(Took::StreamEnded { stream: 7 }), ""),
        Call::Take(Ok(Took::AllEnded), ""),
        Call::Take(Ok(Took::AllEnded), ""),
    ],
};

#[test]
fn takes_by_its_steps(rt: HostRuntime) -> Result<(), Fail> {
    serves(&rt, rt.alloc(), &TAKES)
}

/// Each call has its act; a start and a confirm aren't refused. Behind the last act each call is met.
const ACTS: Calls = Calls {
    steps: &[],
    acts: &[
        Act::Fail,
        Act::Refuse,
        Act::Part(0),
        Act::Part(2),
        Act::Fail,
        Act::Refuse,
        Act::Refuse,
        Act::Fail,
        Act::Refuse,
        Act::Fail,
    ],
    calls: &[
        Call::Start(Err(Trouble::Failed)),
        Call::Start(Ok(())),
        Call::Give("abc", Ok(1)),
        Call::Give("bcd", Ok(2)),
        Call::Give("d", Err(Trouble::Failed)),
        Call::Give("d", Err(Trouble::Refused)),
        Call::Finish(Err(Trouble::Refused)),
        Call::Finish(Err(Trouble::Failed)),
        Call::Confirm(Ok(())),
        Call::Confirm(Err(Trouble::Failed)),
        Call::Give("xyz", Ok(3)),
        Call::Finish(Ok(())),
        Call::HasGiven("abcxyz"),
        Call::HasConfirmed(1),
        Call::Close,
        Call::Start(Ok(())),
    ],
};

#[test]
fn serves_by_its_acts(rt: HostRuntime) -> Result<(), Fail> {
    serves(&rt, rt.alloc(), &ACTS)
}

const ATTEMPTS: Calls = Calls {
    steps: &[],
    acts: &[Act::Pass, Act::Part(2), Act::Fail],
    calls: &[
        Call::GiveAll("given", (2, false)),
        Call::Attempt("more", Ok(())),
        Call::HasGiven("gimore"),
    ],
};

#[test]
fn serves_attempts_by_its_clauses(rt: HostRuntime) -> Result<(), Fail> {
    serves(&rt, rt.alloc(), &ATTEMPTS)
}

fn takes_into(rt: &impl Abort, port: &mut MemoryPort, out: &mut Bytes, want: Option<u64>) {
    let mut room = [0u8; 8];
    assert_eq!(rt; port.start(), Ok(()));
    assert_eq!(rt; take_once(port, &mut room, out), Ok(want));
}

#[test]
fn serves_takes_by_its_clauses(rt: HostRuntime) -> Result<(), Fail> {
    let mut port = port(rt.alloc(), &[Play::Piece(2, "take"), Play::Idle], &[])?;
    let mut out = Bytes::new(rt.alloc());
    takes_into(&rt, &mut port, &mut out, Some(2));
    takes_into(&rt, &mut port, &mut out, None);
    assert!(rt; out.as_slice() == b"take".as_slice());
    Ok(())
}

/// Two texts.
fn configs(alloc: Global) -> Result<ConfigList, WantOfMemory> {
    let mut list = ConfigList::new(alloc);
    add(&mut list, config(alloc, "a", "one")?)?;
    add(&mut list, config(alloc, "b", "two")?)?;
    Ok(list)
}

/// The scripts of two ports, each of one step and one act.
fn scripts(alloc: Global) -> Result<ScriptedList, WantOfMemory> {
    let out = script(alloc, "out", steps(alloc, &[Play::Idle])?, &[Act::Fail])?;
    let source = script(alloc, "in", steps(alloc, &[Play::Fail])?, &[Act::Pass])?;
    let mut list = ScriptedList::new(alloc);
    add(&mut list, out)?;
    add(&mut list, source)?;
    Ok(list)
}

/// A world with two texts, and the scripts of two ports.
fn world(alloc: Global) -> Result<MemoryWorld, WantOfMemory> {
    let configs = configs(alloc)?;
    let scripts = scripts(alloc)?;
    Ok(MemoryWorld::new(alloc, configs, scripts))
}

/// Checks the text that a world has at a path, if any.
fn has_text(rt: &impl Abort, world: &mut MemoryWorld, path: &str, want: Option<&str>) {
    match world.config(path) {
        Ok(text) => assert!(rt; text.as_slice() == want.unwrap_or("no text").as_bytes()),
        Err(_) => assert!(rt; want.is_none()),
    }
}

/// The texts of the world, and one that isn't there.
const TEXTS: &[(&str, Option<&str>)] = &[("b", Some("two")), ("a", Some("one")), ("c", None)];

#[test]
fn gives_texts(rt: HostRuntime) -> Result<(), Fail> {
    let mut world = world(rt.alloc())?;
    for (path, want) in TEXTS {
        has_text(&rt, &mut world, *path, *want);
    }
    Ok(())
}

/// Checks what a new port takes.
fn plays(rt: &impl Abort, world: &mut MemoryWorld, spec: &PortSpec, want: Result<Took, Trouble>) {
    let mut port = world.port(spec).expect(rt, "a port");
    assert!(rt; takes(&mut port, want, b""));
}

#[test]
fn makes_ports(rt: HostRuntime) -> Result<(), Fail> {
    let mut world = world(rt.alloc())?;
    let name = Text::copy_of(rt.alloc(), "in")?;
    let form = Form::Stdin;
    let spec = PortSpec { name, form };
    plays(&rt, &mut world, &spec, Err(Trouble::Failed));
    plays(&rt, &mut world, &spec, Ok(Took::AllEnded));
    Ok(())
}

fn shared_now<C: Clock + Sync>(clock: &C) -> u64 {
    clock.now()
}

#[test]
fn rests_until_later_moments(rt: HostRuntime) {
    let clock = MemoryClock::new();
    assert_eq!(rt; shared_now(&clock), 0);
    clock.rest(5);
    assert_eq!(rt; shared_now(&clock), 5);
    clock.rest(3);
    assert_eq!(rt; shared_now(&clock), 5);
}

/// Prints a text, and checks the answer.
fn prints(rt: &impl Abort, printer: &mut MemoryPrinter, text: &str, want: Result<(), Failed>) {
    assert_eq!(rt; printer.print(text.as_bytes()), want);
}

/// Prints some texts by a printer that fails from a print on, and checks each answer and what is printed.
fn print_all(
    rt: &impl Abort,
    alloc: Global,
    fail_from: Option<u64>,
    texts: &[(&str, Result<(), Failed>)],
    printed: &str,
) {
    let mut printer = MemoryPrinter::new(alloc, fail_from);
    for (text, want) in texts {
        prints(rt, &mut printer, *text, *want);
    }
    assert!(rt; printer.printed() == printed.as_bytes());
}

/// The prints of a printer that takes one.
const ONE_PRINT: &[(&str, Result<(), Failed>)] = &[
    ("a", Ok(())),
    ("b", Err(Failed)),
    ("c", Err(Failed)),
];

/// The prints of a printer that takes all.
const STEADY_PRINTS: &[(&str, Result<(), Failed>)] = &[("ab", Ok(())), ("c", Ok(()))];

#[test]
fn fails_from_a_print_on(rt: HostRuntime) {
    print_all(&rt, rt.alloc(), Some(1), ONE_PRINT, "a");
    print_all(&rt, rt.alloc(), None, STEADY_PRINTS, "abc");
}
