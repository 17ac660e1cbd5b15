//! The ends on this system: its files, in the folder in which a test runs, its clock and its streams.

use crate::comparing::{joined, same};
use std::alloc::Global;
use std::fs::OpenOptions;
use std::io::Write;
use std::process::Abort;
use std::rt::Files;
use std::test::Fail;
use std::{fs, io};
use vx_ends::{Clock, Form, Port, PortSpec, Position, Printer, Took, Trouble, World};
use vx_ends_os::{HeldStreams, OsClock, OsPort, OsPrinter, OsWorld};
use vx_fixtures::one;
use vx_value::{Text, WantOfMemory};

/// What is done with a port and the files around it, and what has to come of it.
enum Step {
    /// A text is put behind what a file has.
    Put(&'static str, &'static str),
    /// A file has this text alone from now on.
    Set(&'static str, &'static str),
    /// A file has another name from now on.
    Move(&'static str, &'static str),
    /// A file has this text.
    Has(&'static str, &'static str),
    /// A file isn't there.
    Lacks(&'static str),
    /// The port fails to start.
    Refuses,
    /// A take brings this.
    Takes(&'static str),
    /// This end of the one stream is confirmed.
    Confirm(u64),
    /// The port fails to confirm this end of the one stream.
    FailsConfirm(u64),
    /// This text is given whole, and finished.
    Give(&'static str),
    /// The port is closed.
    Close,
}

/// A port of a form.
fn port_of(rt: HostRuntime, form: Form) -> Result<OsPort, WantOfMemory> {
    let name = Text::copy_of(rt.alloc(), "it")?;
    OsWorld::new(rt).port(&PortSpec { name, form })
}

/// A port on a file that is read, whose checkpoint stands at another path.
fn reader(
    rt: HostRuntime,
    path: &str,
    once: bool,
    checkpoint: &str,
) -> Result<OsPort, WantOfMemory> {
    let path = Text::copy_of(rt.alloc(), path)?;
    let checkpoint = Text::copy_of(rt.alloc(), checkpoint)?;
    let form = Form::FileIn {
        path,
        once,
        checkpoint,
    };
    port_of(rt, form)
}

/// A port on a file that is written.
fn writer(rt: HostRuntime, path: &str) -> Result<OsPort, WantOfMemory> {
    let path = Text::copy_of(rt.alloc(), path)?;
    port_of(rt, Form::FileOut { path })
}

/// What a take brought, in words.
fn words_of(alloc: Global, took: Took, into: &[u8]) -> Result<String, Fail> {
    match took {
        Took::Bytes { stream: 0, n } => {
            let bytes = into.get(..n as usize).unwrap_or(b"?");
            Ok(String::from_utf8_lossy(alloc, bytes)?)
        }
        Took::Bytes { .. } | Took::StreamEnded { .. } => { joined(alloc, &["another stream"]) }
        Took::AllEnded => joined(alloc, &["all ended"]),
        Took::Idle => joined(alloc, &["idle"]),
    }
}

/// Checks what one take brings.
fn takes<P: Port>(rt: &(impl Abort + AllocGlobal), port: &mut P, want: &str) -> Result<(), Fail> {
    let mut into = [0u8; 64];
    port.start()?;
    let took = port.take(&mut into)?;
    let got = words_of(rt.alloc(), took, &into)?;
    assert_eq!(rt; got.as_str(), want);
    Ok(())
}

/// What a port answers to a confirm of an end of the one stream.
fn confirm<P: Port>(alloc: Global, port: &mut P, end: u64) -> Result<Result<(), Trouble>, Fail> {
    let positions = one(alloc, Position { stream: 0, end })?;
    Ok(port.confirm(&positions))
}

/// Gives a text whole.
fn give<P: Port>(rt: &impl Abort, port: &mut P, text: &str) -> Result<(), Fail> {
    port.start()?;
    if !text.is_empty() {
        let n = port.give(text.as_bytes())?;
        assert_eq!(rt; n as usize, text.len());
    }
    Ok(())
}

/// Finishes what was given.
fn finish<P: Port>(port: &mut P) -> Result<(), Trouble> {
    port.start()?;
    port.finish()
}

/// Puts a text behind what a file has.
fn put(rt: &impl Files, path: &str, text: &str) -> io::Result<()> {
    let mut options = OpenOptions::new();
    options.append(true).create(true);
    options.open(rt, path)?.write_all(text.as_bytes())
}

/// Checks what stands in a file.
fn has(rt: &(impl Abort + Files + Alloc), path: &str, want: &str) -> Result<(), Fail> {
    let text = fs::read_to_string(rt, path)?;
    same(rt, text.as_str(), want, path);
    Ok(())
}

/// Does one step.
fn make<P: Port, R: Abort + Files + AllocGlobal>(
    rt: &R,
    port: &mut P,
    step: &Step,
) -> Result<(), Fail> {
    match step {
        Step::Put(path, text) => Ok(put(rt, *path, *text)?),
        Step::Set(path, text) => Ok(fs::write(rt, *path, *text)?),
        Step::Move(from, to) => Ok(fs::rename(rt, *from, *to)?),
        Step::Has(path, text) => has(rt, *path, *text),
        Step::Lacks(path) => {
            assert!(rt; !fs::exists(rt, *path)?);
            Ok(())
        }
        Step::Refuses => {
            assert!(rt; port.start() == Err(Trouble::Failed));
            Ok(())
        }
        Step::Takes(want) => takes(rt, port, *want),
        Step::Confirm(end) => Ok(confirm(rt.alloc(), port, *end)??),
        Step::FailsConfirm(end) => {
            let answer = confirm(rt.alloc(), port, *end)?;
            assert!(rt; answer == Err(Trouble::Failed));
            Ok(())
        }
        Step::Give(text) => {
            give(rt, port, *text)?;
            Ok(finish(port)?)
        }
        Step::Close => {
            port.close();
            Ok(())
        }
    }
}

/// Does steps, one after the other.
fn play<P: Port, R: Abort + Files + AllocGlobal>(
    rt: &R,
    mut port: P,
    steps: &[Step],
) -> Result<(), Fail> {
    for one in steps {
        make(rt, &mut port, one)?;
    }
    Ok(())
}

#[test]
fn a_world_gives_the_text_at_a_path(rt: HostRuntime) -> Result<(), Fail> {
    fs::write(&rt, "first.toml", "a = 1\n")?;
    let mut world = OsWorld::new(rt);
    let text = world.config("first.toml")?;
    assert_eq!(rt; text.as_slice(), b"a = 1\n".as_slice());
    assert!(rt; world.config("none.toml").err() == Some(Trouble::Failed));
    Ok(())
}

#[test]
fn a_file_is_read_as_it_grows(rt: HostRuntime) -> Result<(), Fail> {
    let port = reader(rt, "grows", false, "grows.mark")?;
    play(&rt, port, GROWING)
}

/// A file that isn't there at first, and whose last line is open at last.
const GROWING: &[Step] = &[
    Step::Takes("idle"),
    Step::Put("grows", ""),
    Step::Takes("idle"),
    Step::Put("grows", "one\ntwo\n"),
    Step::Takes("idle"),
    Step::Takes("one\ntwo\n"),
    Step::Takes("idle"),
    Step::Put("grows", "three"),
    Step::Takes("three"),
    Step::Takes("idle"),
];

#[test]
fn a_file_is_read_once(rt: HostRuntime) -> Result<(), Fail> {
    let port = reader(rt, "once", true, "once.mark")?;
    play(&rt, port, READ_ONCE)
}

/// A file that is to be read once, and isn't there at first.
const READ_ONCE: &[Step] = &[
    Step::Refuses,
    Step::Put("once", "one\n"),
    Step::Takes("one\n"),
    Step::Takes("all ended"),
    Step::Put("once", "two\n"),
    Step::Takes("all ended"),
];

#[test]
fn a_confirm_is_where_the_next_port_starts(rt: HostRuntime) -> Result<(), Fail> {
    let port = reader(rt, "kept", false, "kept.mark")?;
    play(&rt, port, CONFIRMED)?;
    let port = reader(rt, "kept", true, "kept.mark")?;
    play(&rt, port, CONFIRMED_AGAIN)
}

/// The first line is confirmed, and not the second.
const CONFIRMED: &[Step] = &[
    Step::Put("kept", "one\ntwo\n"),
    Step::Takes("one\ntwo\n"),
    Step::Confirm(4),
    Step::Has(
        "kept.mark",
        "{\"offset\":4,\"path\":\"kept\",\"version\":1}\n",
    ),
    Step::Lacks("kept.mark.new"),
];

/// The second line comes again, and is confirmed.
const CONFIRMED_AGAIN: &[Step] = &[
    Step::Takes("two\n"),
    Step::Confirm(4),
    Step::Has(
        "kept.mark",
        "{\"offset\":8,\"path\":\"kept\",\"version\":1}\n",
    ),
    Step::Takes("all ended"),
];

#[test]
fn a_refused_checkpoint_is_a_fault_and_stays(rt: HostRuntime) -> Result<(), Fail> {
    let port = reader(rt, "refused", false, "refused.mark")?;
    play(&rt, port, REFUSED)
}

/// Documents that are no checkpoint's, and at last none.
const REFUSED: &[Step] = &[
    Step::Put("refused", "one\n"),
    Step::Set("refused.mark", ""),
    Step::Refuses,
    Step::Has("refused.mark", ""),
    Step::Set(
        "refused.mark",
        "{\"offset\":0,\"path\":\"refused\",\"version\":2}\n",
    ),
    Step::Refuses,
    Step::Has(
        "refused.mark",
        "{\"offset\":0,\"path\":\"refused\",\"version\":2}\n",
    ),
    Step::Set(
        "refused.mark",
        "{\"offset\":-1,\"path\":\"refused\",\"version\":1}\n",
    ),
    Step::Refuses,
    Step::Has(
        "refused.mark",
        "{\"offset\":-1,\"path\":\"refused\",\"version\":1}\n",
    ),
    Step::Move("refused.mark", "refused.gone"),
    Step::Takes("one\n"),
];

#[test]
fn a_shorter_file_begins_at_its_front(rt: HostRuntime) -> Result<(), Fail> {
    let port = reader(rt, "short", true, "short.mark")?;
    play(&rt, port, SHORTER)
}

/// A checkpoint behind the end of its file, which is kept as 0 from then on.
const SHORTER: &[Step] = &[
    Step::Put("short", "one\n"),
    Step::Set(
        "short.mark",
        "{\"offset\":5,\"path\":\"short\",\"version\":1}\n",
    ),
    Step::Takes("one\n"),
    Step::Has(
        "short.mark",
        "{\"offset\":0,\"path\":\"short\",\"version\":1}\n",
    ),
    Step::Takes("all ended"),
];

#[test]
fn a_checkpoint_of_another_path_counts_as_none(rt: HostRuntime) -> Result<(), Fail> {
    let port = reader(rt, "mine", true, "other.mark")?;
    play(&rt, port, OTHER)
}

/// A checkpoint of another path, which stays until there is one of this.
const OTHER: &[Step] = &[
    Step::Put("mine", "one\n"),
    Step::Set(
        "other.mark",
        "{\"offset\":2,\"path\":\"other\",\"version\":1}\n",
    ),
    Step::Takes("one\n"),
    Step::Has(
        "other.mark",
        "{\"offset\":2,\"path\":\"other\",\"version\":1}\n",
    ),
    Step::Confirm(4),
    Step::Has(
        "other.mark",
        "{\"offset\":4,\"path\":\"mine\",\"version\":1}\n",
    ),
];

#[test]
fn a_file_that_is_replaced_is_followed(rt: HostRuntime) -> Result<(), Fail> {
    let port = reader(rt, "turned", false, "turned.mark")?;
    play(&rt, port, REPLACED)
}

/// A file that another one replaces, while its last line is open.
const REPLACED: &[Step] = &[
    Step::Put("turned", "one\n"),
    Step::Takes("one\n"),
    Step::Confirm(4),
    Step::Move("turned", "turned.1"),
    Step::Put("turned", ""),
    Step::Put("turned.1", "tw"),
    Step::Takes("tw"),
    Step::Takes("idle"),
    Step::Takes("idle"),
    Step::Put("turned", "three\n"),
    Step::Takes("idle"),
    Step::Put("turned.1", "o"),
    Step::Takes("o"),
    Step::Takes("\n"),
    Step::Has(
        "turned.mark",
        "{\"offset\":0,\"path\":\"turned\",\"version\":1}\n",
    ),
    Step::Takes("idle"),
    Step::Takes("three\n"),
    Step::Confirm(14),
    Step::Has(
        "turned.mark",
        "{\"offset\":6,\"path\":\"turned\",\"version\":1}\n",
    ),
];

#[test]
fn a_file_that_was_cut_begins_anew(rt: HostRuntime) -> Result<(), Fail> {
    let port = reader(rt, "cut", false, "cut.mark")?;
    play(&rt, port, CUT)
}

/// A file that is cut to its front, and written anew.
const CUT: &[Step] = &[
    Step::Put("cut", "one\ntwo\n"),
    Step::Takes("one\ntwo\n"),
    Step::Takes("idle"),
    Step::Set("cut", "3\n"),
    Step::Takes("idle"),
    Step::Takes("3\n"),
    Step::Confirm(10),
    Step::Has(
        "cut.mark",
        "{\"offset\":2,\"path\":\"cut\",\"version\":1}\n",
    ),
];

#[test]
fn an_open_line_ends_where_a_closed_port_begins_anew(rt: HostRuntime) -> Result<(), Fail> {
    let port = reader(rt, "closed", false, "closed.mark")?;
    play(&rt, port, CLOSED_IN_A_LINE)
}

/// A file that is cut, and written anew, while its port is closed.
const CLOSED_IN_A_LINE: &[Step] = &[
    Step::Put("closed", "one\ntwo"),
    Step::Takes("one\ntwo"),
    Step::Confirm(4),
    Step::Close,
    Step::Set("closed", "3\n"),
    Step::Takes("\n"),
    Step::Has(
        "closed.mark",
        "{\"offset\":0,\"path\":\"closed\",\"version\":1}\n",
    ),
    Step::Takes("3\n"),
    Step::Confirm(10),
    Step::Has(
        "closed.mark",
        "{\"offset\":2,\"path\":\"closed\",\"version\":1}\n",
    ),
];

#[test]
fn a_file_that_comes_later_goes_on_at_its_checkpoint(rt: HostRuntime) -> Result<(), Fail> {
    let port = reader(rt, "later", false, "later.mark")?;
    play(&rt, port, LATER)
}

/// A file that comes after its port was started, and is gone while that is closed.
const LATER: &[Step] = &[
    Step::Set(
        "later.mark",
        "{\"offset\":4,\"path\":\"later\",\"version\":1}\n",
    ),
    Step::Takes("idle"),
    Step::Put("later", ""),
    Step::Takes("idle"),
    Step::Has(
        "later.mark",
        "{\"offset\":4,\"path\":\"later\",\"version\":1}\n",
    ),
    Step::Put("later", "one\ntwo\n"),
    Step::Takes("idle"),
    Step::Takes("two\n"),
    Step::Confirm(4),
    Step::Close,
    Step::Move("later", "later.gone"),
    Step::Takes("idle"),
    Step::Move("later.gone", "later"),
    Step::Put("later", "three\n"),
    Step::Takes("idle"),
    Step::Takes("three\n"),
    Step::Has(
        "later.mark",
        "{\"offset\":8,\"path\":\"later\",\"version\":1}\n",
    ),
];

#[test]
fn a_shorter_file_that_comes_later_begins_at_its_front(rt: HostRuntime) -> Result<(), Fail> {
    let port = reader(rt, "gone", false, "gone.mark")?;
    play(&rt, port, GONE)
}

/// A checkpoint of a file that comes later and is shorter, which is kept as 0 then, over what a killed run left.
const GONE: &[Step] = &[
    Step::Set(
        "gone.mark",
        "{\"offset\":5,\"path\":\"gone\",\"version\":1}\n",
    ),
    Step::Set("gone.mark.new", "what a killed run left"),
    Step::Takes("idle"),
    Step::Has(
        "gone.mark",
        "{\"offset\":5,\"path\":\"gone\",\"version\":1}\n",
    ),
    Step::Put("gone", "one\n"),
    Step::Takes("idle"),
    Step::Has(
        "gone.mark",
        "{\"offset\":0,\"path\":\"gone\",\"version\":1}\n",
    ),
    Step::Lacks("gone.mark.new"),
    Step::Takes("one\n"),
];

#[test]
fn a_checkpoint_that_stayed_is_kept_as_0_later(rt: HostRuntime) -> Result<(), Fail> {
    fs::create_dir(&rt, "stayed.mark.new")?;
    let port = reader(rt, "stayed", false, "stayed.mark")?;
    play(&rt, port, STAYED)
}

/// A checkpoint behind the end of its file, which can't be written at first, since a folder is in the way.
const STAYED: &[Step] = &[
    Step::Put("stayed", "1\n"),
    Step::Set(
        "stayed.mark",
        "{\"offset\":4,\"path\":\"stayed\",\"version\":1}\n",
    ),
    Step::Takes("1\n"),
    Step::Has(
        "stayed.mark",
        "{\"offset\":4,\"path\":\"stayed\",\"version\":1}\n",
    ),
    Step::Move("stayed.mark.new", "stayed.folder"),
    Step::Set("stayed", ""),
    Step::Takes("idle"),
    Step::Has(
        "stayed.mark",
        "{\"offset\":0,\"path\":\"stayed\",\"version\":1}\n",
    ),
    Step::Put("stayed", "2\n"),
    Step::Takes("2\n"),
];

#[test]
fn a_confirm_that_failed_leaves_0_to_be_kept_later(rt: HostRuntime) -> Result<(), Fail> {
    fs::create_dir(&rt, "unkept.mark.new")?;
    let port = reader(rt, "unkept", false, "unkept.mark")?;
    play(&rt, port, UNKEPT)
}

/// A checkpoint behind the end of its file, as above, where a confirm of less fails before the file begins anew.
const UNKEPT: &[Step] = &[
    Step::Put("unkept", "1\n"),
    Step::Set(
        "unkept.mark",
        "{\"offset\":4,\"path\":\"unkept\",\"version\":1}\n",
    ),
    Step::Takes("1\n"),
    Step::FailsConfirm(0),
    Step::Has(
        "unkept.mark",
        "{\"offset\":4,\"path\":\"unkept\",\"version\":1}\n",
    ),
    Step::Move("unkept.mark.new", "unkept.folder"),
    Step::Set("unkept", ""),
    Step::Takes("idle"),
    Step::Has(
        "unkept.mark",
        "{\"offset\":0,\"path\":\"unkept\",\"version\":1}\n",
    ),
    Step::Put("unkept", "2\n"),
    Step::Takes("2\n"),
];

#[test]
fn a_folder_is_no_file(rt: HostRuntime) -> Result<(), Fail> {
    let port = reader(rt, ".", false, "folder.mark")?;
    play(&rt, port, &[Step::Refuses, Step::Lacks("folder.mark")])?;
    let port = reader(rt, "none", false, ".")?;
    play(&rt, port, &[Step::Refuses])?;
    play(&rt, writer(rt, ".")?, &[Step::Refuses])
}

#[test]
fn a_file_is_appended_to(rt: HostRuntime) -> Result<(), Fail> {
    let port = writer(rt, "appended")?;
    play(&rt, port, APPENDED)
}

/// A file that is made, and opened again.
const APPENDED: &[Step] = &[
    Step::Give("one\n"),
    Step::Give("two\n"),
    Step::Close,
    Step::Has("appended", "one\ntwo\n"),
    Step::Give("three\n"),
    Step::Has("appended", "one\ntwo\nthree\n"),
];

#[test]
fn a_clock_goes_on(rt: HostRuntime) {
    let clock = OsClock::new(rt);
    let before = clock.now();
    clock.rest(before.saturating_add(20));
    assert!(rt; clock.now() >= before.saturating_add(20));
}

#[test]
fn a_printer_prints(rt: HostRuntime) {
    let _held = HeldStreams::new(rt);
    let mut printer = OsPrinter::new(rt, true);
    assert!(rt; printer.print(b"printed\n").is_ok());
}
