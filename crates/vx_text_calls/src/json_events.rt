//! The worked rows, and texts whose faults another reader told. The values of more texts tells `checks/events.py`.

mod texts;

use crate::comparing::{joined, numbered, same};
use crate::values::{has_path_fault, has_put_answer};
use std::alloc::Global;
use std::process::Abort;
use std::test::Fail;
use vx_fixtures::put;
use vx_json::{Codec, Decoding, JsonFault, encode_event, line_event, read, write, write_value};
use vx_value::{Bytes, Event, PutFault, Text, Value};

/// What some bytes are read as: the event in its one spelling, or the fault in words.
fn said(alloc: Global, bytes: &[u8]) -> Result<String, Fail> {
    match read(alloc, bytes) {
        Ok(event) => spelled(alloc, &event),
        Err(fault) => fault_in_words(alloc, fault),
    }
}

/// A fault in words.
fn fault_in_words(alloc: Global, fault: JsonFault) -> Result<String, Fail> {
    match fault {
        JsonFault::NotJson { at } => numbered(alloc, "not json at", at),
        JsonFault::Deep { at } => numbered(alloc, "deep at", at),
        JsonFault::NotObject => joined(alloc, &["not an object"]),
        JsonFault::WantOfMemory => joined(alloc, &["no memory"]),
    }
}

/// An event in its one spelling.
fn spelled(alloc: Global, event: &Event) -> Result<String, Fail> {
    let mut out = Bytes::new(alloc);
    write(event, &mut out)?;
    Ok(String::from_utf8_lossy(alloc, out.as_slice())?)
}

/// Checks what some bytes are read as.
fn has_answer(rt: &impl Abort, alloc: Global, bytes: &[u8], want: &str) -> Result<(), Fail> {
    let answer = said(alloc, bytes)?;
    assert_eq!(rt; answer.as_str(), want);
    Ok(())
}

/// Checks what a text is read as.
fn text_has_answer(rt: &impl Abort, alloc: Global, text: &str, want: &str) -> Result<(), Fail> {
    let answer = said(alloc, text.as_bytes())?;
    same(rt, answer.as_str(), want, text);
    Ok(())
}

/// Checks what each text is read as.
fn have_answers(rt: &impl Abort, alloc: Global, cases: &[(&str, &str)]) -> Result<(), Fail> {
    for (text, want) in cases {
        text_has_answer(rt, alloc, *text, *want)?;
    }
    Ok(())
}

/// Texts with each fault.
const FAULTS: &[(&str, &str)] = &[
    ("{\"a\":[[[[[[[[[[[[[[[[[[[[[[[[[[[[[[[[", "deep at 36"),
    ("{\"a\":}", "not json at 5"),
    ("{\"a\":1", "not json at 6"),
    ("[1]", "not an object"),
];

#[test]
fn json_faults(rt: HostRuntime) -> Result<(), Fail> {
    have_answers(&rt, rt.alloc(), FAULTS)
}

/// Checks that a put of 2 at `.a.b` is refused in the event of a text, in which `.a` is no fields.
fn is_blocked(rt: &impl Abort, alloc: Global, text: &str) -> Result<(), Fail> {
    let mut event = read(alloc, text.as_bytes())?;
    let blocked = Err(PutFault::Blocked { names: 1 });
    has_put_answer(rt, alloc, &mut event, ".a.b", Value::Whole(2), blocked)
}

/// Checks that a text stands for some bytes.
fn is_lossy(rt: &impl Abort, alloc: Global, bytes: &[u8], want: &str) -> Result<(), Fail> {
    let text = Text::lossy(alloc, bytes)?;
    assert!(rt; text.as_str() == want);
    let taken = Text::from_bytes(alloc, Bytes::copy_of(alloc, bytes)?)?;
    assert!(rt; taken.as_str() == want);
    Ok(())
}

/// The event of a text with 2 at `.a.b`.
fn spelled_below(alloc: Global, text: &str) -> Result<String, Fail> {
    let mut event = read(alloc, text.as_bytes())?;
    put(alloc, &mut event, ".a.b", Value::Whole(2))?;
    spelled(alloc, &event)
}

#[test]
fn put_and_lossy(rt: HostRuntime) -> Result<(), Fail> {
    is_blocked(&rt, rt.alloc(), "{\"a\":1}")?;
    has_path_fault(&rt, rt.alloc(), "a..b", 2);
    let text = spelled_below(rt.alloc(), "{}")?;
    assert_eq!(rt; text.as_str(), "{\"a\":{\"b\":2}}");
    is_lossy(&rt, rt.alloc(), b"a\xE2\x82b", "a\u{FFFD}b")
}

/// What a sink writes of the event of a text under each codec, first as JSON.
fn encoded(alloc: Global, text: &str) -> Result<Bytes, Fail> {
    let event = read(alloc, text.as_bytes())?;
    let mut out = Bytes::new(alloc);
    encode_event(Codec::Json, &event, &mut out)?;
    encode_event(Codec::Text, &event, &mut out)?;
    Ok(out)
}

/// Checks that some bytes are those of a text.
fn has_bytes(rt: &impl Abort, found: &Bytes, want: &str) {
    assert_eq!(rt; found.as_slice(), want.as_bytes());
}

/// Checks what a sink writes of the event of a text.
fn has_encoding(rt: &impl Abort, alloc: Global, text: &str, want: &str) -> Result<(), Fail> {
    let out = encoded(alloc, text)?;
    has_bytes(rt, &out, want);
    Ok(())
}

/// Events, and what a sink writes of them.
const ENCODED: &[(&str, &str)] = &[
    ("{\"message\":\"a\\n\"}", "{\"message\":\"a\\n\"}\na\n\n"),
    ("{\"message\":[1]}", "{\"message\":[1]}\n[1]\n"),
    ("{}", "{}\n\n"),
];

#[test]
fn events_for_sinks(rt: HostRuntime) -> Result<(), Fail> {
    for (text, want) in ENCODED {
        has_encoding(&rt, rt.alloc(), *text, *want)?;
    }
    Ok(())
}

/// The event that a line of a file gives, in its one spelling.
fn given(alloc: Global, line: &str, path: &str) -> Result<String, Fail> {
    let source_type = Text::copy_of(alloc, "stdin")?;
    let path = Text::copy_of(alloc, path)?;
    let event = line_event(
        alloc,
        Decoding::Json,
        line.as_bytes(),
        &source_type,
        Some(&path),
    )?;
    spelled(alloc, &event.ok_or("an event")?)
}

#[test]
fn events_of_lines_of_a_file(rt: HostRuntime) -> Result<(), Fail> {
    let answer = given(rt.alloc(), "{\"b\":1}", "a.log")?;
    assert_eq!(rt;
        answer.as_str(),
        "{\"b\":1,\"file\":\"a.log\",\"source_type\":\"stdin\"}"
    );
    Ok(())
}

#[test]
fn a_value_alone(rt: HostRuntime) -> Result<(), Fail> {
    let mut out = Bytes::copy_of(rt.alloc(), b"x")?;
    write_value(&Value::Whole(-7), &mut out)?;
    has_bytes(&rt, &out, "x-7");
    Ok(())
}
