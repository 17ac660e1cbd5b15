//! The worked document, and documents that are none.

use crate::comparing::{joined, numbered};
use std::alloc::Global;
use std::process::Abort;
use std::test::Fail;
use vx_checkpoint::{Checkpoint, CheckpointFault, read, write};
use vx_value::Text;

/// What some bytes are read as: the path and the offset, or the fault in words.
fn said(alloc: Global, bytes: &[u8]) -> Result<String, Fail> {
    match read(alloc, bytes) {
        Ok(checkpoint) => numbered(alloc, checkpoint.path.as_str(), checkpoint.offset),
        Err(CheckpointFault::NotJson) => joined(alloc, &["not json"]),
        Err(CheckpointFault::WrongShape) => joined(alloc, &["wrong shape"]),
        Err(CheckpointFault::WrongVersion { found }) => version(alloc, found),
        Err(CheckpointFault::WantOfMemory) => joined(alloc, &["no memory"]),
    }
}

/// A version that is another than 1.
fn version(alloc: Global, found: i64) -> Result<String, Fail> {
    Ok(format!(in alloc; "version {found}")?)
}

/// Checks what some bytes are read as.
fn has_answer(rt: &impl Abort, alloc: Global, bytes: &[u8], want: &str) -> Result<(), Fail> {
    let answer = said(alloc, bytes)?;
    assert_eq!(rt; answer.as_str(), want);
    Ok(())
}

/// Checks what each text is read as.
fn have_answers(rt: &impl Abort, alloc: Global, cases: &[(&str, &str)]) -> Result<(), Fail> {
    for (text, want) in cases {
        has_answer(rt, alloc, text.as_bytes(), *want)?;
    }
    Ok(())
}

/// The worked document, and one of each fault.
const WORKED: &[(&str, &str)] = &[
    (
        "{\"offset\":72,\"path\":\"app.log\",\"version\":1}\n",
        "app.log 72",
    ),
    (
        "{\"offset\":72,\"path\":\"app.log\",\"version\":9}\n",
        "version 9",
    ),
    ("{}", "wrong shape"),
    ("{", "not json"),
];

#[test]
fn checkpoint_document(rt: HostRuntime) -> Result<(), Fail> {
    let checkpoint = Checkpoint {
        path: Text::copy_of(rt.alloc(), "app.log")?,
        offset: 72,
    };
    let bytes = write(rt.alloc(), &checkpoint)?;
    let want: &[u8] = b"{\"offset\":72,\"path\":\"app.log\",\"version\":1}\n";
    assert_eq!(rt; bytes.as_slice(), want);
    have_answers(&rt, rt.alloc(), WORKED)
}

/// Documents at the edges.
const OTHERS: &[(&str, &str)] = &[
    (
        "{\"offset\":-1,\"path\":\"a\",\"version\":1}",
        "wrong shape",
    ),
    (
        "{\"offset\":9223372036854775807,\"path\":\"a\",\"version\":1}",
        "a 9223372036854775807",
    ),
    (
        "{\"offset\":9223372036854775808,\"path\":\"a\",\"version\":1}",
        "wrong shape",
    ),
    (
        "{\"offset\":7.0,\"path\":\"a\",\"version\":1}",
        "wrong shape",
    ),
    (
        "{\"offset\":7e1,\"path\":\"a\",\"version\":1}",
        "wrong shape",
    ),
    (
        "{\"offset\":7,\"path\":\"a\",\"version\":1.0}",
        "wrong shape",
    ),
    (
        "{\"offset\":7,\"path\":\"a\",\"version\":1,\"more\":0}",
        "wrong shape",
    ),
    (
        "{\"offset\":7,\"path\":\"a\",\"more\":0,\"version\":2}",
        "version 2",
    ),
    ("{\"offset\":7,\"path\":7,\"version\":1}", "wrong shape"),
    ("{\"offset\":7,\"version\":1}", "wrong shape"),
    (
        "{\"offset\":7,\"path\":\"a\",\"offset\":8,\"version\":1}",
        "a 8",
    ),
    (
        " {\t\"path\" : \"b c\\u00e9\" ,\r\n\"version\":1,\"offset\" :0 } \n\n",
        "b cé 0",
    ),
    ("{\"version\":-3}", "version -3"),
    ("{\"version\":9223372036854775808}", "wrong shape"),
    ("[1]", "wrong shape"),
    ("\"version\"", "wrong shape"),
    ("", "not json"),
    ("{} {}", "not json"),
];

#[test]
fn other_documents(rt: HostRuntime) -> Result<(), Fail> {
    have_answers(&rt, rt.alloc(), OTHERS)?;
    let no_text = b"{\"path\":\"\xff\",\"offset\":7,\"version\":1}";
    has_answer(&rt, rt.alloc(), no_text, "not json")
}
