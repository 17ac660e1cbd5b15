//! The worked examples, and the place of each kind of fault. On which events more conditions hold tells `checks/events.py`.

use crate::comparing::{joined, numbered, same};
use std::alloc::Global;
use std::process::Abort;
use std::test::Fail;
use vx_condition::{ConditionFault, parse};
use vx_json::read;

// The fault of a text, in words.
fn fault(alloc: Global, text: &str) -> Result<String, Fail> {
    match parse(alloc, text) {
        Ok(_) => joined(alloc, &["none"]),
        Err(ConditionFault::Syntax { at }) => numbered(alloc, "syntax", at),
        Err(ConditionFault::Deep { at }) => numbered(alloc, "deep", at),
        Err(ConditionFault::BadPattern { at }) => numbered(alloc, "bad pattern", at),
        Err(ConditionFault::WantOfMemory) => joined(alloc, &["no memory"]),
    }
}

// Whether a text has its fault.
fn has_fault(rt: &impl Abort, alloc: Global, text: &str, want: &str) -> Result<(), Fail> {
    let said = fault(alloc, text)?;
    same(rt, said.as_str(), want, text);
    Ok(())
}

// Whether each text has its fault.
fn have_faults(rt: &impl Abort, alloc: Global, wanted: &[(&str, &str)]) -> Result<(), Fail> {
    for (text, want) in wanted {
        has_fault(rt, alloc, *text, *want)?;
    }
    Ok(())
}

// Whether a condition holds of the event of a text.
fn holds(alloc: Global, text: &str, event: &str) -> Result<bool, Fail> {
    let event = read(alloc, event.as_bytes())?;
    let mut condition = parse(alloc, text)?;
    Ok(condition.holds(alloc, &event)?)
}

// The worked refusals.
const WORKED: &[(&str, &str)] = &[(".a = 1", "syntax 4"), (".a == ", "syntax 6")];

// The worked conditions, each with an event, and whether it holds of that.
const VERDICTS: &[(&str, &str, bool)] = &[
    (".n > 3 && !exists(.x)", "{\"n\":4}", true),
    (".n > 3 && !exists(.x)", "{\"n\":\"4\"}", false),
    (
        "match(.message, r'^d.*l$')",
        "{\"message\":\"disk full\"}",
        true,
    ),
    (".a == null", "{\"n\":4}", true),
];

#[test]
fn condition_grammar(rt: HostRuntime) -> Result<(), Fail> {
    have_faults(&rt, rt.alloc(), WORKED)?;
    for (text, event, want) in VERDICTS {
        assert!(rt; holds(rt.alloc(), *text, *event)? == *want);
    }
    Ok(())
}

// Texts, each with its fault: at the edges, at the 33rd level, and in literals.
const FAULTS: &[(&str, &str)] = &[
    ("", "syntax 0"),
    (" .a == 1", "syntax 0"),
    (".a == 1 ", "syntax 8"),
    (".a == 1)", "syntax 7"),
    (".a.b == 1 & .c", "syntax 11"),
    ("(.a == trues)", "syntax 11"),
    ("exists!(.a)", "syntax 6"),
    ("contains(.a, b)", "syntax 13"),
    ("match(.a, r'(')", "bad pattern 10"),
    ("match(.a, r'(') &", "syntax 17"),
    (".a == \"r'('\" && match ! ( .b , r'[' )", "bad pattern 31"),
    ("(((((((((((((((((((((((((((((((((", "deep 32"),
    ("!!!!!!!!!!!!!!!!!!!!!!!!!!!!!!!!!", "deep 32"),
    ("!(!(!(!(!(!(!(!(!(!(!(!(!(!(!(!(!", "deep 32"),
    ("((((((((((((((((((((((((((((((((", "syntax 32"),
    (
        "((((((((((((((((((((((((((((((((.a==1))))))))))))))))))))))))))))))))",
        "none",
    ),
    (".a == 0", "none"),
    (".a == -0", "syntax 7"),
    (".a == 01", "syntax 7"),
    (".a == 9223372036854775807", "none"),
    (".a == 9223372036854775808", "syntax 24"),
    (".a == -9223372036854775808", "none"),
    (".a == -9223372036854775809", "syntax 25"),
    (".a < \"x\"", "syntax 5"),
    (".a == \"\\x\"", "syntax 8"),
    (".\"\" == 1", "syntax 2"),
];

#[test]
fn faults(rt: HostRuntime) -> Result<(), Fail> {
    have_faults(&rt, rt.alloc(), FAULTS)
}
