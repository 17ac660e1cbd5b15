//! The judgement of a configuration, and what is printed of it.

use crate::files::REALISTIC_TEXT;
use crate::runs::{EMPTY, Run, runs};
use std::test::Fail;

/// A configuration with a transform and two sinks.
const JUDGED: Run = Run {
    words: &["validate", "first.toml"],
    text: REALISTIC_TEXT,
    shown: "valid: 1 sources, 1 transforms, 2 sinks\n",
    given: &[],
    ..EMPTY
};

#[test]
fn validate_counts(rt: HostRuntime) -> Result<(), Fail> {
    runs(&rt, rt.alloc(), &JUDGED)
}
