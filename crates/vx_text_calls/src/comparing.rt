//! The comparison of texts, with the case that a failure tells, and the texts that are compared.

use itoa::Buffer;
use std::alloc::Global;
use std::process::Abort;
use std::test::Fail;
use vx_value::Text;

/// Checks that a text is the wanted one.
pub(crate) fn same(rt: &impl Abort, found: &str, want: &str, case: &str) {
    assert_eq!(rt; found, want, "in the case {case}");
}

/// The parts of a text behind one another.
pub(crate) fn joined(alloc: Global, parts: &[&str]) -> Result<String, Fail> {
    let mut all = String::new(alloc);
    for part in parts {
        all.push_str(*part)?;
    }
    Ok(all)
}

/// A word, and a number behind a blank.
pub(crate) fn numbered(alloc: Global, word: &str, number: u64) -> Result<String, Fail> {
    let mut digits = Buffer::new();
    joined(alloc, &[word, " ", digits.format(number)])
}

/// Some texts, each followed by a blank.
pub(crate) fn spaced(alloc: Global, texts: &[Text]) -> Result<String, Fail> {
    let mut all = String::new(alloc);
    for text in texts {
        all.push_str(text.as_str())?;
        all.push_str(" ")?;
    }
    Ok(all)
}
