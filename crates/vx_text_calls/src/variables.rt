//! The worked examples, and a variable that stands twice. Each form at its edges tells `checks/events.py`.

use crate::comparing::{joined, numbered, same};
use std::alloc::Global;
use std::process::Abort;
use std::test::Fail;
use vx_subst::{SubstFault, replace};
use vx_value::{Text, Variable, VariableList, WantOfMemory};

/// A variable of an environment.
fn variable(alloc: Global, name: &str, value: &str) -> Result<Variable, WantOfMemory> {
    let name = Text::copy_of(alloc, name)?;
    let value = Text::copy_of(alloc, value)?;
    Ok(Variable { name, value })
}

/// An environment: names with their values.
fn environment(alloc: Global, pairs: &[(&str, &str)]) -> Result<VariableList, WantOfMemory> {
    let mut list = Vec::new(alloc);
    for (name, value) in pairs {
        list.push(variable(alloc, *name, *value)?)?;
    }
    Ok(VariableList::from_vec(list))
}

/// A variable that is missing, and the place of its `$`.
fn missing(alloc: Global, name: &str, at: u64) -> Result<String, Fail> {
    let word = joined(alloc, &["missing ", name, " at"])?;
    numbered(alloc, word.as_str(), at)
}

/// What the text becomes in an environment, or its fault in words.
fn said(alloc: Global, text: &str, environment: &VariableList) -> Result<String, Fail> {
    match replace(alloc, text, environment) {
        Ok(new) => joined(alloc, &[new.as_str()]),
        Err(SubstFault::MissingVariable { name, at }) => missing(alloc, name.as_str(), at),
        Err(SubstFault::WantOfMemory) => joined(alloc, &["no memory"]),
    }
}

/// Checks what a text becomes in an environment.
fn has_answer(
    rt: &impl Abort,
    alloc: Global,
    environment: &VariableList,
    text: &str,
    want: &str,
) -> Result<(), Fail> {
    let answer = said(alloc, text, environment)?;
    same(rt, answer.as_str(), want, text);
    Ok(())
}

/// Checks what each text becomes in an environment.
fn have_answers(
    rt: &impl Abort,
    alloc: Global,
    environment: &VariableList,
    cases: &[(&str, &str)],
) -> Result<(), Fail> {
    for (text, want) in cases {
        has_answer(rt, alloc, environment, *text, *want)?;
    }
    Ok(())
}

/// The worked texts.
const WORKED: &[(&str, &str)] = &[
    ("a=$A ${B:-c} $$ $-", "a=1 c $ $-"),
    ("$9", "missing 9 at 0"),
    ("x ${N}", "missing N at 2"),
];

#[test]
fn variables(rt: HostRuntime) -> Result<(), Fail> {
    let one = environment(rt.alloc(), &[("A", "1")])?;
    have_answers(&rt, rt.alloc(), &one, WORKED)
}

/// Of two variables with one name the first counts.
#[test]
fn a_variable_that_stands_twice(rt: HostRuntime) -> Result<(), Fail> {
    let twice = environment(rt.alloc(), &[("A", "1"), ("A", "2")])?;
    has_answer(&rt, rt.alloc(), &twice, "$A", "1")
}
