ghost use Rattle.std.specs.Prelude.{◌≡◌, IfOk, IsOk, true, unwrap_or};
ghost use Rattle.vx_value.specs.Datum.{Null};
ghost use Rattle.vx_value.specs.Events.{value_at};
ghost use Rattle.vx_condition.specs.Patterns.{has_match};
ghost use Rattle.vx_condition.specs.Meaning.{is_literal, is_whole_and, is_words_and, is_part, compares, predicate_holds, is_match_free};

use crate::comparison::Comparison;
use crate::literal::Literal;
use crate::pattern::Pattern;
use std::alloc::Global;
use vx_value::{Event, Path, Text, Value, WantOfMemory};

/// A statement on the value at one path.
#[derive(Drop)]
pub enum Predicate {
    /// `==`: the value is the literal.
    Equal(Path, Literal),
    /// `!=`: the value isn't the literal.
    Different(Path, Literal),
    /// The value is a whole number that compares so to another.
    Compared(Path, Comparison, i64),
    /// `exists`: there is a value.
    Exists(Path),
    /// `contains`: the value is a text, and another one is a part of it.
    Contains(Path, Text),
    /// `match`: the value is a text, and a pattern has a match in it.
    Matches(Path, Pattern),
}

impl Predicate {
    /// Whether it holds of an event. It takes memory only for a match.
    pub fn holds(&self, alloc: Global, event: &Event) -> Result<bool, WantOfMemory>
        ensures value { IfOk result (λ holds. holds ≡ predicate_holds self.now event.now.fields) }
        ensures lean { is_match_free self.now ≡ true → IsOk result }
    {
        match self {
            Predicate::Equal(path, literal) => Ok(is_at(event, path, literal)),
            Predicate::Different(path, literal) => Ok(!is_at(event, path, literal)),
            Predicate::Compared(path, comparison, number) => {
                Ok(is_compared(event, path, *comparison, *number))
            }
            Predicate::Exists(path) => Ok(event.get(path).is_some()),
            Predicate::Contains(path, part) => Ok(has_part(event, path, part)),
            Predicate::Matches(path, pattern) => is_matched(alloc, event, path, pattern),
        }
    }
}

// Whether the value at a path is the literal, where a missing one counts as null.
fn is_at(event: &Event, path: &Path, literal: &Literal) -> bool
    ensures { result ≡ is_literal literal.now
        (unwrap_or (value_at event.now.fields path.now) Null) }
{
    match event.get(path) {
        Some(value) => literal.is(value),
        None => literal.is_null(),
    }
}

// Whether the value at a path is a whole number that compares so to another.
fn is_compared(event: &Event, path: &Path, comparison: Comparison, number: i64) -> bool
    ensures { result ≡ is_whole_and (λ whole. compares comparison whole number)
        (value_at event.now.fields path.now) }
{
    match event.get(path) {
        Some(Value::Whole(whole)) => comparison.holds(*whole, number),
        _ => false,
    }
}

// Whether the value at a path is a text with a part.
fn has_part(event: &Event, path: &Path, part: &Text) -> bool
    ensures { result ≡ is_words_and (is_part part.now) (value_at event.now.fields path.now) }
{
    match event.get(path) {
        Some(Value::Words(words)) => words.as_str().contains(part.as_str()),
        _ => false,
    }
}

// Whether the value at a path is a text in which a pattern has a match.
fn is_matched(
    alloc: Global,
    event: &Event,
    path: &Path,
    pattern: &Pattern,
) -> Result<bool, WantOfMemory>
    ensures { IfOk result
        (λ found. found
        ≡ is_words_and (has_match pattern.now) (value_at event.now.fields path.now)) }
{
    match event.get(path) {
        Some(Value::Words(words)) => pattern.is_in(alloc, words.as_str()),
        _ => Ok(false),
    }
}
