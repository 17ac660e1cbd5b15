ghost use Rattle.std.specs.Prelude.{◌≡◌, ℕ, ◌+◌, ◌++◌, [], ◌≤◌, List, true, length, take, IsTrue, IfOk, IfSome};
ghost use Rattle.vx_json.specs.Machine as machine;
ghost use Rattle.vx_json.specs.ModeViews.{mode_view};
ghost use Rattle.vx_json.specs.Numbers.{is_digit, are_digits};
ghost use Rattle.vx_json.specs.Openings.{IsOpened};
ghost use Rattle.vx_json.specs.Runs.{are_plain, takes_digits, IsClosed, LeadsLevel};

use crate::mode::Mode;
use crate::number_place::NumberPlace;
use crate::object_builder::ObjectBuilder;
use crate::plain::{closed, plain_len};
use crate::text_place::TextPlace;
use std::alloc::Global;
use std::mem;
use vx_value::{Text, Value, WantOfMemory};

/// Whether a byte is a digit.
fn is_digit(b: u8) -> bool
    ensures { result ≡ is_digit b }
{
    b >= b'0' && b <= b'9'
}

/// Whether each digit that comes at a place of a number leads to that place again.
fn takes_digits(place: NumberPlace) -> bool
    ensures { result ≡ takes_digits place }
{
    match place {
        NumberPlace::Whole | NumberPlace::Fraction | NumberPlace::Exponent => true,
        _ => false,
    }
}

/// How many digits stand at the front.
fn digits_len(bytes: &[u8]) -> usize
    ensures within { result ≤ length bytes.now }
    ensures digits { are_digits (take result bytes.now) ≡ true }
{
    for (i, b) in bytes.iter().enumerate() {
        if !is_digit(*b) {
            return i;
        }
    }
    bytes.len()
}

/// The text of the first `n` bytes, where a quote comes behind them, and a text has no bytes yet.
fn closed_from(
    alloc: Global,
    text: &Vec<u8>,
    bytes: &[u8],
    n: usize,
) -> Result<Option<Text>, WantOfMemory>
    requires within { n ≤ length bytes.now }
    requires plain { are_plain (take n bytes.now) ≡ true }
    ensures within { IfOk result (λ o. IfSome o (λ _. n + 1 ≤ length bytes.now)) }
    ensures all { IfOk result (λ o. IfSome o (λ _. text.now.items ≡ [])) }
    ensures closed { IfOk result (λ o. IfSome o (IsClosed (take (n + 1) bytes.now))) }
{
    if !text.is_empty() {
        return Ok(None);
    }
    closed(alloc, bytes, n)
}

/// What a quote at the front opens: a text that ends, or the bytes of one that goes on.
enum Opened {
    Whole(Text),
    Part(Vec<u8>),
}

impl Opened {
    /// Where a reader stands behind it, if it is a value.
    fn into_text(self) -> Mode
        ensures { (w : List ℕ) → IsOpened w self → (st : List machine.Frame) →
            LeadsLevel machine.AtValue st w (mode_view result) }
    {
        match self {
            Opened::Whole(words) => Mode::Behind(Value::Words(words)),
            Opened::Part(text) => Mode::InText(TextPlace::Plain, text),
        }
    }

    /// Where a reader stands behind it, if it is a name.
    fn into_name(self, fields: ObjectBuilder) -> Mode
        ensures first { (w : List ℕ) → IsOpened w self → fields ≡ [] → (st : List machine.Frame) →
            LeadsLevel machine.AtFirstName st w (mode_view result) }
        ensures next { (w : List ℕ) → IsOpened w self → (st : List machine.Frame) →
            LeadsLevel (machine.AtName fields) st w (mode_view result) }
    {
        match self {
            Opened::Whole(name) => Mode::Colon(fields, name),
            Opened::Part(text) => Mode::InName(fields, TextPlace::Plain, text),
        }
    }
}

/// What a quote at the front opens, and how many bytes that took. `None` where there is no quote.
fn begin_quoted(alloc: Global, bytes: &[u8]) -> Result<Option<(Opened, usize)>, WantOfMemory>
    ensures within { IfOk result (λ o. IfSome o (λ p. p.1 ≤ length bytes.now)) }
    ensures opened { IfOk result (λ o. IfSome o (λ p. IsOpened (take p.1 bytes.now) p.0)) }
{
    if bytes.is_empty() || bytes[0] != b'"' {
        return Ok(None);
    }
    let rest = &bytes[1..];
    let n = plain_len(rest);
    match closed(alloc, rest, n)? {
        Some(text) => Ok(Some((Opened::Whole(text), n + 2))),
        None => {
            let part = Vec::from_slice(alloc, &rest[..n])?;
            Ok(Some((Opened::Part(part), n + 1)))
        }
    }
}

/// Adds the digits at the front, and answers how many they are.
fn add_digits(text: &mut Vec<u8>, bytes: &[u8]) -> Result<usize, WantOfMemory>
    ensures within { IfOk result (λ n. n ≤ length bytes.now) }
    ensures digits { IfOk result (λ n. are_digits (take n bytes.now) ≡ true) }
    ensures added { IfOk result (λ n. text.new.items ≡ text.old.items ++ take n bytes.now) }
{
    let n = digits_len(bytes);
    text.extend_from_slice(&bytes[..n])?;
    Ok(n)
}

/// Whether bytes begin with others.
fn begins(bytes: &[u8], front: &[u8]) -> bool
    ensures within { IsTrue result → length front.now ≤ length bytes.now }
    ensures front { IsTrue result → take (length front.now) bytes.now ≡ front.now }
{
    bytes.starts_with(front)
}

impl Mode {
    /// Reads the bytes at the front that go on with a text, a name, a word or digits, as far as that can be done at once,
    /// and answers how many they are. They open and close nothing.
    pub fn run(&mut self, alloc: Global, bytes: &[u8]) -> Result<usize, WantOfMemory>
        ensures within { IfOk result (λ n. n ≤ length bytes.now) }
        ensures leads { IfOk result (λ n. (st : List machine.Frame) →
            LeadsLevel (mode_view self.old) st (take n bytes.now) (mode_view self.new)) }
    {
        match self {
            Mode::InText(TextPlace::Plain, text) => {
                let n = plain_len(bytes);
                match closed_from(alloc, text, bytes, n)? {
                    Some(words) => {
                        *self = Mode::Behind(Value::Words(words));
                        Ok(n + 1)
                    }
                    None => {
                        text.extend_from_slice(&bytes[..n])?;
                        Ok(n)
                    }
                }
            }
            Mode::InName(_, TextPlace::Plain, text) => {
                let n = plain_len(bytes);
                text.extend_from_slice(&bytes[..n])?;
                Ok(n)
            }
            Mode::InNumber(place, text) => {
                if !takes_digits(*place) {
                    return Ok(0);
                }
                let n = add_digits(text, bytes)?;
                Ok(n)
            }
            Mode::InWord(word) => {
                let word = *word;
                let rest = word.rest();
                if !begins(bytes, rest) {
                    return Ok(0);
                }
                *self = Mode::Behind(word.value());
                Ok(rest.len())
            }
            _ => self.open(alloc, bytes),
        }
    }

    /// Reads a quote at the front that opens a text or a name, and what goes on with it, and answers how many bytes that
    /// are. They open and close nothing.
    fn open(&mut self, alloc: Global, bytes: &[u8]) -> Result<usize, WantOfMemory>
        ensures within { IfOk result (λ n. n ≤ length bytes.now) }
        ensures leads { IfOk result (λ n. (st : List machine.Frame) →
            LeadsLevel (mode_view self.old) st (take n bytes.now) (mode_view self.new)) }
    {
        match self {
            Mode::Before => match begin_quoted(alloc, bytes)? {
                Some((opened, n)) => {
                    *self = opened.into_text();
                    Ok(n)
                }
                None => Ok(0),
            },
            Mode::FirstName => match begin_quoted(alloc, bytes)? {
                Some((opened, n)) => {
                    *self = opened.into_name(ObjectBuilder::new(alloc));
                    Ok(n)
                }
                None => Ok(0),
            },
            Mode::NextName(fields) => match begin_quoted(alloc, bytes)? {
                Some((opened, n)) => {
                    let fields = mem::replace(fields, ObjectBuilder::new(alloc));
                    *self = opened.into_name(fields);
                    Ok(n)
                }
                None => Ok(0),
            },
            _ => Ok(0),
        }
    }
}
