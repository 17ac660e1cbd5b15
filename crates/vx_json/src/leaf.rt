ghost use Rattle.std.specs.Prelude.{◌≡◌, ◌∷◌, [], ◌<◌, ◌≤◌, true, List, length, take, IfOk, IfSome};
ghost use Rattle.vx_value.specs.Values.{datum_of};
ghost use Rattle.vx_json.specs.Machine as machine;
ghost use Rattle.vx_json.specs.Machine.{state, step};
ghost use Rattle.vx_json.specs.Runs.{are_plain, LeadsLevel};
ghost use Rattle.vx_json.specs.Walks.{EndsNumber, IsNumber};
ghost use Rattle.vx_json.specs.WordViews.{word_rest, word_datum};

use crate::number_move::{may_end, number_move, value_of_text};
use crate::number_place::NumberPlace;
use crate::plain::{plain_text, quoted};
use crate::word_place::WordPlace;
use std::alloc::Global;
use vx_value::{Value, WantOfMemory};

/// The value of a word whose first letter came, and how many bytes go on with it. `None` where another comes.
fn word(place: WordPlace, bytes: &[u8]) -> Option<(Value, usize)>
    ensures within { IfSome result (λ p. p.1 ≤ length bytes.now) }
    ensures rest { IfSome result (λ p. take p.1 bytes.now ≡ word_rest place) }
    ensures value { IfSome result (λ p. datum_of p.0 ≡ word_datum place) }
{
    let rest = place.rest();
    if !bytes.starts_with(rest) {
        return None;
    }
    Some((place.value(), rest.len()))
}

/// The place behind a letter that begins a word.
fn begun_word(b: u8) -> Option<WordPlace>
    ensures { IfSome result (λ place. (st : List machine.Frame) →
        step machine.AtValue st b ≡ state (machine.InWord (word_rest place) (word_datum place)) st) }
{
    match b {
        b'n' => Some(WordPlace::N),
        b't' => Some(WordPlace::T),
        b'f' => Some(WordPlace::F),
        _ => None,
    }
}

/// A text in quotes at the front, of characters that stand for themselves, or a word, and how many bytes it takes.
#[inline(always)]
pub fn leaf(alloc: Global, bytes: &[u8]) -> Result<Option<(Value, usize)>, WantOfMemory>
    ensures within { IfOk result (λ o. IfSome o (λ p. p.1 ≤ length bytes.now)) }
    ensures leads { IfOk result (λ o. IfSome o (λ p. (st : List machine.Frame) →
        LeadsLevel machine.AtValue st (take p.1 bytes.now) (machine.AtEnd (datum_of p.0)))) }
{
    if let Some((text, n)) = quoted(alloc, bytes)? {
        return Ok(Some((Value::Words(text), n)));
    }
    if bytes.is_empty() {
        return Ok(None);
    }
    let Some(place) = begun_word(bytes[0]) else {
        return Ok(None);
    };
    match word(place, &bytes[1..]) {
        Some((value, n)) => Ok(Some((value, n + 1))),
        None => Ok(None),
    }
}

/// The place behind a byte that begins a number.
fn begun_number(b: u8) -> Option<NumberPlace>
    ensures begins { IfSome result (λ place. (st : List machine.Frame) →
        step machine.AtValue st b ≡ state (machine.InNumber place (b ∷ [])) st) }
    ensures plain { IfSome result (λ _. are_plain (b ∷ []) ≡ true) }
{
    match b {
        b'-' => Some(NumberPlace::Minus),
        b'0' => Some(NumberPlace::Zero),
        b'1'..=b'9' => Some(NumberPlace::Whole),
        _ => None,
    }
}

/// How many bytes go on with a number that has come to a place. `None` where it may not end there, or nothing comes behind.
fn number_len(place: NumberPlace, bytes: &[u8]) -> Option<usize>
    ensures within { IfSome result (λ n. n < length bytes.now) }
    ensures ends { IfSome result (EndsNumber place bytes.now) }
{
    let mut place = place;
    for (i, b) in bytes.iter().enumerate() {
        match number_move(place, *b) {
            Some(next) => place = next,
            None => return if may_end(place) { Some(i) } else { None },
        }
    }
    None
}

/// A number at the front, and how many bytes it takes. `None` where there is none, or nothing comes behind it.
pub fn number(alloc: Global, bytes: &[u8]) -> Result<Option<(Value, usize)>, WantOfMemory>
    ensures within { IfOk result (λ o. IfSome o (λ p. p.1 < length bytes.now)) }
    ensures number { IfOk result (λ o. IfSome o (λ p. IsNumber bytes.now p.1 (datum_of p.0))) }
{
    if bytes.is_empty() {
        return Ok(None);
    }
    let Some(place) = begun_number(bytes[0]) else {
        return Ok(None);
    };
    let Some(n) = number_len(place, &bytes[1..]) else {
        return Ok(None);
    };
    let text = plain_text(alloc, &bytes[..n + 1])?;
    Ok(Some((value_of_text(text), n + 1)))
}
