ghost use Rattle.std.specs.Prelude.{◌≡◌, Some, None, if◌then◌else◌, IfOk};
ghost use Rattle.std.specs.Str.Lossy.{utf8_lossy};
ghost use Rattle.std.specs.Fmt.{signed_decimal};
ghost use Rattle.std.specs.Str.Parse.{signed_digits_value};
ghost use Rattle.vx_value.specs.Values.{datum_of};
ghost use Rattle.vx_value.specs.Texts.{same_text};
ghost use Rattle.vx_json.specs.Numbers.{is_digit};
ghost use Rattle.vx_json.specs.Machine.{number_move, after_whole, may_end, is_whole_text, number_datum};

use crate::number_place::NumberPlace;
use itoa::Buffer;
use std::alloc::Global;
use vx_value::{Text, Value, WantOfMemory};

/// What may come behind a whole part.
fn after_whole(b: u8) -> Option<NumberPlace>
    ensures { result ≡ after_whole b }
{
    match b {
        b'.' => Some(NumberPlace::Point),
        b'e' | b'E' => Some(NumberPlace::Mark),
        _ => None,
    }
}

/// Where a digit leads that has to come.
fn digit_to(b: u8, next: NumberPlace) -> Option<NumberPlace>
    ensures { result ≡ (if is_digit b then Some next else None) }
{
    match b {
        b'0'..=b'9' => Some(next),
        _ => None,
    }
}

/// Where a byte leads inside a number. `None` exactly where it isn't part of it.
#[inline(always)]
pub fn number_move(place: NumberPlace, b: u8) -> Option<NumberPlace>
    ensures { result ≡ number_move place b }
{
    match (place, b) {
        (NumberPlace::Minus, b'0') => Some(NumberPlace::Zero),
        (NumberPlace::Minus, _) => digit_to(b, NumberPlace::Whole),
        (NumberPlace::Zero, _) => after_whole(b),
        (NumberPlace::Whole, b'0'..=b'9') => Some(NumberPlace::Whole),
        (NumberPlace::Whole, _) => after_whole(b),
        (NumberPlace::Point, _) => digit_to(b, NumberPlace::Fraction),
        (NumberPlace::Fraction, b'e' | b'E') => Some(NumberPlace::Mark),
        (NumberPlace::Fraction, _) => digit_to(b, NumberPlace::Fraction),
        (NumberPlace::Mark, b'+' | b'-') => Some(NumberPlace::Sign),
        (NumberPlace::Mark, _) => digit_to(b, NumberPlace::Exponent),
        (NumberPlace::Sign | NumberPlace::Exponent, _) => digit_to(b, NumberPlace::Exponent),
    }
}

/// Whether a number may end at a place.
pub fn may_end(place: NumberPlace) -> bool
    ensures { result ≡ may_end place }
{
    match place {
        NumberPlace::Zero | NumberPlace::Whole | NumberPlace::Fraction | NumberPlace::Exponent =>
            true,
        NumberPlace::Minus | NumberPlace::Point | NumberPlace::Mark | NumberPlace::Sign => false,
    }
}

/// Whether writing a whole number gives a text.
fn is_written(whole: i64, text: &str) -> bool
    ensures { result ≡ same_text (signed_decimal whole) text.now }
{
    let mut buffer = Buffer::new();
    buffer.format(whole) == text
}

/// The whole number of 64 bits that a text is the spelling of.
fn whole_of(text: &str) -> Option<i64>
    ensures { result
        ≡ (if is_whole_text text.now then Some (signed_digits_value 10 text.now) else None) }
{
    match text.parse::<i64>() {
        Ok(whole) => {
            if is_written(whole, text) {
                Some(whole)
            } else {
                None
            }
        }
        Err(_) => None,
    }
}

/// The value of a number by its text.
#[tactic(auto, unfolding(crate::specs::Machine::number_datum))]
pub fn value_of_text(text: Text) -> Value
    ensures { datum_of result ≡ number_datum text }
{
    match whole_of(text.as_str()) {
        Some(whole) => Value::Whole(whole),
        None => Value::Spelled(text),
    }
}

/// The value of a number by its spelling.
pub fn number_value(alloc: Global, spelling: &[u8]) -> Result<Value, WantOfMemory>
    ensures { IfOk result (λ value. datum_of value ≡ number_datum (utf8_lossy spelling.now)) }
{
    let text = Text::lossy(alloc, spelling)?;
    Ok(value_of_text(text))
}
