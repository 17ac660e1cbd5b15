ghost use Rattle.std.specs.Prelude.{◌≡◌, ◌++◌, ◌∷◌, [], ◌<◌, ◌≤◌, IsTrue, IfOk};
ghost use Rattle.vx_json.specs.Strings.{is_hex, hex_value, is_short, short_byte, code_of, paired_code};
ghost use Rattle.vx_json.specs.Machine.{lead_move, text_move, code_move, first_code_move, within_move, digit_move, is_character_code};
ghost use Rattle.vx_json.specs.MoveViews.{move_view, is_among_digits};

use crate::text_place::TextPlace;
use vx_value::WantOfMemory;

/// What a byte does inside a text.
#[derive(Clone, Copy)]
pub enum TextMove {
    /// It leads to a place, and adds nothing.
    Skips(TextPlace),
    /// It leads to a place, and stands for itself.
    Adds(TextPlace),
    /// It ends an escape that stands for that byte.
    Means(u8),
    /// It ends an escape that stands for that character.
    Codes(char),
    /// It ends the text.
    Ends,
    /// It may not stand there.
    Wrong,
}

/// Whether a byte is a digit of base 16.
fn is_hex(b: u8) -> bool
    ensures { result ≡ is_hex b }
{
    (b >= b'0' && b <= b'9') || ((b >= b'A' && b <= b'F') || (b >= b'a' && b <= b'f'))
}

/// What a digit of base 16 counts.
fn hex_value(b: u8) -> u32
    ensures value { result ≡ hex_value b }
    ensures small { result < 256 }
{
    if b <= b'9' {
        b.saturating_sub(48) as u32
    } else if b <= b'F' {
        (b - 55) as u32
    } else {
        b.saturating_sub(87) as u32
    }
}

/// The number of four digits of base 16.
fn code_of(a: u8, b: u8, c: u8, d: u8) -> u32
    ensures code { result ≡ code_of (record { first = a; second = b; third = c; fourth = d }) }
    ensures small { result < 2000000 }
{
    ((hex_value(a) * 16 + hex_value(b)) * 16 + hex_value(c)) * 16 + hex_value(d)
}

/// What a byte does between characters.
fn plain_move(b: u8) -> TextMove
    ensures { move_view result b ≡ text_move TextPlace.Plain b }
{
    match b {
        b'"' => TextMove::Ends,
        b'\\' => TextMove::Skips(TextPlace::Escaped),
        0..=31 | 0x80..=0xC1 => TextMove::Wrong,
        32..=0x7F => TextMove::Adds(TextPlace::Plain),
        0xC2..=0xDF => TextMove::Adds(TextPlace::Last),
        0xE0 => TextMove::Adds(TextPlace::TwoHigh),
        0xED => TextMove::Adds(TextPlace::TwoLow),
        0xE1..=0xEF => TextMove::Adds(TextPlace::Two),
        0xF0 => TextMove::Adds(TextPlace::ThreeHigh),
        0xF1..=0xF3 => TextMove::Adds(TextPlace::Three),
        0xF4 => TextMove::Adds(TextPlace::ThreeLow),
        _ => TextMove::Wrong,
    }
}

/// A byte in a range leads to a place.
fn within_move(b: u8, low: u8, high: u8, next: TextPlace) -> TextMove
    ensures { move_view result b ≡ within_move low high next b }
{
    if low <= b && b <= high {
        TextMove::Adds(next)
    } else {
        TextMove::Wrong
    }
}

/// A byte that fits leads to a place.
fn digit_move(b: u8, fits: bool, next: TextPlace) -> TextMove
    ensures { move_view result b ≡ digit_move fits next }
{
    if fits {
        TextMove::Skips(next)
    } else {
        TextMove::Wrong
    }
}

/// What a byte does behind a backslash.
fn escaped_move(b: u8) -> TextMove
    ensures { move_view result b ≡ text_move TextPlace.Escaped b }
{
    match b {
        b'u' => TextMove::Skips(TextPlace::Hex1),
        b'"' | b'\\' | b'/' => TextMove::Means(b),
        b'b' => TextMove::Means(8),
        b'f' => TextMove::Means(12),
        b'n' => TextMove::Means(b'\n'),
        b'r' => TextMove::Means(b'\r'),
        b't' => TextMove::Means(b'\t'),
        _ => TextMove::Wrong,
    }
}

/// The number of a character stands for it.
fn code_move(b: u8, code: u32) -> TextMove
    ensures { move_view result b ≡ code_move code }
{
    match char::from_u32(code) {
        Some(character) => TextMove::Codes(character),
        None => TextMove::Wrong,
    }
}

/// The number of four digits stands for a character, or is a first surrogate.
fn first_code_move(b: u8, code: u32) -> TextMove
    ensures { move_view result b ≡ first_code_move code }
{
    if code >= 0xD800 && code <= 0xDBFF {
        TextMove::Skips(TextPlace::Backslash(code as u16))
    } else {
        code_move(b, code)
    }
}

/// The number of the character that two surrogates stand for.
fn paired_code(high: u16, low: u32) -> u32
    requires { low < 2000000 }
    ensures { result ≡ paired_code high low }
{
    0x10000 + (high as u32).saturating_sub(0xD800) * 0x400 + low.saturating_sub(0xDC00)
}

impl TextMove {
    /// What a byte does at a place of a text.
    pub fn of(place: TextPlace, b: u8) -> TextMove
        ensures { move_view result b ≡ text_move place b }
    {
        match place {
            TextPlace::Plain => plain_move(b),
            TextPlace::Last => within_move(b, 0x80, 0xBF, TextPlace::Plain),
            TextPlace::Two => within_move(b, 0x80, 0xBF, TextPlace::Last),
            TextPlace::TwoHigh => within_move(b, 0xA0, 0xBF, TextPlace::Last),
            TextPlace::TwoLow => within_move(b, 0x80, 0x9F, TextPlace::Last),
            TextPlace::Three => within_move(b, 0x80, 0xBF, TextPlace::Two),
            TextPlace::ThreeHigh => within_move(b, 0x90, 0xBF, TextPlace::Two),
            TextPlace::ThreeLow => within_move(b, 0x80, 0x8F, TextPlace::Two),
            TextPlace::Escaped => escaped_move(b),
            _ => TextMove::of_digits(place, b),
        }
    }

    /// What a byte does at a place among the digits of an escape.
    fn of_digits(place: TextPlace, b: u8) -> TextMove
        ensures { IsTrue (is_among_digits place) → move_view result b ≡ text_move place b }
    {
        let is_digit = is_hex(b);
        let value = hex_value(b);
        match place {
            TextPlace::Hex1 => digit_move(b, is_digit, TextPlace::Hex2(b)),
            TextPlace::Hex2(x) => {
                let fits = hex_value(x) != 13 || value <= 11;
                digit_move(b, is_digit && fits, TextPlace::Hex3(x, b))
            }
            TextPlace::Hex3(x, y) => digit_move(b, is_digit, TextPlace::Hex4(x, y, b)),
            TextPlace::Hex4(x, y, z) if is_digit => first_code_move(b, code_of(x, y, z, b)),
            TextPlace::Backslash(high) => digit_move(b, b == b'\\', TextPlace::Letter(high)),
            TextPlace::Letter(high) => digit_move(b, b == b'u', TextPlace::Low1(high)),
            TextPlace::Low1(high) => digit_move(
                b,
                is_digit && value == 13,
                TextPlace::Low2(high, b),
            ),
            TextPlace::Low2(high, x) => digit_move(
                b,
                is_digit && value >= 12,
                TextPlace::Low3(high, x, b),
            ),
            TextPlace::Low3(high, x, y) => digit_move(b, is_digit, TextPlace::Low4(high, x, y, b)),
            TextPlace::Low4(high, x, y, z) if is_digit => code_move(
                b,
                paired_code(high, code_of(x, y, z, b)),
            ),
            _ => TextMove::Wrong,
        }
    }
}
