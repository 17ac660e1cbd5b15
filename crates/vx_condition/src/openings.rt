//! What the bytes of a condition lead to, where something is expected.
ghost use Rattle.std.specs.Prelude.{◌≡◌, true};
ghost use Rattle.vx_condition.specs.Grammar.{is_blank, is_digit};
ghost use Rattle.vx_condition.specs.Moves.{operand_mode, operator_mode, number_mode, begins_number, word_mode, literal_mode, argument_mode, behind_path, equal_to, with_number, or_equal};

use crate::call::{Call, Search};
use crate::comparison::Comparison;
use crate::expected::Expected;
use crate::fixed_word::FixedWord;
use crate::literal::Literal;
use crate::mode::{Behind, Mode, PathUse, TextUse};
use crate::operator::{Equality, Operator};
use crate::predicate::Predicate;
use std::alloc::Global;
use vx_value::{ItemList, Path, PathMode};

/// Whether a byte is a blank.
pub fn is_blank(byte: u8) -> bool
    ensures { result ≡ is_blank byte }
{
    byte == b'\t' || byte == b'\n' || byte == b'\r' || byte == b' '
}

/// Whether a byte is a digit.
pub fn is_digit(byte: u8) -> bool
    ensures { result ≡ is_digit byte }
{
    b'0' <= byte && byte <= b'9'
}

/// Where the first byte of a term leads, other than `!` and a bracket.
pub fn operand_mode(alloc: Global, byte: u8) -> Option<Mode>
    ensures { result ≡ operand_mode byte }
{
    if byte == b'.' {
        let name = ItemList::new(alloc);
        Some(Mode::Path(
            PathUse::Compared,
            PathMode::Name,
            name,
            ItemList::new(alloc),
        ))
    } else if byte == b'e' {
        Some(called(FixedWord::Exists, Call::Exists))
    } else if byte == b'c' {
        Some(called(FixedWord::Contains, Call::Has(Search::Part)))
    } else if byte == b'm' {
        Some(called(FixedWord::Match, Call::Has(Search::Pattern)))
    } else {
        None
    }
}

// Behind the first letter of a call's name.
fn called(name: FixedWord, call: Call) -> Mode
    ensures { result ≡ Mode.Word name 1 (Behind.Wants (Expected.Open call)) }
{
    Mode::Word(name, 1, Behind::Wants(Expected::Open(call)))
}

/// Where the first byte of an operator leads.
pub fn operator_mode(path: Path, byte: u8) -> Option<Mode>
    ensures { result ≡ operator_mode path byte }
{
    if byte == b'=' {
        let literal = Expected::Literal(path, Operator::Is(Equality::Equal));
        Some(Mode::Word(FixedWord::Equals, 1, Behind::Wants(literal)))
    } else if byte == b'!' {
        let literal = Expected::Literal(path, Operator::Is(Equality::Different));
        Some(Mode::Word(FixedWord::Differs, 1, Behind::Wants(literal)))
    } else if byte == b'<' {
        Some(Mode::Angle(path, Comparison::Less))
    } else if byte == b'>' {
        Some(Mode::Angle(path, Comparison::Greater))
    } else {
        None
    }
}

/// The predicate that a value is a literal, or isn't.
pub fn equal_to(path: Path, equality: Equality, literal: Literal) -> Predicate
    ensures { result ≡ equal_to path equality literal }
{
    match equality {
        Equality::Equal => Predicate::Equal(path, literal),
        Equality::Different => Predicate::Different(path, literal),
    }
}

/// The predicate of a path, an operator and a whole number.
pub fn with_number(path: Path, operator: Operator, number: i64) -> Predicate
    ensures { result ≡ with_number path operator number }
{
    match operator {
        Operator::Is(equality) => equal_to(path, equality, Literal::Whole(number)),
        Operator::Compared(comparison) => Predicate::Compared(path, comparison, number),
    }
}

// Whether a byte begins a whole number.
fn begins_number(byte: u8) -> bool
    ensures { result ≡ begins_number byte }
{
    byte == b'-' || is_digit(byte)
}

// Where the first byte of a whole number leads.
fn number_mode(path: Path, operator: Operator, byte: u8) -> Mode
    requires { begins_number byte ≡ true }
    ensures { result ≡ number_mode path operator byte }
{
    if byte == b'-' {
        Mode::Minus(path, operator)
    } else {
        Mode::Whole(path, operator, false, u64::from(byte - b'0'))
    }
}

// Where the first byte of another literal leads.
fn word_mode(alloc: Global, path: Path, equality: Equality, byte: u8) -> Option<Mode>
    ensures { result ≡ word_mode path equality byte }
{
    if byte == b'"' {
        let held = ItemList::new(alloc);
        Some(Mode::Text(TextUse::Literal(path, equality), false, held))
    } else if byte == b't' {
        let done = equal_to(path, equality, Literal::Truth(true));
        Some(Mode::Word(FixedWord::True, 1, Behind::Done(done)))
    } else if byte == b'f' {
        let done = equal_to(path, equality, Literal::Truth(false));
        Some(Mode::Word(FixedWord::False, 1, Behind::Done(done)))
    } else if byte == b'n' {
        let done = equal_to(path, equality, Literal::Null);
        Some(Mode::Word(FixedWord::Null, 1, Behind::Done(done)))
    } else {
        None
    }
}

/// Where the first byte of a literal leads.
pub fn literal_mode(alloc: Global, path: Path, operator: Operator, byte: u8) -> Option<Mode>
    ensures { result ≡ literal_mode path operator byte }
{
    if begins_number(byte) {
        return Some(number_mode(path, operator, byte));
    }
    match operator {
        Operator::Is(equality) => word_mode(alloc, path, equality, byte),
        Operator::Compared(_) => None,
    }
}

/// Where the first byte of an argument leads.
pub fn argument_mode(alloc: Global, search: Search, path: Path, byte: u8) -> Option<Mode>
    ensures { result ≡ argument_mode search path byte }
{
    match search {
        Search::Part => {
            if byte == b'"' {
                Some(Mode::Text(TextUse::Part(path), false, ItemList::new(alloc)))
            } else {
                None
            }
        }
        Search::Pattern => {
            if byte == b'r' {
                Some(Mode::Mark(path))
            } else {
                None
            }
        }
    }
}

/// What comes behind a path.
pub fn behind_path(use_of: PathUse, path: Path) -> Expected
    ensures { result ≡ behind_path use_of path }
{
    match use_of {
        PathUse::Compared => Expected::Operator(path),
        PathUse::Called(call) => match call {
            Call::Exists => Expected::Close(Predicate::Exists(path)),
            Call::Has(search) => Expected::Comma(search, path),
        },
    }
}

/// The comparison with or equal.
pub fn or_equal(comparison: Comparison) -> Comparison
    ensures { result ≡ or_equal comparison }
{
    match comparison {
        Comparison::Less => Comparison::AtMost,
        Comparison::Greater => Comparison::AtLeast,
        other => other,
    }
}
