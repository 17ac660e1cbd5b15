ghost use Rattle.std.specs.Prelude.{◌≡◌};

use vx_value::{Text, Value};

/// A value that is written in a condition.
#[derive(Drop)]
pub enum Literal {
    /// `null`.
    Null,
    /// `true` or `false`.
    Truth(bool),
    /// A whole number of 64 bits.
    Whole(i64),
    /// A text in quotes.
    Words(Text),
}

impl Literal {
    ghost use Rattle.vx_value.specs.Datum.{Null};
    ghost use Rattle.vx_value.specs.Values.{datum_of};
    ghost use Rattle.vx_condition.specs.Meaning.{is_literal};

    /// Whether a value is the one that is written.
    pub fn is(&self, value: &Value) -> bool
        ensures { result ≡ is_literal self.now (datum_of value.now) }
    {
        match self {
            Literal::Null => matches!(value, Value::Null),
            Literal::Truth(truth) => match value {
                Value::Truth(that) => *truth == *that,
                _ => false,
            },
            Literal::Whole(whole) => match value {
                Value::Whole(that) => *whole == *that,
                _ => false,
            },
            Literal::Words(words) => match value {
                Value::Words(that) => words.as_str() == that.as_str(),
                _ => false,
            },
        }
    }

    /// Whether it is `null`, for which a missing value counts.
    pub fn is_null(&self) -> bool
        ensures { result ≡ is_literal self.now Null }
    {
        matches!(self, Literal::Null)
    }
}
