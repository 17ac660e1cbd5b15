ghost use Rattle.std.specs.Prelude.{◌≡◌};
ghost use Rattle.vx_condition.specs.Words.{letters_of};

/// A word of the grammar that has more than one byte.
#[derive(Clone, Copy)]
pub enum FixedWord {
    /// `exists`.
    Exists,
    /// `contains`.
    Contains,
    /// `match`.
    Match,
    /// `&&`.
    And,
    /// `||`.
    Or,
    /// `==`.
    Equals,
    /// `!=`.
    Differs,
    /// `true`.
    True,
    /// `false`.
    False,
    /// `null`.
    Null,
}

impl FixedWord {
    /// Its letters.
    pub fn letters(self) -> &'static str
        ensures { result.now ≡ letters_of self }
    {
        match self {
            FixedWord::Exists => "exists",
            FixedWord::Contains => "contains",
            FixedWord::Match => "match",
            FixedWord::And => "&&",
            FixedWord::Or => "||",
            FixedWord::Equals => "==",
            FixedWord::Differs => "!=",
            FixedWord::True => "true",
            FixedWord::False => "false",
            FixedWord::Null => "null",
        }
    }
}
