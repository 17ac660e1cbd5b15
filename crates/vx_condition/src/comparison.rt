ghost use Rattle.std.specs.Prelude.{◌≡◌};
ghost use Rattle.vx_condition.specs.Meaning.{compares};

/// How two whole numbers are compared.
#[derive(Clone, Copy)]
pub enum Comparison {
    /// `<`.
    Less,
    /// `<=`.
    AtMost,
    /// `>`.
    Greater,
    /// `>=`.
    AtLeast,
}

impl Comparison {
    /// Whether a number compares so to another.
    pub fn holds(self, number: i64, other: i64) -> bool
        ensures { result ≡ compares self number other }
    {
        match self {
            Comparison::Less => number < other,
            Comparison::AtMost => number <= other,
            Comparison::Greater => number > other,
            Comparison::AtLeast => number >= other,
        }
    }
}
