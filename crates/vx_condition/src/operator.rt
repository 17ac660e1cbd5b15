use crate::comparison::Comparison;

/// Whether a literal is wanted or not.
#[derive(Clone, Copy)]
pub enum Equality {
    /// `==`.
    Equal,
    /// `!=`.
    Different,
}

/// What stands between a path and a literal.
#[derive(Clone, Copy)]
pub enum Operator {
    /// `==` or `!=`.
    Is(Equality),
    /// `<` and its kin, which take whole numbers alone.
    Compared(Comparison),
}
