/// Where a reader stands inside a number.
#[derive(Clone, Copy)]
pub enum NumberPlace {
    /// Behind the minus.
    Minus,
    /// Behind a zero that is the whole part.
    Zero,
    /// Among the digits of another whole part.
    Whole,
    /// Behind the point.
    Point,
    /// Among the digits of the fraction.
    Fraction,
    /// Behind the `e`.
    Mark,
    /// Behind the exponent's sign.
    Sign,
    /// Among the digits of the exponent.
    Exponent,
}
