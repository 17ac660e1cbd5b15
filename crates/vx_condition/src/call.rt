/// What is looked for in a text.
#[derive(Clone, Copy)]
pub enum Search {
    /// Another text, by `contains`.
    Part,
    /// A pattern, by `match`.
    Pattern,
}

/// A predicate that is written as a call.
#[derive(Clone, Copy)]
pub enum Call {
    /// `exists`.
    Exists,
    /// `contains` or `match`.
    Has(Search),
}
