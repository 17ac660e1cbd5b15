/// Where an option stands in a table. What a table gives is `Alone` or `Within`.
#[derive(Clone, Copy)]
pub(crate) enum Place<'a> {
    /// By itself, under its name.
    Alone(&'a str),
    /// In a table of its own: the name of that table, and its name there.
    Within(&'a str, &'a str),
    /// By itself under the first name, or in a table of that name under the second.
    Either(&'a str, &'a str),
    /// In a table of that name, under each name that a port may have, so many times at most.
    Each(&'a str, usize),
    /// In a table of that name, under any name.
    Any(&'a str),
}
