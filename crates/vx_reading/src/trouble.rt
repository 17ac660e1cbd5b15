/// What is wrong at a path of a document. The earlier kinds are tried first.
#[derive(Clone, Copy, PartialEq, Eq, Debug)]
pub(crate) enum Trouble {
    /// The type isn't one of its table.
    UnknownKind,
    /// There is no such option.
    UnknownOption,
    /// The option has to be there and isn't.
    MissingOption,
    /// The value isn't what its option takes, or the name isn't one.
    BadValue,
    /// There are so many, and may be so many.
    TooMany { found: u64, limit: u64 },
}
