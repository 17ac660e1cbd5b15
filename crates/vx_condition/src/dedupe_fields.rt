use vx_value::{ItemList, Path, TextList};

/// A list of paths.
pub type PathList = ItemList<Path>;

/// What tells whether two events repeat each other.
#[derive(Drop)]
pub enum DedupeFields {
    /// The values at these paths.
    Match(PathList),
    /// All fields but those with these names.
    Ignore(TextList),
}
