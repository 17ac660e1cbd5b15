/// What an item of a list has to be.
#[derive(Clone, Copy)]
pub(crate) enum Item {
    /// A text.
    Text,
    /// A table.
    Table,
    /// A text without a line feed.
    Line,
    /// The text of a path of fields.
    Path,
}
