use crate::item::Item;

/// What the value of an option has to be.
#[derive(Clone, Copy)]
pub(crate) enum Shape {
    /// A truth: `true` or `false`.
    Truth,
    /// A text.
    AnyText,
    /// One of some texts.
    OneOf(&'static [&'static str]),
    /// A list of texts, at most so many.
    Texts(usize),
    /// A condition: a text, or a table whose `type` is `vrl` and whose `source` is a text.
    Condition,
    /// A table, or a list of tables, one at least and at most so many: the stages of a buffer.
    Stages(usize),
    /// A whole number between two, both among them.
    Whole(u64, u64),
    /// A list of so many items at least.
    ListOf(Item, usize),
    /// A list of one text, in which no `*`, `?` or `[` stands.
    OneFile,
    /// A text in which no `{` stands.
    FixedText,
}
