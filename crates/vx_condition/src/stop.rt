/// Why a reader of a condition doesn't go on.
#[derive(Clone, Copy)]
pub enum Stop {
    /// No condition goes on so.
    Refused,
    /// A level too many is opened.
    Deep,
    /// A pattern of so many bytes is refused.
    BadPattern(usize),
    /// No memory was found.
    WantOfMemory,
}
