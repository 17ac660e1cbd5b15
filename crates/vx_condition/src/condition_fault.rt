/// Why a text isn't read as a condition.
#[derive(Clone, Copy, Debug)]
pub enum ConditionFault {
    /// The text is no condition.
    Syntax {
        /// The length of its longest prefix that begins one, in bytes.
        at: u64,
    },
    /// A `!` or a bracket opens the 33rd level, before any other fault.
    Deep {
        /// Its place in bytes, from 0.
        at: u64,
    },
    /// The text is a condition but for a pattern that `regex` refuses.
    BadPattern {
        /// The place of the pattern's `r`, in bytes from 0.
        at: u64,
    },
    /// No memory was found.
    WantOfMemory,
}
