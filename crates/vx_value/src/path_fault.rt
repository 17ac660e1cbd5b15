/// Why a text isn't read as a path.
#[derive(Clone, Copy, PartialEq, Eq, Debug)]
pub enum PathFault {
    /// The text is no path.
    Syntax {
        /// The length of its longest prefix that begins a path, in bytes.
        at: u64,
    },
    /// The path has more than 31 names.
    Long,
    /// No memory was found.
    WantOfMemory,
}
