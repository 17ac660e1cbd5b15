/// Why a value can't be put at a path.
#[derive(Clone, Copy, PartialEq, Eq, Debug)]
pub enum PutFault {
    /// The first `names` names of the path, and not all, lead to a value of another kind than Fields.
    Blocked {
        /// How many names, at least 1.
        names: u32,
    },
    /// The event would be deeper than 32.
    TooDeep,
    /// No memory was found.
    WantOfMemory,
}
