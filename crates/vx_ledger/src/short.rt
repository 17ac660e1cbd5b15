/// Why copies were not made.
#[derive(Clone, Copy, PartialEq, Eq, Debug)]
pub enum Short {
    /// The copies would have had numbers past 2^63.
    Numbers {
        /// The number that the next copy would have had.
        next: u64,
        /// How many numbers were asked for, or 2^64 - 1 where they were more.
        wanted: u64,
    },
    /// No memory was found.
    WantOfMemory,
}
