/// Where a console sink writes.
#[derive(Clone, Copy, PartialEq, Eq, Debug)]
pub enum ConsoleTarget {
    /// Standard output.
    Stdout,
    /// Standard error.
    Stderr,
}
