/// Where a file is read from that no checkpoint tells of.
#[derive(Clone, Copy, PartialEq, Eq, Debug)]
pub enum ReadFrom {
    /// From its beginning.
    Beginning,
}
