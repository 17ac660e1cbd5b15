/// What one read of a device brought.
#[derive(Clone, Copy)]
pub(crate) enum ReadResult {
    /// So many bytes stand at the front of the buffer.
    Bytes(u32),
    /// There is nothing now.
    Nothing,
    /// Nothing comes any more.
    End,
}
