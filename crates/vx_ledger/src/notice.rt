use vx_status::BatchStatus;

/// What a source is told once the last live copy of one of its batches is spent.
#[derive(Clone, Copy, PartialEq, Eq, Debug)]
pub struct Notice {
    /// The batch's number.
    pub batch: u64,
    /// The instance that gave birth to the batch.
    pub instance: u32,
    /// The status of the whole batch.
    pub status: BatchStatus,
}
