use vx_status::BatchStatus;

/// A batch of which some copy is live.
#[derive(Clone, Copy, Debug)]
pub struct OpenBatch {
    /// The number of its first copy.
    pub number: u64,
    /// Where the ledger keeps it. Each finalizer of the batch carries this place.
    pub place: u64,
    /// The instance that gave birth to it.
    pub instance: u32,
    /// How many of its copies are live.
    pub count: u64,
    /// The status of the copies that were spent.
    pub status: BatchStatus,
}
