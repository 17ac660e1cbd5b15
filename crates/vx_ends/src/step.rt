use vx_value::{Bytes, ItemList};

/// What a port in memory answers to a take.
#[derive(Drop)]
pub enum Step {
    /// These bytes of the stream. Where there are more than the buffer holds, they come in parts.
    Bytes { stream: u64, bytes: Bytes },
    /// The stream has ended.
    StreamEnded(u64),
    /// Every stream has ended.
    AllEnded,
    /// There is nothing now.
    Idle,
    /// The take fails.
    Fail,
}

/// The steps of a script, in order.
pub type StepList = ItemList<Step>;
