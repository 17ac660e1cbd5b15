/// Why a run was abandoned.
#[derive(Clone, Copy, PartialEq, Eq, Debug)]
pub enum AbandonCause {
    /// The limit after a stop was reached while a copy was unspent. Moments and limit are in milliseconds.
    Grace { stopped: u64, now: u64, limit: u64 },
    /// The numbers of copies were used up: `next` was the next number, and `wanted` numbers were asked for.
    Numbers { next: u64, wanted: u64 },
    /// No memory was found.
    WantOfMemory,
}
