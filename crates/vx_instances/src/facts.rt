use vx_sinkcore::Schedule;

/// What happened to an instance so far.
#[derive(Clone, Copy, PartialEq, Eq, Debug)]
pub struct Facts {
    /// Whether it was told the end of all.
    pub over: bool,
    /// After how many bytes it was lost.
    pub lost: Option<u64>,
    /// How often in a row its port failed to start, at most 4.
    pub failed_starts: u32,
    /// Whether its last confirm failed.
    pub confirm_failed: bool,
    /// Whether its port is closed for good.
    pub closed: bool,
    /// Whether it ended.
    pub retired: bool,
    /// The moment of its last lease, in milliseconds.
    pub leased_at: u64,
    /// The moment from which on it may be read, if it is a source, in milliseconds.
    pub reads_from: u64,
    /// When the oldest parcel that it holds was taken, in milliseconds.
    pub since: u64,
    /// How often an attempt of what it holds failed.
    pub failures: u64,
    /// The moment of the lease under which the last of these was made, in milliseconds.
    pub failed_at: u64,
    /// Whether a batch that it read wasn't born, for want of numbers or memory, or memory was wanting before a confirm, a read or an
    /// attempt: what it owes isn't known any more.
    pub owing: bool,
    /// Whether memory was wanting while it cut what it read: what it counts isn't known any more.
    pub behind: bool,
    /// Whether its port may have given bytes that no entry tells, for want of memory.
    pub starved: bool,
}

/// How a sink collects a batch, and makes an attempt again that failed.
#[derive(Clone, Copy, PartialEq, Eq, Debug)]
pub struct Batching {
    /// How many parcels a batch may have.
    pub max_events: u32,
    /// How long a batch waits for more parcels, in milliseconds.
    pub timeout: u64,
    /// How often a failed attempt is made again, and how long that waits.
    pub retries: Schedule,
}
