ghost use Rattle.std.specs.Prelude.{◌≡◌};
ghost use Rattle.vx_record.specs.Tally.{nothing_counted};

/// The counts of one instance. Each stands still at its type's end; those of another class are 0.
#[derive(Clone, Copy, PartialEq, Eq, Debug)]
pub struct Tally {
    /// Bytes that a source took.
    pub read: u64,
    /// Lines of a source that were not too long.
    pub lines: u64,
    /// Lines that were too long.
    pub overlong: u64,
    /// Lines of which no event could be made.
    pub undecodable: u64,
    /// Events that a source made.
    pub events: u64,
    /// Events that nobody read.
    pub unread: u64,
    /// Batches that a source made.
    pub batches: u64,
    /// A source's batches, or a sink's events, that were delivered.
    pub delivered: u64,
    /// Those that failed.
    pub errored: u64,
    /// Those that were refused.
    pub rejected: u64,
    /// The ends of the last confirmed positions of a source's streams, together.
    pub confirmed: u64,
    /// Events that a transform or sink took from its buffer.
    pub taken: u64,
    /// Events that a transform put out.
    pub sent: u64,
    /// Events that a transform discarded.
    pub dropped: u64,
    /// Events that a sink's full buffer dropped.
    pub newest: u64,
    /// Attempts of a sink.
    pub attempts: u64,
    /// Bytes that a sink sent, in all its attempts.
    pub bytes: u64,
}

impl Tally {
    /// The counts of an instance that did nothing.
    pub fn zero() -> Self
        ensures { result ≡ nothing_counted }
    {
        Tally {
            read: 0,
            lines: 0,
            overlong: 0,
            undecodable: 0,
            events: 0,
            unread: 0,
            batches: 0,
            delivered: 0,
            errored: 0,
            rejected: 0,
            confirmed: 0,
            taken: 0,
            sent: 0,
            dropped: 0,
            newest: 0,
            attempts: 0,
            bytes: 0,
        }
    }
}
