/// How two values of one field are merged, the one that is there so far and one that comes.
#[derive(Clone, Copy)]
pub enum How {
    /// The one so far.
    Discard,
    /// The one that comes, unless it is null.
    Retain,
    /// Their sum, held at the ends of 64 bits, where both are whole numbers; else the one so far.
    Sum,
    /// The greater one where both are whole numbers; else the one so far.
    Max,
    /// The lesser one where both are whole numbers; else the one so far.
    Min,
    /// Both with a blank between where both are texts; else the one so far.
    Concat,
    /// Both with a line feed between where both are texts; else the one so far.
    ConcatNewline,
    /// Both without anything between where both are texts; else the one so far.
    ConcatRaw,
    /// A list of all of them.
    Array,
}
