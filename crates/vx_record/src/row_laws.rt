//! What every legal record says of its entries beside their rows. A law's function does nothing: what it ensures is proved.

ghost use Rattle.vx_record.specs.Promises.{TurnUnlost, TurnUndry, ClosedTakesNoMore, LeasedRuns, LeasedSpent, InForceAccepted, ComponentInPlace, RetiredBare, UnaskedToStop, SpentAbandoned, TransformsFilter, UnconsumedUnread, SourceUnread, DecidedHeld, HeldFailed, SpentFailed, SplitReaders, SourceSplits, AttemptNames, AttemptDue, AttemptEncodes};

/// A source wasn't lost and isn't dry where it takes its turn; one whose port is closed for good was told the end of all, or was
/// lost, or the run was given up.
pub fn source_laws()
    ensures unlost { TurnUnlost }
    ensures undry { TurnUndry }
    ensures closed { ClosedTakesNoMore }
{}

/// The plan in force may be installed.
pub fn plan_laws()
    ensures accepted { InForceAccepted }
{}

/// What is leased runs a component, which is the one in its place, and has spent each copy of which an attempt decided.
pub fn lease_laws()
    ensures runs { LeasedRuns }
    ensures in_place { ComponentInPlace }
    ensures spent { LeasedSpent }
{}

/// What is retired is bare, and no run is given up for a limit after a stop.
pub fn end_laws()
    ensures bare { RetiredBare }
    ensures unasked { UnaskedToStop }
{}

/// Copies are spent as abandoned behind an abandonment, as filtered by transforms alone, without a consumer where nobody
/// reads their ports, and held where a device or a transform decided. A split is for the readers of its ports.
pub fn spend_laws()
    ensures left { SpentAbandoned }
    ensures filtered { TransformsFilter }
    ensures unread { UnconsumedUnread }
    ensures of_source { SourceUnread }
    ensures decided { DecidedHeld }
    ensures readers { SplitReaders }
    ensures source_readers { SourceSplits }
{}

/// Of what is attempted each attempt before failed, and fewer than may; it is due, and has a codec where there is a port; what is
/// spent as failed was in the last attempt, which failed.
pub fn attempt_laws()
    ensures held { HeldFailed }
    ensures failed { SpentFailed }
    ensures names { AttemptNames }
    ensures due { AttemptDue }
    ensures encodes { AttemptEncodes }
{}
