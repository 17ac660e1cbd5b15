//! The laws of kept counts. A law's function does nothing: what it ensures is proved.

ghost use Rattle.vx_counts.specs.Laws.{OthersStay, EachCounted, CountedByOwn, LegalPlace, StandsPut, PutNow, PutStays, FirstOfTaken, BegunFirst, BegunStays, LastIsFirst, LastTakenFirst, DroppedComplete, DroppedBegun, ConfirmsAll, OneOwner, SourceIs, TransformIs, SinkIs, AllMet};

/// An entry leaves the counts of each instance that it doesn't count for; and it counts for an instance or leaves it be. One of
/// another task counts only as a notice, or as a copy that was dropped as the newest.
pub fn others()
    ensures stay { OthersStay }
    ensures each { EachCounted }
    ensures own { CountedByOwn }
{}

/// A copy that is spent stands where its outcome says, and was put there in a whole parcel. What was put stays so.
pub fn places()
    ensures place { LegalPlace }
    ensures put { StandsPut }
    ensures now { PutNow }
    ensures stays { PutStays }
{}

/// Of a parcel that was taken the first copy comes first, and no other.
pub fn firsts()
    ensures { FirstOfTaken }
{}

/// What stands anywhere are first parts of the parcels that were put there, as long as what is spent is the last copy of what is left
/// of a parcel, and an Answer leaves first parts too. That last copy came first in its parcel exactly where no other is left.
pub fn parts()
    ensures none { BegunFirst }
    ensures stays { BegunStays }
    ensures last { LastIsFirst }
    ensures taken { LastTakenFirst }
{}

/// What a transform discards counts once for each parcel that it took, where it discards whole parcels, or what is left of them.
pub fn discards()
    ensures whole { DroppedComplete }
    ensures begun { DroppedBegun }
{}

/// A confirm names each stream that was confirmed before it.
pub fn confirms()
    ensures { ConfirmsAll }
{}

/// A batch is of one instance.
pub fn owners()
    ensures { OneOwner }
{}

/// The classes of sources, transforms and sinks.
pub fn roles()
    ensures source { SourceIs }
    ensures transform { TransformIs }
    ensures sink { SinkIs }
{}

/// What is kept of each instance is what is told of all.
pub fn all()
    ensures { AllMet }
{}
