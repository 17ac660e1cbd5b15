//! What holds of the places beside their calls. The functions do nothing: what they ensure is proved.

ghost use Rattle.vx_places.specs.Laws.{HoldsStep, StillShifts, SpentShifts, LentSpentShifts, SameHolds, KeeperHolds, TakenKnown, BackSame, OldestThere, PortsThere, LentIs, LentComesBack, NoneHolds, HeldSays, OutputIs, NoneWaitsIs, AwaitsIs, SentIs, SomeIs, BufferIs, HoldsIs, BareIs, ClearIs, ClearBareIs, EndedWhere, FirstRoomIs, FirstFilledIs, FilledThere, LentFilled, StandsThere};

/// Places that are a record's stay so with each entry as which they shift, of whatever kind; an entry that moves nothing shifts
/// nothing, and where a copy is gone they shift as its spend, or stay as they are where that was among what is lent. They stay so
/// with an instance more that has a keeper. What stands first at a place is the record's oldest there, and what is taken from one is
/// known. An output is on the ports on which the record has it put out; one that is taken and put back leaves the places as they
/// were. What is lent is what the record has there, and what it has there later may come back. No parcel at a place is empty, and
/// each copy at one is live and stands at the place's owner. An instance's places may be ended where they are bare, or clear while
/// what it holds is lent.
pub fn places_laws()
    ensures step { HoldsStep }
    ensures still { StillShifts }
    ensures spent { SpentShifts }
    ensures spent_lent { LentSpentShifts }
    ensures same { SameHolds }
    ensures keeper { KeeperHolds }
    ensures taken { TakenKnown }
    ensures put_back { BackSame }
    ensures oldest { OldestThere }
    ensures ports { PortsThere }
    ensures lent { LentIs }
    ensures back { LentComesBack }
    ensures none { NoneHolds }
    ensures says { HeldSays }
    ensures filled { FilledThere }
    ensures lent_filled { LentFilled }
    ensures stands { StandsThere }
    ensures ended { EndedWhere }
{}

/// What is asked of the places of a legal record is what the record has there: outputs, waiting children, the parcels in the stages
/// of a buffer and those that are held, whether an instance sent everything, is bare, or is so but for what it holds, and the first
/// stage that has room, or a parcel.
pub fn looks_laws()
    ensures output { OutputIs }
    ensures waiting { NoneWaitsIs }
    ensures awaits { AwaitsIs }
    ensures sent { SentIs }
    ensures some { SomeIs }
    ensures buffer { BufferIs }
    ensures held { HoldsIs }
    ensures bare { BareIs }
    ensures clear { ClearIs }
    ensures clear_bare { ClearBareIs }
    ensures room { FirstRoomIs }
    ensures first { FirstFilledIs }
{}
