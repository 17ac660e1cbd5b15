//! What holds of the balance beside its calls. The function does nothing: what it ensures is proved.

ghost use Rattle.vx_balance.specs.Promises.{AsideKept, AnyInTurn, BatchStays, CountsLive, SettledCloses, NoneCreated, OneHeld, OldestHeld, ChildrenNoted};

/// An entry that is no birth, split, spend or notice keeps the balance. Where there is one, any entry is in its turn. A copy
/// stays one of its batch whatever comes, and live copies are counted as the record's rules mean them. Where no batch is
/// open, nothing is left; where an instance created none of them, each batch of it is noticed. A live copy is held, and so is
/// the oldest parcel at a place. The lists that a split gives are the children that its entry has.
pub fn balance_laws()
    ensures aside { AsideKept }
    ensures turn { AnyInTurn }
    ensures stays { BatchStays }
    ensures live { CountsLive }
    ensures settled { SettledCloses }
    ensures created { NoneCreated }
    ensures one { OneHeld }
    ensures oldest { OldestHeld }
    ensures children { ChildrenNoted }
{}
