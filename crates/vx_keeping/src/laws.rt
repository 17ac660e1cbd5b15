//! What holds of keepers beside their calls. The function does nothing: what it ensures is proved.

ghost use Rattle.vx_keeping.specs.Laws.{KeepsStays, MadeStays, KeepsGoesOn, MadeGoesOn, TicksStay, NoneTaken, OnlyHostsDiscard, NothingMade, NothingGiven, HoldsNothing, NothingTaken, ToAnswerTaken, ToAnswerTick, ToAnswerFlush, DueIs, TickIsDue, NoTickBefore, MadeMayBeNoted, OutputsKnown, NoneKept, MayAnswerMade};

/// A keeper that is a record's stays so with each entry more that leaves what the instance keeps, also before an answer. What was
/// made of all that is to be answered, which is what was taken, a tick behind that, or the flush, may be noted as the answer. A tick of
/// what reduces is due exactly once the moment of the next check is reached. An instance holds nothing exactly where its keeper has no
/// copy, and only what runs a host discards something.
pub fn keeping_laws()
    ensures keeps { KeepsStays }
    ensures made { MadeStays }
    ensures others { KeepsGoesOn }
    ensures others_made { MadeGoesOn }
    ensures ticks { TicksStay }
    ensures none { NoneTaken }
    ensures discards { OnlyHostsDiscard }
    ensures back { NothingMade }
    ensures given { NothingGiven }
    ensures holds { HoldsNothing }
    ensures empty { NothingTaken }
    ensures taken { ToAnswerTaken }
    ensures tick { ToAnswerTick }
    ensures flush { ToAnswerFlush }
    ensures due { DueIs }
    ensures tick_due { TickIsDue }
    ensures not_before { NoTickBefore }
    ensures notes { MadeMayBeNoted }
    ensures known { OutputsKnown }
    ensures nothing { NoneKept }
    ensures may { MayAnswerMade }
{}
