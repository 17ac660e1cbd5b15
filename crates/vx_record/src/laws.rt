//! The laws of every legal record, and of every record of which some of that holds. A law's function does nothing: what it
//! ensures is proved.

ghost use Rattle.vx_record.specs.Laws.{OnePlace, PlacesMeant, LiveStands, LegalConserved, ConservedPlace, ConservedLive, LegalAccounted, AccountedOnce, AccountedLate, AccountedSo, AccountedReports, OneNotice, OneNoticeAtLast, NoEarlyNotice, NoticeAtOnce, NoSpentAfterNotice, NoticeReports, BeginningLegal, RunningStatus, DeliveredWhereGood, OneEvent, InputsParted, AnswerHolds, FlushEmpties, DiscardsGo, TickLast, PushesFirst, AttemptsWait, NumbersBounded, RoutingKept, NoLeaseAfterAbandon, PrefixGrows, LineGives, LineGivesNone, TextGives};
ghost use Rattle.vx_record.specs.Judges.{HeldIsGiven, HeldIsAnswered, FilteredThere, MayAnswerNow};
ghost use Rattle.vx_record.specs.Wirings.{WiringStays, StartedStays, ComponentOfFirst, TargetsOfFirst};
ghost use Rattle.vx_record.specs.Growth.{TakenGrows, GivenGrows, ConfirmedGrows, EndedGrows, SourceRises, TransformRises, SinkRises, SpentRises, TallyStays};

/// Each copy that a part of a legal record made was split once, or was spent once, or stands in one place, once.
pub fn one_place()
    ensures one { OnePlace }
    ensures meant { PlacesMeant }
    ensures live { LiveStands }
{}

/// The same of every record that takes copies only from where they stand: a legal one does.
pub fn conserved()
    ensures legal { LegalConserved }
    ensures one { ConservedPlace }
    ensures live { ConservedLive }
{}

/// Each batch has one notice, directly after the spend of its last copy, with the status that the tables fold.
pub fn one_notice()
    ensures one { OneNotice }
    ensures at_last { OneNoticeAtLast }
    ensures no_early { NoEarlyNotice }
    ensures at_once { NoticeAtOnce }
    ensures at_last_spent { NoSpentAfterNotice }
    ensures reports { NoticeReports }
{}

/// The same of every record in which each batch gets its notice: a legal one does.
pub fn accounted()
    ensures legal { LegalAccounted }
    ensures once { AccountedOnce }
    ensures late { AccountedLate }
    ensures so { AccountedSo }
    ensures reports { AccountedReports }
{}

/// One status for each batch, into which each spend is folded as it comes, is the status that the tables fold.
pub fn running_status()
    ensures running { RunningStatus }
    ensures good { DeliveredWhereGood }
{}

/// The copies of a parcel have one event, and copies are numbered below 2^63.
pub fn one_event()
    ensures event { OneEvent }
    ensures numbers { NumbersBounded }
{}

/// What a transform was given it has answered or not, a tick last, and behind an answer it holds what that discarded and
/// kept, which is nothing behind a flush; what it discarded is spent before it is leased again.
pub fn answering()
    ensures parted { InputsParted }
    ensures holds { AnswerHolds }
    ensures empties { FlushEmpties }
    ensures gone { DiscardsGo }
    ensures last { TickLast }
{}

/// A transform that judges event by event holds what it took since its last answer, or what that discarded and isn't spent;
/// and it may answer what it took as it judges.
pub fn judging()
    ensures given { HeldIsGiven }
    ensures answered { HeldIsAnswered }
    ensures filtered { FilteredThere }
    ensures may { MayAnswerNow }
{}

/// A parcel enters the first stage that has room, and what failed is attempted again when its wait is over.
pub fn waiting()
    ensures first { PushesFirst }
    ensures waits { AttemptsWait }
{}

/// The event that a record has of a line is the one that the line gives, and none where the line gives none.
pub fn line_events()
    ensures gives { LineGives }
    ensures gives_none { LineGivesNone }
    ensures text_gives { TextGives }
{}

/// Children go where the routing in force says, no Lease follows an Abandon, and what may be confirmed stays so.
pub fn routing_kept()
    ensures routing { RoutingKept }
    ensures leases { NoLeaseAfterAbandon }
    ensures prefix { PrefixGrows }
{}

/// What stood in a legal record at any time is a legal record.
pub fn beginnings()
    ensures { BeginningLegal }
{}

/// One Install begins a record, and numbers an instance for each component by its place in the plan.
pub fn first_wiring()
    ensures wiring { WiringStays }
    ensures started { StartedStays }
    ensures component { ComponentOfFirst }
    ensures targets { TargetsOfFirst }
{}

/// How one more entry changes the bytes that were taken and given, the ends that were told and what was confirmed.
pub fn growth()
    ensures taken { TakenGrows }
    ensures given { GivenGrows }
    ensures confirmed { ConfirmedGrows }
    ensures ended { EndedGrows }
{}

/// How one more entry changes the counts of an instance.
pub fn counting()
    ensures source { SourceRises }
    ensures transform { TransformRises }
    ensures sink { SinkRises }
    ensures spent { SpentRises }
    ensures stays { TallyStays }
{}
