//! What the entries of one instance's task say by themselves, and who changes a task that is out. A law's function does nothing: what
//! it ensures is proved.

ghost use Rattle.std.specs.Prelude.{ℕ};
ghost use Rattle.std.specs.List.{list_any};
ghost use Rattle.vx_record.specs.declared.taken.Taken.{Taken};
ghost use Rattle.vx_record.specs.Turns.{is_out, lease_now, since_lease, is_turn_of, is_attempt_of, is_confirm_of};
ghost use Rattle.vx_record.specs.Installs.{is_closed, is_retired};
ghost use Rattle.vx_record.specs.Reads.{taken, bytes_taken, all_ended, is_lost, last_stream, ended_streams, stream_of, open_bytes};
ghost use Rattle.vx_record.specs.Sourcing.{failed_starts};
ghost use Rattle.vx_record.specs.Ceasing.{lost_at};
ghost use Rattle.vx_record.specs.Confirms.{births, confirmed, last_confirm, is_unconfirmed};
ghost use Rattle.vx_record.specs.Encoding.{given};
ghost use Rattle.vx_record.specs.SinkBatches.{taken_at, attempts_with, failures_with, failed_at};
ghost use Rattle.vx_record.specs.Spending.{last_attempted, last_reply};
ghost use Rattle.vx_record.specs.Owing.{last_discarded, took_since};
ghost use Rattle.vx_record.specs.Inputs.{ticks_wait};
ghost use Rattle.vx_record.specs.PortCounts.{fault_count, refusal_count, idle_count, finish_count, confirm_count};
ghost use Rattle.vx_record.specs.Tallies.{events_born, takes, sent_parcels, dropped_parcels, attempts_made, bytes_sent, confirmed_ends};
ghost use Rattle.vx_record.specs.Places.Place.{Outputs, Waiting, Held};
ghost use Rattle.vx_record.specs.Tasks.{IsOwn, out_to};
ghost use Rattle.vx_record.specs.ShiftLaws.{EntryShifts, StandsAt, IsOwnPlace};
ghost use Rattle.vx_record.specs.TaskLaws.{OthersLeave, OutToWorker, LeasedWhenUnleased, OutMadeBy, OthersSpare, WorkersSpare, NoneSpares, TasksSpare, TasklessSpares, SparedStays, LeaseStays, ReadingStays, ContentsGrow, SpentByTaker, TasksOut};

/// Entries of others leave the entries of a task. Whether an instance is out, to whom and since when, and whether its port was
/// closed or it was retired, is said by the entries of its task alone.
pub fn own_turns()
    ensures others { OthersLeave }
    ensures worker { IsOwn out_to }
    ensures out { IsOwn is_out }
    ensures moment { IsOwn lease_now }
    ensures closed { IsOwn is_closed }
    ensures retired { IsOwn is_retired }
{}

/// So is whether a source had its turn since its lease, whether a sink attempted, and whether a confirm was made or failed.
pub fn own_leases()
    ensures turned { IsOwn (λ h i. list_any (is_turn_of i) (since_lease h i)) }
    ensures attempted { IsOwn (λ h i. list_any (is_attempt_of i) (since_lease h i)) }
    ensures confirmed { IsOwn (λ h i. list_any (is_confirm_of i) (since_lease h i)) }
{}

/// So is what a source took, which ends it was told, what is open of its streams, and how it was lost.
pub fn own_reads()
    ensures taken { (stream : ℕ) → IsOwn (λ h i. taken h i stream) }
    ensures bytes { IsOwn bytes_taken }
    ensures all { IsOwn all_ended }
    ensures ended { IsOwn ended_streams }
    ensures last { IsOwn last_stream }
    ensures stream { (stream : ℕ) (took : Taken) → IsOwn (λ h i. stream_of h i stream took) }
    ensures open { (stream : ℕ) → IsOwn (λ h i. open_bytes h i stream) }
    ensures lost { IsOwn is_lost }
    ensures loss { IsOwn lost_at }
    ensures starts { IsOwn failed_starts }
{}

/// So are its births, what was confirmed to it, and the bytes that a sink gave.
pub fn own_confirms()
    ensures births { IsOwn births }
    ensures confirmed { IsOwn confirmed }
    ensures last { IsOwn last_confirm }
    ensures unconfirmed { IsOwn is_unconfirmed }
    ensures given { IsOwn given }
{}

/// So is when a sink took a copy, and how often it attempted it, how often and when that failed, and how the last attempt was
/// answered.
pub fn own_attempts()
    ensures taken { (c : ℕ) → IsOwn (λ h i. taken_at h i c) }
    ensures attempts { (c : ℕ) → IsOwn (λ h i. attempts_with h i c) }
    ensures failures { (c : ℕ) → IsOwn (λ h i. failures_with h i c) }
    ensures failed { (c : ℕ) → IsOwn (λ h i. failed_at h i c) }
    ensures attempted { IsOwn last_attempted }
    ensures reply { IsOwn last_reply }
{}

/// So is what a transform discarded last, whether it took a parcel since, and whether a tick waits for its answer.
pub fn own_answers()
    ensures discarded { IsOwn last_discarded }
    ensures took { IsOwn took_since }
    ensures ticks { IsOwn ticks_wait }
{}

/// So is how often a port failed, refused, had nothing, finished an attempt or took a confirm, and each count to which the entries of the task alone add.
pub fn own_counts()
    ensures faults { IsOwn fault_count }
    ensures refusals { IsOwn refusal_count }
    ensures idles { IsOwn idle_count }
    ensures finishes { IsOwn finish_count }
    ensures confirms { IsOwn confirm_count }
    ensures events { IsOwn events_born }
    ensures takes { IsOwn takes }
    ensures sent { IsOwn sent_parcels }
    ensures dropped { IsOwn dropped_parcels }
    ensures attempts { IsOwn attempts_made }
    ensures bytes { IsOwn bytes_sent }
    ensures ends { IsOwn confirmed_ends }
{}

/// What stands at a place is what the entries of a legal record made of it, one by one: of what an instance puts out, sends and
/// holds, the entries of its task alone.
pub fn shifts()
    ensures entry { EntryShifts }
    ensures stands { StandsAt }
    ensures outputs { IsOwnPlace Outputs }
    ensures waiting { (t : ℕ) → IsOwnPlace (λ i. Waiting i t) }
    ensures held { IsOwnPlace Held }
{}

/// An instance is out to one worker, and while it is out, its task changes by entries of that worker alone: what it holds, its
/// bytes and its positions stay whatever others do.
pub fn tasks_out()
    ensures worker { OutToWorker }
    ensures unleased { LeasedWhenUnleased }
    ensures made { OutMadeBy }
    ensures others { OthersSpare }
    ensures workers { WorkersSpare }
    ensures nobody { NoneSpares }
    ensures tasks { TasksSpare }
    ensures taskless { TasklessSpares }
    ensures spared { SparedStays }
    ensures lease { LeaseStays }
    ensures reading { ReadingStays }
    ensures contents { ContentsGrow }
    ensures spent { SpentByTaker }
    ensures out { TasksOut }
{}
