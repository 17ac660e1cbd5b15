// The notes of a landing: each is one entry of the instance that comes back.
ghost use Rattle.std.specs.Prelude.{◌≡◌, ◌<◌, ◌≤◌, ◌&&◌, ℕ, nat_lt, length, take, true, false, IfSome, IfNone, IsSome, IsSomeAnd, IfErr, OnOk, OnErr};
ghost use Rattle.std.specs.Option.{is_none};
ghost use Rattle.std.specs.List.{list_any};
ghost use Rattle.vx_record.specs.declared.entry.Entry.TheVariants.{Read, Confirm, Idle, SourceLost, Attempt, Closed};
ghost use Rattle.vx_record.specs.Abandoning.{abandoned};
ghost use Rattle.vx_record.specs.Copies.{joined};
ghost use Rattle.vx_record.specs.Encoding.{encoded};
ghost use Rattle.vx_record.specs.Installs.{device_at, is_closed};
ghost use Rattle.vx_record.specs.Lists.{held};
ghost use Rattle.vx_record.specs.Places.Place.{Held};
ghost use Rattle.vx_record.specs.Reads.{bytes_taken};
ghost use Rattle.vx_record.specs.Records.{capped};
ghost use Rattle.vx_record.specs.Shifts.{at};
ghost use Rattle.vx_record.specs.Sourcing.{failed_starts, yield};
ghost use Rattle.vx_record.specs.Turns.{is_out, since_lease, is_turn_of, is_attempt_of, is_confirm_of};
ghost use Rattle.vx_ends.specs.declared.trouble.Reply.TheVariants.{Ok as WellTaken};
ghost use Rattle.std.specs.Prelude.{Some};
ghost use Rattle.vx_sourcecore.specs.NewLines.{AreNew};
ghost use Rattle.vx_sourcecore.specs.Abreast.{IsCutOf};
ghost use Rattle.vx_sourcecore.specs.Turns.{reading_of, cut_of, IsInRoom};
ghost use Rattle.vx_sourcecore.specs.declared.source.Turned.TheVariants.{Failed};
ghost use Rattle.vx_tasks.specs.Out.{AreDue, IsReadable, MayReadNow, MayAttemptNow, MayCloseNow, turn_entry};
ghost use Rattle.vx_places.specs.Views.{parcels_here};
ghost use Rattle.vx_instances.specs.Calls.{CountsAt};
ghost use Rattle.vx_record.specs.Additions.{OnlyAdds};
ghost use Rattle.vx_record.specs.Makers.{IsFor};
ghost use Rattle.vx_places.specs.Capacities.{SameCapacities};
ghost use Rattle.vx_instances.specs.Staying.{EachState, Stays};
ghost use Rattle.vx_ledger.specs.declared.short.Short.TheVariants.{WantOfMemory as NoMemory};
ghost use Rattle.vx_moves.specs.Answering.{MayAnswerNow};
ghost use Rattle.vx_moves.specs.Creating.{IsBirthShort};
ghost use Rattle.vx_moves.specs.Stands.{Stands};
ghost use Rattle.vx_landing.specs.Landings.{HasNoted, HasNotedRead, HasSpentBy, HasAnsweredBy, HasCreatedCutBatch, IsOwingNow, IsMarked, decides as decides_by, is_last as is_last_by, outcome_of as outcome_by};

use std::alloc::Global;
use std::snapshot::Snapshot;
use vx_ends::{Port, Position, Reply};
use vx_instances::Batching;
use vx_ledger::Short;
use vx_moves::EngineState;
use vx_sourcecore::{Cut, Turned};
use vx_status::Outcome;
use vx_tasks::{Confirmed, PortsList};
use vx_value::{Bytes, WantOfMemory};

// Notes a confirm that names what was due when the instance was leased.
pub(crate) fn note_confirm<P: Port>(engine: &mut EngineState<P>, i: u32, confirmed: &Confirmed)
    requires stands { Stands P.observed engine.old }
    requires within { i < length engine.old.states }
    requires out { is_out engine.old.log i ≡ true }
    requires once { list_any (is_confirm_of i) (since_lease engine.old.log i) ≡ false }
    requires due { AreDue engine.old.log i (Some confirmed.now.positions) }
    ensures { HasNoted P.observed i
        (Confirm i confirmed.now.positions confirmed.now.made) engine.old engine.new }
{
    engine.confirm(i, confirmed);
}

// Notes a turn in which the port had nothing, or failed to start and is tried again.
pub(crate) fn note_idle<P: Port>(engine: &mut EngineState<P>, i: u32, failed: bool)
    requires stands { Stands P.observed engine.old }
    requires within { i < length engine.old.states }
    requires out { is_out engine.old.log i ≡ true }
    requires once { list_any (is_turn_of i) (since_lease engine.old.log i) ≡ false }
    requires may { MayReadNow engine.old.log i }
    requires device { device_at engine.old.log i ≡ true }
    requires few { failed ≡ true → failed_starts engine.old.log i < 4 }
    ensures { HasNoted P.observed i (Idle i failed) engine.old engine.new }
{
    engine.idle(i, failed);
}

// Notes that a source is lost, by its fifth failed start in a row or by a failed take.
pub(crate) fn note_lost<P: Port>(engine: &mut EngineState<P>, i: u32, failed: bool)
    requires stands { Stands P.observed engine.old }
    requires within { i < length engine.old.states }
    requires fit { CountsAt engine.old.states i }
    requires out { is_out engine.old.log i ≡ true }
    requires once { list_any (is_turn_of i) (since_lease engine.old.log i) ≡ false }
    requires may { MayReadNow engine.old.log i }
    requires device { device_at engine.old.log i ≡ true }
    requires many { failed ≡ true → 4 ≤ failed_starts engine.old.log i }
    ensures { HasNoted P.observed i
        (SourceLost i (capped (bytes_taken engine.old.log i)) failed) engine.old engine.new }
{
    engine.lose(i, failed);
}

// Notes an attempt with all that the instance holds: it gave the first `sent` of some bytes, and was answered.
pub(crate) fn note_attempt<P: Port>(
    engine: &mut EngineState<P>,
    i: u32,
    all: &Snapshot<Bytes>,
    sent: u64,
    reply: Reply,
)
    requires stands { Stands P.observed engine.old }
    requires within { i < length engine.old.states }
    requires out { is_out engine.old.log i ≡ true }
    requires once { list_any (is_attempt_of i) (since_lease engine.old.log i) ≡ false }
    requires may { MayAttemptNow engine.old.log i }
    requires whole { all.now.value ≡ encoded engine.old.log i (at engine.old.log (Held i)) }
    requires fits { sent ≤ length all.now.value }
    requires well { reply ≡ WellTaken → sent ≡ length all.now.value }
    requires blackhole_ok { device_at engine.old.log i ≡ false → reply ≡ WellTaken }
    ensures { HasNoted P.observed i
        (Attempt i (joined (held engine.old.log i)) (take sent all.now.value) reply) engine.old
        engine.new }
{
    engine.attempt(i, all, sent, reply);
}

// Notes that the port of an instance that is out is closed for good.
pub(crate) fn note_closed<P: Port>(engine: &mut EngineState<P>, i: u32)
    requires stands { Stands P.observed engine.old }
    requires within { i < length engine.old.states }
    requires out { is_out engine.old.log i ≡ true }
    requires unclosed { is_closed engine.old.log i ≡ false }
    requires may { MayCloseNow engine.old.log i }
    ensures { HasNoted P.observed i (Closed i) engine.old engine.new }
{
    engine.close(i);
}

// How often in a row a port may fail to start before its source is lost, less one.
const MOST_STARTS: u32 = 4;

// Whether a failure is one of a start, and another may follow.
fn is_tried_again<P: Port>(engine: &EngineState<P>, i: u32, at_start: bool) -> bool
    requires stands { Stands P.observed engine.now }
    requires within { i < length engine.now.states }
    ensures { result ≡ (at_start && nat_lt (failed_starts engine.now.log i) 4) }
{
    let state = engine.states.get(i);
    at_start && state.facts.failed_starts < MOST_STARTS
}

// Notes that a source's port failed: a start is tried again four times in a row, and a take isn't.
pub(crate) fn note_failed<P: Port>(engine: &mut EngineState<P>, i: u32, at_start: bool)
    requires stands { Stands P.observed engine.old }
    requires within { i < length engine.old.states }
    requires fit { CountsAt engine.old.states i }
    requires out { is_out engine.old.log i ≡ true }
    requires once { list_any (is_turn_of i) (since_lease engine.old.log i) ≡ false }
    requires may { MayReadNow engine.old.log i }
    requires device { device_at engine.old.log i ≡ true }
    ensures { HasNoted P.observed i (turn_entry engine.old.log i (Failed at_start)) engine.old engine.new }
{
    if is_tried_again(engine, i, at_start) {
        note_idle(engine, i, true);
    } else {
        note_lost(engine, i, at_start);
    }
}

// Notes what a turn of a source took.
pub(crate) fn note_read<P: Port>(engine: &mut EngineState<P>, i: u32, turned: &Turned)
    requires stands { Stands P.observed engine.old }
    requires within { i < length engine.old.states }
    requires out { is_out engine.old.log i ≡ true }
    requires once { list_any (is_turn_of i) (since_lease engine.old.log i) ≡ false }
    requires may { MayReadNow engine.old.log i }
    requires readable { IsReadable engine.old.log i turned.now }
    requires whole { IsInRoom turned.now }
    requires lines { IsSomeAnd (reading_of turned.now)
        (λ reading. IfSome (cut_of turned.now)
        (λ cut. AreNew engine.old.log i reading.stream reading.took cut.new)) }
    ensures { IsSomeAnd (reading_of turned.now)
        (λ reading. HasNotedRead P.observed (is_none (cut_of turned.now)) i
        (Read i reading.stream reading.took) engine.old engine.new) }
{
    engine.read(i, turned);
}

// Marks that no memory was found to confirm, to read or to write: what the instance owes isn't known any more.
pub(crate) fn mark_out_of_memory<P: Port>(engine: &mut EngineState<P>, i: u32)
    requires stands { Stands P.observed engine.old }
    requires within { i < length engine.old.states }
    ensures { IsMarked P.observed
        (λ was is. is ≡ record was { facts = record was.facts { owing = true } }) i engine.old
        engine.new }
{
    engine.states.owed(i);
    engine.run.out_of_memory = true;
}

// Marks that no memory was found in the midst of an attempt: the port may have given bytes that no entry tells.
pub(crate) fn mark_starved<P: Port>(engine: &mut EngineState<P>, i: u32)
    requires stands { Stands P.observed engine.old }
    requires within { i < length engine.old.states }
    ensures { IsMarked P.observed
        (λ was is. is ≡ record was { facts = record was.facts { starved = true } }) i engine.old
        engine.new }
{
    engine.states.mark_starved(i);
    engine.run.out_of_memory = true;
}

// Whether an attempt of all that a sink holds that is answered so decides what becomes of it: it was answered, or no other may follow.
fn decides<P: Port>(engine: &EngineState<P>, i: u32, reply: Reply) -> bool
    requires stands { Stands P.observed engine.now }
    requires within { i < length engine.now.states }
    requires may { MayAttemptNow engine.now.log i }
    ensures { result ≡ decides_by engine.now.log i reply }
{
    let state = engine.states.get(i);
    match reply {
        Reply::Ok => true,
        Reply::Refused => true,
        Reply::Failed => is_last(state.batching, state.facts.failures),
    }
}

// Whether an attempt that fails behind so many is the last that a sink makes.
fn is_last(batching: Option<Batching>, failures: u64) -> bool
    ensures { (n : ℕ) → failures ≡ capped n → result ≡ is_last_by batching n }
{
    match batching {
        Some(batching) => batching.retries.attempts <= failures,
        None => true,
    }
}

// What becomes of the copies of an attempt, the last that is made.
fn outcome_of(reply: Reply) -> Outcome
    ensures { result ≡ outcome_by reply }
{
    match reply {
        Reply::Ok => Outcome::Delivered,
        Reply::Failed => Outcome::Attempts,
        Reply::Refused => Outcome::Refusal,
    }
}

// Notes an attempt with all that the instance holds, and spends that by its answer where that decides, unless the run is given up.
pub(crate) fn land_attempt<P: Port>(
    engine: &mut EngineState<P>,
    i: u32,
    all: &Snapshot<Bytes>,
    sent: u64,
    reply: Reply,
)
    requires stands { Stands P.observed engine.old }
    requires within { i < length engine.old.states }
    requires out { is_out engine.old.log i ≡ true }
    requires once { list_any (is_attempt_of i) (since_lease engine.old.log i) ≡ false }
    requires kept { IsSome (parcels_here engine.old.places (Held i)) }
    requires may { MayAttemptNow engine.old.log i }
    requires whole { all.now.value ≡ encoded engine.old.log i (at engine.old.log (Held i)) }
    requires fits { sent ≤ length all.now.value }
    requires well { reply ≡ WellTaken → sent ≡ length all.now.value }
    requires blackhole_ok { device_at engine.old.log i ≡ false → reply ≡ WellTaken }
    ensures { HasSpentBy P.observed i
        (Attempt i (joined (held engine.old.log i)) (take sent all.now.value) reply) reply engine.old
        engine.new }
{
    let decided = decides(engine, i, reply);
    note_attempt(engine, i, all, sent, reply);
    if !decided {
        return;
    }
    if engine.run.abandoned.is_none() {
        engine.spend_all_held(i, outcome_of(reply));
    }
}

// Notes what a transform answers that judged all that it holds, and spends what it discards as filtered, unless the run is given up.
// Where no memory was found for what is put out, what the instance owes isn't known any more.
pub(crate) fn land_judged<P: Port>(
    engine: &mut EngineState<P>,
    alloc: Global,
    i: u32,
    ports: &PortsList,
) -> Result<(), Short>
    requires stands { Stands P.observed engine.old }
    requires within { i < length engine.old.states }
    requires kept { IsSome (parcels_here engine.old.places (Held i)) }
    requires may { abandoned engine.old.log ≡ false → MayAnswerNow engine.old.log i ports.now }
    ensures stands { Stands P.observed engine.new }
    ensures kept { IsSome (parcels_here engine.new.places (Held i)) }
    ensures size { length engine.new.states ≡ length engine.old.states }
    ensures capacities { SameCapacities engine.old.places engine.new.places }
    ensures run { engine.new.run ≡ engine.old.run }
    ensures answered { OnOk result (HasAnsweredBy P.observed i ports.now engine.old engine.new) }
    ensures owing { OnErr result (IsOwingNow i engine.old.states engine.new.states) }
    ensures short { IfErr result (λ short. short ≡ NoMemory) }
    ensures unnoted { OnErr result (engine.new.log ≡ engine.old.log) }
{
    if engine.run.abandoned.is_some() {
        return Ok(());
    }
    match engine.answer(alloc, i, ports) {
        Ok(()) => {
            engine.spend_all_held(i, Outcome::Filtered);
            Ok(())
        }
        Err(WantOfMemory) => {
            engine.states.owed(i);
            Err(Short::WantOfMemory)
        }
    }
}

// Creates the batch of what a source's turn completed, if there is an event and the run isn't given up. Where that fails, what the
// instance owes isn't known any more.
pub(crate) fn create_cut_batch<P: Port>(
    engine: &mut EngineState<P>,
    alloc: Global,
    i: u32,
    stream: u64,
    cut: Cut,
) -> Result<(), Short>
    requires stands { Stands P.observed engine.old }
    requires within { i < length engine.old.states }
    requires yields { 0 < length cut.events →
        yield engine.old.log i
        ≡ Some (record { events = cut.events; stream = stream; end = cut.end }) }
    requires few { length cut.events ≤ 65536 }
    ensures stands { Stands P.observed engine.new }
    ensures size { length engine.new.states ≡ length engine.old.states }
    ensures capacities { SameCapacities engine.old.places engine.new.places }
    ensures run { engine.new.run ≡ engine.old.run }
    ensures created { OnOk result (HasCreatedCutBatch P.observed i stream cut engine.old engine.new) }
    ensures well { OnOk result (EachState Stays engine.old.states engine.new.states) }
    ensures owing { OnErr result (IsOwingNow i engine.old.states engine.new.states) }
    ensures short { IfErr result (IsBirthShort engine.old.log (length cut.events)) }
    ensures some { OnErr result (0 < length cut.events) }
    ensures unborn { OnErr result (engine.new.log ≡ engine.old.log) }
{
    let Cut {
        events,
        end,
        new: _,
    } = cut;
    if events.is_empty() {
        return Ok(());
    }
    if engine.run.abandoned.is_some() {
        return Ok(());
    }
    match engine.create_batch(alloc, i, Position { stream, end }, events) {
        Ok(()) => Ok(()),
        Err(short) => {
            engine.states.owed(i);
            Err(short)
        }
    }
}

// What was cut of a turn, with its stream, if memory was found for it.
pub(crate) fn into_cut(turned: Turned) -> Option<(u64, Cut)>
    ensures none { IfNone result (cut_of turned ≡ None) }
    ensures some { IfSome result
        (λ r. (cut_of turned ≡ Some r.1)
        × IsSomeAnd (reading_of turned) (λ reading. reading.stream ≡ r.0)) }
{
    match turned {
        Turned::Lines { stream, cut, .. } => with_stream(stream, cut),
        Turned::StreamEnded { stream, cut } => with_stream(stream, cut),
        Turned::AllEnded { stream, cut } => with_stream(stream, cut),
        Turned::Idle | Turned::Failed { .. } => None,
    }
}

// A cut, if there is one, with a stream.
fn with_stream(stream: u64, cut: Option<Cut>) -> Option<(u64, Cut)>
    ensures none { IfNone result (cut ≡ None) }
    ensures some { IfSome result (λ r. (cut ≡ Some r.1) × (stream ≡ r.0)) }
{
    match cut {
        Some(cut) => Some((stream, cut)),
        None => None,
    }
}
