// What a sink or a transform that is out takes before its work leaves.
ghost use Rattle.std.specs.Prelude.{◌≡◌, ◌<◌, ◌||◌, length, true, false};
ghost use Rattle.vx_record.specs.Additions.{OnlyAdds};
ghost use Rattle.vx_record.specs.Installs.{sink_at};
ghost use Rattle.vx_record.specs.Lists.{buffered, held};
ghost use Rattle.vx_record.specs.Owing.{took_since};
ghost use Rattle.vx_record.specs.Turns.{since_lease};
ghost use Rattle.vx_record.specs.SinkBatches.{is_batch_closed as is_batch_closed_at, is_last_batch};
ghost use Rattle.vx_value.specs.Texts.{is_empty};
ghost use Rattle.vx_moves.specs.Leaving.{Leaves};
ghost use Rattle.vx_moves.specs.Stands.{Stands};
ghost use Rattle.vx_places.specs.Calls.{IsKept};
ghost use Rattle.vx_ready.specs.Asking.{IsServed};
ghost use Rattle.vx_ready.specs.Jobs.{failed_before, is_full_or_old};
ghost use Rattle.vx_tasks.specs.Out.{IsGiven};
ghost use Rattle.vx_hub.specs.Collecting.{OwesNothing, IsOut, IsCollecting, IsGathering, IsTakeOf, HasTaken, HasGatheredOne};
ghost use Rattle.vx_hub.specs.Leases.{takes_first, IsUnclosed};

use vx_ends::Port;
use vx_instances::{Batching, Facts};
use vx_moves::EngineState;
use vx_ready::is_ending;
use vx_tasks::Job;

/// How many parcels one lease takes from a buffer at the most.
const TAKES: u32 = 64;

/// Takes parcels for a sink that was leased at a moment, until its batch is closed, nothing is buffered, or so many were taken as
/// one lease takes. It takes no memory.
pub(crate) fn collect<P: Port>(engine: &mut EngineState<P>, i: u32, now: u64)
    requires stands { Stands P.observed engine.old }
    requires served { IsServed engine.old }
    requires within { i < length engine.old.states }
    requires collecting { IsCollecting engine.old i now 0 }
    ensures stands { Stands P.observed engine.new }
    ensures served { IsServed engine.new }
    ensures collecting { IsOut engine.new i now }
    ensures only { OnlyAdds (IsTakeOf i) engine.old.log engine.new.log }
    ensures leaves { Leaves engine.old engine.new }
    ensures size { length engine.new.states ≡ length engine.old.states }
{
    for taken in 0..TAKES {
        if !take_one(engine, i, now, taken) {
            return;
        }
    }
}

/// Takes parcels for a transform that was leased at a moment and has some in its buffer, until none is left there, or so many were
/// taken as one lease takes. It takes no memory.
pub(crate) fn take_inputs<P: Port>(engine: &mut EngineState<P>, i: u32, now: u64)
    requires stands { Stands P.observed engine.old }
    requires served { IsServed engine.old }
    requires within { i < length engine.old.states }
    requires fresh { length (since_lease engine.old.log i) ≡ 0 }
    requires gathering { IsGathering engine.old i now }
    requires some { is_empty (buffered engine.old.log i) ≡ false }
    ensures stands { Stands P.observed engine.new }
    ensures served { IsServed engine.new }
    ensures gathering { IsGathering engine.new i now }
    ensures took { took_since engine.new.log i ≡ true }
    ensures only { OnlyAdds (IsTakeOf i) engine.old.log engine.new.log }
    ensures leaves { Leaves engine.old engine.new }
    ensures size { length engine.new.states ≡ length engine.old.states }
{
    for _ in 0..TAKES {
        if !take_input(engine, i, now) {
            return;
        }
    }
}

/// Takes one more parcel for a transform; `false` where there is none to take.
fn take_input<P: Port>(engine: &mut EngineState<P>, i: u32, now: u64) -> bool
    requires stands { Stands P.observed engine.old }
    requires served { IsServed engine.old }
    requires within { i < length engine.old.states }
    requires few { length (since_lease engine.old.log i) < 64 }
    requires gathering { IsGathering engine.old i now }
    ensures took { result ≡ true → HasGatheredOne P.observed i now engine.old engine.new }
    ensures none { result ≡ false →
        (engine.new ≡ engine.old) × (is_empty (buffered engine.old.log i) ≡ true) }
{
    match engine.places.first_filled(i) {
        Some(stage) => {
            engine.take(i, stage, now);
            true
        }
        None => false,
    }
}

/// What a sink that was leased at a moment has to do once it took what there was: it attempts its batch where that is closed.
pub(crate) fn decide<P: Port>(engine: &EngineState<P>, i: u32, now: u64) -> Job
    requires stands { Stands P.observed engine.now }
    requires served { IsServed engine.now }
    requires within { i < length engine.now.states }
    requires out { IsOut engine.now i now }
    ensures given { IsGiven engine.now.log i result }
    ensures sinks { takes_first result ≡ true }
    ensures unclosed { IsUnclosed engine.now.log i now result }
{
    if is_closed_out(engine, i, now) {
        Job::Attempt
    } else {
        Job::Collect
    }
}

/// Takes one more, behind so many; `false` where there is none to take.
fn take_one<P: Port>(engine: &mut EngineState<P>, i: u32, now: u64, taken: u32) -> bool
    requires stands { Stands P.observed engine.old }
    requires served { IsServed engine.old }
    requires within { i < length engine.old.states }
    requires few { taken < 64 }
    requires collecting { IsCollecting engine.old i now taken }
    ensures took { result ≡ true → HasTaken P.observed i now taken engine.old engine.new }
    ensures none { result ≡ false → engine.new ≡ engine.old }
{
    if is_closed_out(engine, i, now) || engine.places.is_held_full(i) {
        return false;
    }
    match engine.places.first_filled(i) {
        Some(stage) => {
            engine.take(i, stage, now);
            true
        }
        None => false,
    }
}

/// Whether the batch that a sink holds, which is out and whose parcels are not lent, is closed at the moment of its lease.
pub(crate) fn is_closed_out<P: Port>(engine: &EngineState<P>, i: u32, now: u64) -> bool
    requires stands { Stands P.observed engine.now }
    requires within { i < length engine.now.states }
    requires served { IsServed engine.now }
    requires clear { OwesNothing engine.now i }
    requires kept { IsKept engine.now.places i }
    ensures { result ≡ is_batch_closed_at engine.now.log i now }
{
    let held = count_held(engine, i);
    let state = engine.states.get(i);
    let due = is_due(state.batching, &state.facts, held, now);
    if held == 0 {
        return false;
    }
    due || is_last(engine, i)
}

/// Whether so many parcels are as many as a batch may have, or the oldest of them has waited long enough, or an attempt of them failed.
fn is_due(batching: Option<Batching>, facts: &Facts, held: usize, now: u64) -> bool
    ensures { result
        ≡ (is_full_or_old batching facts.now.since held now || failed_before facts.now.failures) }
{
    match batching {
        Some(batching) => {
            held >= batching.max_events as usize
                || facts.since.saturating_add(batching.timeout) <= now
                || facts.failures > 0
        }
        None => facts.failures > 0,
    }
}

/// Whether no parcel can follow those that an instance holds.
fn is_last<P: Port>(engine: &EngineState<P>, i: u32) -> bool
    requires stands { Stands P.observed engine.now }
    requires within { i < length engine.now.states }
    requires served { IsServed engine.now }
    ensures { result ≡ is_last_batch engine.now.log i }
{
    is_unbuffered(engine, i) && is_ending(engine, i)
}

/// Whether no stage of an instance's buffer has a parcel.
fn is_unbuffered<P: Port>(engine: &EngineState<P>, i: u32) -> bool
    requires stands { Stands P.observed engine.now }
    requires within { i < length engine.now.states }
    ensures { result ≡ is_empty (buffered engine.now.log i) }
{
    engine.places.is_empty_buffer(i)
}

/// How many parcels an instance holds, which are not lent.
fn count_held<P: Port>(engine: &EngineState<P>, i: u32) -> usize
    requires stands { Stands P.observed engine.now }
    requires within { i < length engine.now.states }
    requires kept { IsKept engine.now.places i }
    ensures { result ≡ length (held engine.now.log i) }
{
    engine.places.holds(i)
}
