// The batch that a sink holds.
ghost use Rattle.std.specs.Prelude.{◌≡◌, ◌<◌, ◌≤◌, ℕ, length, true};
ghost use Rattle.vx_record.specs.Records.{capped};
ghost use Rattle.vx_record.specs.Installs.{sink_at};
ghost use Rattle.vx_record.specs.Lists.{held};
ghost use Rattle.vx_record.specs.SinkBatches.{is_last_batch, is_batch_closed as is_batch_closed_at, retry_from as retry_from_at};
ghost use Rattle.vx_moves.specs.Stands.{Stands};
ghost use Rattle.vx_ready.specs.Asking.{IsServed, IsSettled};
ghost use Rattle.vx_ready.specs.Jobs.{is_full_or_old as is_full_or_old_by, retry_moment as retry_moment_by, schedule_in, failed_before as failed_before_by};

use crate::ending::is_ending;
use crate::finishing::{count_held, is_unbuffered};
use crate::sources::either;
use vx_ends::Port;
use vx_instances::Batching;
use vx_moves::EngineState;
use vx_sinkcore::Schedule;

/// Whether the batch that an unleased sink holds is closed at a moment, in milliseconds: it holds a parcel, and as many as a batch
/// may have, or the oldest has waited long enough, or none can follow, or an attempt of it failed.
pub fn is_batch_closed<P: Port>(engine: &EngineState<P>, i: u32, now: u64) -> bool
    requires stands { Stands P.observed engine.now }
    requires within { i < length engine.now.states }
    requires served { IsServed engine.now }
    requires settled { IsSettled engine.now i }
    requires sink { sink_at engine.now.log i ≡ true }
    ensures { result ≡ is_batch_closed_at engine.now.log i now }
{
    let held = count_held(engine, i);
    let state = engine.states.get(i);
    let full = is_full_or_old(state.batching, state.facts.since, held, now);
    let due = either(full, failed_before(state.facts.failures));
    if held == 0 {
        return false;
    }
    due || is_last(engine, i)
}

/// The moment from which on the batch that an unleased sink holds may be attempted, in milliseconds: any, until an attempt of it fails.
pub fn retry_from<P: Port>(engine: &EngineState<P>, i: u32) -> u64
    requires stands { Stands P.observed engine.now }
    requires within { i < length engine.now.states }
    requires settled { IsSettled engine.now i }
    requires sink { sink_at engine.now.log i ≡ true }
    requires filled { 0 < length (held engine.now.log i) }
    ensures { result ≡ retry_from_at engine.now.log i }
{
    let state = engine.states.get(i);
    let schedule = schedule_of(state.batching);
    retry_moment(schedule, state.facts.failures, state.facts.failed_at)
}

/// How a sink makes its attempts again. Without a batch it makes none.
fn schedule_of(batching: Option<Batching>) -> Schedule
    ensures { result ≡ schedule_in batching }
{
    match batching {
        Some(batching) => batching.retries,
        None => Schedule::new(0, 0, 0),
    }
}

/// The moment from which on what failed so often may be attempted again, in milliseconds, if it may be: any, where it never failed, and
/// else a wait after the last failure.
fn retry_moment(schedule: Schedule, failures: u64, failed_at: u64) -> u64
    ensures { (n : ℕ) → failures ≡ capped n → n ≤ schedule.attempts →
        result ≡ retry_moment_by schedule n failed_at }
{
    if failures == 0 {
        return 0;
    }
    match schedule.wait(failures) {
        Some(wait) => failed_at.saturating_add(wait),
        None => failed_at,
    }
}

/// Whether an attempt failed before.
pub(crate) fn failed_before(failures: u64) -> bool
    ensures { result ≡ failed_before_by failures }
{
    failures > 0
}

/// Whether so many parcels are as many as a batch may have, or the oldest of them has waited long enough.
fn is_full_or_old(batching: Option<Batching>, since: u64, held: usize, now: u64) -> bool
    ensures { result ≡ is_full_or_old_by batching since held now }
{
    match batching {
        Some(batching) => {
            held >= batching.max_events as usize || since.saturating_add(batching.timeout) <= now
        }
        None => false,
    }
}

/// Whether no parcel can follow those that an instance holds.
pub(crate) fn is_last<P: Port>(engine: &EngineState<P>, i: u32) -> bool
    requires stands { Stands P.observed engine.now }
    requires within { i < length engine.now.states }
    requires served { IsServed engine.now }
    ensures { result ≡ is_last_batch engine.now.log i }
{
    is_unbuffered(engine, i) && is_ending(engine, i)
}
