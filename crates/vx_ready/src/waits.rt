// The moment for which an instance waits.
ghost use Rattle.std.specs.Prelude.{◌≡◌, ◌<◌, ◌≤◌, ℕ, length, true, None, IfSome, IsSomeAnd};
ghost use Rattle.vx_record.specs.Installs.{sink_at};
ghost use Rattle.vx_record.specs.Ready.{IsTickReady, source_waits as source_waits_at, sink_waits as sink_waits_at, waits_until as waits_until_at};
ghost use Rattle.vx_tasks.specs.Joining.{joins_at};
ghost use Rattle.vx_keeping.specs.Keeping.{RunsHost};
ghost use Rattle.vx_moves.specs.Keepers.{CanAnswer, IsKeeper};
ghost use Rattle.vx_moves.specs.Stands.{Stands};
ghost use Rattle.vx_ready.specs.Asking.{IsServed, IsSettled, IsOpen};
ghost use Rattle.vx_ready.specs.Jobs.{is_full as is_full_by, times_out as times_out_by};

use crate::batches::{failed_before, is_last, retry_from};
use crate::finishing::count_held;
use crate::jobs::{is_open, is_settled};
use crate::sources::{either, gives_more, is_sent};
use vx_ends::Port;
use vx_instances::Batching;
use vx_keeping::Hosts;
use vx_moves::EngineState;
use vx_plan::Class;

/// The moment for which an unleased instance waits, in milliseconds: a source that rests, a sink that makes an attempt again or
/// whose batch gets old. `None` where there is none, where the instance is leased, or may owe something for want of memory, where
/// its port is closed for good or may have given what no entry tells, where it ended, and where the run was given up.
pub fn waits_until<P: Port>(engine: &EngineState<P>, i: u32) -> Option<u64>
    requires stands { Stands P.observed engine.now }
    requires within { i < length engine.now.states }
    requires served { IsServed engine.now }
    ensures waits { IsSettled engine.now i → IsOpen engine.now i →
        result ≡ waits_until_at engine.now.log i }
    ensures settled { IfSome result (λ moment. IsSettled engine.now i) }
    ensures open { IfSome result (λ moment. IsOpen engine.now i) }
{
    if !is_settled(engine, i) {
        return None;
    }
    if !is_open(engine, i) {
        return None;
    }
    match engine.states.get(i).class {
        Class::Source => source_waits(engine, i),
        Class::Transform => None,
        Class::Sink => sink_waits(engine, i),
    }
}

/// The moment, in milliseconds, from which on an unleased instance that merges is to act by itself: the next check of a reduce that
/// holds a group. When a transform acts that the program hands in, that one says alone. `None` of any other instance, and where it took
/// something that it hasn't answered, or not all that it put out is on its way.
pub fn checks_at<P: Port, H: Hosts>(engine: &EngineState<P>, hosts: &H, i: u32) -> Option<u64>
    requires stands { Stands P.observed engine.now }
    requires within { i < length engine.now.states }
    ensures due { IfSome result
        (λ moment. (now : ℕ) → moment ≤ now → IsTickReady engine.now.log i now) }
    ensures joins { IfSome result (λ moment. joins_at engine.now.log i ≡ true) }
    ensures settled { IfSome result (λ moment. IsSettled engine.now i) }
    ensures open { IfSome result (λ moment. IsOpen engine.now i) }
    ensures only { IsSettled engine.now i → IsOpen engine.now i →
        joins_at engine.now.log i ≡ true → IsKeeper CanAnswer engine.now.keepers.items i →
        (RunsHost engine.now.log i → ⊥) → (now : ℕ) → IsTickReady engine.now.log i now →
        IsSomeAnd result (λ moment. moment ≤ now) }
{
    if !is_settled(engine, i) {
        return None;
    }
    if !is_open(engine, i) {
        return None;
    }
    if !engine.merges(i) {
        return None;
    }
    if !is_sent(engine, i) {
        return None;
    }
    engine.check_due(hosts, i)
}

/// The moment from which on a source may be read, if it can be once it has rested.
fn source_waits<P: Port>(engine: &EngineState<P>, i: u32) -> Option<u64>
    requires stands { Stands P.observed engine.now }
    requires within { i < length engine.now.states }
    ensures { result ≡ source_waits_at engine.now.log i }
{
    let moment = engine.states.get(i).facts.reads_from;
    if gives_more(engine, i) {
        Some(moment)
    } else {
        None
    }
}

/// The moment for which an unleased sink waits that holds something.
fn sink_waits<P: Port>(engine: &EngineState<P>, i: u32) -> Option<u64>
    requires stands { Stands P.observed engine.now }
    requires within { i < length engine.now.states }
    requires served { IsServed engine.now }
    requires settled { IsSettled engine.now i }
    requires sink { sink_at engine.now.log i ≡ true }
    ensures { result ≡ sink_waits_at engine.now.log i }
{
    let held = count_held(engine, i);
    let state = engine.states.get(i);
    let full = is_full(state.batching, held);
    let due = either(full, failed_before(state.facts.failures));
    let ready = either(due, is_last(engine, i));
    if held == 0 {
        return None;
    }
    if ready {
        return Some(retry_from(engine, i));
    }
    Some(times_out(state.batching, state.facts.since))
}

/// Whether so many parcels are as many as a batch may have.
fn is_full(batching: Option<Batching>, held: usize) -> bool
    ensures { result ≡ is_full_by batching held }
{
    match batching {
        Some(batching) => held >= batching.max_events as usize,
        None => false,
    }
}

/// The moment from which on the oldest parcel has waited long enough.
fn times_out(batching: Option<Batching>, since: u64) -> u64
    ensures { result ≡ times_out_by batching since }
{
    match batching {
        Some(batching) => since.saturating_add(batching.timeout),
        None => 0,
    }
}
