// What an instance has to do.
ghost use Rattle.std.specs.Prelude.{◌≡◌, ◌<◌, length, true, false, IfSome, IfNone, IsTrue};
ghost use Rattle.vx_record.specs.Installs.{source_at, transform_at, sink_at};
ghost use Rattle.vx_record.specs.Ready.{is_close_due as is_close_due_at, is_source_ready, is_sink_ready, is_transform_ready, is_ready};
ghost use Rattle.vx_record.specs.SinkBatches.{is_batch_closed as is_batch_closed_at};
ghost use Rattle.vx_tasks.specs.Joining.{joins_at};
ghost use Rattle.vx_moves.specs.Stands.{Stands};
ghost use Rattle.vx_ready.specs.Asking.{IsServed, IsUnleased, IsSettled, IsUsable, IsOpen};
ghost use Rattle.vx_ready.specs.Jobs.{IsLeasable, IsJob, IsSourceJob, IsTransformJob, IsSinkJob};

use crate::batches::{is_batch_closed, retry_from};
use crate::finishing::{is_done, is_unbuffered};
use crate::sources::{can_read, has_device, is_confirm_due, is_sent};
use vx_ends::Port;
use vx_instances::InstanceState;
use vx_moves::EngineState;
use vx_plan::Class;
use vx_tasks::Job;

/// What an instance has to do at a moment, in milliseconds: a source is read while it can be, and what is to be confirmed is
/// confirmed first once it can't; a transform judges what is buffered, once all that it put out is on its way; a sink attempts its
/// batch once that is closed and has waited behind its last failed attempt, and takes more before it is closed. An instance with a
/// port that has nothing more to do is closed. `None` where there is nothing to do, where the instance merges, where it is leased,
/// or may owe something for want of memory, where its port is closed for good or may have given what no entry tells, where it ended,
/// and where the run was given up.
pub fn first_job<P: Port>(engine: &EngineState<P>, i: u32, now: u64) -> Option<Job>
    requires stands { Stands P.observed engine.now }
    requires within { i < length engine.now.states }
    requires served { IsServed engine.now }
    ensures some { IfSome result (λ job. IsJob engine.now.log i now job) }
    ensures leasable { IfSome result (λ job. IsLeasable engine.now i now) }
    ensures settled { IfSome result (λ job. IsSettled engine.now i) }
    ensures alone { IfSome result (λ job. joins_at engine.now.log i ≡ false) }
    ensures none { IsSettled engine.now i → IsOpen engine.now i → joins_at engine.now.log i ≡ false →
        IfNone result (is_ready engine.now.log i now ≡ false) }
{
    if !is_settled(engine, i) {
        return None;
    }
    if !is_open(engine, i) {
        return None;
    }
    if engine.merges(i) {
        return None;
    }
    match engine.states.get(i).class {
        Class::Source => source_job(engine, i, now),
        Class::Transform => transform_job(engine, i),
        Class::Sink => sink_job(engine, i, now),
    }
}

/// Whether an instance is unleased and owes nothing, in a run that wasn't given up.
pub fn is_settled<P: Port>(engine: &EngineState<P>, i: u32) -> bool
    requires within { i < length engine.now.states }
    ensures settled { IsTrue result → IsSettled engine.now i }
    ensures not { result ≡ false → IsSettled engine.now i → ⊥ }
{
    engine.run.abandoned.is_none() && is_unleased(engine.states.get(i))
}

/// Whether an instance hasn't ended, its port isn't closed for good, and the port gave nothing that no entry tells, for want of memory.
pub fn is_open<P: Port>(engine: &EngineState<P>, i: u32) -> bool
    requires within { i < length engine.now.states }
    ensures open { IsTrue result → IsOpen engine.now i }
    ensures not { result ≡ false → IsOpen engine.now i → ⊥ }
{
    is_usable(engine.states.get(i))
}

/// Whether the task of a state is unleased, and memory was never wanting for what it owes.
fn is_unleased<P>(state: &InstanceState<P>) -> bool
    ensures unleased { IsTrue result → IsUnleased state.now }
    ensures away { result ≡ false → IsUnleased state.now → ⊥ }
{
    state.task.is_some() && !state.facts.owing
}

/// Whether the port of a state isn't closed for good, nor may have given more than was told, and its instance hasn't ended.
fn is_usable<P>(state: &InstanceState<P>) -> bool
    ensures open { IsTrue result → IsUsable state.now }
    ensures shut { result ≡ false → IsUsable state.now → ⊥ }
{
    !state.facts.closed && !state.facts.retired && !state.facts.starved
}

/// What a source has to do at a moment.
fn source_job<P: Port>(engine: &EngineState<P>, i: u32, now: u64) -> Option<Job>
    requires stands { Stands P.observed engine.now }
    requires within { i < length engine.now.states }
    requires served { IsServed engine.now }
    requires settled { IsSettled engine.now i }
    requires open { IsOpen engine.now i }
    requires source { source_at engine.now.log i ≡ true }
    ensures some { IfSome result (λ job. IsSourceJob engine.now.log i now job) }
    ensures none { IfNone result (is_source_ready engine.now.log i now ≡ false) }
{
    if can_read(engine, i, now) {
        return Some(Job::Read);
    }
    if is_confirm_due(engine, i) {
        return Some(Job::Confirm);
    }
    if is_close_due(engine, i) {
        return Some(Job::Close);
    }
    None
}

/// What a transform has to do that judges event by event.
fn transform_job<P: Port>(engine: &EngineState<P>, i: u32) -> Option<Job>
    requires stands { Stands P.observed engine.now }
    requires within { i < length engine.now.states }
    requires settled { IsSettled engine.now i }
    requires transform { transform_at engine.now.log i ≡ true }
    requires alone { joins_at engine.now.log i ≡ false }
    ensures some { IfSome result (λ job. IsTransformJob engine.now.log i job) }
    ensures none { IfNone result (is_transform_ready engine.now.log i ≡ false) }
{
    if !is_sent(engine, i) {
        return None;
    }
    if is_unbuffered(engine, i) {
        return None;
    }
    Some(Job::Judge)
}

/// What a sink has to do at a moment.
fn sink_job<P: Port>(engine: &EngineState<P>, i: u32, now: u64) -> Option<Job>
    requires stands { Stands P.observed engine.now }
    requires within { i < length engine.now.states }
    requires served { IsServed engine.now }
    requires settled { IsSettled engine.now i }
    requires open { IsOpen engine.now i }
    requires sink { sink_at engine.now.log i ≡ true }
    ensures some { IfSome result (λ job. IsSinkJob engine.now.log i now job) }
    ensures none { IfNone result (is_sink_ready engine.now.log i now ≡ false) }
{
    if is_batch_closed(engine, i, now) {
        return attempt_job(engine, i, now);
    }
    if !is_unbuffered(engine, i) {
        return Some(Job::Collect);
    }
    if is_close_due(engine, i) {
        return Some(Job::Close);
    }
    None
}

/// What a sink has to do at a moment, whose batch is closed: it attempts that, unless it has to wait.
fn attempt_job<P: Port>(engine: &EngineState<P>, i: u32, now: u64) -> Option<Job>
    requires stands { Stands P.observed engine.now }
    requires within { i < length engine.now.states }
    requires settled { IsSettled engine.now i }
    requires sink { sink_at engine.now.log i ≡ true }
    requires closed { is_batch_closed_at engine.now.log i now ≡ true }
    ensures some { IfSome result (λ job. IsSinkJob engine.now.log i now job) }
    ensures none { IfNone result (is_sink_ready engine.now.log i now ≡ false) }
{
    if retry_from(engine, i) <= now {
        return Some(Job::Attempt);
    }
    None
}

/// Whether an instance with a port that isn't closed has nothing more to do.
fn is_close_due<P: Port>(engine: &EngineState<P>, i: u32) -> bool
    requires stands { Stands P.observed engine.now }
    requires within { i < length engine.now.states }
    requires served { IsServed engine.now }
    requires settled { IsSettled engine.now i }
    requires open { IsOpen engine.now i }
    ensures { result ≡ is_close_due_at engine.now.log i }
{
    has_device(engine, i) && is_done(engine, i)
}
