ghost use Rattle.std.specs.Prelude.{◌≡◌, ◌<◌, ℕ, length, Some, None, IfSome, IfNone, true, false};
ghost use Rattle.vx_record.specs.Ceasing.{lost_at};
ghost use Rattle.vx_record.specs.Confirms.{is_unconfirmed};
ghost use Rattle.vx_record.specs.Installs.{started};
ghost use Rattle.vx_hub.specs.Standing.{IsHub};
ghost use Rattle.vx_run.specs.Answers.{IsJudged, WentOn, NoneLost};
ghost use Rattle.vx_run.specs.Judging.{IsSure, IsNamed, IsUnconfirmedAt, IsUnasked, IsFaultOf};

use std::alloc::Global;
use vx_cli::Fault;
use vx_ends::Port;
use vx_hub::Hub;
use vx_record::AbandonCause;
use vx_value::WantOfMemory;

/// A source that was lost.
#[derive(Clone, Copy)]
struct Lost {
    instance: u32,
    at: u64,
}

/// Why a run that ended didn't end well. Of several faults it is the first in this order: want of memory, used up
/// numbers, a lost source, and a source whose last confirm failed, the least instance first.
pub(crate) fn judge<P: Port>(alloc: Global, hub: &Hub<P>) -> Option<Fault>
    requires { IsHub P.observed hub.now }
    ensures sure { IsSure hub.now result }
    ensures judged { IsJudged hub.now.engine.log result }
{
    if hub.starved() {
        return Some(Fault::WantOfMemory);
    }
    judge_fed(alloc, hub)
}

/// The same, of a run in which memory was never wanting for what came back.
fn judge_fed<P: Port>(alloc: Global, hub: &Hub<P>) -> Option<Fault>
    requires hub { IsHub P.observed hub.now }
    requires fed { hub.now.engine.run.out_of_memory ≡ false }
    ensures sure { IsSure hub.now result }
    ensures judged { IsJudged hub.now.engine.log result }
{
    match hub.abandoned() {
        None => judge_unabandoned(alloc, hub),
        Some(cause) => Some(fault_of(cause)),
    }
}

/// The fault of a run that was given up. Nobody asks a run to stop yet.
fn fault_of(cause: AbandonCause) -> Fault
    requires { IsUnasked cause }
    ensures { IsFaultOf cause result }
{
    match cause {
        AbandonCause::WantOfMemory => Fault::WantOfMemory,
        AbandonCause::Numbers { next, wanted } => Fault::Numbers { next, wanted },
        AbandonCause::Grace {
            stopped: _,
            now: _,
            limit: _,
        } => unreachable!(),
    }
}

/// The same, of a run that wasn't given up.
fn judge_unabandoned<P: Port>(alloc: Global, hub: &Hub<P>) -> Option<Fault>
    requires hub { IsHub P.observed hub.now }
    requires goes_on { WentOn hub.now.engine.log }
    ensures judged { IsJudged hub.now.engine.log result }
{
    match first_lost(hub) {
        None => judge_confirms(alloc, hub),
        Some(lost) => Some(source_failed(alloc, hub, lost)),
    }
}

/// The same, of a run that lost no source.
fn judge_confirms<P: Port>(alloc: Global, hub: &Hub<P>) -> Option<Fault>
    requires hub { IsHub P.observed hub.now }
    requires goes_on { WentOn hub.now.engine.log }
    requires kept { NoneLost hub.now.engine.log }
    ensures judged { IsJudged hub.now.engine.log result }
{
    match first_unconfirmed(hub) {
        None => None,
        Some(instance) => Some(confirm_failed(alloc, hub, instance)),
    }
}

/// The least instance whose last confirm failed.
fn first_unconfirmed<P: Port>(hub: &Hub<P>) -> Option<u32>
    requires { IsHub P.observed hub.now }
    ensures within { IfSome result (λ i. i < length (started hub.now.engine.log)) }
    ensures failed { IfSome result (λ i. is_unconfirmed hub.now.engine.log i ≡ true) }
    ensures least { IfSome result
        (λ i. (j : ℕ) → j < i → is_unconfirmed hub.now.engine.log j ≡ false) }
    ensures none { IfNone result
        ((j : ℕ) → j < length (started hub.now.engine.log) →
        is_unconfirmed hub.now.engine.log j ≡ false) }
{
    for instance in 0..hub.instances() {
        if hub.unconfirmed(instance) {
            return Some(instance);
        }
    }
    None
}

/// The fault of a source whose last confirm failed, with its component's name, or want of memory where none is found
/// for the name.
fn confirm_failed<P: Port>(alloc: Global, hub: &Hub<P>, instance: u32) -> Fault
    requires hub { IsHub P.observed hub.now }
    requires within { instance < length (started hub.now.engine.log) }
    ensures { IsUnconfirmedAt hub.now.engine.log instance result }
{
    match hub.name_of(instance).copy(alloc) {
        Ok(name) => Fault::ConfirmFailed { name },
        Err(WantOfMemory) => Fault::WantOfMemory,
    }
}

/// The least instance that was lost.
fn first_lost<P: Port>(hub: &Hub<P>) -> Option<Lost>
    requires { IsHub P.observed hub.now }
    ensures within { IfSome result (λ lost. lost.instance < length (started hub.now.engine.log)) }
    ensures lost { IfSome result (λ lost. lost_at hub.now.engine.log lost.instance ≡ Some lost.at) }
    ensures least { IfSome result
        (λ lost. (i : ℕ) → i < lost.instance → lost_at hub.now.engine.log i ≡ None) }
    ensures none { IfNone result
        ((i : ℕ) → i < length (started hub.now.engine.log) → lost_at hub.now.engine.log i ≡ None) }
{
    for instance in 0..hub.instances() {
        if let Some(at) = hub.lost(instance) {
            return Some(Lost { instance, at });
        }
    }
    None
}

/// The fault of a source that was lost, with its component's name, or want of memory where none is found for the name.
fn source_failed<P: Port>(alloc: Global, hub: &Hub<P>, lost: Lost) -> Fault
    requires hub { IsHub P.observed hub.now }
    requires within { lost.instance < length (started hub.now.engine.log) }
    ensures { IsNamed hub.now.engine.log lost.instance lost.at result }
{
    match hub.name_of(lost.instance).copy(alloc) {
        Ok(name) => Fault::SourceFailed { name, at: lost.at },
        Err(WantOfMemory) => Fault::WantOfMemory,
    }
}
