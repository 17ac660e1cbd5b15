ghost use Rattle.std.specs.Prelude.{◌≡◌, ◌<◌, length};
ghost use Rattle.vx_moves.specs.Capacities.{IsHeldLimitOf};
ghost use Rattle.vx_tasks.specs.Out.{HasLeft};
ghost use Rattle.vx_hub.specs.Ending.{IsOver};
ghost use Rattle.vx_hub.specs.Failures.{HasReason, abandon_cause};
ghost use Rattle.vx_hub.specs.Standing.{IsHub};
ghost use Rattle.vx_record.specs.Additions.{OnlyAdds};
ghost use Rattle.vx_run.specs.Moments.{IsTimely, IsTimeless};

use std::alloc::Global;
use std::sync::Wait;
use vx_ends::{Clock, Port};
use vx_hub::{Fatal, Hub};
use vx_keeping::Hosts;
use vx_record::AbandonCause;
use vx_tasks::Work;

/// The number of the only worker.
const WORKER: u32 = 0;

/// How many tasks of sinks are worked in one turn at the most, before parcels are moved on.
const TASKS: u32 = 64;

/// How often parcels are moved on in one turn at the most.
const MOVES: u32 = 64;

/// Turns a hub until each of its instances ended, with the transforms that the program hands in.
pub(crate) fn drive<R: Wait, P: Port, C: Clock, H: Hosts>(
    rt: &R,
    alloc: Global,
    hub: &mut Hub<P>,
    clock: &C,
    hosts: &mut H,
)
    requires hub { IsHub P.observed hub.old }
    requires moment { C.gave clock.now hub.old.engine.run.latest }
    ensures hub { IsHub P.observed hub.new }
    ensures over { IsOver hub.new.engine.log }
    ensures on { OnlyAdds (IsTimely (C.gave clock.now)) hub.old.engine.log hub.new.engine.log }
{
    for _ in rt.forever() {
        if hub.over() {
            return;
        }
        turn(alloc, hub, clock, hosts);
    }
}

/// How long, in milliseconds, a run rests at the most where nobody has work.
const REST: u64 = 20;

/// One turn: drains sinks, and then moves parcels on. Where there are none to move, it has an instance that merges do what there is to
/// do; unless that gives something to move on, it does an instance's work too, or ends an instance where none has work. Where there was
/// nothing to do, it rests.
///
/// A source is so read only where nothing waits that can move, since a read may wait for long.
fn turn<P: Port, C: Clock, H: Hosts>(alloc: Global, hub: &mut Hub<P>, clock: &C, hosts: &mut H)
    requires hub { IsHub P.observed hub.old }
    requires moment { C.gave clock.now hub.old.engine.run.latest }
    ensures hub { IsHub P.observed hub.new }
    ensures on { OnlyAdds (IsTimely (C.gave clock.now)) hub.old.engine.log hub.new.engine.log }
    ensures moment { C.gave clock.now hub.new.engine.run.latest }
{
    drain(alloc, hub, clock);
    if move_parcels(hub) {
        return;
    }
    let merged = merge(hub, clock, hosts);
    if merged && hub.pending().is_some() {
        return;
    }
    let now = clock.now();
    if lease(alloc, hub, clock, now) {
        return;
    }
    if retire(hub) || merged {
        return;
    }
    rest(hub, clock, hosts, now);
}

/// Waits until the soonest moment for which an instance waits or from which on one is to act by itself, and not for long.
fn rest<P: Port, C: Clock, H: Hosts>(hub: &Hub<P>, clock: &C, hosts: &H, now: u64)
    requires { IsHub P.observed hub.now }
{
    let longest = now.saturating_add(REST);
    let due = hub.due().unwrap_or(longest);
    let check = hub.next_check(hosts).unwrap_or(longest);
    clock.rest(due.min(check).min(longest));
}

/// Lets sinks take and write what they have, though parcels wait to be moved: a look at all that wait behind full buffers costs.
fn drain<P: Port, C: Clock>(alloc: Global, hub: &mut Hub<P>, clock: &C)
    requires hub { IsHub P.observed hub.old }
    requires moment { C.gave clock.now hub.old.engine.run.latest }
    ensures hub { IsHub P.observed hub.new }
    ensures on { OnlyAdds (IsTimely (C.gave clock.now)) hub.old.engine.log hub.new.engine.log }
    ensures moment { C.gave clock.now hub.new.engine.run.latest }
{
    for _ in 0..TASKS {
        let now = clock.now();
        if !hub.has_ready_sink(now) {
            return;
        }
        let _leased = lease(alloc, hub, clock, now);
    }
}

/// Moves parcels on, while an instance has some that can move. Tells whether one had.
fn move_parcels<P: Port>(hub: &mut Hub<P>) -> bool
    requires hub { IsHub P.observed hub.old }
    ensures hub { IsHub P.observed hub.new }
    ensures on { OnlyAdds IsTimeless hub.old.engine.log hub.new.engine.log }
    ensures latest { hub.new.engine.run.latest ≡ hub.old.engine.run.latest }
{
    for moved in 0..MOVES {
        match hub.pending() {
            Some(instance) => push(hub, instance),
            None => return moved > 0,
        }
    }
    true
}

/// Splits and pushes what an instance has made.
fn push<P: Port>(hub: &mut Hub<P>, instance: u32)
    requires hub { IsHub P.observed hub.old }
    requires within { instance < length hub.old.engine.states }
    ensures hub { IsHub P.observed hub.new }
    ensures on { OnlyAdds IsTimeless hub.old.engine.log hub.new.engine.log }
    ensures latest { hub.new.engine.run.latest ≡ hub.old.engine.run.latest }
{
    if let Err(fatal) = hub.push_pending(instance) {
        give_up(hub, fatal);
    }
}

/// Hands out a task at a moment, if one has work, does its work, and brings it back. Tells whether one had.
fn lease<P: Port, C: Clock>(alloc: Global, hub: &mut Hub<P>, clock: &C, now: u64) -> bool
    requires hub { IsHub P.observed hub.old }
    requires given { C.gave clock.now now }
    requires moment { C.gave clock.now hub.old.engine.run.latest }
    ensures hub { IsHub P.observed hub.new }
    ensures on { OnlyAdds (IsTimely (C.gave clock.now)) hub.old.engine.log hub.new.engine.log }
    ensures moment { C.gave clock.now hub.new.engine.run.latest }
{
    match hub.lease(WORKER, now) {
        Some(work) => {
            land(alloc, hub, work, clock);
            true
        }
        None => false,
    }
}

/// Has an instance that merges answer what it took, act by itself or put out what is left, if one has to. Tells whether one
/// had.
fn merge<P: Port, C: Clock, H: Hosts>(hub: &mut Hub<P>, clock: &C, hosts: &mut H) -> bool
    requires hub { IsHub P.observed hub.old }
    requires moment { C.gave clock.now hub.old.engine.run.latest }
    ensures hub { IsHub P.observed hub.new }
    ensures on { OnlyAdds (IsTimely (C.gave clock.now)) hub.old.engine.log hub.new.engine.log }
    ensures moment { C.gave clock.now hub.new.engine.run.latest }
{
    match hub.merge(hosts, WORKER, clock.now()) {
        Ok(merged) => merged,
        Err(fatal) => {
            give_up(hub, fatal);
            true
        }
    }
}

/// Ends an instance, if one may end. Tells whether one did.
fn retire<P: Port>(hub: &mut Hub<P>) -> bool
    requires hub { IsHub P.observed hub.old }
    ensures hub { IsHub P.observed hub.new }
    ensures on { OnlyAdds IsTimeless hub.old.engine.log hub.new.engine.log }
    ensures latest { hub.new.engine.run.latest ≡ hub.old.engine.run.latest }
{
    hub.retire().is_some()
}

/// Does the work of a task that was handed out, and brings it back.
fn land<P: Port, C: Clock>(alloc: Global, hub: &mut Hub<P>, work: Work<P>, clock: &C)
    requires hub { IsHub P.observed hub.old }
    requires left { HasLeft P.observed hub.old.engine.log work }
    requires room { IsHeldLimitOf hub.old.engine.log work.instance work.held.room }
    requires within { work.instance < length hub.old.engine.states }
    ensures hub { IsHub P.observed hub.new }
    ensures on { OnlyAdds IsTimeless hub.old.engine.log hub.new.engine.log }
    ensures latest { hub.new.engine.run.latest ≡ hub.old.engine.run.latest }
{
    let landing = work.work(alloc, clock);
    if let Err(fatal) = hub.land(landing) {
        give_up(hub, fatal);
    }
}

/// Gives a run up that can't go on, once.
fn give_up<P: Port>(hub: &mut Hub<P>, fatal: Fatal)
    requires hub { IsHub P.observed hub.old }
    requires reason { HasReason hub.old.engine.log fatal }
    ensures hub { IsHub P.observed hub.new }
    ensures on { OnlyAdds IsTimeless hub.old.engine.log hub.new.engine.log }
    ensures latest { hub.new.engine.run.latest ≡ hub.old.engine.run.latest }
{
    if hub.abandoned().is_none() {
        hub.abandon(abandon_cause(fatal));
    }
}

/// Why a run is given up.
fn abandon_cause(fatal: Fatal) -> AbandonCause
    ensures { result ≡ abandon_cause fatal }
{
    match fatal {
        Fatal::Numbers { next, wanted } => AbandonCause::Numbers { next, wanted },
        Fatal::WantOfMemory => AbandonCause::WantOfMemory,
    }
}
