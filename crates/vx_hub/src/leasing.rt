ghost use Rattle.std.specs.Prelude.{◌≡◌, ◌<◌, ◌≤◌, length, true, false, max, None, IfSome, IfNone, IsSome, IsTrue};
ghost use Rattle.vx_record.specs.Additions.{OnlyAdds};
ghost use Rattle.vx_record.specs.Installs.{sink_at};
ghost use Rattle.vx_record.specs.Makers.{IsBy};
ghost use Rattle.vx_record.specs.Owing.{owes_discards, owes_answer};
ghost use Rattle.vx_record.specs.Places.Place.{Held};
ghost use Rattle.vx_places.specs.Views.{parcels_here};
ghost use Rattle.vx_moves.specs.Capacities.{IsHeldLimitOf};
ghost use Rattle.vx_moves.specs.Stands.{Stands};
ghost use Rattle.vx_tasks.specs.Out.{HasLeft};
ghost use Rattle.vx_ready.specs.Asking.{IsServed};
ghost use Rattle.vx_hub.specs.Leases.{HasLeased, IsReadyFor, HasReadySink, NoneFilled, NoneHasWork, GoesFirst, takes_first as takes_first_by, ComesTo, IsUnclosed, HadWork, MayGather, HasGathered, HasHandedOut};
ghost use Rattle.vx_landing.specs.Landings.{HasTask};
ghost use Rattle.vx_hub.specs.Standing.{IsHub, IsWell, LentWhileOut, OthersKeep};

use crate::collecting::{collect, decide, take_inputs};
use crate::hub::Hub;
use crate::ready::{Ready, filled_of, first_ready};
use vx_ends::Port;
use vx_moves::EngineState;
use vx_plan::Class;
use vx_tasks::{Job, Work};

impl<P: Port> Hub<P> {
    /// Whether a sink in whose buffer or among whose held parcels something may stand has something to do at a moment. It holds
    /// nowhere after a call that answered `Fatal`. Where it doesn't hold, a sink may have to be closed still.
    pub fn has_ready_sink(&self, now: u64) -> bool
        requires { IsHub P.observed self.now }
        ensures some { IsTrue result →
            HasReadySink self.now.engine (max now self.now.engine.run.latest) }
        ensures sound { IsTrue result → self.now.fatal ≡ false }
        ensures none { result ≡ false → self.now.fatal ≡ false →
            NoneFilled sink_at self.now.engine (max now self.now.engine.run.latest)
            (length self.now.engine.states) }
    {
        match filled_of(&self.engine, Class::Sink, now.max(self.engine.run.latest)) {
            Some(_ready) => !self.fatal,
            None => false,
        }
    }

    /// Hands out the task of an instance that has work and doesn't merge, to a worker: a sink before a transform, and both before a
    /// source. Any number may be out. It takes no memory.
    /// `None` exactly where no such unleased instance has work at that moment, or a call answered `Fatal`, or the run was given up;
    /// nothing has changed then.
    ///
    /// The lease is of the moment `now`, in milliseconds; where a call before told a later one, it is of that still.
    pub fn lease(&mut self, worker: u32, now: u64) -> Option<Work<P>>
        requires { IsHub P.observed self.old }
        ensures hub { IsHub P.observed self.new }
        ensures left { IfSome result (HasLeft P.observed self.new.engine.log) }
        ensures worker { IfSome result (λ work. work.worker ≡ worker) }
        ensures room { IfSome result
            (λ work. IsHeldLimitOf self.new.engine.log work.instance work.held.room) }
        ensures within { IfSome result (λ work. work.instance < length self.new.engine.states) }
        ensures size { length self.new.engine.states ≡ length self.old.engine.states }
        ensures only { OnlyAdds (IsBy worker) self.old.engine.log self.new.engine.log }
        ensures noted { IfSome result
            (λ work. HasLeased work.instance worker
            (max now self.old.engine.run.latest) self.old.engine.log self.new.engine.log) }
        ensures latest { IfSome result
            (λ work. self.new.engine.run.latest ≡ max now self.old.engine.run.latest) }
        ensures works { IfSome result
            (λ work. HadWork self.old.engine.log
            (max now self.old.engine.run.latest) work.instance work.job) }
        ensures unclosed { IfSome result
            (λ work. IsUnclosed self.new.engine.log work.instance
            (max now self.old.engine.run.latest) work.job) }
        ensures had { IfSome result (λ work. HasTask self.old.engine.states work.instance work.task) }
        ensures others { IfSome result
            (λ work. OthersKeep work.instance self.old.engine.states self.new.engine.states) }
        ensures sound { self.old.fatal ≡ true → result ≡ None }
        ensures rest { self.new ≡ record self.old { engine = self.new.engine } }
        ensures first { IfSome result
            (λ work. GoesFirst self.old.engine (max now self.old.engine.run.latest) work.instance) }
        ensures none { IfNone result
            (self.old.fatal ≡ false →
            NoneHasWork self.old.engine.log (max now self.old.engine.run.latest)) }
        ensures unchanged { IfNone result (self.new ≡ self.old) }
    {
        if self.fatal {
            return None;
        }
        let now = now.max(self.engine.run.latest);
        match first_ready(&self.engine, &self.sources, now) {
            Some(Ready { instance, job }) => {
                Some(hand_out(&mut self.engine, instance, job, worker, now))
            }
            None => None,
        }
    }
}

/// Leases an instance that has work, takes what it may take, and gives its task with what it holds.
fn hand_out<P: Port>(
    engine: &mut EngineState<P>,
    i: u32,
    job: Job,
    worker: u32,
    now: u64,
) -> Work<P>
    requires stands { Stands P.observed engine.old }
    requires served { IsServed engine.old }
    requires lent { LentWhileOut engine.old }
    requires well { IsWell engine.old }
    requires latest { engine.old.run.latest ≤ now }
    requires ready { IsReadyFor engine.old now i job }
    ensures out { HasHandedOut P.observed i worker now engine.old engine.new result }
    ensures within { result.instance < length engine.new.states }
    ensures comes { ComesTo job result.job }
    ensures unclosed { IsUnclosed engine.new.log i now result.job }
{
    let (task, positions) = engine.lease(i, worker, now);
    let job = gather(engine, i, job, now);
    let held = engine.lend(i);
    Work {
        instance: i,
        worker,
        task,
        held,
        positions,
        job,
    }
}

/// Takes what an instance that was leased may take, and gives what is to be done then.
fn gather<P: Port>(engine: &mut EngineState<P>, i: u32, job: Job, now: u64) -> Job
    requires stands { Stands P.observed engine.old }
    requires served { IsServed engine.old }
    requires within { i < length engine.old.states }
    requires kept { IsSome (parcels_here engine.old.places (Held i)) }
    requires may { MayGather engine.old i now job }
    requires settled { owes_discards engine.old.log i ≡ false }
    requires untaken { owes_answer engine.old.log i ≡ false }
    ensures gathered { HasGathered P.observed i engine.old engine.new result }
    ensures comes { ComesTo job result }
    ensures unclosed { IsUnclosed engine.new.log i now result }
{
    if takes_first(job) {
        collect(engine, i, now);
        return decide(engine, i, now);
    }
    if matches!(job, Job::Judge) {
        take_inputs(engine, i, now);
    }
    job
}

/// Whether a job is a sink's that takes before it leaves.
fn takes_first(job: Job) -> bool
    ensures { result ≡ takes_first_by job }
{
    matches!(job, Job::Collect | Job::Attempt)
}
