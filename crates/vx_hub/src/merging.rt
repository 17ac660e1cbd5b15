// What instances do that merge.
ghost use Rattle.std.specs.Prelude.{◌≡◌, ◌<◌, ◌⊎◌, ℕ, length, slice_get, max, true, false, Ok, IfSome, IfNone, IfErr, OnOk, OnErr};
ghost use Rattle.vx_record.specs.Additions.{OnlyAdds};
ghost use Rattle.vx_tasks.specs.Joining.{joins_at};
ghost use Rattle.vx_moves.specs.Stands.{Stands};
ghost use Rattle.vx_ready.specs.Asking.{IsServed};
ghost use Rattle.vx_ready.specs.Jobs.{IsLeasable};
ghost use Rattle.vx_landing.specs.Merging.{IsByOrNotice};
ghost use Rattle.vx_hub.specs.Failures.{HasReason};
ghost use Rattle.vx_hub.specs.declared.fatal.Fatal.TheVariants.{WantOfMemory as NoMemory};
ghost use Rattle.vx_hub.specs.Merges.{HasDoneOne, NoneMergesAt, NoneMerges, NoTickDue};
ghost use Rattle.vx_hub.specs.Standing.{IsHub, AreMergers, SameTask};
ghost use Rattle.vx_instances.specs.Staying.{EachState};

use crate::fatal::Fatal;
use crate::hub::Hub;
use vx_ends::Port;
use vx_keeping::Hosts;
use vx_landing::merge;
use vx_moves::EngineState;
use vx_ready::can_merge;

impl<P: Port> Hub<P> {
    /// Has an unleased instance that merges do what there is to do, in the name of a worker: it is leased, takes what is buffered and
    /// answers that; then it puts out all that it holds if nothing more can come, or acts by itself if its check is due, and is unleased
    /// again. What it discards is spent, and the notices are given that are due then. `hosts` has the transforms that the program hands
    /// in. Tells whether one had something to do; where none had, nothing has changed.
    ///
    /// The lease is of the moment `now`, in milliseconds; where a call before told a later one, it is of that still. `Fatal` comes for
    /// want of memory: the instance is unleased then, and still holds each copy that it neither put out nor spent before.
    pub fn merge<H: Hosts>(&mut self, hosts: &mut H, worker: u32, now: u64) -> Result<bool, Fatal>
        requires { IsHub P.observed self.old }
        ensures hub { IsHub P.observed self.new }
        ensures did { result ≡ Ok true →
            HasDoneOne worker (max now self.old.engine.run.latest) self.old.engine.log
            self.new.engine.log }
        ensures noted { OnErr result
            (HasDoneOne worker (max now self.old.engine.run.latest) self.old.engine.log
            self.new.engine.log) }
        ensures by { OnlyAdds (IsByOrNotice worker) self.old.engine.log self.new.engine.log }
        ensures unchanged { result ≡ Ok false → self.new ≡ self.old }
        ensures none { result ≡ Ok false → self.old.fatal ≡ false →
            NoneMerges self.old.engine.log (max now self.old.engine.run.latest) }
        ensures early { result ≡ Ok false → self.old.fatal ≡ false →
            NoTickDue self.old.engine (max now self.old.engine.run.latest) }
        ensures fatal { OnErr result (self.new.fatal ≡ true) }
        ensures reason { IfErr result (HasReason self.new.engine.log) }
        ensures memory { IfErr result (λ why. why ≡ NoMemory) }
        ensures rest { OnOk result (self.new ≡ record self.old { engine = self.new.engine }) }
        ensures short { self.new.engine.run.out_of_memory ≡ self.old.engine.run.out_of_memory }
        ensures tasks { EachState SameTask self.old.engine.states self.new.engine.states }
        ensures sound { self.old.fatal ≡ true → result ≡ Ok false }
        ensures latest { (result ≡ Ok false)
            ⊎ (self.new.engine.run.latest ≡ max now self.old.engine.run.latest) }
        ensures size { length self.new.engine.states ≡ length self.old.engine.states }
    {
        if self.fatal {
            return Ok(false);
        }
        let now = now.max(self.engine.run.latest);
        let Some(i) = first_merger(&self.engine, hosts, self.mergers.as_slice(), now) else {
            return Ok(false);
        };
        match merge(&mut self.engine, self.alloc, hosts, i, worker, now) {
            Ok(()) => Ok(true),
            Err(short) => {
                self.fatal = true;
                Err(Fatal::from(short))
            }
        }
    }
}

/// The first of some instances that merge that has something to do at a moment.
fn first_merger<P: Port, H: Hosts>(
    engine: &EngineState<P>,
    hosts: &H,
    mergers: &[u32],
    now: u64,
) -> Option<u32>
    requires stands { Stands P.observed engine.now }
    requires served { IsServed engine.now }
    requires mergers { AreMergers engine.now.run.plan.components
        (length engine.now.states) mergers.now }
    ensures within { IfSome result (λ i. i < length engine.now.states) }
    ensures joins { IfSome result (λ i. joins_at engine.now.log i ≡ true) }
    ensures leasable { IfSome result (λ i. IsLeasable engine.now i now) }
    ensures none { IfNone result
        ((k : ℕ) → IfSome (slice_get mergers.now k) (NoneMergesAt engine.now now)) }
{
    for k in 0..mergers.len() {
        let i = mergers[k];
        if can_merge(engine, hosts, i, now) {
            return Some(i);
        }
    }
    None
}
