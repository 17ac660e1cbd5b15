// How a task comes back.
ghost use Rattle.std.specs.Prelude.{◌≡◌, ◌<◌, ◌||◌, is_err, true, false, length, Ok, IfErr, OnOk, OnErr};
ghost use Rattle.vx_record.specs.Abandoning.{abandoned};
ghost use Rattle.vx_record.specs.Ceasing.{cause_of};
ghost use Rattle.vx_hub.specs.Ending.{IsGivenUp};
ghost use Rattle.vx_record.specs.Additions.{OnlyAdds};
ghost use Rattle.vx_record.specs.Makers.{IsFor};
ghost use Rattle.vx_record.specs.Turns.{is_out};
ghost use Rattle.vx_tasks.specs.Out.{HasDone};
ghost use Rattle.vx_moves.specs.Capacities.{IsHeldLimitOf};
ghost use Rattle.vx_moves.specs.Stands.{Stands};
ghost use Rattle.vx_hub.specs.Failures.{HasReason, fatal_of};
ghost use Rattle.vx_landing.specs.Landings.{HasTask, IsNotedSo, wants_memory};
ghost use Rattle.vx_hub.specs.Standing.{IsHub};

use crate::fatal::Fatal;
use crate::hub::Hub;
use std::alloc::Global;
use vx_ends::Port;
use vx_landing::accept_landing;
use vx_ledger::Short;
use vx_moves::EngineState;
use vx_tasks::Landing;

impl<P: Port> Hub<P> {
    /// Brings a task back with what was done, and notes it, whatever others did meanwhile.
    ///
    /// `Fatal` comes where a birth found no numbers or no memory, or the work or its answer found no memory, in a run that wasn't
    /// given up. Each entry that was made stands then, every copy that isn't spent is still held, and the instance is unleased. In a
    /// run that goes on its task stands there as it came, so that its port stays started. After an abandonment no batch is born, and
    /// all that stands at the instance is spent as abandoned, and its port, if it has one, closed for good.
    pub fn land(&mut self, landing: Landing<P>) -> Result<(), Fatal>
        requires hub { IsHub P.observed self.old }
        requires within { landing.instance < length self.old.engine.states }
        requires done { HasDone P.observed self.old.engine.log landing }
        requires room { IsHeldLimitOf self.old.engine.log landing.instance landing.held.room }
        ensures hub { IsHub P.observed self.new }
        ensures unleased { is_out self.new.engine.log landing.instance ≡ false }
        ensures noted { IsNotedSo
            (is_err result || abandoned self.old.engine.log) landing self.old.engine.log
            self.new.engine.log }
        ensures only { OnlyAdds (IsFor landing.instance) self.old.engine.log self.new.engine.log }
        ensures fatal { OnErr result (self.new.fatal ≡ true) }
        ensures reason { IfErr result (HasReason self.new.engine.log) }
        ensures over { abandoned self.old.engine.log ≡ true → result ≡ Ok tt }
        ensures ceased { abandoned self.old.engine.log ≡ true →
            IsGivenUp self.new.engine.log landing.instance }
        ensures going { cause_of self.new.engine.log ≡ cause_of self.old.engine.log }
        ensures marked { self.new.engine.run.out_of_memory
            ≡ (wants_memory landing.done || self.old.engine.run.out_of_memory) }
        ensures task { abandoned self.old.engine.log ≡ false →
            HasTask self.new.engine.states landing.instance landing.task }
        ensures latest { self.new.engine.run.latest ≡ self.old.engine.run.latest }
        ensures stuck { self.old.fatal ≡ true → self.new.fatal ≡ true }
        ensures sound { OnOk result
            (abandoned self.old.engine.log ≡ false → self.new.fatal ≡ self.old.fatal) }
    {
        match accept_landing(&mut self.engine, self.alloc, landing) {
            Ok(()) => Ok(()),
            Err(short) => {
                self.fatal = true;
                answer_of(&self.engine, short)
            }
        }
    }
}

// What a landing answers that was short of something: nothing, where the run was given up.
fn answer_of<P: Port>(engine: &EngineState<P>, short: Short) -> Result<(), Fatal>
    requires stands { Stands P.observed engine.now }
    ensures over { abandoned engine.now.log ≡ true → result ≡ Ok tt }
    ensures going { OnErr result (abandoned engine.now.log ≡ false) }
    ensures fine { OnOk result (abandoned engine.now.log ≡ true) }
    ensures cause { IfErr result (λ fatal. fatal ≡ fatal_of short) }
{
    if engine.run.abandoned.is_some() {
        return Ok(());
    }
    Err(Fatal::from(short))
}
