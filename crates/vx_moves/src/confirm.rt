ghost use Rattle.std.specs.Prelude.{◌≡◌, ◌<◌, length};
ghost use Rattle.vx_record.specs.declared.entry.Entry.TheVariants.{Confirm};
ghost use Rattle.vx_record.specs.Abandoning.{MayStillCome};
ghost use Rattle.vx_record.specs.Sourcing.{MayConfirm};
ghost use Rattle.vx_moves.specs.Leaving.{Leaves};
ghost use Rattle.vx_moves.specs.Stands.{Stands, Steps};

use crate::engine::EngineState;
use vx_ends::Port;
use vx_tasks::Confirmed;

impl<P: Port> EngineState<P> {
    /// Notes a confirm to the port of a source that is out, made or failed.
    pub fn confirm(&mut self, i: u32, confirmed: &Confirmed)
        requires stands { Stands P.observed self.old }
        requires within { i < length self.old.states }
        requires may { MayConfirm self.old.log i confirmed.now.positions }
        requires left { MayStillCome self.old.log
            (Confirm i confirmed.now.positions confirmed.now.made) }
        ensures steps { Steps P.observed
            (Confirm i confirmed.now.positions confirmed.now.made) self.old self.new }
        ensures leaves { Leaves self.old self.new }
    {
        self.states
            .confirmed(i, &confirmed.positions, confirmed.made);
        self.log.note(&(i, &confirmed.positions, confirmed.made));
    }
}
