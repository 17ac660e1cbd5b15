ghost use Rattle.std.specs.Prelude.{◌≡◌, ◌<◌, ◌≤◌, length, false};
ghost use Rattle.vx_record.specs.Abandoning.{abandoned};
ghost use Rattle.vx_record.specs.Starting.{MayLease};
ghost use Rattle.vx_moves.specs.Stands.{Stands};
ghost use Rattle.vx_moves.specs.Leasing.{HasLent, IsFitAt};

use crate::engine::EngineState;
use vx_ends::{Port, PositionList};
use vx_tasks::Task;

impl<P: Port> EngineState<P> {
    /// Leases an instance to a worker at a moment in milliseconds, and gives its task and what is to be confirmed. Where its component
    /// works with no port, nothing is.
    pub fn lease(&mut self, i: u32, worker: u32, now: u64) -> (Task<P>, Option<PositionList>)
        requires stands { Stands P.observed self.old }
        requires within { i < length self.old.states }
        requires may { MayLease self.old.log i worker now 0 }
        requires going { abandoned self.old.log ≡ false }
        requires latest { self.old.run.latest ≤ now }
        requires fit { IsFitAt self.old.states i }
        ensures lent { HasLent P.observed i worker now result.0 result.1 self.old self.new }
    {
        let Some((task, positions)) = self.states.leave(i, now) else {
            unreachable!();
        };
        self.run.latest = now;
        self.log.note(&(i, worker, now));
        (task, positions)
    }
}
