ghost use Rattle.std.specs.Prelude.{◌≡◌, ◌<◌, length, false, Some};
ghost use Rattle.vx_record.specs.declared.entry.Entry.TheVariants.{Push};
ghost use Rattle.vx_record.specs.Abandoning.{abandoned};
ghost use Rattle.vx_record.specs.Places.Place.{Waiting};
ghost use Rattle.vx_record.specs.Shifts.{at};
ghost use Rattle.vx_record.specs.Spending.{oldest};
ghost use Rattle.vx_record.specs.Turns.{is_out};
ghost use Rattle.vx_places.specs.Calls.{IsOldestFor};
ghost use Rattle.vx_places.specs.Looks.{IsFirstRoom};
ghost use Rattle.vx_moves.specs.Leaving.{Leaves};
ghost use Rattle.vx_moves.specs.Stands.{Stands, Steps};

use crate::engine::EngineState;
use vx_ends::Port;

impl<P: Port> EngineState<P> {
    /// Moves a waiting child of an unleased instance, the oldest for its target, into the first stage of the target's buffer that
    /// has room. It takes no memory.
    pub fn push(&mut self, i: u32, child: usize, target: u32, stage: usize)
        requires stands { Stands P.observed self.old }
        requires within { i < length self.old.states }
        requires there { target < length self.old.states }
        requires going { abandoned self.old.log ≡ false }
        requires unleased { is_out self.old.log i ≡ false }
        requires oldest { IsOldestFor self.old.places i target child }
        requires room { IsFirstRoom self.old.places target (Some stage) }
        ensures steps { Steps P.observed
            (Push i target stage (oldest (at self.old.log (Waiting i target)))) self.old self.new }
        ensures leaves { Leaves self.old self.new }
    {
        self.places.push(i, child, target, stage);
        self.log.note(&(i, target, stage));
    }
}
