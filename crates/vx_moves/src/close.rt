ghost use Rattle.std.specs.Prelude.{◌≡◌, ◌<◌, length};
ghost use Rattle.vx_record.specs.declared.entry.Entry.TheVariants.{Closed, Retired};
ghost use Rattle.vx_record.specs.Ending.{MayClose, MayRetire};
ghost use Rattle.vx_instances.specs.Calls.{IsShutAt};
ghost use Rattle.vx_moves.specs.Leaving.{Leaves};
ghost use Rattle.vx_moves.specs.Stands.{Stands, Steps};

use crate::engine::EngineState;
use vx_ends::Port;

impl<P: Port> EngineState<P> {
    /// Notes that the port of an instance is closed for good. If the instance is unleased, its port isn't started then.
    pub fn close(&mut self, i: u32)
        requires stands { Stands P.observed self.old }
        requires within { i < length self.old.states }
        requires may { MayClose self.old.log i }
        requires shut { IsShutAt P.observed self.old.states i }
        ensures steps { Steps P.observed (Closed i) self.old self.new }
        ensures leaves { Leaves self.old self.new }
    {
        self.states.closed(i);
        self.log.note(&i);
    }

    /// Notes that an instance ended.
    pub fn retire(&mut self, i: u32)
        requires stands { Stands P.observed self.old }
        requires within { i < length self.old.states }
        requires may { MayRetire self.old.log i }
        ensures steps { Steps P.observed (Retired i) self.old self.new }
        ensures leaves { Leaves self.old self.new }
    {
        self.states.retired(i);
        self.log.note(&i);
    }
}
