ghost use Rattle.std.specs.Prelude.{◌≡◌, ◌<◌, ◌≤◌, length, take};
ghost use Rattle.vx_record.specs.declared.entry.Entry.TheVariants.{Attempt};
ghost use Rattle.vx_record.specs.Copies.{joined};
ghost use Rattle.vx_record.specs.Lists.{held};
ghost use Rattle.vx_record.specs.Abandoning.{MayStillCome};
ghost use Rattle.vx_record.specs.Sinking.{MayAttempt};
ghost use Rattle.vx_moves.specs.Leaving.{Leaves};
ghost use Rattle.vx_moves.specs.Stands.{Stands, Steps};

use crate::engine::EngineState;
use std::snapshot::Snapshot;
use vx_ends::{Port, Reply};
use vx_value::Bytes;

impl<P: Port> EngineState<P> {
    /// Notes an attempt of a sink that is out: it gave the first `sent` of some bytes, and was answered.
    pub fn attempt(&mut self, i: u32, all: &Snapshot<Bytes>, sent: u64, reply: Reply)
        requires stands { Stands P.observed self.old }
        requires within { i < length self.old.states }
        requires fits { sent ≤ length all.now.value }
        requires may { MayAttempt self.old.log i (joined (held self.old.log i))
            (take sent all.now.value) reply }
        requires left { MayStillCome self.old.log
            (Attempt i (joined (held self.old.log i)) (take sent all.now.value) reply) }
        ensures steps { Steps P.observed
            (Attempt i (joined (held self.old.log i)) (take sent all.now.value) reply) self.old
            self.new }
        ensures leaves { Leaves self.old self.new }
    {
        self.states.attempted(i, sent, reply);
        self.log.note(&(i, all, sent, reply));
    }
}
