ghost use Rattle.std.specs.Prelude.{◌≡◌, ◌<◌, length, OnOk, OnErr, IfErr};
ghost use Rattle.vx_moves.specs.Leaving.{Leaves};
ghost use Rattle.vx_moves.specs.Creating.{MayCreateBatchNow, HasCreatedBatch, IsBirthShort};
ghost use Rattle.vx_moves.specs.Stands.{Stands};

use crate::engine::EngineState;
use crate::pair::pair;
use std::alloc::Global;
use vx_ends::{Port, Position};
use vx_ledger::{SharedEventList, Short};

impl<P: Port> EngineState<P> {
    /// Creates a batch with a copy for each event that the newest entry, a Read of the instance, yields, and puts each out behind
    /// those that the instance put out.
    ///
    /// `Numbers` comes only where the copies' numbers would pass 2^63; a want of memory may hide it. All memory is taken
    /// before: after a refusal nothing has changed in the record.
    pub fn create_batch(
        &mut self,
        alloc: Global,
        i: u32,
        position: Position,
        events: SharedEventList,
    ) -> Result<(), Short>
        requires stands { Stands P.observed self.old }
        requires within { i < length self.old.states }
        requires may { MayCreateBatchNow self.old.log i position events }
        ensures stands { Stands P.observed self.new }
        ensures leaves { Leaves self.old self.new }
        ensures created { OnOk result (HasCreatedBatch P.observed i position events self.old self.new) }
        ensures short { IfErr result (IsBirthShort self.old.log (length events)) }
        ensures unchanged { OnErr result (self.new.log ≡ self.old.log) }
        ensures size { length self.new.states ≡ length self.old.states }
    {
        let n = events.len();
        let Ok(ends) = self.states.prepare(i, alloc, position) else {
            return Err(Short::WantOfMemory);
        };
        let Ok(()) = self.places.reserve_outputs(i, n) else {
            return Err(Short::WantOfMemory);
        };
        let Ok(room) = Vec::with_capacity(alloc, n) else {
            return Err(Short::WantOfMemory);
        };
        let (batch, copies) = match self.balance.start_batch(i, n as u32) {
            Ok(born) => born,
            Err(short) => {
                room.destroy_empty();
                return Err(short);
            }
        };
        self.log.note(&(i, &events, position));
        self.states.born(i, batch, ends, n as u64);
        self.places.put_out(i, pair(events, copies, room));
        Ok(())
    }
}
