ghost use Rattle.std.specs.Prelude.{◌≡◌, ◌<◌, ◌∷◌, length, OnOk, OnErr, IsSome};
ghost use Rattle.vx_record.specs.Places.Place.{Held};
ghost use Rattle.vx_places.specs.Views.{parcels_here};
ghost use Rattle.vx_moves.specs.Answering.{MayAnswerNow, answer_by};
ghost use Rattle.vx_moves.specs.Leaving.{Leaves};
ghost use Rattle.vx_moves.specs.Stands.{Stands, Steps};

use crate::divide::{Divided, divide};
use crate::engine::EngineState;
use std::alloc::Global;
use vx_ends::Port;
use vx_history::History;
use vx_record::Entry;
use vx_tasks::PortsList;
use vx_value::WantOfMemory;

impl<P: Port> EngineState<P> {
    /// Notes what a transform that is out answers, which judged all that it holds: each parcel is put out on the ports in its place.
    /// Those without ports it goes on holding; they are discarded, and to be spent as filtered.
    ///
    /// For want of memory nothing has changed in the record.
    pub fn answer(&mut self, alloc: Global, i: u32, ports: &PortsList) -> Result<(), WantOfMemory>
        requires stands { Stands P.observed self.old }
        requires within { i < length self.old.states }
        requires kept { IsSome (parcels_here self.old.places (Held i)) }
        requires may { MayAnswerNow self.old.log i ports.now }
        ensures stands { Stands P.observed self.new }
        ensures steps { OnOk result
            (Steps P.observed (answer_by self.old.log i ports.now) self.old self.new) }
        ensures leaves { Leaves self.old self.new }
        ensures kept { IsSome (parcels_here self.new.places (Held i)) }
        ensures unchanged { OnErr result (self.new.log ≡ self.old.log) }
        ensures size { length self.new.states ≡ length self.old.states }
    {
        let n = ports.len();
        let room = Vec::with_capacity(alloc, n)?;
        let held = self.lend(i);
        let Ok(()) = self.places.reserve_outputs(i, n) else {
            room.destroy_empty();
            self.give_back(i, held);
            return Err(WantOfMemory);
        };
        let Divided { passed, stopped } = divide(held, ports, room);
        note_answer(&mut self.log, i, ports);
        self.states
            .answered(i, passed.len() as u64, stopped.len() as u64);
        self.places.put_out(i, passed);
        self.give_back(i, stopped);
        Ok(())
    }
}

/// Notes the answer of an instance that judged all that it holds.
fn note_answer(log: &mut History<Entry>, i: u32, ports: &PortsList)
    ensures { log.new ≡ answer_by log.old i ports.now ∷ log.old }
{
    log.note(&(i, ports));
}
