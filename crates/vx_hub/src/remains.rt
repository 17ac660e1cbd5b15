ghost use Rattle.std.specs.Prelude.{◌≡◌, ◌<◌, ◌≤◌, ◌^◌, [], length, false, vec_capacity};
ghost use Rattle.vx_record.specs.Installs.{started};
ghost use Rattle.vx_moves.specs.Returns.{HaveReturned};
ghost use Rattle.vx_hub.specs.Ending.{IsOver};
ghost use Rattle.vx_hub.specs.Remains.{HasEnded, AreNumbered, AreClosed, AreObserved, AreObservedButGiven, AreUnleased, ArePortsOf};
ghost use Rattle.vx_hub.specs.Standing.{IsHub};

use crate::hub::Hub;
use crate::parts::{Numbered, NumberedList};
use crate::slots::end_slots;
use vx_ends::Port;
use vx_history::History;
use vx_instances::InstanceStates;
use vx_moves::EngineState;
use vx_record::Entry;
use vx_tasks::Task;
use vx_value::ItemList;

/// What a hub leaves behind.
#[derive(Drop)]
pub struct Remains<P> {
    /// The port of each instance, in the order of their numbers.
    pub ports: NumberedList<P>,
    /// What happened, entry by entry. It exists in proofs alone.
    pub history: History<Entry>,
}

impl<P: Port> Hub<P> {
    /// Ends a hub whose instances all ended. Each port is closed, as that of each instance with a device was before. It takes no
    /// memory.
    pub fn end(self) -> Remains<P>
        requires hub { IsHub P.observed self }
        requires over { IsOver self.engine.log }
        ensures history { result.history ≡ self.engine.log }
        ensures ended { HasEnded (length (started self.engine.log)) self.engine.log }
        ensures numbers { AreNumbered 0 result.ports }
        ensures count { length result.ports ≡ length (started self.engine.log) }
        ensures closed { AreClosed P.observed result.ports }
        ensures observed { self.engine.run.out_of_memory ≡ false → AreObserved P.observed self.engine.log result.ports }
        ensures observed_but { AreObservedButGiven P.observed self.engine.log result.ports }
        ensures returned { self.engine.run.out_of_memory ≡ false → HaveReturned self.engine.log }
    {
        let Hub {
            alloc: _,
            engine,
            fatal: _,
            ports,
            sources: _,
            mergers: _,
        } = self;
        let EngineState {
            places,
            keepers,
            states,
            balance: _,
            run: _,
            log,
        } = engine;
        places.end();
        end_slots(keepers);
        Remains {
            ports: ports_of(states, ports),
            history: log,
        }
    }
}

/// The ports of instances that are all unleased, closed, with their numbers. It takes no memory.
fn ports_of<P: Port>(states: InstanceStates<P>, port_slots: Vec<Numbered<P>>) -> NumberedList<P>
    requires few { length states < 2 ^ 32 }
    requires unleased { AreUnleased states }
    requires room { length states ≤ vec_capacity port_slots }
    requires none { port_slots.items ≡ [] }
    ensures count { length result ≡ length states }
    ensures numbers { AreNumbered 0 result }
    ensures ports { ArePortsOf P.observed states result }
{
    let (mut states, mut port_slots) = (states, port_slots);
    for i in 0..states.len() as u32 {
        let Some((task, _)) = states.leave(i, 0) else {
            unreachable!();
        };
        let Task { mut port, role: _ } = task;
        port.close();
        port_slots.push_reserved(Numbered { instance: i, port });
    }
    ItemList::from_vec(port_slots)
}
