ghost use Rattle.std.specs.Prelude.{◌≡◌, ◌<◌, ◌^◌, ◌∷◌, [], length, true, false, Ok, IfErr};
ghost use Rattle.vx_ledger.specs.Copies.{numbers_of};
ghost use Rattle.vx_record.specs.declared.entry.Entry.TheVariants.{Split};
ghost use Rattle.vx_record.specs.Abandoning.{abandoned};
ghost use Rattle.vx_places.specs.Numbers.{noted};
ghost use Rattle.vx_record.specs.Turns.{is_out};
ghost use Rattle.vx_places.specs.Calls.{NoneWaits};
ghost use Rattle.vx_places.specs.Looks.{HasOutput};
ghost use Rattle.vx_moves.specs.Leaving.{Leaves};
ghost use Rattle.vx_moves.specs.Splitting.{HasSplit, IsSplitShort, oldest_readers};
ghost use Rattle.vx_moves.specs.Stands.{Stands};

use crate::engine::EngineState;
use std::snapshot::Snapshot;
use vx_ends::Port;
use vx_history::History;
use vx_ledger::{ChildList, Parcel, RouteRefused, Routed, Short};
use vx_record::Entry;
use vx_transform::Output;

impl<P: Port> EngineState<P> {
    /// Replaces the oldest output of an unleased instance, of which no child waits, by a child for each instance that reads a port on
    /// which it was put out.
    /// Whether there is one; where there is none, nothing has changed in the record.
    ///
    /// `Numbers` comes exactly where the children's numbers would pass 2^63, and before memory is asked for. After a refusal
    /// nothing has changed in the record.
    pub fn split(&mut self, i: u32) -> Result<bool, Short>
        requires stands { Stands P.observed self.old }
        requires within { i < length self.old.states }
        requires going { abandoned self.old.log ≡ false }
        requires unleased { is_out self.old.log i ≡ false }
        requires none_waits { NoneWaits self.old.places i }
        requires some { HasOutput self.old.places i }
        ensures stands { Stands P.observed self.new }
        ensures leaves { Leaves self.old self.new }
        ensures split { result ≡ Ok true → HasSplit P.observed i self.old self.new }
        ensures unread { result ≡ Ok false → oldest_readers self.old.log i ≡ [] }
        ensures short { IfErr result (IsSplitShort self.old.log i) }
        ensures unchanged { (result ≡ Ok true → ⊥) → self.new.log ≡ self.old.log }
        ensures size { length self.new.states ≡ length self.old.states }
    {
        let room = self.places.take_child_room(i);
        let Some(Output { ports, parcel }) = self.places.take_output(i) else {
            unreachable!();
        };
        let ports = bounded(ports);
        let was = Snapshot::of(&parcel);
        let outlet = &self.states.get(i).outlet;
        match self.balance.route(outlet, ports, parcel, room) {
            Ok(Routed::Children(children)) => {
                note_split(&mut self.log, i, ports, &was, &children);
                self.places.put_children(i, children);
                Ok(true)
            }
            Ok(Routed::NoConsumer(parcel)) => {
                self.places.put_output_back(i, Output { ports, parcel });
                Ok(false)
            }
            Err(RouteRefused { cause, parcel }) => {
                self.places.put_output_back(i, Output { ports, parcel });
                Err(cause)
            }
        }
    }
}

/// Notes that a parcel was split into children for the readers of its ports.
fn note_split(
    log: &mut History<Entry>,
    i: u32,
    ports: u128,
    was: &Snapshot<Parcel>,
    children: &ChildList,
)
    ensures { log.new ≡ Split i ports (numbers_of was.now.value.finalizers) was.now.value.event
        (noted children.now) ∷ log.old }
{
    log.note(&(i, ports, was, children));
}

/// The same set of ports: it has none from 128 on.
fn bounded(ports: u128) -> u128
    ensures same { result ≡ ports }
    ensures below { result < 2 ^ 128 }
{
    ports
}
