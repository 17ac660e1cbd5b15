ghost use Rattle.std.specs.Prelude.{◌≡◌, ◌≤◌, [], length, vec_capacity};
ghost use Rattle.vx_tasks.specs.Judging.{passed, stopped};

use vx_ledger::Parcel;
use vx_places::Line;
use vx_tasks::PortsList;
use vx_transform::Output;
use vx_value::ItemList;

/// Parcels that were judged: those that are put out, each with its ports, and the others.
pub(crate) struct Divided {
    pub(crate) passed: ItemList<Output>,
    pub(crate) stopped: Line<Parcel>,
}

/// Divides parcels by the ports in their places, in a vector with room for so many. Those without ports stay in their line, which
/// keeps its room. It takes no memory.
pub(crate) fn divide(held: Line<Parcel>, ports: &PortsList, room: Vec<Output>) -> Divided
    requires each { length ports.now ≡ length held.items }
    requires none { room.items ≡ [] }
    requires room { length held.items ≤ vec_capacity room }
    ensures passed { result.passed ≡ passed ports.now held.items }
    ensures stopped { result.stopped.items ≡ stopped ports.now held.items }
    ensures room { result.stopped.room ≡ held.room }
{
    let (mut held, mut outputs) = (held, room);
    for on in ports.as_slice() {
        let Some(parcel) = held.pop() else {
            unreachable!();
        };
        if *on == 0 {
            held.push(parcel);
        } else {
            outputs.push_reserved(Output { ports: *on, parcel });
        }
    }
    Divided {
        passed: ItemList::from_vec(outputs),
        stopped: held,
    }
}
