ghost use Rattle.std.specs.Prelude.{◌≡◌, ◌≤◌, [], length, vec_capacity};
ghost use Rattle.vx_moves.specs.Creating.{paired};

use vx_ledger::{FinalizersList, Parcel, SharedEventList};
use vx_transform::Output;
use vx_value::ItemList;

/// The set of ports that has the first port alone: a source puts each parcel out there.
const FIRST_PORT: u128 = 1;

/// Each event with its copies, in order, to be put out on the first port, in a vector with room for so many. It takes no memory.
pub(crate) fn pair(
    events: SharedEventList,
    copies: FinalizersList,
    room: Vec<Output>,
) -> ItemList<Output>
    requires each { length events ≡ length copies }
    requires none { room.items ≡ [] }
    requires room { length events ≤ vec_capacity room }
    ensures { result ≡ paired events copies }
{
    let (mut events, mut copies, mut outputs) = (events, copies, room);
    while let Some(event) = events.pop() {
        let Some(finalizers) = copies.pop() else {
            unreachable!();
        };
        outputs.push_reserved(Output {
            ports: FIRST_PORT,
            parcel: Parcel { event, finalizers },
        });
    }
    copies.end();
    outputs.as_mut_slice().reverse();
    ItemList::from_vec(outputs)
}
