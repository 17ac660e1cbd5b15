// The slots for what instances keep that merge.
ghost use Rattle.vx_hub.specs.Making.{AreBare};

use crate::parts::KeeperList;
use vx_keeping::Keeper;

/// Ends a list of keepers, none of which has a copy. It takes no memory.
pub fn end_keepers(keepers: KeeperList)
    requires { AreBare keepers }
{
    end_slots(keepers.into_vec());
}

// Ends slots in none of which a copy is kept. It takes no memory.
pub(crate) fn end_slots(slots: Vec<Option<Keeper>>)
    requires { AreBare slots.items }
{
    let mut rest = slots;
    while let Some(slot) = rest.pop() {
        if let Some(keeper) = slot {
            keeper.end();
        }
    }
    rest.destroy_empty();
}
