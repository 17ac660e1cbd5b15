// How a reduce is given what was taken, and what it puts out is taken off its shelf.
ghost use Rattle.std.specs.Prelude.{◌≡◌, ◌++◌, [], OnOk};
ghost use Rattle.vx_transform.specs.Shelves.{copies_dropped, copies_on};
ghost use Rattle.vx_reduce.specs.Groups.{copies_held};
ghost use Rattle.vx_keeping.specs.Given.{SameCopies, IsGiven, arrived_all};

use std::alloc::Global;
use vx_ledger::Parcel;
use vx_places::Line;
use vx_reduce::Reduce;
use vx_transform::{Back, Output, Shelf, Transform};
use vx_value::WantOfMemory;

// Gives a reduce the parcels of a line, the oldest first, at a moment. For want of memory it may have given some first ones.
pub(crate) fn give_all(
    reduce: &mut Reduce,
    alloc: Global,
    taken: &mut Line<Parcel>,
    now: u64,
    shelf: &mut Shelf,
) -> Result<(), WantOfMemory>
    ensures given { OnOk result
        (IsGiven (arrived_all now taken.old.items) reduce.old reduce.new shelf.old shelf.new) }
    ensures none { OnOk result (taken.new.items ≡ []) }
    ensures same { SameCopies
        (copies_held reduce.old.groups ++ (copies_dropped taken.old.items ++ copies_on shelf.old))
        (copies_held reduce.new.groups ++ (copies_dropped taken.new.items ++ copies_on shelf.new)) }
    ensures room { taken.new.room ≡ taken.old.room }
{
    while let Some(parcel) = taken.pop() {
        match reduce.apply(alloc, parcel, now, shelf) {
            Ok(()) => {}
            Err(back) => {
                let Back { parcel } = back;
                taken.put_back(parcel);
                return Err(WantOfMemory);
            }
        }
    }
    Ok(())
}

// Takes the outputs off a shelf and puts them behind some others. Memory is found for each before it is taken.
pub(crate) fn gather(shelf: &mut Shelf, ready: &mut Vec<Output>) -> Result<(), WantOfMemory>
    ensures all { ready.new.items ++ shelf.new.outputs ≡ ready.old.items ++ shelf.old.outputs }
    ensures dropped { shelf.new.dropped ≡ shelf.old.dropped }
    ensures none { OnOk result (shelf.new.outputs ≡ []) }
{
    loop {
        ready.reserve(1)?;
        match shelf.take_output() {
            Some(output) => ready.push_reserved(output),
            None => return Ok(()),
        }
    }
}
