// How copies are taken out of parcels, one by one.
ghost use Rattle.std.specs.Prelude.{◌≡◌, ◌<◌, [], ◌∷◌, ◌++◌, IfSome, IfNone};
ghost use Rattle.vx_transform.specs.Shelves.{copies_put_out, copies_dropped, copies_on};
ghost use Rattle.vx_keeping.specs.Kept.{nothing};
ghost use Rattle.vx_keeping.specs.Given.{SameCopies};
ghost use Rattle.vx_keeping.specs.Stored.{parcels_count};

use vx_ledger::{Finalizer, Parcel};
use vx_places::Line;
use vx_transform::{Output, Shelf};

// Takes a copy of the first parcel that has one, and ends those before it. What is left of the parcel stays, be it none. `None`
// exactly where there is no copy; then there is no parcel any more.
pub(crate) fn take_copy(line: &mut Line<Parcel>) -> Option<Finalizer>
    ensures some { IfSome result
        (λ copy. SameCopies (copies_dropped line.old.items)
        (copy ∷ copies_dropped line.new.items)) }
    ensures none { IfNone result (copies_dropped line.old.items ≡ []) }
    ensures empty { IfNone result (line.new.items ≡ []) }
    ensures room { line.new.room ≡ line.old.room }
{
    while let Some(parcel) = line.pop() {
        let Parcel {
            event,
            mut finalizers,
        } = parcel;
        match finalizers.pop() {
            Some(copy) => {
                line.put_back(Parcel { event, finalizers });
                return Some(copy);
            }
            None => finalizers.end(),
        }
    }
    None
}

// Takes a parcel of some outputs or off a shelf. `None` exactly where there is none.
pub(crate) fn next_parcel(ready: &mut Vec<Output>, shelf: &mut Shelf) -> Option<Parcel>
    ensures some { IfSome result
        (λ parcel. SameCopies (copies_put_out ready.old.items ++ copies_on shelf.old)
        (parcel.finalizers ++ (copies_put_out ready.new.items ++ copies_on shelf.new))) }
    ensures fewer { IfSome result
        (λ _. parcels_count ready.new.items shelf.new < parcels_count ready.old.items shelf.old) }
    ensures ready { IfNone result (ready.old.items ≡ []) }
    ensures shelf { IfNone result (shelf.old ≡ nothing) }
    ensures unchanged { IfNone result (shelf.new ≡ shelf.old) }
    ensures none { IfNone result (ready.new.items ≡ []) }
{
    if let Some(output) = ready.pop() {
        let Output { ports: _, parcel } = output;
        return Some(parcel);
    }
    if let Some(output) = shelf.take_output() {
        let Output { ports: _, parcel } = output;
        return Some(parcel);
    }
    shelf.take_dropped()
}

// Ends parcels that have no copies.
pub(crate) fn end_parcels(line: Line<Parcel>)
    requires { copies_dropped line.items ≡ [] }
{
    let mut rest = line;
    while let Some(parcel) = rest.pop() {
        end_parcel(parcel);
    }
    rest.end();
}

// Ends outputs that have no copies.
pub(crate) fn end_outputs(outputs: Vec<Output>)
    requires { copies_put_out outputs.items ≡ [] }
{
    let mut rest = outputs;
    while let Some(output) = rest.pop() {
        let Output { ports: _, parcel } = output;
        end_parcel(parcel);
    }
    rest.destroy_empty();
}

// Ends a list of copies that has none.
pub(crate) fn end_copies(copies: Vec<Finalizer>)
    requires { copies.items ≡ [] }
{
    let mut rest = copies;
    match rest.pop() {
        None => rest.destroy_empty(),
        Some(_) => unreachable!(),
    }
}

// Ends a parcel that has no copies.
pub(crate) fn end_parcel(parcel: Parcel)
    requires { parcel.finalizers ≡ [] }
{
    let Parcel {
        event: _,
        finalizers,
    } = parcel;
    finalizers.end();
}
