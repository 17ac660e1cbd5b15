//! Parcels without copies, and shelves on which nothing stands any more.
ghost use Rattle.std.specs.Prelude.{◌≡◌, [], IfOk};

use std::alloc::Global;
use std::process::Abort;
use std::test::Fail;
use vx_ledger::{Batches, Finalizers, Parcel, SharedEvent};
use vx_status::Outcome;
use vx_transform::Shelf;
use vx_value::Event;

// A list without copies, which no ledger has to take back.
fn no_copies(rt: &impl Abort, alloc: Global) -> Result<Finalizers, Fail>
    ensures { IfOk result (λ copies. copies ≡ []) }
{
    let mut batches = Batches::new(alloc)?;
    let (_, mut copies) = batches.born(0, 1)?;
    let Some(copy) = copies.pop() else {
        panic!(rt; "no copy");
    };
    batches.spend(copy, Outcome::Delivered);
    assert!(rt; copies.is_empty());
    Ok(copies)
}

/// A parcel of an event, without copies.
pub(crate) fn bare(rt: &impl Abort, alloc: Global, event: Event) -> Result<Parcel, Fail>
    ensures { IfOk result (λ parcel. parcel.finalizers ≡ []) }
{
    let event = SharedEvent::new(alloc, event)?;
    let finalizers = no_copies(rt, alloc)?;
    Ok(Parcel { event, finalizers })
}

/// Ends a parcel without copies, and gives its event.
pub(crate) fn end(rt: &impl Abort, parcel: Parcel) -> SharedEvent {
    let Parcel { event, finalizers } = parcel;
    assert!(rt; finalizers.is_empty());
    finalizers.end();
    event
}

/// Ends a shelf on which nothing stands any more.
pub(crate) fn close(rt: &impl Abort, shelf: Shelf) {
    let mut shelf = shelf;
    if let Some(_output) = shelf.take_output() {
        panic!(rt; "an output more");
    }
    if let Some(_parcel) = shelf.take_dropped() {
        panic!(rt; "a parcel more");
    }
    shelf.end();
}
