ghost use Rattle.std.specs.Prelude.{◌≡◌, ◌≤◌, ◌+◌, [], ◌++◌, All, IfOk, OnOk, length};
ghost use Rattle.std.specs.Vec.{vec_capacity};
ghost use Rattle.vx_transform.specs.Moves.{NamesPorts};
ghost use Rattle.vx_transform.specs.Shelves.{copies_dropped, copies_on};
ghost use Rattle.vx_keeping.specs.Given.{SameCopies};

use crate::line_transform::LineTransform;
use std::alloc::Global;
use vx_ledger::{Finalizer, Parcel};
use vx_places::Line;
use vx_transform::{Back, Shelf, Transform};
use vx_value::WantOfMemory;

/// A transform as a host transform: what it goes on holding behind a call, it surrenders, and that is discarded. So it holds nothing
/// from one call to the next.
#[derive(Drop)]
pub struct Hosted<T: Transform + Drop> {
    transform: T,
    ghost idle: { T.held transform ≡ [] },
    ghost few: { T.port_count transform ≤ 65 },
}

impl<T: Transform + Drop> Hosted<T> {
    /// One of a transform that holds nothing.
    pub fn new(transform: T) -> Self
        requires { T.held transform ≡ [] }
    {
        let _few = transform.ports();
        Hosted { transform }
    }
}

impl<T: Transform + Drop> LineTransform for Hosted<T> {
    fn answer(
        &mut self,
        alloc: Global,
        taken: &mut Line<Parcel>,
        now: u64,
        shelf: &mut Shelf,
        left: &mut Vec<Finalizer>,
    ) -> Result<(), WantOfMemory> {
        left.reserve(count_copies(taken)?)?;
        let given = give_each(&mut self.transform, alloc, taken, now, shelf);
        leave_all(&mut self.transform, left);
        given
    }

    fn tick(&mut self, alloc: Global, now: u64, shelf: &mut Shelf) -> Result<(), WantOfMemory> {
        self.transform.tick(alloc, now, shelf)
    }

    fn flush(&mut self, alloc: Global, shelf: &mut Shelf) -> Result<(), WantOfMemory> {
        self.transform.flush(alloc, shelf)
    }

    fn due(&self) -> Option<u64> {
        self.transform.due()
    }
}

// How many copies the parcels of a line have. So many that they can't be counted don't fit into memory.
fn count_copies(taken: &Line<Parcel>) -> Result<usize, WantOfMemory>
    ensures { IfOk result (λ count. count ≡ length (copies_dropped taken.now.items)) }
{
    let mut count = 0usize;
    for i in 0..taken.len() {
        let parcel = match taken.get(i) {
            Some(parcel) => parcel,
            None => unreachable!(),
        };
        match count.checked_add(parcel.finalizers.len() as usize) {
            Some(more) => count = more,
            None => return Err(WantOfMemory),
        }
    }
    Ok(count)
}

// Gives a transform the parcels of a line, the oldest first, at a moment. For want of memory it may have given some first ones.
fn give_each<T: Transform>(
    transform: &mut T,
    alloc: Global,
    taken: &mut Line<Parcel>,
    now: u64,
    shelf: &mut Shelf,
) -> Result<(), WantOfMemory>
    requires { T.port_count transform.old ≤ 65 }
    ensures same { SameCopies
        (T.held transform.old ++ (copies_dropped taken.old.items ++ copies_on shelf.old))
        (T.held transform.new ++ (copies_dropped taken.new.items ++ copies_on shelf.new)) }
    ensures few { length (T.held transform.new)
        ≤ length (T.held transform.old) + length (copies_dropped taken.old.items) }
    ensures named { All (NamesPorts 65) shelf.old.outputs →
        All (NamesPorts 65) shelf.new.outputs }
    ensures none { OnOk result (taken.new.items ≡ []) }
    ensures ports { T.port_count transform.new ≡ T.port_count transform.old }
    ensures room { taken.new.room ≡ taken.old.room }
{
    while let Some(parcel) = taken.pop() {
        match transform.apply(alloc, parcel, now, shelf) {
            Ok(()) => {}
            Err(back) => {
                let Back { parcel } = back;
                taken.put_back(parcel);
                return Err(WantOfMemory);
            }
        }
    }
    Ok(())
}

// Puts all copies that a transform holds behind some others, for which there is room.
fn leave_all<T: Transform>(transform: &mut T, left: &mut Vec<Finalizer>)
    requires { length left.old.items + length (T.held transform.old) ≤ vec_capacity left.old }
    ensures same { SameCopies (T.held transform.old ++ left.old.items) left.new.items }
    ensures none { T.held transform.new ≡ [] }
    ensures ports { T.port_count transform.new ≡ T.port_count transform.old }
{
    while let Some(copy) = transform.surrender() {
        left.push_reserved(copy);
    }
}
