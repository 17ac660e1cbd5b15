ghost use Rattle.std.specs.Prelude.{◌≡◌, [], ◌++◌, All, OnOk};
ghost use Rattle.vx_transform.specs.Moves.{NamesPorts};
ghost use Rattle.vx_transform.specs.Shelves.{copies_dropped, copies_on};
ghost use Rattle.vx_keeping.specs.Given.{SameCopies};

use std::alloc::Global;
use vx_ledger::{Finalizer, Parcel};
use vx_places::Line;
use vx_transform::Shelf;
use vx_value::WantOfMemory;

/// A transform over a line of parcels, as a program hands it in. It holds no copy from one call to the next, so that each that it was
/// given is found behind the call: on the shelf, among what is left over, or, for want of memory, still in the line. What is left over
/// is discarded, and an output without a copy is ended unseen.
pub trait LineTransform {
    /// Gives it the parcels of a line, the oldest first, at a moment, and leaves over what it would go on holding. For want of memory it
    /// may have been given some first ones.
    fn answer(
        &mut self,
        alloc: Global,
        taken: &mut Line<Parcel>,
        now: u64,
        shelf: &mut Shelf,
        left: &mut Vec<Finalizer>,
    ) -> Result<(), WantOfMemory>
        ensures same { SameCopies
            (copies_dropped taken.old.items ++ (copies_on shelf.old ++ left.old.items))
            (copies_dropped taken.new.items ++ (copies_on shelf.new ++ left.new.items)) }
        ensures named { All (NamesPorts 65) shelf.old.outputs →
            All (NamesPorts 65) shelf.new.outputs }
        ensures none { OnOk result (taken.new.items ≡ []) }
        ensures room { taken.new.room ≡ taken.old.room };

    /// Lets it act by itself at a moment. For want of memory it may have done a part.
    fn tick(&mut self, alloc: Global, now: u64, shelf: &mut Shelf) -> Result<(), WantOfMemory>
        ensures same { SameCopies (copies_on shelf.old) (copies_on shelf.new) }
        ensures named { All (NamesPorts 65) shelf.old.outputs →
            All (NamesPorts 65) shelf.new.outputs };

    /// Tells it that nothing comes any more. For want of memory it may have done a part. A run calls it only where something is held, so
    /// of none that a program hands in.
    fn flush(&mut self, alloc: Global, shelf: &mut Shelf) -> Result<(), WantOfMemory>
        ensures same { SameCopies (copies_on shelf.old) (copies_on shelf.new) }
        ensures named { All (NamesPorts 65) shelf.old.outputs →
            All (NamesPorts 65) shelf.new.outputs };

    /// The moment at which it is to be ticked, if there is one.
    fn due(&self) -> Option<u64>;
}
