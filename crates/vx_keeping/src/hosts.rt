ghost use Rattle.std.specs.Prelude.{◌≡◌, [], ◌++◌, All, OnOk};
ghost use Rattle.vx_transform.specs.Moves.{NamesPorts};
ghost use Rattle.vx_transform.specs.Shelves.{copies_dropped, copies_on};
ghost use Rattle.vx_keeping.specs.Given.{SameCopies};

use std::alloc::Global;
use vx_ledger::{Finalizer, Parcel};
use vx_places::Line;
use vx_transform::Shelf;
use vx_value::WantOfMemory;

/// The transforms that a program hands in, each asked by the number of the instance that runs it. They hold no copy from one call to the
/// next, so that each that they were given is found behind the call: on the shelf, among what is left over, or, for want of memory, still
/// in the line. Which of them a number stands for, and what it makes of the events, no clause here says.
pub trait Hosts {
    /// Gives an instance's transform the parcels of a line, the oldest first, at a moment in milliseconds; it leaves over what it would
    /// go on holding. For want of memory it may have been given some first ones.
    fn answer(
        &mut self,
        alloc: Global,
        i: u32,
        taken: &mut Line<Parcel>,
        now: u64,
        shelf: &mut Shelf,
        left: &mut Vec<Finalizer>,
    ) -> Result<(), WantOfMemory>
        ensures same { SameCopies
            (copies_dropped taken.old.items ++ (copies_on shelf.old ++ left.old.items))
            (copies_dropped taken.new.items ++ (copies_on shelf.new ++ left.new.items)) }
        ensures named { All (NamesPorts 65) shelf.old.outputs →
            All (NamesPorts 65) shelf.new.outputs }
        ensures none { OnOk result (taken.new.items ≡ []) }
        ensures room { taken.new.room ≡ taken.old.room };

    /// Lets an instance's transform act by itself at a moment in milliseconds. For want of memory it may have done a part.
    fn tick(
        &mut self,
        alloc: Global,
        i: u32,
        now: u64,
        shelf: &mut Shelf,
    ) -> Result<(), WantOfMemory>
        ensures same { SameCopies (copies_on shelf.old) (copies_on shelf.new) }
        ensures named { All (NamesPorts 65) shelf.old.outputs →
            All (NamesPorts 65) shelf.new.outputs };

    /// Tells an instance's transform that nothing comes any more. For want of memory it may have done a part. A run calls it only where
    /// something is held, so of none of these.
    fn flush(&mut self, alloc: Global, i: u32, shelf: &mut Shelf) -> Result<(), WantOfMemory>
        ensures same { SameCopies (copies_on shelf.old) (copies_on shelf.new) }
        ensures named { All (NamesPorts 65) shelf.old.outputs →
            All (NamesPorts 65) shelf.new.outputs };

    /// The moment in milliseconds at which an instance's transform is to be ticked, if there is one.
    fn due(&self, i: u32) -> Option<u64>;
}
