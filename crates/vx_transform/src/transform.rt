ghost use Rattle.std.specs.Prelude.{◌≡◌, ◌≤◌, ◌↔◌, ℕ, Option, List, [], ◌∷◌, ◌++◌, OnOk, OnErr, IfErr, IfSome, IfNone, IsNone};
ghost use Rattle.std.specs.List.Sorted.{IsPermutation};
ghost use Rattle.vx_ledger.specs.Copies.{Copy};
ghost use Rattle.vx_transform.specs.Moves.{Moves};

use crate::back::Back;
use crate::shelf::Shelf;
use std::alloc::Global;
use vx_ledger::{Finalizer, Parcel};
use vx_value::WantOfMemory;

/// A stage between sources and sinks. It is given parcels, one by one, and puts what it makes of them on a shelf: an
/// event with its copies on some ports, or a parcel that it discards. Meanwhile it may hold copies.
///
/// No call loses a copy or doubles one (`Moves`), whatever the call answers. A call that can find no memory may say so; no
/// other refusal is there. A type that holds finalizers can't be dropped, so a transform is let go only where it holds nothing.
pub trait Transform {
    /// How many ports it has.
    ghost port_count: { Self → ℕ };

    /// The copies that it holds.
    ghost held: { Self → List Copy };

    /// The moment at which it wants to act by itself.
    ghost due_at: { Self → Option ℕ };

    /// How many ports there are. They are numbered from 0.
    fn ports(&self) -> u32
        ensures count { result ≡ port_count self.now }
        ensures some { 1 ≤ result }
        ensures few { result ≤ 65 };

    /// Gives it a parcel that comes at a moment. For want of memory the parcel comes back whole, and transform and shelf
    /// are as before.
    fn apply(
        &mut self,
        alloc: Global,
        parcel: Parcel,
        now: u64,
        shelf: &mut Shelf,
    ) -> Result<(), Back>
        ensures moves { OnOk result
            (Moves (port_count self.old) (held self.old ++ parcel.finalizers)
            (held self.new) shelf.old shelf.new) }
        ensures ports { port_count self.new ≡ port_count self.old }
        ensures back { IfErr result (λ refused. refused.parcel ≡ parcel) }
        ensures unchanged { OnErr result (self.new ≡ self.old) }
        ensures shelf { OnErr result (shelf.new ≡ shelf.old) };

    /// Lets it act by itself at a moment. For want of memory it may have done a part, which stays on the shelf.
    fn tick(&mut self, alloc: Global, now: u64, shelf: &mut Shelf) -> Result<(), WantOfMemory>
        ensures moves { Moves (port_count self.old) (held self.old)
            (held self.new) shelf.old shelf.new }
        ensures ports { port_count self.new ≡ port_count self.old };

    /// Has it give all that it holds, since nothing comes any more. For want of memory it may have given a part, which
    /// stays on the shelf.
    fn flush(&mut self, alloc: Global, shelf: &mut Shelf) -> Result<(), WantOfMemory>
        ensures moves { Moves (port_count self.old) (held self.old)
            (held self.new) shelf.old shelf.new }
        ensures emptied { OnOk result (held self.new ≡ []) }
        ensures ports { port_count self.new ≡ port_count self.old };

    /// The moment at which it is to be ticked, if there is one.
    fn due(&self) -> Option<u64>
        ensures { result ≡ due_at self.now };

    /// Takes a copy that it holds, where what it holds is given up. `None` exactly where it holds none. It takes no
    /// memory.
    fn surrender(&mut self) -> Option<Finalizer>
        ensures some { IfSome result
            (λ copy. IsPermutation (held self.old) (copy ∷ held self.new)) }
        ensures none { IsNone result ↔ (held self.old ≡ []) }
        ensures empty { IfNone result (held self.new ≡ []) }
        ensures ports { port_count self.new ≡ port_count self.old };
}
