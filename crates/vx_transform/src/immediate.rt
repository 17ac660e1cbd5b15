ghost use Rattle.std.specs.Prelude.{◌≡◌, ◌≤◌, ◌++◌, ℕ, Option, None, List, [], OnOk, OnErr, IfErr, IsOk};
ghost use Rattle.vx_ledger.specs.Copies.{Copy};
ghost use Rattle.vx_ledger.specs.declared.parcel.Parcel.{Parcel};
ghost use Rattle.vx_transform.specs.Shelves.{Shelved};
ghost use Rattle.vx_transform.specs.Moves.{Moves};

use crate::back::Back;
use crate::shelf::Shelf;
use crate::transform::Transform;
use std::alloc::Global;
use vx_ledger::{Finalizer, Parcel};
use vx_value::WantOfMemory;

/// A transform that answers each parcel at once. It holds no copy between two calls, and does nothing by the clock or at the
/// end.
pub trait Immediate {
    /// How many ports it has.
    ghost width: { Self → ℕ };

    /// What is known of an answer to a parcel, by what it was, and the shelf, before and behind it.
    ghost answers: { Parcel → Shelved → Shelved → Self → Self → Type 0 };

    /// How many ports there are. They are numbered from 0.
    fn width(&self) -> u32
        ensures count { result ≡ width self.now }
        ensures some { 1 ≤ result }
        ensures few { result ≤ 65 };

    /// Puts a parcel on the shelf. For want of memory the parcel comes back whole, and all is as before.
    fn answer(&mut self, alloc: Global, parcel: Parcel, shelf: &mut Shelf) -> Result<(), Back>
        ensures answered { OnOk result (answers parcel shelf.old shelf.new self.old self.new) }
        ensures moves { OnOk result
            (Moves (width self.old) parcel.finalizers [] shelf.old shelf.new) }
        ensures ports { width self.new ≡ width self.old }
        ensures back { IfErr result (λ refused. refused.parcel ≡ parcel) }
        ensures unchanged { OnErr result (self.new ≡ self.old) }
        ensures shelf { OnErr result (shelf.new ≡ shelf.old) };
}

impl<I: Immediate> Transform for I {
    ghost port_count = { I.width };

    ghost held = { λ _. [] };

    ghost due_at = { λ _. None };

    fn ports(&self) -> u32 {
        self.width()
    }

    fn apply(
        &mut self,
        alloc: Global,
        parcel: Parcel,
        _now: u64,
        shelf: &mut Shelf,
    ) -> Result<(), Back>
        ensures answered { OnOk result (I.answers parcel shelf.old shelf.new self.old self.new) }
        ensures moves { OnOk result
            (Moves (I.width self.old) parcel.finalizers [] shelf.old shelf.new) }
        ensures ports { I.width self.new ≡ I.width self.old }
        ensures back { IfErr result (λ refused. refused.parcel ≡ parcel) }
        ensures unchanged { OnErr result (self.new ≡ self.old) }
        ensures shelf { OnErr result (shelf.new ≡ shelf.old) }
    {
        self.answer(alloc, parcel, shelf)
    }

    /// Does nothing.
    fn tick(&mut self, _alloc: Global, _now: u64, shelf: &mut Shelf) -> Result<(), WantOfMemory>
        ensures ok { IsOk result }
        ensures same { self.new ≡ self.old }
        ensures shelf { shelf.new ≡ shelf.old }
        ensures moves { Moves (I.width self.old) [] [] shelf.old shelf.new }
    {
        Ok(())
    }

    /// Does nothing.
    fn flush(&mut self, _alloc: Global, shelf: &mut Shelf) -> Result<(), WantOfMemory>
        ensures ok { IsOk result }
        ensures same { self.new ≡ self.old }
        ensures shelf { shelf.new ≡ shelf.old }
        ensures moves { Moves (I.width self.old) [] [] shelf.old shelf.new }
    {
        Ok(())
    }

    fn due(&self) -> Option<u64> {
        None
    }

    fn surrender(&mut self) -> Option<Finalizer>
        ensures none { result ≡ None }
        ensures same { self.new ≡ self.old }
    {
        None
    }
}
