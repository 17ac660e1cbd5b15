ghost use Rattle.std.specs.Prelude.{◌≡◌, ◌+◌, ◌<◌, ◌≤◌, ℕ, [], ◌↔◌, length, OnOk, OnErr, IfSome, IfNone, IsTrue, Some, false};
ghost use Rattle.vx_record.specs.declared.entry.Entry.TheVariants.{Push, Take};
ghost use Rattle.vx_record.specs.Places.Place.{Outputs, Waiting, Contents, Held};
ghost use Rattle.vx_ledger.specs.Copies.{numbers_of};
ghost use Rattle.vx_places.specs.Holding.{Shifts};
ghost use Rattle.vx_places.specs.Views.{Same, AddsKeeper, parcels_here};
ghost use Rattle.vx_places.specs.Capacities.{SameCapacities, LendsCapacity, AddsCapacities, AddsKeeperCapacities};
ghost use Rattle.vx_places.specs.Calls.{Takes, TakesOutput, Lends, Loses, IsRow, IsNew, IsNewKeeper, Moves, PutsOut, Divides, IsThere, HasOutputRoom, HasOutputRoomFor, NoneWaits, IsOldestFor, HasRoom, HasSome, IsKept, IsLent, HasHeldRoom, NothingToSpend, waiting_target};
ghost use Rattle.vx_places.specs.Marks.{IsBefore, IsUnfilled};
ghost use Rattle.vx_places.specs.Looks.{HasOutput, HasWaiting, HasSent, HasEmptyBuffer, ManyWait, HoldsMany, IsHeldFull, IsBare, IsClear, IsFirstRoom, IsFirstFilled, AreEnded};

use crate::line::Line;
use crate::lost::Lost;
use crate::marks::{self, MARKED, Marks};
use crate::row::{Row, make_keeper_row, make_row};
use crate::{looks, rows};
use std::alloc::Global;
use std::marker::Model;
use vx_ledger::{Child, ChildList, Parcel};
use vx_transform::Output;
use vx_value::{ItemList, WantOfMemory};

/// Where the parcels of all instances stand. It can't be dropped, and so no parcel is lost.
///
/// Contracts see what stands at each place, the oldest first. `Holds` says that this is what a record has there: what a call
/// ensures is that the places shift as the entry with which it is noted. An output stands there with the ports on which it was put
/// out.
pub struct Places {
    rows: Vec<Row>,
    marks: Marks,
}

impl Model for Places {
    ghost use Rattle.std.specs.Prelude.{List};
    ghost use Rattle.std.specs.Coded.{codes};
    ghost use Rattle.vx_value.specs.DatumCode.{coded_datum};
    ghost use Rattle.vx_places.specs.declared.row.Row.{Row};
    ghost use Rattle.vx_places.specs.Marks.{AreMarked};

    ghost Value = { List Row };

    ghost coded = { Prim.hlevel (codes, coded_datum) };

    ghost view = { λ p. p.rows.items };

    ghost invariant = { λ p. AreMarked p.rows.items p.marks };
}

impl Places {
    /// No instance, as at the beginning of a record. It takes no memory.
    pub fn new(alloc: Global) -> Self
        ensures none { result ≡ [] }
    {
        Places {
            rows: Vec::new(alloc),
            marks: Marks {
                unsent: Vec::new(alloc),
                filled: Vec::new(alloc),
            },
        }
    }

    /// How many instances there are.
    pub fn len(&self) -> usize
        ensures { result ≡ length self.now }
    {
        self.rows.len()
    }

    /// Adds an instance at which nothing stands, with a buffer of stages of these capacities, and with room for so many parcels
    /// that it holds. For want of memory nothing has changed.
    pub fn add(
        &mut self,
        alloc: Global,
        capacities: &[usize],
        held: usize,
    ) -> Result<(), WantOfMemory>
        ensures same { OnOk result (Same self.old self.new) }
        ensures size { OnOk result (length self.new ≡ length self.old + 1) }
        ensures fresh { OnOk result (IsRow (IsNew capacities.now held) self.new (length self.old)) }
        ensures capacities { OnOk result (AddsCapacities capacities.now held self.old self.new) }
        ensures unchanged { OnErr result (self.new ≡ self.old) }
    {
        self.rows.reserve(1)?;
        self.marks.unsent.reserve(1)?;
        self.marks.filled.reserve(1)?;
        let row = make_row(alloc, capacities, held)?;
        self.rows.push_reserved(row);
        self.marks.unsent.push_reserved(0);
        self.marks.filled.push_reserved(0);
        Ok(())
    }

    /// Adds an instance as `add` does, but with a keeper elsewhere, which has what it holds: here that is lent for ever. What it takes
    /// is taken away. For want of memory nothing has changed.
    pub fn add_keeper(&mut self, alloc: Global, capacities: &[usize]) -> Result<(), WantOfMemory>
        ensures adds { OnOk result (AddsKeeper self.old self.new) }
        ensures size { OnOk result (length self.new ≡ length self.old + 1) }
        ensures fresh { OnOk result (IsRow (IsNewKeeper capacities.now) self.new (length self.old)) }
        ensures capacities { OnOk result (AddsKeeperCapacities capacities.now self.old self.new) }
        ensures unchanged { OnErr result (self.new ≡ self.old) }
    {
        self.rows.reserve(1)?;
        self.marks.unsent.reserve(1)?;
        self.marks.filled.reserve(1)?;
        let row = make_keeper_row(alloc, capacities)?;
        self.rows.push_reserved(row);
        self.marks.unsent.push_reserved(0);
        self.marks.filled.push_reserved(MARKED);
        Ok(())
    }

    /// Whether no child of an instance waits.
    pub fn none_waits(&self, instance: u32) -> bool
        requires { IsThere self.now instance }
        ensures none { IsTrue result ↔ NoneWaits self.now instance }
    {
        looks::none_waits(&self.rows, instance as usize)
    }

    /// Whether a stage of an instance's buffer has room for one more parcel.
    pub fn has_room(&self, instance: u32, stage: usize) -> bool
        requires { IsThere self.now instance }
        ensures room { IsTrue result ↔ HasRoom self.now instance stage }
    {
        looks::has_room(&self.rows, instance as usize, stage)
    }

    /// Whether a stage of an instance's buffer has a parcel.
    pub fn has_some(&self, instance: u32, stage: usize) -> bool
        requires { IsThere self.now instance }
        ensures some { IsTrue result ↔ HasSome self.now instance stage }
    {
        looks::has_some(&self.rows, instance as usize, stage)
    }

    /// The first stage of an instance's buffer that has room for one more parcel. `None` exactly where all are full.
    pub fn first_room(&self, instance: u32) -> Option<usize>
        requires { IsThere self.now instance }
        ensures first { IsFirstRoom self.now instance result }
    {
        looks::first_room(&self.rows, instance as usize)
    }

    /// The first stage of an instance's buffer that has a parcel. `None` exactly where none has one.
    pub fn first_filled(&self, instance: u32) -> Option<usize>
        requires { IsThere self.now instance }
        ensures first { IsFirstFilled self.now instance result }
    {
        looks::first_filled(&self.rows, instance as usize)
    }

    /// Whether an instance has an output.
    pub fn has_output(&self, instance: u32) -> bool
        requires { IsThere self.now instance }
        ensures output { IsTrue result ↔ HasOutput self.now instance }
    {
        looks::has_output(&self.rows, instance as usize)
    }

    /// Whether an instance has neither an output nor a waiting child.
    pub fn is_sent(&self, instance: u32) -> bool
        requires { IsThere self.now instance }
        ensures sent { IsTrue result ↔ HasSent self.now instance }
    {
        looks::is_sent(&self.rows, instance as usize)
    }

    /// Whether a child of an instance waits for a target.
    pub fn awaits(&self, instance: u32, target: u32) -> bool
        requires { IsThere self.now instance }
        ensures awaits { IsTrue result ↔ HasWaiting self.now instance target }
    {
        looks::awaits(&self.rows, instance as usize, target)
    }

    /// Whether no stage of an instance's buffer has a parcel.
    pub fn is_empty_buffer(&self, instance: u32) -> bool
        requires { IsThere self.now instance }
        ensures buffer { IsTrue result ↔ HasEmptyBuffer self.now instance }
    {
        looks::is_empty_buffer(&self.rows, instance as usize)
    }

    /// How many parcels an instance holds, which are not lent.
    pub fn holds(&self, instance: u32) -> usize
        requires there { IsThere self.now instance }
        requires kept { IsKept self.now instance }
        ensures held { HoldsMany self.now instance result }
    {
        looks::holds(&self.rows, instance as usize)
    }

    /// Whether an instance holds as many parcels as there is room for, where they are not lent.
    pub fn is_held_full(&self, instance: u32) -> bool
        requires there { IsThere self.now instance }
        requires kept { IsKept self.now instance }
        ensures full { IsTrue result ↔ IsHeldFull self.now instance }
        ensures room { result ≡ false → HasHeldRoom self.now instance }
    {
        looks::is_held_full(&self.rows, instance as usize)
    }

    /// Whether nothing stands at any place of an instance, and nothing that it holds is lent.
    pub fn is_bare(&self, instance: u32) -> bool
        requires { IsThere self.now instance }
        ensures bare { IsTrue result ↔ IsBare self.now instance }
    {
        looks::is_bare(&self.rows, instance as usize)
    }

    /// Whether nothing stands at any place of an instance but what it holds, be that lent or not.
    pub fn is_clear(&self, instance: u32) -> bool
        requires { IsThere self.now instance }
        ensures clear { IsTrue result ↔ IsClear self.now instance }
    {
        looks::is_clear(&self.rows, instance as usize)
    }

    /// The target of the first waiting child of an instance, which is the oldest for it. `None` exactly where none waits.
    pub fn first_waiting(&self, instance: u32) -> Option<u32>
        requires { IsThere self.now instance }
        ensures oldest { IfSome result (λ target. IsOldestFor self.now instance target 0) }
        ensures none { IfNone result (NoneWaits self.now instance) }
    {
        looks::first_waiting(&self.rows, instance as usize)
    }

    /// How many children of an instance wait.
    pub fn count_waiting(&self, instance: u32) -> usize
        requires { IsThere self.now instance }
        ensures many { ManyWait self.now instance result }
    {
        looks::count_waiting(&self.rows, instance as usize)
    }

    /// The target of the waiting child of an instance at a place, be it the oldest for it or not. `None` exactly where there is no such
    /// child.
    pub fn target_at(&self, instance: u32, child: usize) -> Option<u32>
        requires { IsThere self.now instance }
        ensures { result ≡ waiting_target self.now instance child }
    {
        looks::target_at(&self.rows, instance as usize, child)
    }

    /// The target for which the waiting child of an instance at a place is the oldest, so that it may be pushed there. `None`
    /// exactly where it is the oldest for none, or there is no such child.
    pub fn oldest_at(&self, instance: u32, child: usize) -> Option<u32>
        requires { IsThere self.now instance }
        ensures oldest { IfSome result (λ target. IsOldestFor self.now instance target child) }
        ensures none { IfNone result
            ((target : ℕ) → IsOldestFor self.now instance target child → ⊥) }
    {
        looks::oldest_at(&self.rows, instance as usize, child)
    }

    /// The next instance, from a number on, that may have an output or a waiting child. `None` where none may.
    pub fn next_unsent(&self, from: usize) -> Option<usize>
        requires { from ≤ length self.now }
        ensures some { IfSome result (λ i. (from ≤ i) × (i < length self.now)) }
        ensures sent { (i : ℕ) → from ≤ i → i < length self.now → IsBefore i result →
            HasSent self.now i }
    {
        marks::next_marked(&self.marks.unsent, from)
    }

    /// The next instance, from a number on, in whose buffer or among whose held parcels something may stand. `None` where none may.
    ///
    /// While what an instance holds is lent something may stand there, and so it is among them: one with a keeper is each time.
    pub fn next_filled(&self, from: usize) -> Option<usize>
        requires { from ≤ length self.now }
        ensures some { IfSome result (λ i. (from ≤ i) × (i < length self.now)) }
        ensures unfilled { (i : ℕ) → from ≤ i → i < length self.now → IsBefore i result →
            IsUnfilled self.now i }
    {
        marks::next_marked(&self.marks.filled, from)
    }

    /// Makes room for so many outputs more of an instance. For want of memory nothing has changed.
    pub fn reserve_outputs(&mut self, instance: u32, n: usize) -> Result<(), WantOfMemory>
        requires { IsThere self.old instance }
        ensures same { Same self.old self.new }
        ensures room { OnOk result (HasOutputRoomFor self.new instance n) }
        ensures size { length self.new ≡ length self.old }
        ensures capacities { SameCapacities self.old self.new }
        ensures unchanged { OnErr result (self.new ≡ self.old) }
    {
        rows::reserve_outputs(&mut self.rows, instance as usize, n)
    }

    /// Adds outputs behind those of an instance, for which there is room. It takes no memory.
    pub fn put_out(&mut self, instance: u32, outputs: ItemList<Output>)
        requires there { IsThere self.old instance }
        requires room { HasOutputRoomFor self.old instance (length outputs) }
        ensures puts { PutsOut instance outputs self.old self.new }
        ensures size { length self.new ≡ length self.old }
        ensures capacities { SameCapacities self.old self.new }
    {
        rows::append_outputs(&mut self.rows, instance as usize, outputs);
        marks::mark(&self.rows, &mut self.marks, instance as usize);
    }

    /// Takes the oldest output of an instance, to split it. `None` where there is none.
    pub fn take_output(&mut self, instance: u32) -> Option<Output>
        requires { IsThere self.old instance }
        ensures takes { IfSome result
            (λ output. Takes (Outputs instance) output.parcel self.old self.new) }
        ensures output { IfSome result (λ output. TakesOutput instance output self.old self.new) }
        ensures room { IfSome result (λ _. HasOutputRoom self.new instance) }
        ensures size { length self.new ≡ length self.old }
        ensures capacities { SameCapacities self.old self.new }
        ensures none { IfNone result (self.new ≡ self.old) }
        ensures empty { IfNone result (parcels_here self.old (Outputs instance) ≡ Some []) }
    {
        let output = rows::pop_output(&mut self.rows, instance as usize)?;
        marks::mark(&self.rows, &mut self.marks, instance as usize);
        Some(output)
    }

    /// Puts an output back that was taken and not split. It takes no memory.
    pub fn put_output_back(&mut self, instance: u32, output: Output)
        requires there { IsThere self.old instance }
        requires room { HasOutputRoom self.old instance }
        ensures takes { Takes (Outputs instance) output.parcel self.new self.old }
        ensures output { TakesOutput instance output self.new self.old }
        ensures size { length self.new ≡ length self.old }
        ensures capacities { SameCapacities self.old self.new }
    {
        rows::unpop_output(&mut self.rows, instance as usize, output);
        marks::mark(&self.rows, &mut self.marks, instance as usize);
    }

    /// Takes the memory in which an instance's children waited, where none waits, for those that come next. It takes no memory.
    pub fn take_child_room(&mut self, instance: u32) -> Vec<Child>
        requires there { IsThere self.old instance }
        requires none { NoneWaits self.old instance }
        ensures empty { result.items ≡ [] }
        ensures same { Same self.old self.new }
        ensures size { length self.new ≡ length self.old }
        ensures capacities { SameCapacities self.old self.new }
    {
        rows::take_child_room(&mut self.rows, instance as usize)
    }

    /// Lets the children of an output that was taken wait for their targets, where none waits. It takes no memory.
    pub fn put_children(&mut self, instance: u32, children: ChildList)
        requires there { IsThere self.old instance }
        requires none { NoneWaits self.old instance }
        ensures divides { Divides instance children self.old self.new }
        ensures size { length self.new ≡ length self.old }
        ensures capacities { SameCapacities self.old self.new }
    {
        rows::put_children(&mut self.rows, instance as usize, children);
        marks::mark(&self.rows, &mut self.marks, instance as usize);
    }

    /// Moves a waiting child of an instance, the oldest for its target, into a stage of the target's buffer. It takes no memory.
    pub fn push(&mut self, instance: u32, child: usize, target: u32, stage: usize)
        requires there { IsThere self.old instance }
        requires target { IsThere self.old target }
        requires oldest { IsOldestFor self.old instance target child }
        requires room { HasRoom self.old target stage }
        ensures moves { Moves (Push instance target stage) (Waiting instance target)
            (Contents target stage) self.old self.new }
        ensures size { length self.new ≡ length self.old }
        ensures capacities { SameCapacities self.old self.new }
    {
        let parcel = rows::take_child(&mut self.rows, instance as usize, child, target);
        marks::mark(&self.rows, &mut self.marks, instance as usize);
        rows::push_stage(&mut self.rows, target as usize, stage, parcel);
        marks::mark(&self.rows, &mut self.marks, target as usize);
    }

    /// Moves the oldest parcel of a stage of an instance's buffer behind those that it holds, for which there is room. It takes no
    /// memory.
    pub fn take(&mut self, instance: u32, stage: usize)
        requires there { IsThere self.old instance }
        requires some { HasSome self.old instance stage }
        requires room { HasHeldRoom self.old instance }
        ensures moves { Moves (Take instance stage) (Contents instance stage)
            (Held instance) self.old self.new }
        ensures size { length self.new ≡ length self.old }
        ensures capacities { SameCapacities self.old self.new }
    {
        let parcel = rows::pop_stage(&mut self.rows, instance as usize, stage);
        rows::hold(&mut self.rows, instance as usize, parcel);
        marks::mark(&self.rows, &mut self.marks, instance as usize);
    }

    /// Takes the oldest parcel of a stage of an instance's buffer away, while what the instance holds is lent: the parcel belongs with
    /// that. It takes no memory.
    pub fn take_away(&mut self, instance: u32, stage: usize) -> Parcel
        requires there { IsThere self.old instance }
        requires some { HasSome self.old instance stage }
        requires lent { IsLent self.old instance }
        ensures takes { Takes (Contents instance stage) result self.old self.new }
        ensures shifts { Shifts (Take instance stage (numbers_of result.finalizers)) []
            self.old self.new }
        ensures lent { IsLent self.new instance }
        ensures size { length self.new ≡ length self.old }
        ensures capacities { SameCapacities self.old self.new }
    {
        let parcel = rows::pop_stage(&mut self.rows, instance as usize, stage);
        marks::mark(&self.rows, &mut self.marks, instance as usize);
        parcel
    }

    /// Lends what an instance holds, as to attempt it elsewhere. It takes no memory.
    pub fn lend(&mut self, instance: u32) -> Line<Parcel>
        requires there { IsThere self.old instance }
        requires kept { IsKept self.old instance }
        ensures lends { Lends instance result.items self.old self.new }
        ensures lent { IsLent self.new instance }
        ensures size { length self.new ≡ length self.old }
        ensures capacities { LendsCapacity instance result.room self.old self.new }
    {
        let held = rows::lend(&mut self.rows, instance as usize);
        marks::mark(&self.rows, &mut self.marks, instance as usize);
        held
    }

    /// Takes what was lent back. It takes no memory.
    pub fn give_back(&mut self, instance: u32, held: Line<Parcel>)
        requires there { IsThere self.old instance }
        requires lent { IsLent self.old instance }
        ensures lends { Lends instance held.items self.new self.old }
        ensures kept { IsKept self.new instance }
        ensures size { length self.new ≡ length self.old }
        ensures capacities { LendsCapacity instance held.room self.new self.old }
    {
        rows::give_back(&mut self.rows, instance as usize, held);
        marks::mark(&self.rows, &mut self.marks, instance as usize);
    }

    /// Takes the last copy of an instance's oldest output, to spend it, and tells whether no other is left of it. `None` exactly where
    /// there is no output, or the oldest has no copy. It takes no memory.
    pub fn spend_output(&mut self, instance: u32) -> Option<Lost>
        requires { IsThere self.old instance }
        ensures loses { IfSome result
            (λ lost. Loses (Outputs instance) lost.copy lost.last self.old self.new) }
        ensures size { length self.new ≡ length self.old }
        ensures capacities { SameCapacities self.old self.new }
        ensures none { IfNone result (self.new ≡ self.old) }
        ensures empty { IfNone result (NothingToSpend (Outputs instance) self.old) }
    {
        let lost = rows::spend_output(&mut self.rows, instance as usize)?;
        marks::mark(&self.rows, &mut self.marks, instance as usize);
        Some(lost)
    }

    /// Takes the last copy of the oldest parcel that an instance holds, to spend it, and tells whether no other is left of it. `None`
    /// exactly where it holds none, or the oldest has no copy. It takes no memory.
    pub fn spend_held(&mut self, instance: u32) -> Option<Lost>
        requires there { IsThere self.old instance }
        requires kept { IsKept self.old instance }
        ensures loses { IfSome result
            (λ lost. Loses (Held instance) lost.copy lost.last self.old self.new) }
        ensures kept { IsKept self.new instance }
        ensures size { length self.new ≡ length self.old }
        ensures capacities { SameCapacities self.old self.new }
        ensures none { IfNone result (self.new ≡ self.old) }
        ensures empty { IfNone result (NothingToSpend (Held instance) self.old) }
    {
        let lost = rows::spend_held(&mut self.rows, instance as usize)?;
        marks::mark(&self.rows, &mut self.marks, instance as usize);
        Some(lost)
    }

    /// Takes the last copy of the oldest parcel in a stage of an instance's buffer, to spend it, and tells whether no other is left of
    /// it. `None` exactly where the stage has no parcel, or the oldest has no copy. It takes no memory.
    pub fn spend_buffered(&mut self, instance: u32, stage: usize) -> Option<Lost>
        requires { IsThere self.old instance }
        ensures loses { IfSome result
            (λ lost. Loses (Contents instance stage) lost.copy lost.last self.old self.new) }
        ensures size { length self.new ≡ length self.old }
        ensures capacities { SameCapacities self.old self.new }
        ensures none { IfNone result (self.new ≡ self.old) }
        ensures empty { IfNone result (NothingToSpend (Contents instance stage) self.old) }
    {
        let lost = rows::spend_stage(&mut self.rows, instance as usize, stage)?;
        marks::mark(&self.rows, &mut self.marks, instance as usize);
        Some(lost)
    }

    /// Takes the last copy of a waiting child of an instance, the oldest for its target, to spend it, and tells whether no other is left
    /// of it: then the child is gone. `None` exactly where it has no copy. It takes no memory.
    pub fn spend_waiting(&mut self, instance: u32, child: usize, target: u32) -> Option<Lost>
        requires there { IsThere self.old instance }
        requires oldest { IsOldestFor self.old instance target child }
        ensures loses { IfSome result
            (λ lost. Loses (Waiting instance target) lost.copy lost.last self.old self.new) }
        ensures size { length self.new ≡ length self.old }
        ensures capacities { SameCapacities self.old self.new }
        ensures none { IfNone result (self.new ≡ self.old) }
        ensures empty { IfNone result (NothingToSpend (Waiting instance target) self.old) }
    {
        let lost = rows::spend_child(&mut self.rows, instance as usize, child, target)?;
        marks::mark(&self.rows, &mut self.marks, instance as usize);
        Some(lost)
    }

    /// Ends the places, where nothing stands at any instance that isn't lent. It takes no memory.
    pub fn end(self)
        requires { AreEnded self }
    {
        let Places { rows, marks: _ } = self;
        rows::end_rows(rows);
    }
}
