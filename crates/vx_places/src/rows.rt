// The places, one function for each way in which a parcel moves.
ghost use Rattle.std.specs.Prelude.{◌≡◌, ◌<◌, ℕ, [], ◌∷◌, ◌++◌, length, OnOk, OnErr, IfSome, IfNone, Some};
ghost use Rattle.vx_record.specs.Places.Place.{Outputs, Waiting, Contents, Held};
ghost use Rattle.vx_places.specs.Numbers.{parcels_out};
ghost use Rattle.vx_places.specs.Views.{Same, parcels_here, outputs_here};
ghost use Rattle.vx_places.specs.Capacities.{SameCapacities, LendsCapacity};
ghost use Rattle.vx_places.specs.Calls.{Takes, TakesOutput, Puts, Loses, Waits, Lends, HasOutputRoom, HasOutputRoomFor, NoneWaits, IsOldestFor, HasRoom, HasSome, IsKept, IsLent, HasHeldRoom, NothingToSpend, EachVacant};

use crate::line::Line;
use crate::lost::Lost;
use crate::row::{self, Row};
use std::collections::VecDeque;
use std::mem;
use vx_ledger::{Child, ChildList, Parcel};
use vx_transform::Output;
use vx_value::{ItemList, WantOfMemory};

// Makes room for so many outputs more of an instance.
pub(crate) fn reserve_outputs(rows: &mut Vec<Row>, i: usize, n: usize) -> Result<(), WantOfMemory>
    requires { i < length rows.old.items }
    ensures same { Same rows.old.items rows.new.items }
    ensures room { OnOk result (HasOutputRoomFor rows.new.items i n) }
    ensures size { length rows.new.items ≡ length rows.old.items }
    ensures capacities { SameCapacities rows.old.items rows.new.items }
    ensures err { OnErr result (rows.new.items ≡ rows.old.items) }
{
    rows[i].outputs.reserve(n)
}

// Puts outputs behind those of an instance.
pub(crate) fn append_outputs(rows: &mut Vec<Row>, i: usize, more: ItemList<Output>)
    requires within { i < length rows.old.items }
    requires room { HasOutputRoomFor rows.old.items i (length more) }
    ensures puts { Puts (Outputs i) (parcels_out more) rows.old.items rows.new.items }
    ensures added { outputs_here rows.new.items i ≡ outputs_here rows.old.items i ++ more }
    ensures size { length rows.new.items ≡ length rows.old.items }
    ensures capacities { SameCapacities rows.old.items rows.new.items }
{
    rows[i].outputs.append(more);
}

// Takes the oldest output of an instance.
pub(crate) fn pop_output(rows: &mut Vec<Row>, i: usize) -> Option<Output>
    requires { i < length rows.old.items }
    ensures takes { IfSome result
        (λ output. Takes (Outputs i) output.parcel rows.old.items rows.new.items) }
    ensures output { IfSome result (λ output. TakesOutput i output rows.old.items rows.new.items) }
    ensures room { IfSome result (λ _. HasOutputRoom rows.new.items i) }
    ensures size { length rows.new.items ≡ length rows.old.items }
    ensures capacities { SameCapacities rows.old.items rows.new.items }
    ensures none { IfNone result (rows.new.items ≡ rows.old.items) }
    ensures empty { IfNone result (parcels_here rows.old.items (Outputs i) ≡ Some []) }
{
    rows[i].outputs.pop()
}

// Puts an output before those of an instance, as where it was taken and not used.
pub(crate) fn unpop_output(rows: &mut Vec<Row>, i: usize, output: Output)
    requires within { i < length rows.old.items }
    requires room { HasOutputRoom rows.old.items i }
    ensures takes { Takes (Outputs i) output.parcel rows.new.items rows.old.items }
    ensures output { TakesOutput i output rows.new.items rows.old.items }
    ensures size { length rows.new.items ≡ length rows.old.items }
    ensures capacities { SameCapacities rows.old.items rows.new.items }
{
    rows[i].outputs.put_back(output);
}

// Lets children wait at an instance at which none waits.
pub(crate) fn put_children(rows: &mut Vec<Row>, i: usize, children: ChildList)
    requires within { i < length rows.old.items }
    requires none { NoneWaits rows.old.items i }
    ensures waits { Waits i children rows.old.items rows.new.items }
    ensures size { length rows.new.items ≡ length rows.old.items }
    ensures capacities { SameCapacities rows.old.items rows.new.items }
{
    let none = mem::replace(
        &mut rows[i].waiting,
        VecDeque::from_vec(children.into_vec()),
    );
    none.destroy_empty();
}

// Takes the memory in which an instance's children waited, where none waits.
pub(crate) fn take_child_room(rows: &mut Vec<Row>, i: usize) -> Vec<Child>
    requires within { i < length rows.old.items }
    requires none { NoneWaits rows.old.items i }
    ensures empty { result.items ≡ [] }
    ensures waits { Waits i [] rows.old.items rows.new.items }
    ensures size { length rows.new.items ≡ length rows.old.items }
    ensures capacities { SameCapacities rows.old.items rows.new.items }
{
    let alloc = *rows[i].waiting.allocator();
    let none = mem::replace(&mut rows[i].waiting, VecDeque::new(alloc));
    none.into_vec()
}

// Takes the waiting child at a place, which is the oldest for its target.
pub(crate) fn take_child(rows: &mut Vec<Row>, i: usize, k: usize, target: u32) -> Parcel
    requires within { i < length rows.old.items }
    requires oldest { IsOldestFor rows.old.items i target k }
    ensures takes { Takes (Waiting i target) result rows.old.items rows.new.items }
    ensures size { length rows.new.items ≡ length rows.old.items }
    ensures capacities { SameCapacities rows.old.items rows.new.items }
    ensures free { (t s : ℕ) → HasRoom rows.old.items t s → HasRoom rows.new.items t s }
{
    match rows[i].waiting.remove(k) {
        Some(Child { target: _, parcel }) => parcel,
        None => unreachable!(),
    }
}

// Puts a parcel behind those that an instance holds.
pub(crate) fn hold(rows: &mut Vec<Row>, i: usize, parcel: Parcel)
    requires within { i < length rows.old.items }
    requires room { HasHeldRoom rows.old.items i }
    ensures puts { Puts (Held i) (parcel ∷ []) rows.old.items rows.new.items }
    ensures size { length rows.new.items ≡ length rows.old.items }
    ensures capacities { SameCapacities rows.old.items rows.new.items }
{
    match &mut rows[i].held {
        Some(held) => held.push(parcel),
        None => unreachable!(),
    }
}

// Lends what an instance holds.
pub(crate) fn lend(rows: &mut Vec<Row>, i: usize) -> Line<Parcel>
    requires within { i < length rows.old.items }
    requires kept { IsKept rows.old.items i }
    ensures lends { Lends i result.items rows.old.items rows.new.items }
    ensures lent { IsLent rows.new.items i }
    ensures size { length rows.new.items ≡ length rows.old.items }
    ensures capacities { LendsCapacity i result.room rows.old.items rows.new.items }
{
    match rows[i].held.take() {
        Some(held) => held,
        None => unreachable!(),
    }
}

// Gives back what was lent.
pub(crate) fn give_back(rows: &mut Vec<Row>, i: usize, held: Line<Parcel>)
    requires within { i < length rows.old.items }
    requires lent { IsLent rows.old.items i }
    ensures lends { Lends i held.items rows.new.items rows.old.items }
    ensures kept { IsKept rows.new.items i }
    ensures size { length rows.new.items ≡ length rows.old.items }
    ensures capacities { LendsCapacity i held.room rows.new.items rows.old.items }
{
    match mem::replace(&mut rows[i].held, Some(held)) {
        None => {}
        Some(_) => unreachable!(),
    }
}

// Puts a parcel into a stage of an instance's buffer.
pub(crate) fn push_stage(rows: &mut Vec<Row>, t: usize, s: usize, parcel: Parcel)
    requires within { t < length rows.old.items }
    requires room { HasRoom rows.old.items t s }
    ensures puts { Puts (Contents t s) (parcel ∷ []) rows.old.items rows.new.items }
    ensures size { length rows.new.items ≡ length rows.old.items }
    ensures capacities { SameCapacities rows.old.items rows.new.items }
{
    rows[t].stages[s].push(parcel);
}

// Takes the oldest parcel of a stage of an instance's buffer.
pub(crate) fn pop_stage(rows: &mut Vec<Row>, i: usize, s: usize) -> Parcel
    requires within { i < length rows.old.items }
    requires some { HasSome rows.old.items i s }
    ensures takes { Takes (Contents i s) result rows.old.items rows.new.items }
    ensures size { length rows.new.items ≡ length rows.old.items }
    ensures capacities { SameCapacities rows.old.items rows.new.items }
{
    match rows[i].stages[s].pop() {
        Some(parcel) => parcel,
        None => unreachable!(),
    }
}

// Takes the last copy of the oldest output of an instance.
pub(crate) fn spend_output(rows: &mut Vec<Row>, i: usize) -> Option<Lost>
    requires { i < length rows.old.items }
    ensures loses { IfSome result
        (λ lost. Loses (Outputs i) lost.copy lost.last rows.old.items rows.new.items) }
    ensures size { length rows.new.items ≡ length rows.old.items }
    ensures capacities { SameCapacities rows.old.items rows.new.items }
    ensures none { IfNone result (rows.new.items ≡ rows.old.items) }
    ensures empty { IfNone result (NothingToSpend (Outputs i) rows.old.items) }
{
    row::take_output_copy(&mut rows[i].outputs)
}

// Takes the last copy of the oldest parcel that an instance holds.
pub(crate) fn spend_held(rows: &mut Vec<Row>, i: usize) -> Option<Lost>
    requires within { i < length rows.old.items }
    requires kept { IsKept rows.old.items i }
    ensures loses { IfSome result
        (λ lost. Loses (Held i) lost.copy lost.last rows.old.items rows.new.items) }
    ensures kept { IsKept rows.new.items i }
    ensures size { length rows.new.items ≡ length rows.old.items }
    ensures capacities { SameCapacities rows.old.items rows.new.items }
    ensures none { IfNone result (rows.new.items ≡ rows.old.items) }
    ensures empty { IfNone result (NothingToSpend (Held i) rows.old.items) }
{
    match &mut rows[i].held {
        Some(held) => row::take_copy(held),
        None => unreachable!(),
    }
}

// Takes the last copy of the oldest parcel in a stage of an instance's buffer.
pub(crate) fn spend_stage(rows: &mut Vec<Row>, i: usize, s: usize) -> Option<Lost>
    requires { i < length rows.old.items }
    ensures loses { IfSome result
        (λ lost. Loses (Contents i s) lost.copy lost.last rows.old.items rows.new.items) }
    ensures size { length rows.new.items ≡ length rows.old.items }
    ensures capacities { SameCapacities rows.old.items rows.new.items }
    ensures none { IfNone result (rows.new.items ≡ rows.old.items) }
    ensures empty { IfNone result (NothingToSpend (Contents i s) rows.old.items) }
{
    if s < rows[i].stages.len() {
        row::take_copy(&mut rows[i].stages[s])
    } else {
        None
    }
}

// Takes the last copy of the waiting child at a place, the oldest for its target.
pub(crate) fn spend_child(rows: &mut Vec<Row>, i: usize, k: usize, target: u32) -> Option<Lost>
    requires within { i < length rows.old.items }
    requires oldest { IsOldestFor rows.old.items i target k }
    ensures loses { IfSome result
        (λ lost. Loses (Waiting i target) lost.copy lost.last rows.old.items rows.new.items) }
    ensures size { length rows.new.items ≡ length rows.old.items }
    ensures capacities { SameCapacities rows.old.items rows.new.items }
    ensures none { IfNone result (rows.new.items ≡ rows.old.items) }
    ensures empty { IfNone result (NothingToSpend (Waiting i target) rows.old.items) }
{
    row::take_child_copy(&mut rows[i].waiting, k, target)
}

// Ends the rows of instances at which nothing stands that isn't lent.
pub(crate) fn end_rows(rows: Vec<Row>)
    requires { EachVacant rows.items }
{
    let mut rest = rows;
    while let Some(row) = rest.pop() {
        row::end_row(row);
    }
    rest.destroy_empty();
}
