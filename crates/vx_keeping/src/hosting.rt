// What a host put out, discarded and left over, taken off its shelf; and how many parcels that it discards.
ghost use Rattle.std.specs.Prelude.{◌≡◌, ◌<◌, [], ◌∷◌, ◌++◌, All, IfOk, OnOk, IfSome, IfNone, count_by, length, drop, ◌≢◌};
ghost use Rattle.std.specs.Vec.{vec_len, vec_capacity};
ghost use Rattle.vx_ledger.specs.Copies.{numbers_of};
ghost use Rattle.vx_transform.specs.Moves.{NamesPorts};
ghost use Rattle.vx_transform.specs.Shelves.{copies_put_out, copies_dropped, copies_on};
ghost use Rattle.vx_record.specs.Parcels.{first_copy};
ghost use Rattle.vx_keeping.specs.Given.{SameCopies, IsSound, firsts_of, is_among};
ghost use Rattle.vx_keeping.specs.Kept.{nothing};
ghost use Rattle.vx_keeping.specs.Stored.{with_shelf};

use crate::losing::{end_parcel, take_copy};
use std::alloc::Global;
use vx_ledger::{Finalizer, Parcel};
use vx_places::Line;
use vx_transform::{Output, Shelf};
use vx_value::WantOfMemory;

// The numbers of the copies that came first in the parcels of a line.
pub(crate) fn first_numbers(alloc: Global, taken: &Line<Parcel>) -> Result<Vec<u64>, WantOfMemory>
    ensures { IfOk result (λ numbers. numbers.items ≡ firsts_of taken.now.items) }
{
    let mut numbers = Vec::with_capacity(alloc, taken.len())?;
    for i in 0..taken.len() {
        match taken.get(i) {
            Some(parcel) => numbers.push(first_number(parcel))?,
            None => unreachable!(),
        }
    }
    Ok(numbers)
}

// The number of the copy that came first in a parcel.
fn first_number(parcel: &Parcel) -> u64
    ensures { result ≡ first_copy (numbers_of parcel.now.finalizers) }
{
    match parcel.finalizers.get(0) {
        Some(copy) => copy.number(),
        None => 0,
    }
}

// How many of some copies have a number that is among some.
pub(crate) fn count_among(numbers: &[u64], copies: &[Finalizer]) -> u64
    ensures { result ≡ count_by (is_among numbers.now) (numbers_of copies.now) }
{
    let mut count = 0;
    for copy in copies {
        if is_among(numbers, copy.number()) {
            count += 1;
        }
    }
    count
}

// Whether a number is among some.
fn is_among(numbers: &[u64], number: u64) -> bool
    ensures { result ≡ is_among numbers.now number }
{
    for other in numbers {
        if *other == number {
            return true;
        }
    }
    false
}

// Takes off what a host made: the outputs behind some others, and the copies that it discarded or that wait, behind what is
// discarded. An output without a copy is ended. For want of memory some stay.
pub(crate) fn take_off(
    taken: &mut Line<Parcel>,
    shelf: &mut Shelf,
    ready: &mut Vec<Output>,
    discarded: &mut Vec<Finalizer>,
) -> Result<(), WantOfMemory>
    requires { 0 < taken.old.room }
    ensures same { SameCopies
        (copies_dropped taken.old.items ++
        (copies_on (with_shelf ready.old.items shelf.old) ++ discarded.old.items))
        (copies_dropped taken.new.items ++
        (copies_on (with_shelf ready.new.items shelf.new) ++ discarded.new.items)) }
    ensures sound { All (NamesPorts 65) shelf.old.outputs → All IsSound ready.old.items →
        All IsSound ready.new.items }
    ensures ready { ready.new.items
        ≡ ready.old.items ++ drop (length ready.old.items) ready.new.items }
    ensures begins { discarded.new.items
        ≡ discarded.old.items ++ drop (length discarded.old.items) discarded.new.items }
    ensures none { OnOk result (taken.new.items ≡ []) }
    ensures bare { OnOk result (shelf.new ≡ nothing) }
    ensures room { taken.new.room ≡ taken.old.room }
{
    gather_full(shelf, ready)?;
    discard_rest(taken, shelf, discarded)
}

// Takes the outputs off a shelf, and puts those that have a copy behind some others. Memory is found for each before it is taken.
fn gather_full(shelf: &mut Shelf, ready: &mut Vec<Output>) -> Result<(), WantOfMemory>
    ensures same { SameCopies
        (copies_put_out (ready.old.items ++ shelf.old.outputs))
        (copies_put_out (ready.new.items ++ shelf.new.outputs)) }
    ensures sound { All (NamesPorts 65) shelf.old.outputs → All IsSound ready.old.items →
        All IsSound ready.new.items }
    ensures ready { ready.new.items
        ≡ ready.old.items ++ drop (length ready.old.items) ready.new.items }
    ensures dropped { shelf.new.dropped ≡ shelf.old.dropped }
    ensures none { OnOk result (shelf.new.outputs ≡ []) }
{
    loop {
        ready.reserve(1)?;
        match shelf.take_output() {
            Some(output) => put_if_full(output, ready),
            None => return Ok(()),
        }
    }
}

// Puts an output behind some others, for which there is room, if it has a copy, and ends it if it has none.
fn put_if_full(output: Output, ready: &mut Vec<Output>)
    requires { vec_len ready.old < vec_capacity ready.old }
    ensures full { output.parcel.finalizers ≢ [] →
        ready.new.items ≡ ready.old.items ++ output ∷ [] }
    ensures empty { output.parcel.finalizers ≡ [] → ready.new.items ≡ ready.old.items }
{
    if output.parcel.finalizers.is_empty() {
        let Output { ports: _, parcel } = output;
        end_parcel(parcel);
    } else {
        ready.push_reserved(output);
    }
}

// Takes the copies of a line and those of the parcels that a shelf has as discarded, and puts them behind some others. Memory is found
// for each before it is taken.
fn discard_rest(
    taken: &mut Line<Parcel>,
    shelf: &mut Shelf,
    discarded: &mut Vec<Finalizer>,
) -> Result<(), WantOfMemory>
    requires { 0 < taken.old.room }
    ensures same { SameCopies
        (copies_dropped taken.old.items ++
        (copies_dropped shelf.old.dropped ++ discarded.old.items))
        (copies_dropped taken.new.items ++
        (copies_dropped shelf.new.dropped ++ discarded.new.items)) }
    ensures begins { discarded.new.items
        ≡ discarded.old.items ++ drop (length discarded.old.items) discarded.new.items }
    ensures outputs { shelf.new.outputs ≡ shelf.old.outputs }
    ensures none { OnOk result (taken.new.items ≡ []) }
    ensures dropped { OnOk result (shelf.new.dropped ≡ []) }
    ensures room { taken.new.room ≡ taken.old.room }
{
    loop {
        discarded.reserve(1)?;
        match next_dropped(taken, shelf) {
            Some(copy) => discarded.push_reserved(copy),
            None => return Ok(()),
        }
    }
}

// Takes a copy out of a line, or of the parcels that a shelf has as discarded. `None` exactly where there is none; then there is no
// parcel any more.
fn next_dropped(taken: &mut Line<Parcel>, shelf: &mut Shelf) -> Option<Finalizer>
    requires { 0 < taken.old.room }
    ensures some { IfSome result
        (λ copy. SameCopies
        (copies_dropped taken.old.items ++ copies_dropped shelf.old.dropped)
        (copy ∷ (copies_dropped taken.new.items ++ copies_dropped shelf.new.dropped))) }
    ensures none { IfNone result
        (SameCopies (copies_dropped taken.old.items ++ copies_dropped shelf.old.dropped) []) }
    ensures taken { IfNone result (taken.new.items ≡ []) }
    ensures dropped { IfNone result (shelf.new.dropped ≡ []) }
    ensures outputs { shelf.new.outputs ≡ shelf.old.outputs }
    ensures room { taken.new.room ≡ taken.old.room }
{
    loop {
        if let Some(copy) = take_copy(taken) {
            return Some(copy);
        }
        match shelf.take_dropped() {
            Some(parcel) => taken.push(parcel),
            None => return None,
        }
    }
}
