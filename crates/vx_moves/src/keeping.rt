// What each instance keeps that merges, one function for each thing that is done with it.
ghost use Rattle.std.specs.Prelude.{◌≡◌, ◌<◌, ◌↔◌, ℕ, List, [], true, false, is_some, length, count_by, IsTrue, OnOk, OnErr, IfSome, IfNone};
ghost use Rattle.vx_ledger.specs.Copies.{numbers_of};
ghost use Rattle.vx_record.specs.Inputs.{Input as NotedInput};
ghost use Rattle.vx_record.specs.Records.{Record};
ghost use Rattle.vx_record.specs.Legal.{IsLegal};
ghost use Rattle.vx_record.specs.Places.Place.{Held};
ghost use Rattle.vx_record.specs.Shifts.{at};
ghost use Rattle.vx_record.specs.Tallies.{is_first};
ghost use Rattle.vx_keeping.specs.Keeping.{Keeps, HasMade};
ghost use Rattle.vx_keeping.specs.Kept.{HoldsNone};
ghost use Rattle.vx_moves.specs.Keepers.{keeper_at, OneKeeper, IsKeeper, TakesIn, AnswersTaken, Ticks, Flushes, FailsShort, PutsOut, TakesOutOne, Loses, IsEmptied, Rests, IsAtWork, ChecksAt, ChecksOnly};

use std::alloc::Global;
use vx_keeping::{Hosts, Keeper};
use vx_ledger::{Finalizer, Parcel};
use vx_transform::Output;
use vx_value::{ItemList, WantOfMemory};

// Whether an instance has a keeper.
pub(crate) fn is_there(keepers: &Vec<Option<Keeper>>, i: usize) -> bool
    requires { i < length keepers.now.items }
    ensures { result ≡ is_some (keeper_at keepers.now.items i) }
{
    keepers[i].is_some()
}

// Gives a keeper a parcel that its instance took, for which it has room.
pub(crate) fn keep(keepers: &mut Vec<Option<Keeper>>, i: usize, parcel: Parcel)
    requires within { i < length keepers.old.items }
    requires room { IsKeeper (λ k. length k.taken.items < k.taken.room) keepers.old.items i }
    ensures took { OneKeeper (TakesIn parcel) i keepers.old.items keepers.new.items }
{
    match &mut keepers[i] {
        Some(keeper) => keeper.take(parcel),
        None => unreachable!(),
    }
}

// Whether a keeper has no copy.
pub(crate) fn keeps_none(keepers: &Vec<Option<Keeper>>, i: usize) -> bool
    requires within { i < length keepers.now.items }
    requires there { IsKeeper (λ k. Unit {0}) keepers.now.items i }
    ensures exact { IsKeeper
        (λ k. (h : Record) → IsLegal h → Keeps k h i → IsTrue result ↔ (at h (Held i) ≡ []))
        keepers.now.items i }
{
    match &keepers[i] {
        Some(keeper) => keeper.is_empty(),
        None => unreachable!(),
    }
}

// Has a keeper answer what was taken.
pub(crate) fn answer<H: Hosts>(
    keepers: &mut Vec<Option<Keeper>>,
    alloc: Global,
    hosts: &mut H,
    i: u32,
    now: u64,
) -> Result<(), WantOfMemory>
    requires within { i < length keepers.old.items }
    requires there { IsKeeper (λ k. Unit {0}) keepers.old.items i }
    ensures made { OnOk result (OneKeeper (AnswersTaken now) i keepers.old.items keepers.new.items) }
    ensures short { OnErr result (OneKeeper FailsShort i keepers.old.items keepers.new.items) }
{
    match &mut keepers[i as usize] {
        Some(keeper) => keeper.answer(alloc, hosts, i, now),
        None => unreachable!(),
    }
}

// Has a keeper act by itself at a moment.
pub(crate) fn tick<H: Hosts>(
    keepers: &mut Vec<Option<Keeper>>,
    alloc: Global,
    hosts: &mut H,
    i: u32,
    now: u64,
) -> Result<(), WantOfMemory>
    requires within { i < length keepers.old.items }
    requires there { IsKeeper (λ k. Unit {0}) keepers.old.items i }
    ensures made { OnOk result (OneKeeper (Ticks now) i keepers.old.items keepers.new.items) }
    ensures short { OnErr result (OneKeeper FailsShort i keepers.old.items keepers.new.items) }
{
    match &mut keepers[i as usize] {
        Some(keeper) => keeper.tick(alloc, hosts, i, now),
        None => unreachable!(),
    }
}

// Has a keeper put out all that it holds.
pub(crate) fn flush<H: Hosts>(
    keepers: &mut Vec<Option<Keeper>>,
    alloc: Global,
    hosts: &mut H,
    i: u32,
) -> Result<(), WantOfMemory>
    requires within { i < length keepers.old.items }
    requires there { IsKeeper (λ k. Unit {0}) keepers.old.items i }
    ensures made { OnOk result (OneKeeper Flushes i keepers.old.items keepers.new.items) }
    ensures none { OnOk result (IsKeeper (λ k. HoldsNone k.maker) keepers.new.items i) }
    ensures short { OnErr result (OneKeeper FailsShort i keepers.old.items keepers.new.items) }
{
    match &mut keepers[i as usize] {
        Some(keeper) => keeper.flush(alloc, hosts, i),
        None => unreachable!(),
    }
}

// How many outputs a keeper has that made something.
pub(crate) fn outputs(keepers: &Vec<Option<Keeper>>, i: usize) -> usize
    requires within { i < length keepers.now.items }
    requires there { IsKeeper (λ k. k.fit ≡ true) keepers.now.items i }
    ensures many { IsKeeper (λ k. result ≡ length k.shelf.outputs) keepers.now.items i }
{
    match &keepers[i] {
        Some(keeper) => keeper.outputs(),
        None => unreachable!(),
    }
}

// No memory was found for the outputs of a keeper.
pub(crate) fn fail(keepers: &mut Vec<Option<Keeper>>, i: usize)
    requires within { i < length keepers.old.items }
    requires there { IsKeeper (λ k. Unit {0}) keepers.old.items i }
    ensures short { OneKeeper FailsShort i keepers.old.items keepers.new.items }
{
    match &mut keepers[i] {
        Some(keeper) => keeper.fail(),
        None => unreachable!(),
    }
}

// Takes the outputs of a keeper that made something.
pub(crate) fn put_out(keepers: &mut Vec<Option<Keeper>>, i: usize) -> ItemList<Output>
    requires within { i < length keepers.old.items }
    requires there { IsKeeper (λ k. k.fit ≡ true) keepers.old.items i }
    ensures put { OneKeeper (PutsOut result) i keepers.old.items keepers.new.items }
{
    match &mut keepers[i] {
        Some(keeper) => keeper.put_out(),
        None => unreachable!(),
    }
}

// How many parcels the copies came first in that the next answer of a keeper discards.
pub(crate) fn dropped(keepers: &Vec<Option<Keeper>>, i: usize) -> u64
    requires within { i < length keepers.now.items }
    requires there { IsKeeper (λ k. Unit {0}) keepers.now.items i }
    ensures many { IsKeeper
        (λ k. (h : Record) (j : ℕ) (given : List NotedInput) → IsLegal h → HasMade k h j given →
        result ≡ count_by (is_first h j) (numbers_of k.discarded))
        keepers.now.items i }
{
    match &keepers[i] {
        Some(keeper) => keeper.dropped(),
        None => unreachable!(),
    }
}

// Takes a copy of a keeper that its last answer discarded, to be spent. `None` exactly where none is left.
pub(crate) fn next_discarded(keepers: &mut Vec<Option<Keeper>>, i: usize) -> Option<Finalizer>
    requires within { i < length keepers.old.items }
    requires there { IsKeeper (λ k. Unit {0}) keepers.old.items i }
    ensures some { IfSome result
        (λ copy. OneKeeper (TakesOutOne copy) i keepers.old.items keepers.new.items) }
    ensures none { IfNone result (IsKeeper (λ k. k.discarded ≡ []) keepers.old.items i) }
    ensures same { IfNone result (keepers.new.items ≡ keepers.old.items) }
{
    match &mut keepers[i] {
        Some(keeper) => keeper.next_discarded(),
        None => unreachable!(),
    }
}

// Takes a copy of a keeper, to be spent. `None` exactly where it has none.
pub(crate) fn lose(keepers: &mut Vec<Option<Keeper>>, i: usize) -> Option<Finalizer>
    requires within { i < length keepers.old.items }
    requires there { IsKeeper (λ k. Unit {0}) keepers.old.items i }
    ensures some { IfSome result
        (λ copy. OneKeeper (Loses copy) i keepers.old.items keepers.new.items) }
    ensures none { IfNone result (OneKeeper IsEmptied i keepers.old.items keepers.new.items) }
{
    match &mut keepers[i] {
        Some(keeper) => keeper.give_up(),
        None => unreachable!(),
    }
}

// Whether a keeper has room for one more parcel.
pub(crate) fn has_room(keepers: &Vec<Option<Keeper>>, i: usize) -> bool
    requires within { i < length keepers.now.items }
    requires there { IsKeeper (λ k. Unit {0}) keepers.now.items i }
    ensures { IsTrue result ↔
        IsKeeper (λ k. length k.taken.items < k.taken.room) keepers.now.items i }
{
    match &keepers[i] {
        Some(keeper) => keeper.has_room(),
        None => unreachable!(),
    }
}

// Whether a keeper is fit, and took nothing since its last answer.
fn is_at_rest(keeper: &Keeper) -> bool
    ensures rests { IsTrue result → Rests keeper.now }
    ensures only { result ≡ false → IsAtWork keeper.now }
{
    keeper.is_fit() && !keeper.has_taken()
}

// The moment of a keeper's next check, where it is fit and took nothing since its last answer.
pub(crate) fn due<H: Hosts>(keepers: &Vec<Option<Keeper>>, hosts: &H, i: u32) -> Option<u64>
    requires within { i < length keepers.now.items }
    requires there { IsKeeper (λ k. Unit {0}) keepers.now.items i }
    ensures due { IfSome result (λ moment. IsKeeper (ChecksAt moment) keepers.now.items i) }
    ensures only { IsKeeper (ChecksOnly result) keepers.now.items i }
{
    match &keepers[i as usize] {
        Some(keeper) => due_at_rest(keeper, hosts, i),
        None => unreachable!(),
    }
}

// The moment of its next check, where it is so.
fn due_at_rest<H: Hosts>(keeper: &Keeper, hosts: &H, i: u32) -> Option<u64>
    ensures due { IfSome result (λ moment. ChecksAt moment keeper.now) }
    ensures only { ChecksOnly result keeper.now }
{
    if is_at_rest(keeper) {
        keeper.due(hosts, i)
    } else {
        None
    }
}
