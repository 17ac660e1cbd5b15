// What can be asked of the parcels of an instance.
ghost use Rattle.std.specs.Prelude.{◌≡◌, ◌<◌, ◌↔◌, ℕ, [], length, IsTrue, Some, false, IfSome, IfNone};
ghost use Rattle.vx_record.specs.Places.Place.{Held};
ghost use Rattle.vx_places.specs.Views.{stage_at, stage_items, held_items, parcels_here};
ghost use Rattle.vx_places.specs.Calls.{NoneWaits, NoneBefore, IsOldestFor, HasRoom, HasSome, IsKept, HasHeldRoom, waiting_target};
ghost use Rattle.vx_places.specs.Numbers.{for_target};
ghost use Rattle.vx_places.specs.Looks.{HasOutput, HasWaiting, HasSent, HasEmptyBuffer, ManyWait, HoldsMany, IsHeldFull, IsBare, IsClear, IsFirstRoom, IsFirstFilled};

use crate::line::Line;
use crate::row::Row;
use std::collections::VecDeque;
use vx_ledger::{Child, Parcel};

// Whether no child of an instance waits.
pub(crate) fn none_waits(rows: &[Row], i: usize) -> bool
    requires { i < length rows.now }
    ensures { IsTrue result ↔ NoneWaits rows.now i }
{
    rows[i].waiting.is_empty()
}

// Whether a stage of an instance's buffer has room for one more parcel.
pub(crate) fn has_room(rows: &[Row], i: usize, s: usize) -> bool
    requires { i < length rows.now }
    ensures { IsTrue result ↔ HasRoom rows.now i s }
{
    match rows[i].stages.get(s) {
        Some(stage) => !stage.is_full(),
        None => false,
    }
}

// Whether a stage of an instance's buffer has a parcel.
pub(crate) fn has_some(rows: &[Row], i: usize, s: usize) -> bool
    requires { i < length rows.now }
    ensures { IsTrue result ↔ HasSome rows.now i s }
{
    match rows[i].stages.get(s) {
        Some(stage) => !stage.is_empty(),
        None => false,
    }
}

// The first stage of an instance's buffer that has room for one more parcel.
pub(crate) fn first_room(rows: &[Row], i: usize) -> Option<usize>
    requires { i < length rows.now }
    ensures { IsFirstRoom rows.now i result }
{
    for s in 0..rows[i].stages.len() {
        if has_room(rows, i, s) {
            return Some(s);
        }
    }
    None
}

// The first stage of an instance's buffer that has a parcel.
pub(crate) fn first_filled(rows: &[Row], i: usize) -> Option<usize>
    requires { i < length rows.now }
    ensures { IsFirstFilled rows.now i result }
{
    for s in 0..rows[i].stages.len() {
        if has_some(rows, i, s) {
            return Some(s);
        }
    }
    None
}

// Whether an instance has an output.
pub(crate) fn has_output(rows: &[Row], i: usize) -> bool
    requires { i < length rows.now }
    ensures { IsTrue result ↔ HasOutput rows.now i }
{
    !rows[i].outputs.is_empty()
}

// Whether an instance has neither an output nor a waiting child.
pub(crate) fn is_sent(rows: &[Row], i: usize) -> bool
    requires { i < length rows.now }
    ensures { IsTrue result ↔ HasSent rows.now i }
{
    rows[i].outputs.is_empty() && none_waits(rows, i)
}

// Whether one of some children is for a target.
fn any_for(waiting: &VecDeque<Child>, target: u32) -> bool
    ensures { IsTrue result ↔ (0 < length (for_target target waiting.now.items)) }
{
    for k in 0..waiting.len() {
        if waiting[k].target == target {
            return true;
        }
    }
    false
}

// Whether a child of an instance waits for a target.
pub(crate) fn awaits(rows: &[Row], i: usize, target: u32) -> bool
    requires { i < length rows.now }
    ensures { IsTrue result ↔ HasWaiting rows.now i target }
{
    any_for(&rows[i].waiting, target)
}

// Whether no stage has a parcel.
fn are_empty(stages: &[Line<Parcel>]) -> bool
    ensures { IsTrue result ↔ ((s : ℕ) → stage_items (stage_at stages.now s) ≡ []) }
{
    for stage in stages {
        if !stage.is_empty() {
            return false;
        }
    }
    true
}

// Whether no stage of an instance's buffer has a parcel.
pub(crate) fn is_empty_buffer(rows: &[Row], i: usize) -> bool
    requires { i < length rows.now }
    ensures { IsTrue result ↔ HasEmptyBuffer rows.now i }
{
    are_empty(&rows[i].stages)
}

// How many parcels an instance holds.
pub(crate) fn holds(rows: &[Row], i: usize) -> usize
    requires within { i < length rows.now }
    requires kept { IsKept rows.now i }
    ensures { HoldsMany rows.now i result }
{
    match &rows[i].held {
        Some(held) => held.len(),
        None => unreachable!(),
    }
}

// Whether an instance holds as many parcels as there is room for.
pub(crate) fn is_held_full(rows: &[Row], i: usize) -> bool
    requires within { i < length rows.now }
    requires kept { IsKept rows.now i }
    ensures full { IsTrue result ↔ IsHeldFull rows.now i }
    ensures room { result ≡ false → HasHeldRoom rows.now i }
{
    match &rows[i].held {
        Some(held) => held.is_full(),
        None => unreachable!(),
    }
}

// Whether nothing is held, nor lent.
fn is_none_held(held: &Option<Line<Parcel>>) -> bool
    ensures { IsTrue result ↔ (held_items held.now ≡ Some []) }
{
    match held {
        Some(held) => held.is_empty(),
        None => false,
    }
}

// Whether no stage of an instance's buffer has a parcel, and nothing is held, nor lent.
pub(crate) fn is_unfilled(rows: &[Row], i: usize) -> bool
    requires { i < length rows.now }
    ensures { IsTrue result
        ↔ (HasEmptyBuffer rows.now i × (parcels_here rows.now (Held i) ≡ Some [])) }
{
    is_empty_buffer(rows, i) && is_none_held(&rows[i].held)
}

// Whether nothing stands at any place of an instance, and nothing is lent.
pub(crate) fn is_bare(rows: &[Row], i: usize) -> bool
    requires { i < length rows.now }
    ensures { IsTrue result ↔ IsBare rows.now i }
{
    is_sent(rows, i) && is_unfilled(rows, i)
}

// Whether nothing stands at any place of an instance but what it holds, be that lent or not.
pub(crate) fn is_clear(rows: &[Row], i: usize) -> bool
    requires { i < length rows.now }
    ensures { IsTrue result ↔ IsClear rows.now i }
{
    is_sent(rows, i) && is_empty_buffer(rows, i)
}

// How many children of an instance wait.
pub(crate) fn count_waiting(rows: &[Row], i: usize) -> usize
    requires { i < length rows.now }
    ensures { ManyWait rows.now i result }
{
    rows[i].waiting.len()
}

// The target of the waiting child of an instance at a place. `None` where there is no such child.
pub(crate) fn target_at(rows: &[Row], i: usize, k: usize) -> Option<u32>
    requires { i < length rows.now }
    ensures { result ≡ waiting_target rows.now i k }
{
    Some(rows[i].waiting.get(k)?.target)
}

// The target of the child at a place among some, where that child is the oldest for it. `None` where it isn't, or there is none.
fn oldest_in(waiting: &VecDeque<Child>, k: usize) -> Option<u32>
    ensures some { IfSome result (λ t. NoneBefore t k waiting.now.items) }
    ensures none { IfNone result ((t : ℕ) → NoneBefore t k waiting.now.items → ⊥) }
{
    let target = waiting.get(k)?.target;
    for j in 0..k {
        if waiting[j].target == target {
            return None;
        }
    }
    Some(target)
}

// The same at an instance.
pub(crate) fn oldest_at(rows: &[Row], i: usize, k: usize) -> Option<u32>
    requires { i < length rows.now }
    ensures some { IfSome result (λ t. IsOldestFor rows.now i t k) }
    ensures none { IfNone result ((t : ℕ) → IsOldestFor rows.now i t k → ⊥) }
{
    oldest_in(&rows[i].waiting, k)
}

// The target of the first waiting child of an instance.
pub(crate) fn first_waiting(rows: &[Row], i: usize) -> Option<u32>
    requires { i < length rows.now }
    ensures some { IfSome result (λ target. IsOldestFor rows.now i target 0) }
    ensures none { IfNone result (NoneWaits rows.now i) }
{
    oldest_in(&rows[i].waiting, 0)
}
