// The children that a route makes.
ghost use Rattle.std.specs.Prelude.{◌≡◌, ℕ, ◌+◌, ◌-◌, ◌*◌, ◌^◌, ◌<◌, ◌≤◌, [], ◌∷◌, ◌++◌, List, length, All, IfOk, vec_capacity};
ghost use Rattle.vx_ledger.specs.Routing.{child_of, children_for};

use crate::child::{Child, ChildList};
use crate::parcel::Parcel;
use std::alloc::Global;
use vx_value::{ItemList, WantOfMemory};

// The child for a target, with the same event.
fn child(alloc: Global, target: u64, parcel: &Parcel, first: u64) -> Result<Child, WantOfMemory>
    requires instance { target < 2 ^ 32 }
    requires fits { first + length parcel.now.finalizers ≤ 2 ^ 63 }
    ensures { IfOk result (λ child. child ≡ child_of target first parcel.now) }
{
    let event = parcel.event.share()?;
    let finalizers = parcel.finalizers.renumbered(alloc, first)?;
    Ok(Child {
        target: target as u32,
        parcel: Parcel { event, finalizers },
    })
}

// Ends children that were never handed out.
fn destroy_all_unspent(children: Vec<Child>) {
    let mut rest = children;
    while let Some(child) = rest.pop() {
        let Child { target: _, parcel } = child;
        let Parcel {
            event: _,
            finalizers,
        } = parcel;
        finalizers.destroy_unspent();
    }
    rest.destroy_empty();
}

// The children for the targets in an empty list, with room for one child more.
pub(crate) fn children(
    alloc: Global,
    targets: &[u64],
    parcel: &Parcel,
    first: u64,
    room: Vec<Child>,
) -> Result<Vec<Child>, WantOfMemory>
    requires empty { room.items ≡ [] }
    requires instances { All (λ t. t < 2 ^ 32) targets.now }
    requires fits { first + length targets.now * length parcel.now.finalizers ≤ 2 ^ 63 }
    ensures children { IfOk result
        (λ children. children.items ≡ children_for targets.now first parcel.now) }
    ensures room { IfOk result (λ children. length children.items < vec_capacity children) }
{
    let mut children = with_room(room, targets.len() + 1)?;
    let mut number = first;
    for target in targets {
        match child(alloc, *target, parcel, number) {
            Ok(child) => children.push_reserved(child),
            Err(WantOfMemory) => {
                destroy_all_unspent(children);
                return Err(WantOfMemory);
            }
        }
        number += parcel.finalizers.len();
    }
    Ok(children)
}

// An empty list with room for so many.
fn with_room(list: Vec<Child>, n: usize) -> Result<Vec<Child>, WantOfMemory>
    requires { list.items ≡ [] }
    ensures empty { IfOk result (λ list. list.items ≡ []) }
    ensures room { IfOk result (λ list. n ≤ vec_capacity list) }
{
    let mut list = list;
    match list.reserve(n) {
        Ok(()) => Ok(list),
        Err(_) => {
            list.destroy_empty();
            Err(WantOfMemory)
        }
    }
}

// The children for all targets but the last in an empty list, with room for one child more, and the last target.
pub(crate) fn others(
    alloc: Global,
    targets: &[u64],
    parcel: &Parcel,
    first: u64,
    room: Vec<Child>,
) -> Result<(Vec<Child>, u32), WantOfMemory>
    requires empty { room.items ≡ [] }
    requires some { 0 < length targets.now }
    requires instances { All (λ t. t < 2 ^ 32) targets.now }
    requires fits { first + length targets.now * length parcel.now.finalizers ≤ 2 ^ 63 }
    ensures children { IfOk result
        (λ r. children_for targets.now first parcel.now ≡ r.0.items
        ++ child_of r.1 (first + (length targets.now - 1) * length parcel.now.finalizers) parcel.now
        ∷ []) }
    ensures room { IfOk result (λ r. length r.0.items < vec_capacity r.0) }
    ensures few { length targets.now < 2 ^ 63 }
{
    let last = targets.len() - 1;
    let others = children(alloc, &targets[..last], parcel, first, room)?;
    Ok((others, targets[last] as u32))
}

// The children with the last one behind them. It takes no memory.
pub(crate) fn with_last(children: Vec<Child>, last: Child) -> ChildList
    requires { length children.items < vec_capacity children }
    ensures { result ≡ children.items ++ last ∷ [] }
{
    let mut children = children;
    children.push_reserved(last);
    ItemList::from_vec(children)
}
