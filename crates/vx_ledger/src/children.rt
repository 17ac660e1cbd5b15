// The lists of children that a split makes.
ghost use Rattle.std.specs.Prelude.{◌≡◌, ℕ, ◌+◌, ◌-◌, ◌*◌, ◌^◌, ◌<◌, ◌≤◌, [], ◌∷◌, ◌++◌, List, length, IfOk, vec_capacity};
ghost use Rattle.vx_ledger.specs.Copies.{children_of};

use crate::finalizers::{Finalizers, FinalizersList};
use std::alloc::Global;
use vx_value::{ItemList, WantOfMemory};

// Ends lists of copies that were never handed out.
pub(crate) fn destroy_all_unspent(lists: Vec<Finalizers>) {
    let mut rest = lists;
    while let Some(list) = rest.pop() {
        list.destroy_unspent();
    }
    rest.destroy_empty();
}

// The children for the first `k` targets, with room for one list more.
pub(crate) fn for_first(
    alloc: Global,
    parent: &Finalizers,
    first: u64,
    k: u32,
) -> Result<Vec<Finalizers>, WantOfMemory>
    requires { first + k * length parent.now ≤ 2 ^ 63 }
    ensures children { IfOk result (λ lists. lists.items ≡ children_of k first parent.now) }
    ensures room { IfOk result (λ lists. length lists.items < vec_capacity lists) }
{
    let mut lists = Vec::with_capacity(alloc, k as usize + 1)?;
    let mut number = first;
    for _ in 0..k {
        match parent.renumbered(alloc, number) {
            Ok(child) => lists.push_reserved(child),
            Err(WantOfMemory) => {
                destroy_all_unspent(lists);
                return Err(WantOfMemory);
            }
        }
        number += parent.len();
    }
    Ok(lists)
}

// The lists with the last target's behind them. It takes no memory.
pub(crate) fn with_last(lists: Vec<Finalizers>, last: Finalizers) -> FinalizersList
    requires { length lists.items < vec_capacity lists }
    ensures { result ≡ lists.items ++ last ∷ [] }
{
    let mut lists = lists;
    lists.push_reserved(last);
    ItemList::from_vec(lists)
}
