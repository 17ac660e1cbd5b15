//! Short lists.
ghost use Rattle.std.specs.Prelude.{◌≡◌, ◌∷◌, [], IfOk};

use std::alloc::Global;
use vx_value::{ItemList, WantOfMemory};

/// A list of one item.
pub fn one<T: Drop>(alloc: Global, item: T) -> Result<ItemList<T>, WantOfMemory>
    ensures { IfOk result (λ list. list ≡ item ∷ []) }
{
    let mut list = ItemList::new(alloc);
    match list.push(item) {
        Ok(()) => Ok(list),
        Err(_) => Err(WantOfMemory),
    }
}

/// A list of two items.
pub fn two<T: Drop>(alloc: Global, first: T, second: T) -> Result<ItemList<T>, WantOfMemory>
    ensures { IfOk result (λ list. list ≡ first ∷ second ∷ []) }
{
    let mut list = one(alloc, first)?;
    match list.push(second) {
        Ok(()) => Ok(list),
        Err(_) => Err(WantOfMemory),
    }
}

/// Adds an item behind the others.
pub fn add<T: Drop>(list: &mut ItemList<T>, item: T) -> Result<(), WantOfMemory> {
    list.push(item).map_err(|_| WantOfMemory)
}
