ghost use Rattle.std.specs.Prelude.{◌≡◌, ℕ, ◌+◌, ◌<◌, ◌↔◌, [], ◌∷◌, ◌++◌, List, length, take, OnOk, OnErr, IfOk, IfErr, IfSome, IfNone, IsNone, IsTrue, slice_get, slice_index_or};
ghost use Rattle.std.specs.Option.{option_copied};

use crate::want_of_memory::WantOfMemory;
use std::alloc::Global;
use std::marker::Model;

/// A list that contracts see as the list of its items.
///
/// Where the items must be used up, so must the list: `pop` takes them out, and `end` ends it.
#[derive(Drop)]
pub struct ItemList<T> {
    items: Vec<T>,
}

/// A list of numbers, as those of copies.
pub type NumberList = ItemList<u64>;

impl<T> Model for ItemList<T> {
    ghost use Rattle.std.specs.Prelude.{List};

    ghost Value = { List T };

    ghost view = { λ l. l.items.items };
}

impl<T> ItemList<T> {
    /// The empty list. It takes no memory.
    pub fn new(alloc: Global) -> Self
        ensures { result ≡ [] }
    {
        ItemList {
            items: Vec::new(alloc),
        }
    }

    // The empty list, with room for that many items and no more.
    pub(crate) fn with_room(alloc: Global, room: usize) -> Result<Self, WantOfMemory>
        ensures items { IfOk result (λ list. list ≡ []) }
    {
        let items = Vec::with_capacity(alloc, room)?;
        Ok(ItemList { items })
    }

    /// The list of a vector's items. It takes no memory.
    pub fn from_vec(items: Vec<T>) -> Self
        ensures { result ≡ items.items }
    {
        ItemList { items }
    }

    /// The vector of the list's items. It takes no memory.
    pub fn into_vec(self) -> Vec<T>
        ensures { result.items ≡ self }
    {
        let ItemList { items } = self;
        items
    }

    /// How many items there are.
    pub fn len(&self) -> usize
        ensures { result ≡ length self.now }
    {
        self.items.len()
    }

    /// Whether there is no item.
    pub fn is_empty(&self) -> bool
        ensures { IsTrue result ↔ (self.now ≡ []) }
    {
        self.items.is_empty()
    }

    /// The items, in order.
    pub fn as_slice(&self) -> &[T]
        ensures { result.now ≡ self.now }
    {
        self.items.as_slice()
    }

    /// The item at an index, counted from 0. `None` exactly where the index isn't below the length.
    pub fn get(&self, i: usize) -> Option<&T>
        ensures { option_copied result ≡ slice_get self.now i }
    {
        self.items.get(i)
    }

    /// Adds an item at the end. For want of memory the item comes back, and the list is as before.
    pub fn push(&mut self, item: T) -> Result<(), T>
        ensures ok { OnOk result (self.new ≡ self.old ++ item ∷ []) }
        ensures err { OnErr result (self.new ≡ self.old) }
        ensures back { IfErr result (λ x. x ≡ item) }
    {
        match self.items.push(item) {
            Ok(()) => Ok(()),
            Err(full) => Err(full.value),
        }
    }

    /// Adds a list's items at the end. For want of memory that list comes back, and this one is as before.
    pub fn append(&mut self, other: ItemList<T>) -> Result<(), ItemList<T>>
        ensures ok { OnOk result (self.new ≡ self.old ++ other) }
        ensures err { OnErr result (self.new ≡ self.old) }
        ensures back { IfErr result (λ items. items ≡ other) }
    {
        let mut other = other;
        match self.items.append(&mut other.items) {
            Ok(()) => {
                other.end();
                Ok(())
            }
            Err(_) => Err(other),
        }
    }

    /// Takes the last item. `None` exactly where the list is empty.
    pub fn pop(&mut self) -> Option<T>
        ensures some { IfSome result (λ x. self.old ≡ self.new ++ x ∷ []) }
        ensures none { IsNone result ↔ (self.old ≡ []) }
        ensures empty { IfNone result (self.new ≡ []) }
    {
        self.items.pop()
    }

    /// Ends an empty list.
    pub fn end(self)
        requires { self ≡ [] }
    {
        let ItemList { items } = self;
        items.destroy_empty();
    }
}

impl<T: Drop> ItemList<T> {
    /// Keeps the first `n` items. It takes no memory.
    pub fn truncate(&mut self, n: usize)
        ensures { self.new ≡ take n self.old }
    {
        self.items.truncate(n);
    }
}

impl ItemList<u64> {
    /// The same numbers once more.
    pub fn copy(&self) -> Result<NumberList, WantOfMemory>
        ensures { IfOk result (λ numbers. numbers ≡ self.now) }
    {
        let items = self.items.clone()?;
        Ok(ItemList { items })
    }
}
