ghost use Rattle.std.specs.Prelude.{◌≡◌, ◌+◌, ◌<◌, ◌≤◌, ◌↔◌, [], ◌∷◌, ◌++◌, List, length, IfOk, OnOk, OnErr, IfSome, IfNone, IsNone, IsTrue, slice_get};
ghost use Rattle.std.specs.Option.{option_copied};

use std::alloc::Global;
use std::collections::VecDeque;
use std::marker::Model;
use vx_value::{ItemList, WantOfMemory};

/// A first-in, first-out list with the room that was made for it, so that a push takes no memory. It can't be dropped.
///
/// Contracts see its items, the oldest first, and its room in items.
pub struct Line<T> {
    items: VecDeque<T>,
    room: usize,
}

impl<T> Model for Line<T> {
    ghost use Rattle.std.specs.Prelude.{◌≤◌, length};
    ghost use Rattle.std.specs.VecDeque.{deque_capacity};
    ghost use Rattle.vx_value.specs.Filled.{Filled};

    ghost Value = { Filled T };

    ghost view = { λ l. record { items = l.items.items; room = l.room } };

    ghost invariant = { λ l. (l.room ≤ deque_capacity l.items) × (length l.items.items ≤ l.room) };
}

impl<T> Line<T> {
    /// An empty line without room. It takes no memory.
    pub fn new(alloc: Global) -> Self
        ensures items { result.items ≡ [] }
        ensures room { result.room ≡ 0 }
    {
        Line {
            items: VecDeque::new(alloc),
            room: 0,
        }
    }

    /// An empty line with room for that many items.
    pub fn with_room(alloc: Global, room: usize) -> Result<Self, WantOfMemory>
        ensures items { IfOk result (λ l. l.items ≡ []) }
        ensures room { IfOk result (λ l. l.room ≡ room) }
    {
        match VecDeque::with_capacity(alloc, room) {
            Ok(items) => Ok(Line { items, room }),
            Err(_) => Err(WantOfMemory),
        }
    }

    /// Makes room for that many items more.
    pub fn reserve(&mut self, more: usize) -> Result<(), WantOfMemory>
        ensures items { self.new.items ≡ self.old.items }
        ensures room { OnOk result (length self.old.items + more ≤ self.new.room) }
        ensures err { OnErr result (self.new ≡ self.old) }
    {
        match self.items.len().checked_add(more) {
            None => Err(WantOfMemory),
            Some(room) => match self.items.reserve(more) {
                Ok(()) => {
                    self.room = room.max(self.room);
                    Ok(())
                }
                Err(_) => Err(WantOfMemory),
            },
        }
    }

    /// How many items there are.
    pub fn len(&self) -> usize
        ensures { result ≡ length self.now.items }
    {
        self.items.len()
    }

    /// Whether there is no item.
    pub fn is_empty(&self) -> bool
        ensures { IsTrue result ↔ (self.now.items ≡ []) }
    {
        self.items.is_empty()
    }

    /// Whether there is no room for one more item.
    pub fn is_full(&self) -> bool
        ensures full { IsTrue result ↔ (length self.now.items ≡ self.now.room) }
        ensures within { length self.now.items ≤ self.now.room }
    {
        self.items.len() == self.room
    }

    /// The item at an index, counted from the oldest, 0. `None` exactly where the index isn't below the length.
    pub fn get(&self, i: usize) -> Option<&T>
        ensures { option_copied result ≡ slice_get self.now.items i }
    {
        self.items.get(i)
    }

    /// Adds an item behind the others. It takes no memory.
    pub fn push(&mut self, item: T)
        requires { length self.old.items < self.old.room }
        ensures items { self.new.items ≡ self.old.items ++ item ∷ [] }
        ensures room { self.new.room ≡ self.old.room }
    {
        match self.items.push_back(item) {
            Ok(()) => {}
            Err(_) => unreachable!(),
        }
    }

    /// Puts an item before the others, as where the oldest comes back. It takes no memory.
    pub fn put_back(&mut self, item: T)
        requires { length self.old.items < self.old.room }
        ensures items { self.new.items ≡ item ∷ self.old.items }
        ensures room { self.new.room ≡ self.old.room }
    {
        match self.items.push_front(item) {
            Ok(()) => {}
            Err(_) => unreachable!(),
        }
    }

    /// Takes the oldest item. `None` exactly where there is none.
    pub fn pop(&mut self) -> Option<T>
        ensures some { IfSome result (λ x. self.old.items ≡ x ∷ self.new.items) }
        ensures none { IsNone result ↔ (self.old.items ≡ []) }
        ensures empty { IfNone result (self.new ≡ self.old) }
        ensures room { self.new.room ≡ self.old.room }
        ensures within { length self.old.items ≤ self.old.room }
    {
        self.items.pop_front()
    }

    /// Adds a list's items behind the others. It takes no memory.
    pub fn append(&mut self, more: ItemList<T>)
        requires { length self.old.items + length more ≤ self.old.room }
        ensures items { self.new.items ≡ self.old.items ++ more }
        ensures room { self.new.room ≡ self.old.room }
    {
        let mut more = VecDeque::from_vec(more.into_vec());
        match self.items.append(&mut more) {
            Ok(()) => more.destroy_empty(),
            Err(_) => unreachable!(),
        }
    }

    /// Ends an empty line.
    pub fn end(self)
        requires { self.items ≡ [] }
    {
        let Line { items, room: _ } = self;
        items.destroy_empty();
    }
}
