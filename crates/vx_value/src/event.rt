ghost use Rattle.std.specs.Prelude.{◌≡◌, ℕ, ◌<◌, ◌≤◌, ◌↔◌, [], List, Some, option_map, IsTrue, IfOk, OnOk, OnErr};
ghost use Rattle.std.specs.Cmp.{IsTotalOrder};
ghost use Rattle.std.specs.FinSet.{IsAntisymmetric};
ghost use Rattle.std.specs.Option.{option_copied};

use crate::field_list::FieldList;
use crate::item_list::ItemList;
use crate::path::Path;
use crate::put_fault::PutFault;
use crate::value::Value;
use crate::want_of_memory::WantOfMemory;
use std::alloc::Global;
use std::cmp::Ordering;

/// An event: its fields.
#[derive(Drop)]
pub struct Event {
    pub fields: FieldList,
}

/// A list of events.
pub type EventList = ItemList<Event>;

impl Event {
    ghost use Rattle.vx_value.specs.Texts.{ByteString};
    ghost use Rattle.vx_value.specs.Datum.{named_of};
    ghost use Rattle.vx_value.specs.Orders.{named_cmp};
    ghost use Rattle.vx_value.specs.Values.{datum_of};
    ghost use Rattle.vx_value.specs.Events.{value_at, put_at, fields_depth, parts, IsBlocked, IsOpen};

    /// An event with no field. It takes no memory.
    pub fn new(alloc: Global) -> Self
        ensures { result.fields ≡ [] }
    {
        Event {
            fields: FieldList::new(alloc),
        }
    }

    /// The value at a path. `None` exactly where a name is missing, or a step meets another kind than Fields.
    pub fn get(&self, path: &Path) -> Option<&Value>
        ensures { option_map datum_of (option_copied result) ≡ value_at self.now.fields path.now }
    {
        self.fields.at(path.names())
    }

    /// Puts a value at a path, in place of what stands there, and makes the fields that are missing on the way.
    ///
    /// A refusal leaves the event as before, and drops the value. `Blocked` comes exactly where the path leads
    /// through a value of another kind than Fields, `TooDeep` exactly where it doesn't and the event would be
    /// deeper than 32, and `WantOfMemory` where no memory is found.
    pub fn put(&mut self, path: &Path, value: Value) -> Result<(), PutFault>
        ensures ok { OnOk result
            (self.new.fields ≡ put_at self.old.fields path.now (datum_of value)) }
        ensures there { OnOk result (value_at self.new.fields path.now ≡ Some (datum_of value)) }
        ensures kept { OnOk result ((q : List ByteString) → IsTrue (parts path.now q) →
            value_at self.new.fields q ≡ value_at self.old.fields q) }
        ensures fits { OnOk result (fields_depth self.new.fields ≤ 32) }
        ensures blocked { (n : ℕ) →
            (result ≡ Err (PutFault.Blocked n)) ↔ IsBlocked self.old.fields path.now n }
        ensures deep { (result ≡ Err PutFault.TooDeep) ↔ (IsOpen self.old.fields path.now
            × (32 < fields_depth (put_at self.old.fields path.now (datum_of value)))) }
        ensures err { OnErr result (self.new ≡ self.old) }
    {
        let names = path.names();
        let blocked = self.fields.blocked(names);
        if blocked != 0 {
            return Err(PutFault::Blocked {
                names: blocked as u32,
            });
        }
        if !self.fields.fits_with(names, &value, 32) {
            return Err(PutFault::TooDeep);
        }
        match self.fields.put(names, value) {
            Ok(()) => Ok(()),
            Err(_) => Err(PutFault::WantOfMemory),
        }
    }

    /// Which of two events comes first, by their fields.
    pub fn compare(&self, other: &Event) -> Ordering
        ensures { result ≡ named_cmp (named_of self.now.fields) (named_of other.now.fields) }
    {
        self.fields.compare(&other.fields)
    }

    /// Whether two events are the same, which is where neither comes first. The order is total.
    pub fn is_same(&self, other: &Event) -> bool
        ensures same { IsTrue result ↔ (self.now ≡ other.now) }
        ensures total { IsTotalOrder named_cmp }
        ensures alone { IsAntisymmetric named_cmp }
    {
        self.compare(other).is_eq()
    }

    /// The same event once more.
    pub fn copy(&self, alloc: Global) -> Result<Self, WantOfMemory>
        ensures { IfOk result (λ copy. copy ≡ self.now) }
    {
        let fields = self.fields.copy(alloc)?;
        Ok(Event { fields })
    }
}

impl ItemList<Event> {
    /// The same events once more.
    pub fn copy(&self, alloc: Global) -> Result<EventList, WantOfMemory>
        ensures { IfOk result (λ copy. copy ≡ self.now) }
    {
        let mut events = ItemList::with_room(alloc, self.len())?;
        for event in self.as_slice() {
            match events.push(event.copy(alloc)?) {
                Ok(()) => {}
                Err(_) => return Err(WantOfMemory),
            }
        }
        Ok(events)
    }
}
