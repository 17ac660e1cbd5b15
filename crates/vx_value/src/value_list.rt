ghost use Rattle.std.specs.Prelude.{◌≡◌, ◌≤◌, ◌↔◌, [], ◌∷◌, ◌++◌, length, map, slice_get, option_map, IsTrue, IsNone, IfSome, IfNone, IfOk, IfErr, OnOk, OnErr};
ghost use Rattle.std.specs.Option.{option_copied};

use crate::value::Value;
use crate::want_of_memory::WantOfMemory;
use std::alloc::Global;
use std::cmp::Ordering;
use std::marker::Model;

/// Values in order. Contracts see the list of what they stand for.
#[cycle(value)]
#[derive(Drop)]
pub struct ValueList {
    items: Vec<Value>,
}

impl Model for ValueList {
    ghost use Rattle.std.specs.Prelude.{List, map, ◌+◌};
    ghost use Rattle.std.specs.Coded.{coded_list};
    ghost use Rattle.vx_value.specs.Datum.{Datum};
    ghost use Rattle.vx_value.specs.DatumCode.{coded_datum};

    ghost Value = { List Datum };

    ghost coded = { coded_list coded_datum };

    ghost use Rattle.vx_value.specs.Datum.{data_of, data_depth};
    ghost use Rattle.vx_value.specs.Values.{datum_of};

    ghost view = { λ l. map datum_of l.items.items };

    ghost size = { λ ds. 1 + data_depth (data_of ds) };

    ghost use Rattle.std.proofs.Common.{arith};
    ghost use Rattle.vx_value.specs.Falls.{most-data};

    ghost size_decreases = { λ l h. Prim.omega (arith, most-data l.items.items) };
}

impl ValueList {
    ghost use Rattle.vx_value.specs.Datum.{data_of, data_depth};
    ghost use Rattle.vx_value.specs.Orders.{data_cmp};
    ghost use Rattle.vx_value.specs.Values.{datum_of};

    /// The empty list. It takes no memory.
    pub fn new(alloc: Global) -> Self
        ensures { result ≡ [] }
    {
        ValueList {
            items: Vec::new(alloc),
        }
    }

    /// How many values there are.
    pub fn len(&self) -> usize
        ensures { result ≡ length self.now }
    {
        self.items.len()
    }

    /// Whether there is no value.
    pub fn is_empty(&self) -> bool
        ensures { IsTrue result ↔ (self.now ≡ []) }
    {
        self.items.is_empty()
    }

    /// The values, in order.
    pub fn as_slice(&self) -> &[Value]
        ensures { map datum_of result.now ≡ self.now }
    {
        self.items.as_slice()
    }

    /// The value at an index, counted from 0. `None` exactly where the index isn't below the length.
    pub fn get(&self, i: usize) -> Option<&Value>
        ensures { option_map datum_of (option_copied result) ≡ slice_get self.now i }
    {
        self.items.get(i)
    }

    /// Adds a value at the end. For want of memory the value comes back, and the list is as before.
    pub fn push(&mut self, value: Value) -> Result<(), Value>
        ensures ok { OnOk result (self.new ≡ self.old ++ datum_of value ∷ []) }
        ensures err { OnErr result (self.new ≡ self.old) }
        ensures back { IfErr result (λ x. x ≡ value) }
    {
        match self.items.push(value) {
            Ok(()) => Ok(()),
            Err(full) => Err(full.value),
        }
    }

    /// Takes the last value. `None` exactly where the list is empty.
    pub fn pop(&mut self) -> Option<Value>
        ensures some { IfSome result (λ x. self.old ≡ self.new ++ datum_of x ∷ []) }
        ensures none { IsNone result ↔ (self.old ≡ []) }
        ensures empty { IfNone result (self.new ≡ []) }
    {
        self.items.pop()
    }

    // Whether each value is at most that deep.
    #[cycle(fits)]
    pub(crate) fn fits(&self, levels: u32) -> bool
        ensures { IsTrue result ↔ (data_depth (data_of self.now) ≤ levels) }
    {
        for item in self.items.as_slice() {
            if !item.fits(levels) {
                return false;
            }
        }
        true
    }

    /// Which of two lists comes first: the first place at which they differ decides, and a list comes before one that
    /// goes on.
    #[cycle(compare)]
    pub fn compare(&self, other: &ValueList) -> Ordering
        ensures { result ≡ data_cmp (data_of self.now) (data_of other.now) }
    {
        let mut i: usize = 0;
        for item in self.items.as_slice() {
            let Some(that) = other.items.get(i) else {
                return Ordering::Greater;
            };
            match item.compare(that) {
                Ordering::Equal => i += 1,
                unequal => return unequal,
            }
        }
        if i < other.items.len() {
            Ordering::Less
        } else {
            Ordering::Equal
        }
    }

    /// The same values once more.
    #[cycle(copy)]
    pub fn copy(&self, alloc: Global) -> Result<Self, WantOfMemory>
        ensures { IfOk result (λ copy. copy ≡ self.now) }
    {
        let mut items = Vec::with_capacity(alloc, self.items.len())?;
        for item in self.items.as_slice() {
            match items.push(item.copy(alloc)?) {
                Ok(()) => {}
                Err(_) => return Err(WantOfMemory),
            }
        }
        Ok(ValueList { items })
    }
}
