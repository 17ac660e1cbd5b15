ghost use Rattle.std.specs.Prelude.{◌≡◌, ◌++◌, [], ◌∷◌, Some, refl, IfOk};
ghost use Rattle.std.specs.Ordering.{eq_by_cmp};
ghost use Rattle.std.specs.Cmp.{partial_equiv_from_equiv, eq_by_cmp_equiv, po};
ghost use Rattle.vx_value.specs.Events.{value_at};
ghost use Rattle.vx_value.specs.Values.{datum_of};
ghost use Rattle.vx_value.specs.Orders.{datum_cmp};
ghost use Rattle.vx_value.proofs.Orders.{datum_cmp-IsTotalOrder};
ghost use Rattle.vx_reduce.specs.Keys.{key_item, key_datum};

use std::alloc::Global;
use std::cmp::Ordering;
use std::marker::Model;
use vx_condition::PathList;
use vx_value::{Event, Path, Value, ValueList, WantOfMemory};

// The values of an event at the paths that tell groups apart.
//
// Contracts see them as one value: a list with an item for each path, which is the list of the value there, or an empty
// one where it's missing.
#[derive(Drop)]
pub(crate) struct GroupKey {
    values: Value,
}

impl Model for GroupKey {
    ghost use Rattle.vx_value.specs.Datum.{Datum};
    ghost use Rattle.vx_value.specs.DatumCode.{coded_datum};
    ghost use Rattle.vx_value.specs.Values.{datum_of};

    ghost Value = { Datum };

    ghost coded = { coded_datum };

    ghost view = { λ k. datum_of k.values };
}

// What stands in a key for the value at a path.
fn item_at(alloc: Global, event: &Event, path: &Path) -> Result<Value, WantOfMemory>
    ensures { IfOk result (λ item. datum_of item ≡ key_item (value_at event.now.fields path.now)) }
{
    let mut item = ValueList::new(alloc);
    if let Some(value) = event.get(path) {
        match item.push(value.copy(alloc)?) {
            Ok(()) => {}
            Err(_) => return Err(WantOfMemory),
        }
    }
    Ok(Value::Items(item))
}

impl GroupKey {
    // The key of an event.
    pub(crate) fn of(alloc: Global, paths: &PathList, event: &Event) -> Result<Self, WantOfMemory>
        ensures { IfOk result (λ key. key ≡ key_datum paths.now event.now) }
    {
        let mut items = ValueList::new(alloc);
        for path in paths.as_slice() {
            match items.push(item_at(alloc, event, path)?) {
                Ok(()) => {}
                Err(_) => return Err(WantOfMemory),
            }
        }
        Ok(GroupKey {
            values: Value::Items(items),
        })
    }

    // The same key once more.
    pub(crate) fn copy(&self, alloc: Global) -> Result<Self, WantOfMemory>
        ensures { IfOk result (λ copy. copy ≡ self.now) }
    {
        let values = self.values.copy(alloc)?;
        Ok(GroupKey { values })
    }
}

impl PartialEq for GroupKey {
    ghost eq = { eq_by_cmp datum_cmp };

    ghost laws = { partial_equiv_from_equiv (eq_by_cmp_equiv datum_cmp-IsTotalOrder) };

    fn eq(&self, other: &GroupKey) -> bool {
        self.values.compare(&other.values).is_eq()
    }
}

impl Eq for GroupKey {
    ghost laws = { eq_by_cmp_equiv datum_cmp-IsTotalOrder };
}

impl PartialOrd for GroupKey {
    ghost partial_cmp = { λ x y. Some (datum_cmp x y) };

    ghost laws = { po datum_cmp-IsTotalOrder (λ x y. refl) };

    fn partial_cmp(&self, other: &GroupKey) -> Option<Ordering> {
        Some(self.cmp(other))
    }
}

impl Ord for GroupKey {
    ghost cmp = { datum_cmp };

    ghost total = { datum_cmp-IsTotalOrder };

    ghost matches_partial_cmp = { λ x y. refl };

    ghost matches_eq = { λ x y. refl };

    fn cmp(&self, other: &GroupKey) -> Ordering {
        self.values.compare(&other.values)
    }
}
