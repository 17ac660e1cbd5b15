ghost use Rattle.std.specs.Prelude.{◌≡◌, ◌++◌, [], ◌∷◌, not, map, filter, IsTrue, OnOk, IfOk};
ghost use Rattle.std.specs.List.{list_any};
ghost use Rattle.std.specs.Ordering.{eq_by_cmp};
ghost use Rattle.std.specs.Cmp.{partial_equiv_from_equiv, eq_by_cmp_equiv};
ghost use Rattle.vx_value.specs.Events.{value_at, last_below};
ghost use Rattle.vx_value.specs.Orders.{datum_cmp};
ghost use Rattle.vx_value.specs.Texts.{same_text};
ghost use Rattle.vx_value.specs.Values.{datum_of, named_datum};
ghost use Rattle.vx_value.proofs.Orders.{datum_cmp-IsTotalOrder};
ghost use Rattle.vx_condition.specs.Picking.{dedupe_key};
ghost use Rattle.vx_pick.specs.Keys.{key_item, key_datum};
ghost use Rattle.vx_pick.specs.Hashing.{datum_fed};
ghost use Rattle.vx_pick.specs.Alike.{fed_alike};

use crate::feeding::feed_value;
use std::alloc::Global;
use std::hash::{Hash, Hasher};
use std::marker::Model;
use vx_condition::{DedupeFields, PathList};
use vx_value::{Event, Field, FieldList, Path, Text, TextList, Value, ValueList, WantOfMemory};

// What tells whether events repeat each other: the values at paths, or all fields but some.
//
// Contracts see one value: a list with an item for each path, which is the list of the value there, or an empty one where
// it's missing; or the fields.
#[derive(Drop)]
pub(crate) struct DedupeKey {
    value: Value,
}

impl Model for DedupeKey {
    ghost use Rattle.vx_value.specs.Datum.{Datum};
    ghost use Rattle.vx_value.specs.DatumCode.{coded_datum};
    ghost use Rattle.vx_value.specs.Values.{datum_of};

    ghost Value = { Datum };

    ghost coded = { coded_datum };

    ghost view = { λ k. datum_of k.value };
}

impl DedupeKey {
    // The key of an event.
    pub(crate) fn of(
        alloc: Global,
        fields: &DedupeFields,
        event: &Event,
    ) -> Result<Self, WantOfMemory>
        ensures { IfOk result (λ key. key ≡ key_datum (dedupe_key fields.now event.now)) }
    {
        let value = match fields {
            DedupeFields::Match(paths) => Value::Items(items_at(alloc, paths, event)?),
            DedupeFields::Ignore(names) => Value::Fields(fields_but(alloc, names, event)?),
        };
        Ok(DedupeKey { value })
    }
}

// What stands in a key for the values at some paths.
fn items_at(alloc: Global, paths: &PathList, event: &Event) -> Result<ValueList, WantOfMemory>
    ensures { IfOk result
        (λ items. items ≡ map (λ path. key_item (value_at event.now.fields path)) paths.now) }
{
    let mut items = ValueList::new(alloc);
    for path in paths.as_slice() {
        match items.push(item_at(alloc, event, path)?) {
            Ok(()) => {}
            Err(_) => return Err(WantOfMemory),
        }
    }
    Ok(items)
}

// What stands in a key for the value at a path.
fn item_at(alloc: Global, event: &Event, path: &Path) -> Result<Value, WantOfMemory>
    ensures { IfOk result (λ item. datum_of item ≡ key_item (value_at event.now.fields path.now)) }
{
    let mut item = ValueList::new(alloc);
    if let Some(value) = event.get(path) {
        match item.push(value.copy(alloc)?) {
            Ok(()) => {}
            Err(_) => return Err(WantOfMemory),
        }
    }
    Ok(Value::Items(item))
}

// The fields of an event but those with some names.
fn fields_but(alloc: Global, names: &TextList, event: &Event) -> Result<FieldList, WantOfMemory>
    ensures { IfOk result
        (λ kept. kept
        ≡ filter (λ f. not (list_any (same_text f.name) names.now)) event.now.fields) }
{
    let mut kept = FieldList::new(alloc);
    for field in event.fields.as_slice() {
        if !is_among(names.as_slice(), field.name.as_str()) {
            keep(alloc, &mut kept, field)?;
        }
    }
    Ok(kept)
}

// Keeps a field too, whose name comes after the last one. For want of memory the fields are as before.
fn keep(alloc: Global, kept: &mut FieldList, field: &Field) -> Result<(), WantOfMemory>
    requires { IsTrue (last_below kept.old field.now.name) }
    ensures { OnOk result (kept.new ≡ kept.old ++ named_datum field.now ∷ []) }
{
    match kept.push(field.copy(alloc)?) {
        Ok(()) => Ok(()),
        Err(_) => Err(WantOfMemory),
    }
}

// Whether a name is one of some.
fn is_among(names: &[Text], name: &str) -> bool
    ensures { result ≡ list_any (same_text name.now) names.now }
{
    match names {
        [] => false,
        [first, rest @ ..] => is_same(name, first.as_str()) || is_among(rest, name),
    }
}

// Whether two texts are the same.
#[tactic(auto, using(vx_value::proofs::Order::answer_equal))]
fn is_same(a: &str, b: &str) -> bool
    ensures { result ≡ same_text a.now b.now }
{
    a == b
}

impl PartialEq for DedupeKey {
    ghost eq = { eq_by_cmp datum_cmp };

    ghost laws = { partial_equiv_from_equiv (eq_by_cmp_equiv datum_cmp-IsTotalOrder) };

    fn eq(&self, other: &DedupeKey) -> bool {
        self.value.compare(&other.value).is_eq()
    }
}

impl Eq for DedupeKey {
    ghost laws = { eq_by_cmp_equiv datum_cmp-IsTotalOrder };
}

impl Hash for DedupeKey {
    ghost hash_input = { datum_fed };

    ghost respects_eq = { fed_alike };

    fn hash<H: Hasher>(&self, state: &mut H) {
        feed_value(&self.value, state);
    }
}
