ghost use Rattle.std.specs.Prelude.{◌≡◌, OnOk, IsTrue};
ghost use Rattle.vx_value.specs.Values.{datum_of};
ghost use Rattle.vx_value.specs.Events.{with_field, names_rise};
ghost use Rattle.vx_json.specs.Puts.{last_order};

use std::cmp::Ordering;
use vx_value::{Field, FieldList, Text, Value, WantOfMemory};

/// How the last name stands to another; before it where there is none.
#[inline(always)]
pub(crate) fn last_order(fields: &FieldList, name: &str) -> Ordering
    ensures order { result ≡ last_order fields.now name.now }
    ensures rising { IsTrue (names_rise fields.now) }
{
    let count = fields.len();
    if count == 0 {
        return Ordering::Less;
    }
    match fields.get(count - 1) {
        Some(field) => field.name.as_str().cmp(name),
        None => unreachable!(),
    }
}

/// Puts a value under a name, in place of one that stands there. A name behind all others costs the same however many they are.
pub fn put_field(fields: &mut FieldList, name: Text, value: Value) -> Result<(), WantOfMemory>
    ensures { OnOk result (fields.new ≡ with_field fields.old name (datum_of value)) }
{
    if !last_order(fields, name.as_str()).is_lt() {
        return fields.put_under(name, value);
    }
    match fields.push(Field { name, value }) {
        Ok(()) => Ok(()),
        Err(_) => Err(WantOfMemory),
    }
}
