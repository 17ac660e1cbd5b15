// How a value is fed to a hasher.
ghost use Rattle.std.specs.Prelude.{◌≡◌, ◌++◌, map, fold};
ghost use Rattle.std.specs.Hash as fed;
ghost use Rattle.vx_value.specs.Datum.{data_of, named_of};
ghost use Rattle.vx_value.specs.Values.{datum_of, named_datum};
ghost use Rattle.vx_pick.specs.Hashing.{datum_fed, data_fed, named_fed};

use std::hash::{Hash, Hasher};
use vx_value::{Field, Value};

// Feeds a value: of which kind it is, and what it holds.
#[cycle(feed)]
pub(crate) fn feed_value<H: Hasher>(value: &Value, state: &mut H)
    ensures { state.new ≡ fold H.write state.old (datum_fed (datum_of value.now)) }
{
    match value {
        Value::Null => state.write_u8(0),
        Value::Truth(truth) => {
            state.write_u8(1);
            truth.hash(state);
        }
        Value::Whole(whole) => {
            state.write_u8(2);
            whole.hash(state);
        }
        Value::Spelled(spelling) => {
            state.write_u8(3);
            spelling.as_str().hash(state);
        }
        Value::Words(words) => {
            state.write_u8(4);
            words.as_str().hash(state);
        }
        Value::Items(items) => {
            state.write_u8(5);
            feed_items(items.as_slice(), state);
        }
        Value::Fields(fields) => {
            state.write_u8(6);
            feed_fields(fields.as_slice(), state);
        }
    }
}

// Feeds values in order.
#[cycle(feed)]
fn feed_items<H: Hasher>(items: &[Value], state: &mut H)
    ensures { state.new ≡ fold H.write state.old (data_fed (data_of (map datum_of items.now))) }
{
    for item in items {
        feed_value(item, state);
    }
}

// Feeds fields in order, each with its name.
#[cycle(feed)]
fn feed_fields<H: Hasher>(fields: &[Field], state: &mut H)
    ensures { state.new
        ≡ fold H.write state.old (named_fed (named_of (map named_datum fields.now))) }
{
    for field in fields {
        field.name.as_str().hash(state);
        feed_value(&field.value, state);
    }
}
