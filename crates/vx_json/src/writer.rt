ghost use Rattle.std.specs.Prelude.{◌≡◌, ◌++◌, ◌∷◌, [], map, OnOk, OnErr};
ghost use Rattle.std.specs.Fmt.{signed_decimal};
ghost use Rattle.vx_value.specs.Datum.{Truth, Items, Fields, data_of, named_of};
ghost use Rattle.vx_value.specs.Values.{datum_of, named_datum};
ghost use Rattle.vx_json.specs.Grammar.{IsText};
ghost use Rattle.vx_json.specs.Writable.{IsWritable};
ghost use Rattle.vx_json.specs.Growth.{Keeps};
ghost use Rattle.vx_json.specs.Written.{written, separator, fields_written};

use crate::quote::push_quoted;
use itoa::Buffer;
use vx_value::{Bytes, Event, Field, Value, WantOfMemory};

/// Adds a whole number.
fn push_whole(whole: i64, out: &mut Bytes) -> Result<(), WantOfMemory>
    ensures ok { OnOk result (out.new ≡ out.old ++ signed_decimal whole) }
    ensures err { OnErr result (out.new ≡ out.old) }
{
    let mut buffer = Buffer::new();
    out.push_slice(buffer.format(whole).as_bytes())
}

/// Adds a truth value.
fn push_truth(truth: bool, out: &mut Bytes) -> Result<(), WantOfMemory>
    ensures ok { OnOk result (out.new ≡ out.old ++ written (Truth truth)) }
    ensures err { OnErr result (out.new ≡ out.old) }
{
    if truth {
        out.push_slice(b"true")
    } else {
        out.push_slice(b"false")
    }
}

/// Adds what stands before the value at an index: nothing before the first, and a comma before each other.
fn push_separator(i: usize, out: &mut Bytes) -> Result<(), WantOfMemory>
    ensures ok { OnOk result (out.new ≡ out.old ++ separator i) }
    ensures err { OnErr result (out.new ≡ out.old) }
{
    if i == 0 {
        return Ok(());
    }
    out.push_slice(b",")
}

/// Adds a value.
#[cycle(push_value)]
fn push_value(value: &Value, out: &mut Bytes) -> Result<(), WantOfMemory>
    ensures ok { OnOk result (out.new ≡ out.old ++ written (datum_of value.now)) }
    ensures err { OnErr result (Keeps out.old out.new) }
{
    match value {
        Value::Null => out.push_slice(b"null"),
        Value::Truth(truth) => push_truth(*truth, out),
        Value::Whole(whole) => push_whole(*whole, out),
        Value::Spelled(number) => out.push_slice(number.as_str().as_bytes()),
        Value::Words(text) => push_quoted(text.as_str(), out),
        Value::Items(items) => push_items(items.as_slice(), out),
        Value::Fields(fields) => push_fields(fields.as_slice(), out),
    }
}

/// Adds values in order, in brackets.
#[cycle(push_value)]
fn push_items(items: &[Value], out: &mut Bytes) -> Result<(), WantOfMemory>
    ensures ok { OnOk result
        (out.new ≡ out.old ++ written (Items (data_of (map datum_of items.now)))) }
    ensures err { OnErr result (Keeps out.old out.new) }
{
    out.push_slice(b"[")?;
    for (i, item) in items.iter().enumerate() {
        push_separator(i, out)?;
        push_value(item, out)?;
    }
    out.push_slice(b"]")
}

/// Adds a field: its name, a colon and its value.
#[cycle(push_value)]
fn push_field(field: &Field, out: &mut Bytes) -> Result<(), WantOfMemory>
    ensures ok { OnOk result
        (out.new ≡ out.old ++ fields_written (named_of (named_datum field.now ∷ []))) }
    ensures err { OnErr result (Keeps out.old out.new) }
{
    push_quoted(field.name.as_str(), out)?;
    out.push_slice(b":")?;
    push_value(&field.value, out)
}

/// Adds fields in order, in braces.
#[cycle(push_value)]
fn push_fields(fields: &[Field], out: &mut Bytes) -> Result<(), WantOfMemory>
    ensures ok { OnOk result
        (out.new ≡ out.old ++ written (Fields (named_of (map named_datum fields.now)))) }
    ensures err { OnErr result (Keeps out.old out.new) }
{
    out.push_slice(b"{")?;
    for (i, field) in fields.iter().enumerate() {
        push_separator(i, out)?;
        push_field(field, out)?;
    }
    out.push_slice(b"}")
}

/// Adds a value in its one spelling. For want of memory `out` is as before.
///
/// There are no blanks. Fields stand in the order of their names by bytes. A whole number is its digits, a spelled one
/// its spelling. Texts have a backslash before `"` and `\`, the short escapes of JSON for backspace, form feed, line
/// feed, carriage return and tab, `\u00` and two lower-case digits for each other character below U+0020, and all
/// other characters as they are.
pub fn write_value(value: &Value, out: &mut Bytes) -> Result<(), WantOfMemory>
    ensures ok { OnOk result (out.new ≡ out.old ++ written (datum_of value.now)) }
    ensures err { OnErr result (out.new ≡ out.old) }
    // It is a JSON text of the value.
    ensures text { IsWritable (datum_of value.now) →
        IsText (written (datum_of value.now)) (datum_of value.now) }
{
    let len = out.len();
    match push_value(value, out) {
        Ok(()) => Ok(()),
        Err(want) => {
            out.truncate(len);
            Err(want)
        }
    }
}

/// Adds an event in its one spelling, which is that of its fields. For want of memory `out` is as before.
pub fn write(event: &Event, out: &mut Bytes) -> Result<(), WantOfMemory>
    ensures ok { OnOk result (out.new ≡ out.old ++ written (Fields (named_of event.now.fields))) }
    ensures err { OnErr result (out.new ≡ out.old) }
{
    let len = out.len();
    match push_fields(event.fields.as_slice(), out) {
        Ok(()) => Ok(()),
        Err(want) => {
            out.truncate(len);
            Err(want)
        }
    }
}
