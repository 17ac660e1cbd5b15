ghost use Rattle.std.specs.Prelude.{◌≡◌, [], ◌∷◌, codes, OnOk, IfOk, IsTrue};
ghost use Rattle.std.specs.Option.{option_copied};
ghost use Rattle.vx_value.specs.Datum.{Words};
ghost use Rattle.vx_value.specs.Events.{names_rise, last_below};
ghost use Rattle.vx_json.specs.Objects.{object_of};
ghost use Rattle.vx_json.specs.LineEvents.{with_text, from_source, content_of, line_fields, event_fields};

use crate::json_fault::JsonFault;
use crate::put_field::{last_order, put_field};
use crate::reader::read;
use std::alloc::Global;
use vx_codec::Decoding;
use vx_value::{Bytes, Event, Field, FieldList, Text, Value, WantOfMemory};

/// So many fields the event of a line as text has, where its source reads no file.
const FEW: usize = 2;

/// The event of a line as text: its message.
fn message(alloc: Global, text: Text) -> Result<Event, WantOfMemory>
    ensures { IfOk result
        (λ event. event.fields ≡ record { name = codes "message"; value = Words text } ∷ []) }
{
    let mut fields = FieldList::with_room(alloc, FEW)?;
    let name = Text::copy_of(alloc, "message")?;
    put_field(&mut fields, name, Value::Words(text))?;
    Ok(Event { fields })
}

/// The event of a line that is an object, if it is one.
fn object(alloc: Global, line: &[u8]) -> Result<Option<Event>, WantOfMemory>
    ensures { IfOk result (λ event. event_fields event ≡ object_of line.now) }
{
    match read(alloc, line) {
        Ok(event) => Ok(Some(event)),
        Err(JsonFault::WantOfMemory) => Err(WantOfMemory),
        Err(_) => Ok(None),
    }
}

/// The event that a line gives by itself, if it gives one. A line that is UTF-8 becomes the message without a copy.
fn content(alloc: Global, decoding: Decoding, line: Bytes) -> Result<Option<Event>, WantOfMemory>
    ensures { IfOk result (λ event. event_fields event ≡ content_of decoding line) }
{
    match decoding {
        Decoding::Bytes => {
            let text = Text::from_bytes(alloc, line)?;
            Ok(Some(message(alloc, text)?))
        }
        Decoding::Json => object(alloc, line.as_slice()),
    }
}

/// Puts a text under a name, unless something stands there.
fn add_text(alloc: Global, event: &mut Event, name: &str, text: &Text) -> Result<(), WantOfMemory>
    ensures { OnOk result (event.new.fields ≡ with_text event.old.fields name.now text.now) }
{
    if last_order(&event.fields, name).is_lt() {
        return append_text(alloc, &mut event.fields, name, text);
    }
    if event.fields.find(name).is_some() {
        return Ok(());
    }
    let name = Text::copy_of(alloc, name)?;
    let text = text.copy(alloc)?;
    put_field(&mut event.fields, name, Value::Words(text))
}

/// Puts a text under a name that comes behind all others, so that nothing stands there.
fn append_text(
    alloc: Global,
    fields: &mut FieldList,
    name: &str,
    text: &Text,
) -> Result<(), WantOfMemory>
    requires rising { IsTrue (names_rise fields.old) }
    requires behind { IsTrue (last_below fields.old name.now) }
    ensures { OnOk result (fields.new ≡ with_text fields.old name.now text.now) }
{
    let name = Text::copy_of(alloc, name)?;
    let text = text.copy(alloc)?;
    match fields.push(Field {
        name,
        value: Value::Words(text),
    }) {
        Ok(()) => Ok(()),
        Err(_) => Err(WantOfMemory),
    }
}

/// Puts the type of the source into an event, and the path of its file if it reads one.
fn add_source(
    alloc: Global,
    event: &mut Event,
    source_type: &Text,
    file: Option<&Text>,
) -> Result<(), WantOfMemory>
    ensures { OnOk result (event.new.fields
        ≡ from_source source_type.now (option_copied file.entry) event.old.fields) }
{
    add_text(alloc, event, "source_type", source_type)?;
    match file {
        None => Ok(()),
        Some(path) => add_text(alloc, event, "file", path),
    }
}

/// The event of a line under a codec, if the line gives one.
///
/// Under `Bytes` the line is the message. Under `Json` the event is the object that the line is, and a line that is
/// empty or no object gives none. The event has the type of its source under `source_type`, and where the source reads
/// a file that file's path under `file`, but for what stands there already.
pub fn line_event(
    alloc: Global,
    decoding: Decoding,
    line: &[u8],
    source_type: &Text,
    file: Option<&Text>,
) -> Result<Option<Event>, WantOfMemory>
    ensures { IfOk result (λ event. event_fields event
        ≡ line_fields decoding source_type.now (option_copied file.entry) line.now) }
{
    let line = Bytes::copy_of(alloc, line)?;
    line_into_event(alloc, decoding, line, source_type, file)
}

/// The event that `line_event` gives of a line. Under `Bytes` a line that is UTF-8 becomes the message without a copy.
pub fn line_into_event(
    alloc: Global,
    decoding: Decoding,
    line: Bytes,
    source_type: &Text,
    file: Option<&Text>,
) -> Result<Option<Event>, WantOfMemory>
    ensures { IfOk result (λ event. event_fields event
        ≡ line_fields decoding source_type.now (option_copied file.entry) line) }
{
    let Some(mut event) = content(alloc, decoding, line)? else {
        return Ok(None);
    };
    add_source(alloc, &mut event, source_type, file)?;
    Ok(Some(event))
}
