ghost use Rattle.std.specs.Prelude.{◌≡◌, ◌++◌, ◌∷◌, [], OnOk, OnErr, codes};
ghost use Rattle.std.specs.Option.{option_map, option_copied};
ghost use Rattle.vx_value.specs.Events.{value_under};
ghost use Rattle.vx_value.specs.Values.{datum_of};
ghost use Rattle.vx_json.specs.Encoding.{message_text, encoded_event};

use crate::writer::{write, write_value};
use vx_codec::Codec;
use vx_value::{Bytes, Event, Value, WantOfMemory};

/// Adds what a line of text has of a value.
fn push_message(message: Option<&Value>, out: &mut Bytes) -> Result<(), WantOfMemory>
    ensures ok { OnOk result
        (out.new ≡ out.old ++ message_text (option_map datum_of (option_copied message.entry))) }
    ensures err { OnErr result (out.new ≡ out.old) }
{
    match message {
        None => Ok(()),
        Some(Value::Words(text)) => out.push_slice(text.as_str().as_bytes()),
        Some(value) => write_value(value, out),
    }
}

/// Adds what an event is under a codec, without its line feed.
fn push_event(codec: Codec, event: &Event, out: &mut Bytes) -> Result<(), WantOfMemory>
    ensures ok { OnOk result
        (out.new ++ 10 ∷ [] ≡ out.old ++ encoded_event codec event.now.fields) }
    ensures err { OnErr result (out.new ≡ out.old) }
{
    match codec {
        Codec::Json => write(event, out),
        Codec::Text => push_message(event.fields.find("message"), out),
    }
}

/// Adds an event as a sink writes it under a codec. For want of memory `out` is as before.
///
/// Under `Json` it is the event in its one spelling and a line feed. Under `Text` it is the value of the field `message`
/// and a line feed: a text as its bytes, another kind as its JSON text, and nothing where the field is missing.
pub fn encode_event(codec: Codec, event: &Event, out: &mut Bytes) -> Result<(), WantOfMemory>
    ensures ok { OnOk result (out.new ≡ out.old ++ encoded_event codec event.now.fields) }
    ensures err { OnErr result (out.new ≡ out.old) }
{
    let len = out.len();
    push_event(codec, event, out)?;
    match out.push_slice(b"\n") {
        Ok(()) => Ok(()),
        Err(want) => {
            out.truncate(len);
            Err(want)
        }
    }
}
