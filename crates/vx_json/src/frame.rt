ghost use Rattle.std.specs.Prelude.{◌≡◌, ◌≤◌, ◌∷◌, List, length, take, IfOk};
ghost use Rattle.vx_value.specs.Values.{datum_of};
ghost use Rattle.vx_json.specs.Machine as machine;

use crate::object_builder::ObjectBuilder;
use crate::plain::named;
use std::alloc::Global;
use std::mem;
use vx_value::{Text, Value, ValueList, WantOfMemory};

/// What is open around a value.
#[derive(Drop)]
pub enum Frame {
    /// An array, with its values so far.
    Items(ValueList),
    /// An object, with its fields so far and the name whose value comes.
    Fields(ObjectBuilder, Text),
}

impl Frame {
    ghost use Rattle.vx_json.specs.ModeViews.{frame_view};
    ghost use Rattle.vx_json.specs.Walks.{LeadsOn, held_view, closed_datum, end_byte};

    /// The byte that ends it.
    pub fn end_byte(&self) -> u8
        ensures { result ≡ end_byte (frame_view self.now) }
    {
        match self {
            Frame::Items(_) => b']',
            Frame::Fields(_, _) => b'}',
        }
    }

    /// The value of an array or an object that ends behind its last value.
    pub fn closed(self, alloc: Global, value: Value) -> Result<Value, WantOfMemory>
        ensures { IfOk result
            (λ whole. datum_of whole ≡ closed_datum (frame_view self) (datum_of value)) }
    {
        match self {
            Frame::Items(items) => {
                let mut items = items;
                match items.push(value) {
                    Ok(()) => Ok(Value::Items(items)),
                    Err(_) => Err(WantOfMemory),
                }
            }
            Frame::Fields(fields, name) => {
                let mut fields = fields;
                fields.put(alloc, name, value)?;
                let fields = fields.finish(alloc)?;
                Ok(Value::Fields(fields))
            }
        }
    }

    /// Goes on behind a value by the comma at the front and, in an object, the next name with its colon, and answers how
    /// many bytes these are. The value stays, and nothing changes, where they don't come.
    pub fn next(
        &mut self,
        alloc: Global,
        held: &mut Option<Value>,
        bytes: &[u8],
    ) -> Result<usize, WantOfMemory>
        ensures within { IfOk result (λ n. n ≤ length bytes.now) }
        ensures leads { IfOk result (λ n. (st : List machine.Frame) →
            LeadsOn (held_view held.old) (frame_view self.old ∷ st) (take n bytes.now)
            held.new (frame_view self.new ∷ st)) }
    {
        if bytes.is_empty() || bytes[0] != b',' {
            return Ok(0);
        }
        match self {
            Frame::Items(items) => match held.take() {
                Some(value) => match items.push(value) {
                    Ok(()) => Ok(1),
                    Err(_) => Err(WantOfMemory),
                },
                None => Ok(0),
            },
            Frame::Fields(fields, name) => {
                let Some((next, n)) = named(alloc, &bytes[1..])? else {
                    return Ok(0);
                };
                let Some(value) = held.take() else {
                    return Ok(0);
                };
                let name = mem::replace(name, next);
                fields.put(alloc, name, value)?;
                Ok(n + 1)
            }
        }
    }
}
