ghost use Rattle.std.specs.Prelude.{◌≡◌, ◌≢◌, ◌≤◌, List, IfOk, IfErr};
ghost use Rattle.vx_value.specs.Values.{datum_of};
ghost use Rattle.vx_value.specs.Datum.{NamedDatum, Fields, named_of};
ghost use Rattle.vx_value.specs.Events.{fields_depth};
ghost use Rattle.vx_json.specs.Machine.{height};
ghost use Rattle.vx_json.specs.ModeViews.{mode_view, stack_view};
ghost use Rattle.vx_json.specs.Faults.{IsEvent, IsFault, IsValue, IsTextFault, IsNoObject, GivesFields};
ghost use Rattle.vx_json.specs.Objects.{object_of};
ghost use Rattle.vx_json.specs.Writable.{IsWritable};
ghost use Rattle.vx_json.specs.Written.{written};

use crate::frame::Frame;
use crate::json_fault::JsonFault;
use crate::mode::Mode;
use crate::walk::DEEPEST;
use std::alloc::Global;
use vx_value::{Event, Value, WantOfMemory};

/// How many levels are open at a place.
#[tactic(auto, using(crate::proofs::StackRules::stacks))]
fn level(mode: &Mode, stack: &Vec<Frame>) -> usize
    ensures { result ≡ height (mode_view mode.now) (stack_view stack.now.items) }
{
    match mode {
        Mode::FirstItem
        | Mode::FirstName
        | Mode::NextName(_)
        | Mode::InName(_, _, _)
        | Mode::Colon(_, _) => stack.len() + 1,
        _ => stack.len(),
    }
}

/// The event of a value that is an object.
fn event_of(value: Value) -> Result<Event, JsonFault>
    ensures ok { IfOk result (λ event. datum_of value ≡ Fields (named_of event.fields)) }
    ensures err { IfErr result
        (λ fault. (fault ≡ JsonFault.NotObject) × IsNoObject (datum_of value)) }
{
    match value {
        Value::Fields(fields) => Ok(Event { fields }),
        _ => Err(JsonFault::NotObject),
    }
}

/// The value of a JSON text, or why there is none.
fn value(alloc: Global, bytes: &[u8]) -> Result<Value, JsonFault>
    ensures value { IfOk result (λ value. IsValue bytes.now (datum_of value)) }
    ensures fault { IfErr result (IsTextFault bytes.now) }
{
    let mut stack = Vec::new(alloc);
    let mut mode = Mode::Before;
    let mut i = mode.walk(&mut stack, alloc, bytes)?;
    while i < bytes.len() {
        match mode.step(alloc, &mut stack, bytes[i]) {
            Ok(Some(next)) => mode = next,
            Ok(None) => return Err(JsonFault::NotJson { at: i as u64 }),
            Err(_) => return Err(JsonFault::WantOfMemory),
        }
        if level(&mode, &stack) > DEEPEST {
            return Err(JsonFault::Deep { at: i as u64 });
        }
        i += 1;
        i += mode.walk(&mut stack, alloc, &bytes[i..])?;
    }
    let at = bytes.len() as u64;
    if !stack.is_empty() {
        return Err(JsonFault::NotJson { at });
    }
    match mode.finish(alloc)? {
        Some(value) => Ok(value),
        None => Err(JsonFault::NotJson { at }),
    }
}

/// The event of a JSON text, or why there is none.
fn event(alloc: Global, bytes: &[u8]) -> Result<Event, JsonFault>
    ensures event { IfOk result (λ event. IsEvent bytes.now event.fields) }
    ensures fault { IfErr result (IsFault bytes.now) }
{
    let value = value(alloc, bytes)?;
    match event_of(value) {
        Ok(event) => Ok(event),
        Err(fault) => Err(fault),
    }
}

/// The event of a JSON text, which is one object with blanks around it. Of equal names the last counts. A number is
/// whole exactly where its spelling is the one in which a whole number of 64 bits is written, and else keeps its
/// spelling.
///
/// `NotJson` comes exactly where no JSON text in UTF-8 has these bytes, and at most 32 levels are open up to the fault;
/// `at` says with how many of its first bytes some text begins. `Deep` comes exactly where the byte at `at` opens the
/// first level 33, and a JSON text may begin so. `NotObject` comes exactly where the text is another value with at most
/// 32 levels. `WantOfMemory` may come at any bytes.
pub fn read(alloc: Global, bytes: &[u8]) -> Result<Event, JsonFault>
    ensures event { IfOk result (λ event. IsEvent bytes.now event.fields) }
    ensures fault { IfErr result (IsFault bytes.now) }
    // What was written is read again, but for want of memory.
    ensures written { (fields : List NamedDatum) → IsWritable (Fields (named_of fields)) →
        fields_depth fields ≤ 32 → bytes.now ≡ written (Fields (named_of fields)) →
        GivesFields fields result }
    // The answer as a function of the bytes.
    ensures object { IfOk result (λ event. object_of bytes.now ≡ Some event.fields) }
    ensures no_object { IfErr result
        (λ fault. fault ≢ JsonFault.WantOfMemory → object_of bytes.now ≡ None) }
{
    event(alloc, bytes)
}
