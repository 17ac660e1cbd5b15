ghost use Rattle.std.specs.Prelude.{◌≡◌, ◌≤◌, ◌∷◌, [], ℕ, None, List, length, take, IsTrue, IfOk};
ghost use Rattle.vx_value.specs.Values.{datum_of};
ghost use Rattle.vx_json.specs.Machine as machine;
ghost use Rattle.vx_json.specs.Machine.{height};
ghost use Rattle.vx_json.specs.ModeViews.{mode_view, stack_view};
ghost use Rattle.vx_json.specs.Runs.{LeadsLevel};
ghost use Rattle.vx_json.specs.Walks.{LeadsLow, LeadsOn, EndsInnermost, held_view};

use crate::frame::Frame;
use crate::leaf::{leaf, number};
use crate::mode::Mode;
use crate::object_builder::ObjectBuilder;
use crate::plain::named;
use std::alloc::Global;
use std::mem;
use vx_value::{Value, WantOfMemory};

/// How many levels of brackets and braces may be open at once.
pub const DEEPEST: usize = 32;

/// How many bytes at the front were read.
type Count = Result<usize, WantOfMemory>;

/// Where a reader stands then, and how many bytes at the front were read.
type Reached = Result<(Mode, usize), WantOfMemory>;

/// Opens an object at the front whose first name with its colon comes at once, and answers how many bytes these are. 0 where
/// none does, or too many levels would be open.
fn opened(stack: &mut Vec<Frame>, alloc: Global, bytes: &[u8]) -> Count
    ensures within { IfOk result (λ n. n ≤ length bytes.now) }
    ensures leads { IfOk result (λ n. LeadsLow machine.AtValue (stack_view stack.old.items)
        (take n bytes.now) machine.AtValue (stack_view stack.new.items)) }
{
    if bytes.is_empty() || bytes[0] != b'{' {
        return Ok(0);
    }
    if stack.len() >= DEEPEST {
        return Ok(0);
    }
    match named(alloc, &bytes[1..])? {
        Some((name, n)) => {
            stack.push(Frame::Fields(ObjectBuilder::new(alloc), name))?;
            Ok(n + 1)
        }
        None => Ok(0),
    }
}

/// Whether a byte ends the innermost of what is open.
fn ends(stack: &Vec<Frame>, b: u8) -> bool
    ensures { IsTrue result → EndsInnermost (stack_view stack.now.items) b }
{
    match stack.last() {
        Some(frame) => frame.end_byte() == b,
        None => false,
    }
}

/// Ends the innermost of what is open behind a value, and answers its value.
fn ended(stack: &mut Vec<Frame>, alloc: Global, value: Value) -> Result<Value, WantOfMemory>
    ensures { IfOk result (λ whole. (b : ℕ) → EndsInnermost (stack_view stack.old.items) b →
        height (machine.AtEnd (datum_of value)) (stack_view stack.old.items) ≤ 32 →
        LeadsLow (machine.AtEnd (datum_of value)) (stack_view stack.old.items) (b ∷ [])
        (machine.AtEnd (datum_of whole)) (stack_view stack.new.items)) }
{
    match stack.pop() {
        Some(frame) => frame.closed(alloc, value),
        None => Ok(value),
    }
}

/// Ends the innermost of what is open behind a value, whose place its own value takes.
fn end(stack: &mut Vec<Frame>, alloc: Global, held: &mut Option<Value>) -> Count
    ensures few { IfOk result (λ n. n ≤ 1) }
    ensures leads { IfOk result (λ n. (b : ℕ) (w : List ℕ) →
        EndsInnermost (stack_view stack.old.items) b →
        LeadsOn (held_view held.old) (stack_view stack.old.items) (take n (b ∷ w))
        held.new (stack_view stack.new.items)) }
{
    match held.take() {
        Some(value) => {
            let whole = ended(stack, alloc, value)?;
            *held = Some(whole);
            Ok(1)
        }
        None => Ok(0),
    }
}

/// Goes on behind a value up to the next one, or up to the end of what is open around it, whose value then is the one that
/// is held. Answers how many bytes that takes.
fn followed(stack: &mut Vec<Frame>, alloc: Global, held: &mut Option<Value>, bytes: &[u8]) -> Count
    ensures within { IfOk result (λ n. n ≤ length bytes.now) }
    ensures leads { IfOk result (λ n. LeadsOn (held_view held.old)
        (stack_view stack.old.items) (take n bytes.now) held.new (stack_view stack.new.items)) }
{
    if bytes.is_empty() {
        return Ok(0);
    }
    if ends(stack, bytes[0]) {
        return end(stack, alloc, held);
    }
    match stack.last_mut() {
        Some(frame) => frame.next(alloc, held, bytes),
        None => Ok(0),
    }
}

/// Reads a number at the front and what follows it, as `followed` does.
fn numbered(stack: &mut Vec<Frame>, alloc: Global, held: &mut Option<Value>, bytes: &[u8]) -> Count
    requires { held.old ≡ None }
    ensures within { IfOk result (λ n. n ≤ length bytes.now) }
    ensures leads { IfOk result (λ n. LeadsOn machine.AtValue
        (stack_view stack.old.items) (take n bytes.now) held.new (stack_view stack.new.items)) }
{
    let Some((value, n)) = number(alloc, bytes)? else {
        return Ok(0);
    };
    *held = Some(value);
    let more = followed(stack, alloc, held, &bytes[n..])?;
    if more == 0 {
        *held = None;
        return Ok(0);
    }
    Ok(n + more)
}

/// Goes on before a value: up to the first one in an object that opens, or behind it, which then is held. Answers how many
/// bytes that takes.
fn begun(stack: &mut Vec<Frame>, alloc: Global, held: &mut Option<Value>, bytes: &[u8]) -> Count
    requires { held.old ≡ None }
    ensures within { IfOk result (λ n. n ≤ length bytes.now) }
    ensures leads { IfOk result (λ n. LeadsOn machine.AtValue
        (stack_view stack.old.items) (take n bytes.now) held.new (stack_view stack.new.items)) }
{
    if !bytes.is_empty() && bytes[0] == b'{' {
        let n = opened(stack, alloc, bytes)?;
        return Ok(n);
    }
    match leaf(alloc, bytes)? {
        Some((value, n)) => {
            *held = Some(value);
            Ok(n)
        }
        None => numbered(stack, alloc, held, bytes),
    }
}

/// Goes on once, before a value as `begun` does, or behind one as `followed` does.
#[inline(always)]
fn advanced(stack: &mut Vec<Frame>, alloc: Global, held: &mut Option<Value>, bytes: &[u8]) -> Count
    ensures within { IfOk result (λ n. n ≤ length bytes.now) }
    ensures leads { IfOk result (λ n. LeadsOn (held_view held.old)
        (stack_view stack.old.items) (take n bytes.now) held.new (stack_view stack.new.items)) }
{
    match held {
        None => begun(stack, alloc, held, bytes),
        Some(_) => followed(stack, alloc, held, bytes),
    }
}

/// Goes on before a value or behind one as far as `advanced` does, and answers how many bytes that takes.
fn walked(stack: &mut Vec<Frame>, alloc: Global, held: &mut Option<Value>, bytes: &[u8]) -> Count
    ensures within { IfOk result (λ n. n ≤ length bytes.now) }
    ensures leads { IfOk result (λ n. LeadsOn (held_view held.old)
        (stack_view stack.old.items) (take n bytes.now) held.new (stack_view stack.new.items)) }
{
    let mut i: usize = 0;
    loop {
        let n = advanced(stack, alloc, held, &bytes[i..])?;
        i += n;
        if n == 0 {
            return Ok(i);
        }
    }
}

/// Reads on inside a text, a name, a number or a word, as `Mode::run` does.
fn ran(mode: Mode, alloc: Global, bytes: &[u8]) -> Reached
    ensures within { IfOk result (λ p. p.1 ≤ length bytes.now) }
    ensures leads { IfOk result (λ p. (st : List machine.Frame) →
        LeadsLevel (mode_view mode) st (take p.1 bytes.now) (mode_view p.0)) }
{
    let mut mode = mode;
    let n = mode.run(alloc, bytes)?;
    Ok((mode, n))
}

/// Where a reader stands that is behind a value, or before one.
fn standing(held: Option<Value>) -> Mode
    ensures { mode_view result ≡ held_view held }
{
    match held {
        Some(value) => Mode::Behind(value),
        None => Mode::Before,
    }
}

/// Walks on from before a value or behind one, and reads on from where that leads.
fn walked_on(stack: &mut Vec<Frame>, alloc: Global, held: Option<Value>, bytes: &[u8]) -> Reached
    ensures within { IfOk result (λ p. p.1 ≤ length bytes.now) }
    ensures leads { IfOk result (λ p. height (held_view held) (stack_view stack.old.items) ≤ 32 →
        LeadsLow (held_view held) (stack_view stack.old.items) (take p.1 bytes.now)
        (mode_view p.0) (stack_view stack.new.items)) }
{
    let mut held = held;
    let n = walked(stack, alloc, &mut held, bytes)?;
    let (mode, more) = ran(standing(held), alloc, &bytes[n..])?;
    Ok((mode, n + more))
}

/// Walks on as `walked_on` does where a reader stands before a value or behind one, and else reads on as `ran` does.
fn walked_from(mode: Mode, stack: &mut Vec<Frame>, alloc: Global, bytes: &[u8]) -> Reached
    ensures within { IfOk result (λ p. p.1 ≤ length bytes.now) }
    ensures leads { IfOk result (λ p. height (mode_view mode) (stack_view stack.old.items) ≤ 32 →
        LeadsLow (mode_view mode) (stack_view stack.old.items) (take p.1 bytes.now)
        (mode_view p.0) (stack_view stack.new.items)) }
{
    match mode {
        Mode::Before => walked_on(stack, alloc, None, bytes),
        Mode::Behind(value) => walked_on(stack, alloc, Some(value), bytes),
        other => ran(other, alloc, bytes),
    }
}

impl Mode {
    /// Whether a walk may lead on, by the first of some bytes. Where none does, a mode is best left where it is.
    fn may_walk(&self, bytes: &[u8]) -> bool {
        if bytes.is_empty() {
            return false;
        }
        match self {
            Mode::Before => bytes[0] > b' ',
            Mode::Behind(_) => bytes[0] == b',' || (bytes[0] == b'}' || bytes[0] == b']'),
            _ => false,
        }
    }

    /// Reads the bytes at the front that can be read at once: members of objects and items of arrays that have no blanks
    /// and no escapes, and what `run` reads. Answers how many they are.
    pub fn walk(&mut self, stack: &mut Vec<Frame>, alloc: Global, bytes: &[u8]) -> Count
        ensures within { IfOk result (λ n. n ≤ length bytes.now) }
        ensures leads { IfOk result (λ n. height (mode_view self.old) (stack_view stack.old.items) ≤ 32 →
            LeadsLow (mode_view self.old) (stack_view stack.old.items) (take n bytes.now)
            (mode_view self.new) (stack_view stack.new.items)) }
    {
        if !self.may_walk(bytes) {
            return self.run(alloc, bytes);
        }
        let mode = mem::replace(self, Mode::Before);
        let (next, n) = walked_from(mode, stack, alloc, bytes)?;
        *self = next;
        Ok(n)
    }
}
