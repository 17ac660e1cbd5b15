ghost use Rattle.std.specs.Prelude.{◌≡◌, ℕ, List, ◌++◌, ◌∷◌, [], map, length, IfOk, OnOk, IsTrue, Some, None, option_map};
ghost use Rattle.vx_value.specs.Values.{datum_of};
ghost use Rattle.vx_value.specs.Datum.{data_of, named_of};
ghost use Rattle.vx_value.specs.Events.{with_field};
ghost use Rattle.vx_json.specs.Grammar.{is_blank};
ghost use Rattle.vx_json.specs.Machine as machine;
ghost use Rattle.vx_json.specs.Machine.{step, finish, begin_move, end_move, after_move, name_move, words_move, digits_move, word_move, state, AtEnd, AtFirstItem};
ghost use Rattle.vx_json.specs.MoveViews.{move_view, move_bytes, move_place, move_ends};
ghost use Rattle.vx_json.specs.ModeViews.{mode_view, stack_view, state_view};
ghost use Rattle.vx_json.specs.WordViews.{word_rest, word_datum};

use crate::frame::Frame;
use crate::mode::Mode;
use crate::number_move::{may_end, number_move, number_value};
use crate::number_place::NumberPlace;
use crate::object_builder::ObjectBuilder;
use crate::text_move::TextMove;
use crate::text_place::TextPlace;
use crate::word_place::WordPlace;
use std::alloc::Global;
use vx_value::{FieldList, Text, Value, ValueList, WantOfMemory};

/// Where a byte leads. `None` where it may not stand there.
type Stepped = Result<Option<Mode>, WantOfMemory>;

/// Whether a byte is a blank.
pub fn is_blank(b: u8) -> bool
    ensures { result ≡ is_blank b }
{
    b == b' ' || (b == b'\t' || (b == b'\n' || b == b'\r'))
}

/// Where a byte leads that begins a number.
fn begin_number(alloc: Global, b: u8, place: NumberPlace) -> Stepped
    ensures { IfOk result (λ next. (st : List machine.Frame) →
        state_view next st ≡ state (machine.InNumber place (b ∷ [])) st) }
{
    let mut text = Vec::new(alloc);
    text.push(b)?;
    Ok(Some(Mode::InNumber(place, text)))
}

/// Where a byte leads that begins a value.
#[inline(always)]
fn begin(alloc: Global, b: u8) -> Stepped
    ensures { IfOk result
        (λ next. (st : List machine.Frame) → state_view next st ≡ begin_move st b) }
{
    match b {
        b'"' => Ok(Some(Mode::InText(TextPlace::Plain, Vec::new(alloc)))),
        b'-' => begin_number(alloc, b, NumberPlace::Minus),
        b'0' => begin_number(alloc, b, NumberPlace::Zero),
        b'1'..=b'9' => begin_number(alloc, b, NumberPlace::Whole),
        b'[' => Ok(Some(Mode::FirstItem)),
        b'{' => Ok(Some(Mode::FirstName)),
        b'n' => Ok(Some(Mode::InWord(WordPlace::N))),
        b't' => Ok(Some(Mode::InWord(WordPlace::T))),
        b'f' => Ok(Some(Mode::InWord(WordPlace::F))),
        _ => Ok(None),
    }
}

/// Where a byte leads behind a bracket that opens an array.
#[tactic(auto, using(crate::proofs::StackRules::stacks))]
fn first_item(alloc: Global, stack: &mut Vec<Frame>, b: u8) -> Stepped
    ensures { IfOk result
        (λ next. state_view next (stack_view stack.new.items)
        ≡ step machine.AtFirstItem (stack_view stack.old.items) b) }
{
    if is_blank(b) {
        return Ok(Some(Mode::FirstItem));
    }
    if b == b']' {
        return Ok(Some(Mode::Behind(Value::Items(ValueList::new(alloc)))));
    }
    stack.push(Frame::Items(ValueList::new(alloc)))?;
    begin(alloc, b)
}

/// Where a byte leads behind a brace that opens an object.
fn first_name(alloc: Global, b: u8) -> Option<Mode>
    ensures { (st : List machine.Frame) → state_view result st ≡ step machine.AtFirstName st b }
{
    if is_blank(b) {
        return Some(Mode::FirstName);
    }
    match b {
        b'}' => Some(Mode::Behind(Value::Fields(FieldList::new(alloc)))),
        b'"' => Some(Mode::InName(ObjectBuilder::new(alloc), TextPlace::Plain, Vec::new(alloc))),
        _ => None,
    }
}

/// Where a byte leads behind a comma of an object.
fn next_name(alloc: Global, fields: ObjectBuilder, b: u8) -> Option<Mode>
    ensures { (st : List machine.Frame) → state_view result st ≡ step (machine.AtName fields) st b }
{
    if is_blank(b) {
        return Some(Mode::NextName(fields));
    }
    if b == b'"' {
        return Some(Mode::InName(fields, TextPlace::Plain, Vec::new(alloc)));
    }
    None
}

/// Where a byte leads behind a name.
#[tactic(auto, using(crate::proofs::StackRules::stacks))]
fn colon(fields: ObjectBuilder, name: Text, stack: &mut Vec<Frame>, b: u8) -> Stepped
    ensures { IfOk result
        (λ next. state_view next (stack_view stack.new.items)
        ≡ step (machine.AtColon fields name) (stack_view stack.old.items) b) }
{
    if is_blank(b) {
        return Ok(Some(Mode::Colon(fields, name)));
    }
    if b != b':' {
        return Ok(None);
    }
    stack.push(Frame::Fields(fields, name))?;
    Ok(Some(Mode::Before))
}

/// Where a byte leads inside a word.
fn in_word(word: WordPlace, b: u8) -> Option<Mode>
    ensures { (st : List machine.Frame) →
        state_view result st ≡ step (machine.InWord (word_rest word) (word_datum word)) st b }
{
    if b != word.expected() {
        return None;
    }
    Some(match word {
        WordPlace::N => Mode::InWord(WordPlace::Nu),
        WordPlace::Nu => Mode::InWord(WordPlace::Nul),
        WordPlace::Nul => Mode::Behind(Value::Null),
        WordPlace::T => Mode::InWord(WordPlace::Tr),
        WordPlace::Tr => Mode::InWord(WordPlace::Tru),
        WordPlace::Tru => Mode::Behind(Value::Truth(true)),
        WordPlace::F => Mode::InWord(WordPlace::Fa),
        WordPlace::Fa => Mode::InWord(WordPlace::Fal),
        WordPlace::Fal => Mode::InWord(WordPlace::Fals),
        WordPlace::Fals => Mode::Behind(Value::Truth(false)),
    })
}

/// Adds what a byte means to the bytes of a text.
fn add(b: u8, step: TextMove, text: &mut Vec<u8>) -> Result<(), WantOfMemory>
    ensures { OnOk result (text.new.items ≡ text.old.items ++ move_bytes (move_view step b)) }
{
    match step {
        TextMove::Adds(_) => text.push(b)?,
        TextMove::Means(c) => text.push(c)?,
        TextMove::Codes(c) => {
            let mut buffer = [0u8; 4];
            text.extend_from_slice(c.encode_utf8(&mut buffer).as_bytes())?;
        }
        _ => {}
    }
    Ok(())
}

/// The place to which a byte leads inside a text. `None` where it ends the text or is wrong.
pub fn place_of(step: TextMove) -> Option<TextPlace>
    ensures { (b : ℕ) → result ≡ move_place (move_view step b) }
{
    match step {
        TextMove::Skips(place) | TextMove::Adds(place) => Some(place),
        TextMove::Means(_) | TextMove::Codes(_) => Some(TextPlace::Plain),
        _ => None,
    }
}

/// Whether a byte ends a text.
pub fn ends(step: TextMove) -> bool
    ensures { (b : ℕ) → result ≡ move_ends (move_view step b) }
{
    match step {
        TextMove::Ends => true,
        _ => false,
    }
}

/// Where a byte leads inside a text.
fn in_text(alloc: Global, place: TextPlace, text: Vec<u8>, b: u8) -> Stepped
    ensures { IfOk result (λ next. (st : List machine.Frame) →
        state_view next st ≡ step (machine.InText place text.items) st b) }
{
    let mut text = text;
    let step = TextMove::of(place, b);
    if ends(step) {
        let words = Text::lossy(alloc, text.as_slice())?;
        return Ok(Some(Mode::Behind(Value::Words(words))));
    }
    add(b, step, &mut text)?;
    match place_of(step) {
        Some(next) => Ok(Some(Mode::InText(next, text))),
        None => Ok(None),
    }
}

/// Where a byte leads inside a name.
fn in_name(alloc: Global, fields: ObjectBuilder, place: TextPlace, text: Vec<u8>, b: u8) -> Stepped
    ensures { IfOk result (λ next. (st : List machine.Frame) →
        state_view next st ≡ step (machine.InName fields place text.items) st b) }
{
    let mut text = text;
    let step = TextMove::of(place, b);
    if ends(step) {
        let name = Text::lossy(alloc, text.as_slice())?;
        return Ok(Some(Mode::Colon(fields, name)));
    }
    add(b, step, &mut text)?;
    match place_of(step) {
        Some(next) => Ok(Some(Mode::InName(fields, next, text))),
        None => Ok(None),
    }
}

/// Where a byte leads behind a value of an array.
#[tactic(auto, using(crate::proofs::StackRules::stacks))]
#[inline(always)]
fn behind_item(items: ValueList, value: Value, stack: &mut Vec<Frame>, b: u8) -> Stepped
    ensures { IfOk result (λ next. state_view next (stack_view stack.new.items)
        ≡ end_move (datum_of value) (machine.InItems items ∷ stack_view stack.old.items) b) }
{
    let mut items = items;
    match items.push(value) {
        Ok(()) => {}
        Err(_) => return Err(WantOfMemory),
    }
    match b {
        b',' => {
            stack.push(Frame::Items(items))?;
            Ok(Some(Mode::Before))
        }
        b']' => Ok(Some(Mode::Behind(Value::Items(items)))),
        _ => Ok(None),
    }
}

/// Where a byte leads behind a value of an object.
#[inline(always)]
fn behind_field(alloc: Global, fields: ObjectBuilder, name: Text, value: Value, b: u8) -> Stepped
    ensures { IfOk result (λ next. (st : List machine.Frame) →
        state_view next st ≡ end_move (datum_of value) (machine.InFields fields name ∷ st) b) }
{
    let mut fields = fields;
    fields.put(alloc, name, value)?;
    match b {
        b',' => Ok(Some(Mode::NextName(fields))),
        b'}' => {
            let fields = fields.finish(alloc)?;
            Ok(Some(Mode::Behind(Value::Fields(fields))))
        }
        _ => Ok(None),
    }
}

/// Where a byte that is no blank leads behind a value.
#[tactic(auto, using(crate::proofs::StackRules::stacks))]
#[inline(always)]
fn end(alloc: Global, value: Value, stack: &mut Vec<Frame>, b: u8) -> Stepped
    ensures { IfOk result (λ next. state_view next (stack_view stack.new.items)
        ≡ end_move (datum_of value) (stack_view stack.old.items) b) }
{
    match stack.pop() {
        None => Ok(None),
        Some(Frame::Items(items)) => behind_item(items, value, stack, b),
        Some(Frame::Fields(fields, name)) => behind_field(alloc, fields, name, value, b),
    }
}

/// Where a byte leads behind a value.
#[inline(always)]
fn behind(alloc: Global, value: Value, stack: &mut Vec<Frame>, b: u8) -> Stepped
    ensures { IfOk result (λ next. state_view next (stack_view stack.new.items)
        ≡ after_move (datum_of value) (stack_view stack.old.items) b) }
{
    if is_blank(b) {
        return Ok(Some(Mode::Behind(value)));
    }
    end(alloc, value, stack, b)
}

/// Where a byte leads inside a number, or behind it.
fn in_number(
    alloc: Global,
    place: NumberPlace,
    text: Vec<u8>,
    stack: &mut Vec<Frame>,
    b: u8,
) -> Stepped
    ensures { IfOk result (λ next. state_view next (stack_view stack.new.items)
        ≡ step (machine.InNumber place text.items) (stack_view stack.old.items) b) }
{
    if let Some(next) = number_move(place, b) {
        let mut text = text;
        text.push(b)?;
        return Ok(Some(Mode::InNumber(next, text)));
    }
    if !may_end(place) {
        return Ok(None);
    }
    let value = number_value(alloc, text.as_slice())?;
    behind(alloc, value, stack, b)
}

impl Mode {
    /// Where a byte leads, and what is open then. `None` exactly where no JSON text goes on so.
    pub fn step(self, alloc: Global, stack: &mut Vec<Frame>, b: u8) -> Stepped
        ensures { IfOk result (λ next. state_view next (stack_view stack.new.items)
            ≡ step (mode_view self) (stack_view stack.old.items) b) }
    {
        match self {
            Mode::Before => {
                if is_blank(b) {
                    return Ok(Some(Mode::Before));
                }
                begin(alloc, b)
            }
            Mode::FirstItem => first_item(alloc, stack, b),
            Mode::FirstName => Ok(first_name(alloc, b)),
            Mode::NextName(fields) => Ok(next_name(alloc, fields, b)),
            Mode::InName(fields, place, text) => in_name(alloc, fields, place, text, b),
            Mode::Colon(fields, name) => colon(fields, name, stack, b),
            Mode::Behind(value) => behind(alloc, value, stack, b),
            Mode::InWord(word) => Ok(in_word(word, b)),
            Mode::InNumber(place, text) => in_number(alloc, place, text, stack, b),
            Mode::InText(place, text) => in_text(alloc, place, text, b),
        }
    }

    /// The value of a text that ends here with nothing open. `None` where no JSON text ends here.
    pub fn finish(self, alloc: Global) -> Result<Option<Value>, WantOfMemory>
        ensures { IfOk result (λ value. option_map datum_of value ≡ finish (mode_view self) []) }
    {
        match self {
            Mode::Behind(value) => Ok(Some(value)),
            Mode::InNumber(place, text) if may_end(place) => Ok(Some(number_value(
                alloc,
                text.as_slice(),
            )?)),
            _ => Ok(None),
        }
    }
}
