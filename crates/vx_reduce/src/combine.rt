// What two values of one field give.
ghost use Rattle.std.specs.Prelude.{◌≡◌, ℤ, List, ℕ, [], ◌∷◌, ◌++◌, IfOk, IfSome, IfNone, Option};
ghost use Rattle.vx_value.specs.Datum.{Whole, Words, Items, data_of};
ghost use Rattle.vx_value.specs.Values.{datum_of};
ghost use Rattle.vx_condition.specs.Merging.{of_wholes, of_texts, listed, with_item, combined, begun};

use std::alloc::Global;
use vx_condition::How;
use vx_value::{Text, Value, ValueList, WantOfMemory};

// Two whole numbers.
#[derive(Clone, Copy)]
struct Wholes {
    so_far: i64,
    comes: i64,
}

// Two texts.
#[derive(Clone, Copy)]
struct Texts<'a> {
    so_far: &'a Text,
    comes: &'a Text,
}

// The numbers that two values are, if both are whole ones.
fn as_wholes(so_far: &Value, comes: &Value) -> Option<Wholes>
    ensures some { IfSome result
        (λ both. (datum_of so_far.now ≡ Whole both.so_far)
        × (datum_of comes.now ≡ Whole both.comes)) }
    ensures none { IfNone result
        ((f : ℤ → ℤ → ℤ) →
        of_wholes f (datum_of so_far.now) (datum_of comes.now) ≡ datum_of so_far.now) }
{
    match so_far {
        Value::Whole(so_far) => match comes {
            Value::Whole(comes) => Some(Wholes {
                so_far: *so_far,
                comes: *comes,
            }),
            _ => None,
        },
        _ => None,
    }
}

// The texts that two values are, if both are.
fn as_texts<'a>(so_far: &'a Value, comes: &'a Value) -> Option<Texts<'a>>
    ensures some { IfSome result
        (λ both. (datum_of so_far.now ≡ Words both.so_far.now)
        × (datum_of comes.now ≡ Words both.comes.now)) }
    ensures none { IfNone result
        ((between : List ℕ) →
        of_texts between (datum_of so_far.now) (datum_of comes.now) ≡ datum_of so_far.now) }
{
    match so_far {
        Value::Words(so_far) => match comes {
            Value::Words(comes) => Some(Texts { so_far, comes }),
            _ => None,
        },
        _ => None,
    }
}

// The sum of two whole numbers, and else the first value.
fn sum(alloc: Global, so_far: &Value, comes: &Value) -> Result<Value, WantOfMemory>
    ensures { IfOk result
        (λ value. datum_of value
        ≡ combined (Some How.Sum) (datum_of so_far.now) (datum_of comes.now)) }
{
    match as_wholes(so_far, comes) {
        Some(both) => Ok(Value::Whole(both.so_far.saturating_add(both.comes))),
        None => so_far.copy(alloc),
    }
}

// The greater of two whole numbers, and else the first value.
fn greater(alloc: Global, so_far: &Value, comes: &Value) -> Result<Value, WantOfMemory>
    ensures { IfOk result
        (λ value. datum_of value
        ≡ combined (Some How.Max) (datum_of so_far.now) (datum_of comes.now)) }
{
    match as_wholes(so_far, comes) {
        Some(both) => {
            if both.so_far < both.comes {
                Ok(Value::Whole(both.comes))
            } else {
                Ok(Value::Whole(both.so_far))
            }
        }
        None => so_far.copy(alloc),
    }
}

// The lesser of two whole numbers, and else the first value.
fn lesser(alloc: Global, so_far: &Value, comes: &Value) -> Result<Value, WantOfMemory>
    ensures { IfOk result
        (λ value. datum_of value
        ≡ combined (Some How.Min) (datum_of so_far.now) (datum_of comes.now)) }
{
    match as_wholes(so_far, comes) {
        Some(both) => {
            if both.comes < both.so_far {
                Ok(Value::Whole(both.comes))
            } else {
                Ok(Value::Whole(both.so_far))
            }
        }
        None => so_far.copy(alloc),
    }
}

// Three texts as one.
fn one_text(alloc: Global, first: &str, between: &str, last: &str) -> Result<Text, WantOfMemory>
    ensures { IfOk result (λ text. text ≡ first.now ++ (between.now ++ last.now)) }
{
    let mut text = String::from_str(alloc, first)?;
    text.push_str(between)?;
    text.push_str(last)?;
    Text::copy_of(alloc, text.as_str())
}

// Two texts with one between, and else the first value.
fn concatenated(
    alloc: Global,
    between: &str,
    so_far: &Value,
    comes: &Value,
) -> Result<Value, WantOfMemory>
    ensures { IfOk result
        (λ value. datum_of value
        ≡ of_texts between.now (datum_of so_far.now) (datum_of comes.now)) }
{
    match as_texts(so_far, comes) {
        Some(both) => {
            let text = one_text(alloc, both.so_far.as_str(), between, both.comes.as_str())?;
            Ok(Value::Words(text))
        }
        None => so_far.copy(alloc),
    }
}

// A value as it stands in a list.
fn as_item(alloc: Global, value: &Value) -> Result<Value, WantOfMemory>
    ensures { IfOk result (λ item. datum_of item ≡ listed (datum_of value.now)) }
{
    if value.fits(30) {
        value.copy(alloc)
    } else {
        Ok(Value::Null)
    }
}

// A list with a value more.
fn added(alloc: Global, items: ValueList, value: &Value) -> Result<ValueList, WantOfMemory>
    ensures { IfOk result (λ list. list ≡ items ++ listed (datum_of value.now) ∷ []) }
{
    let mut list = items;
    match list.push(as_item(alloc, value)?) {
        Ok(()) => Ok(list),
        Err(_) => Err(WantOfMemory),
    }
}

// A list with a value more, and else the first value.
fn appended(alloc: Global, so_far: &Value, comes: &Value) -> Result<Value, WantOfMemory>
    ensures { IfOk result
        (λ value. datum_of value ≡ with_item (datum_of so_far.now) (datum_of comes.now)) }
{
    match so_far {
        Value::Items(items) => Ok(Value::Items(added(alloc, items.copy(alloc)?, comes)?)),
        _ => so_far.copy(alloc),
    }
}

// What the value of a field that comes for the first time is kept as.
pub(crate) fn begun(alloc: Global, how: Option<How>, value: &Value) -> Result<Value, WantOfMemory>
    ensures { IfOk result (λ kept. datum_of kept ≡ begun how (datum_of value.now)) }
{
    match how {
        Some(How::Array) => Ok(Value::Items(added(alloc, ValueList::new(alloc), value)?)),
        _ => value.copy(alloc),
    }
}

// What the value that a field has so far and one that comes give.
pub(crate) fn combined(
    alloc: Global,
    how: Option<How>,
    so_far: &Value,
    comes: &Value,
) -> Result<Value, WantOfMemory>
    ensures { IfOk result
        (λ value. datum_of value ≡ combined how (datum_of so_far.now) (datum_of comes.now)) }
{
    match how {
        None => sum(alloc, so_far, comes),
        Some(how) => combined_by(alloc, how, so_far, comes),
    }
}

// The same by a strategy.
fn combined_by(
    alloc: Global,
    how: How,
    so_far: &Value,
    comes: &Value,
) -> Result<Value, WantOfMemory>
    ensures { IfOk result
        (λ value. datum_of value ≡ combined (Some how) (datum_of so_far.now) (datum_of comes.now)) }
{
    match how {
        How::Discard => so_far.copy(alloc),
        How::Retain => match comes {
            Value::Null => so_far.copy(alloc),
            _ => comes.copy(alloc),
        },
        How::Sum => sum(alloc, so_far, comes),
        How::Max => greater(alloc, so_far, comes),
        How::Min => lesser(alloc, so_far, comes),
        How::Concat => concatenated(alloc, " ", so_far, comes),
        How::ConcatNewline => concatenated(alloc, "\n", so_far, comes),
        How::ConcatRaw => concatenated(alloc, "", so_far, comes),
        How::Array => appended(alloc, so_far, comes),
    }
}
