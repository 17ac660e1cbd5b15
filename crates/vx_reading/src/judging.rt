ghost use Rattle.std.specs.Prelude.{◌≡◌, ◌≤◌, map, IfOk, IfSome};
ghost use Rattle.std.specs.Option.{option_map};
ghost use Rattle.std.specs.List.{list_any, list_all};
ghost use Rattle.toml.specs.View.{view, items_view};
ghost use Rattle.vx_value.specs.Texts.{same_text};
ghost use Rattle.vx_reading.specs.Judging.{fits, fits_list, fits_stages, stages_in, judged, items_in, is_truth, is_text, is_one_of, between, whole_in, row_at, is_vrl, names_vrl, has_text, is_line, is_file, is_single, is_one_file, is_fixed, is_path, is_item, is_list_of, bad_unless, too_many, judged_by};
ghost use Rattle.vx_reading.specs.Views.{shape_view, rows_view, row_view, place_view, given_view};

use crate::given::{Given, covers, fits_place, is_table};
use crate::item::Item;
use crate::place::Place;
use crate::row::Row;
use crate::shape::Shape;
use crate::texts::{is_pattern, is_template, is_unbroken, path_spelled, same_text};
use crate::trouble::Trouble;
use std::alloc::Global;
use std::slice;
use toml::Value;
use vx_value::WantOfMemory;

/// Whether a value is a truth.
fn is_truth(value: &Value) -> bool
    ensures { result ≡ is_truth (view value.now) }
{
    value.as_bool().is_some()
}

/// Whether a value is a text.
fn is_text(value: &Value) -> bool
    ensures { result ≡ is_text (view value.now) }
{
    value.as_str().is_some()
}

/// Whether a value is one of some texts.
fn is_one_of(texts: &[&str], value: &Value) -> bool
    ensures { result ≡ is_one_of (map (λ t. t.now) texts.now) (view value.now) }
{
    match value.as_str() {
        Some(text) => is_among(texts, text),
        None => false,
    }
}

/// Whether a text is one of some.
fn is_among(texts: &[&str], text: &str) -> bool
    ensures { result ≡ list_any (λ t. same_text t text.now) (map (λ t. t.now) texts.now) }
{
    for other in texts {
        if same_text(other, text) {
            return true;
        }
    }
    false
}

/// A whole number, where it is between two, both among them.
fn between(least: u64, most: u64, number: i64) -> Option<u64>
    ensures observed { result ≡ between least most number }
    ensures within { IfSome result (λ n. n ≤ most) }
{
    match u64::try_from(number) {
        Ok(number) if least <= number && number <= most => Some(number),
        _ => None,
    }
}

/// The whole number that a value is, where it is one between two.
pub(crate) fn whole_in(least: u64, most: u64, value: &Value) -> Option<u64>
    ensures observed { result ≡ whole_in least most (view value.now) }
    ensures within { IfSome result (λ n. n ≤ most) }
{
    match value.as_integer() {
        Some(number) => between(least, most, number),
        None => None,
    }
}

/// Whether a value is a table whose `type` is `vrl` and whose `source` is a text.
fn is_vrl(value: &Value) -> bool
    ensures { result ≡ is_vrl (view value.now) }
{
    has_vrl(value.get("type")) && has_text(value.get("source"))
}

/// Whether a value that may not be there is the text `vrl`.
fn has_vrl(value: Option<&Value>) -> bool
    ensures { result ≡ names_vrl (option_map (λ v. view v.now) value.entry) }
{
    match value {
        Some(value) => match value.as_str() {
            Some(text) => same_text(text, "vrl"),
            None => false,
        },
        None => false,
    }
}

/// Whether a value that may not be there is a text.
fn has_text(value: Option<&Value>) -> bool
    ensures { result ≡ has_text (option_map (λ v. view v.now) value.entry) }
{
    match value {
        Some(value) => is_text(value),
        None => false,
    }
}

/// The stages that a value gives: a table is one, and a list has one in each place.
pub(crate) fn stages_in(value: &Value) -> &[Value]
    ensures { items_in (items_view result.now) ≡ stages_in (view value.now) }
{
    match value.as_array() {
        Some(items) => items.as_slice(),
        None if is_table(value) => slice::from_ref(value),
        None => &[],
    }
}

/// Whether a value is a text without a line feed.
fn is_line(value: &Value) -> bool
    ensures { result ≡ is_line (view value.now) }
{
    match value.as_str() {
        Some(text) => is_unbroken(text),
        None => false,
    }
}

/// Whether a value is a text that is no pattern.
fn is_file(value: &Value) -> bool
    ensures { result ≡ is_file (view value.now) }
{
    match value.as_str() {
        Some(text) => !is_pattern(text),
        None => false,
    }
}

/// Whether there is one value, and that is such a text.
fn is_single(items: &[Value]) -> bool
    ensures { result ≡ is_single (items_in (items_view items.now)) }
{
    match items {
        [item] => is_file(item),
        [] | [_, _, ..] => false,
    }
}

/// Whether a value is a list of one such text.
fn is_one_file(value: &Value) -> bool
    ensures { result ≡ is_one_file (view value.now) }
{
    match value.as_array() {
        Some(items) => is_single(items.as_slice()),
        None => false,
    }
}

/// Whether a value is a text that is no template.
fn is_fixed(value: &Value) -> bool
    ensures { result ≡ is_fixed (view value.now) }
{
    match value.as_str() {
        Some(text) => !is_template(text),
        None => false,
    }
}

/// Whether a value is the text of a path.
fn is_path(alloc: Global, value: &Value) -> Result<bool, WantOfMemory>
    ensures { IfOk result (λ b. b ≡ is_path (view value.now)) }
{
    match value.as_str() {
        Some(text) => Ok(path_spelled(alloc, text)?.is_some()),
        None => Ok(false),
    }
}

/// Whether a value is what an item of a list has to be.
fn is_item(alloc: Global, item: Item, value: &Value) -> Result<bool, WantOfMemory>
    ensures { IfOk result (λ b. b ≡ is_item item (view value.now)) }
{
    match item {
        Item::Text => Ok(is_text(value)),
        Item::Table => Ok(is_table(value)),
        Item::Line => Ok(is_line(value)),
        Item::Path => is_path(alloc, value),
    }
}

/// Whether each of some values is.
fn are_items(alloc: Global, item: Item, values: &[Value]) -> Result<bool, WantOfMemory>
    ensures { IfOk result (λ b. b ≡ list_all (is_item item) (items_in (items_view values.now))) }
{
    for value in values {
        if !is_item(alloc, item, value)? {
            return Ok(false);
        }
    }
    Ok(true)
}

/// Whether a value is a list of such items, at least so many.
#[tactic(auto, using(crate::proofs::Lists::items_in_length))]
fn is_list_of(alloc: Global, item: Item, least: usize, value: &Value) -> Result<bool, WantOfMemory>
    ensures { IfOk result (λ b. b ≡ is_list_of item least (view value.now)) }
{
    match value.as_array() {
        Some(values) if least <= values.len() => are_items(alloc, item, values.as_slice()),
        _ => Ok(false),
    }
}

/// What is wrong with a value that isn't what it has to be.
pub(crate) fn bad_unless(right: bool) -> Option<Trouble>
    ensures { result ≡ bad_unless right }
{
    if right { None } else { Some(Trouble::BadValue) }
}

/// What is wrong with so many of something, of which there may be so many.
pub(crate) fn too_many(found: u64, limit: u64) -> Option<Trouble>
    ensures { result ≡ too_many found limit }
{
    if limit < found {
        Some(Trouble::TooMany { found, limit })
    } else {
        None
    }
}

/// What is wrong with the items of a list, of which there may be so many.
#[tactic(auto, using(crate::proofs::Lists::items_in_length))]
fn fits_list(
    alloc: Global,
    item: Item,
    most: usize,
    values: &[Value],
) -> Result<Option<Trouble>, WantOfMemory>
    ensures { IfOk result
        (λ trouble. trouble ≡ fits_list item most (items_in (items_view values.now))) }
{
    if are_items(alloc, item, values)? {
        Ok(too_many(values.len() as u64, most as u64))
    } else {
        Ok(Some(Trouble::BadValue))
    }
}

/// What is wrong with the stages of a buffer, of which there may be so many.
#[tactic(auto, using(crate::proofs::Lists::no_items))]
fn fits_stages(
    alloc: Global,
    most: usize,
    stages: &[Value],
) -> Result<Option<Trouble>, WantOfMemory>
    ensures { IfOk result
        (λ trouble. trouble ≡ fits_stages most (items_in (items_view stages.now))) }
{
    if stages.is_empty() {
        Ok(Some(Trouble::BadValue))
    } else {
        fits_list(alloc, Item::Table, most, stages)
    }
}

/// What is wrong with a value, by what it has to be.
fn fits(alloc: Global, shape: Shape, value: &Value) -> Result<Option<Trouble>, WantOfMemory>
    ensures { IfOk result (λ trouble. trouble ≡ fits (shape_view shape) (view value.now)) }
{
    match shape {
        Shape::Truth => Ok(bad_unless(is_truth(value))),
        Shape::AnyText => Ok(bad_unless(is_text(value))),
        Shape::OneOf(texts) => Ok(bad_unless(is_one_of(texts, value))),
        Shape::Texts(most) => match value.as_array() {
            Some(items) => fits_list(alloc, Item::Text, most, items.as_slice()),
            None => Ok(Some(Trouble::BadValue)),
        },
        Shape::Whole(least, most) => Ok(bad_unless(whole_in(least, most, value).is_some())),
        Shape::Condition => Ok(bad_unless(is_text(value) || is_vrl(value))),
        Shape::Stages(most) => fits_stages(alloc, most, stages_in(value)),
        Shape::ListOf(item, least) => Ok(bad_unless(is_list_of(alloc, item, least, value)?)),
        Shape::OneFile => Ok(bad_unless(is_one_file(value))),
        Shape::FixedText => Ok(bad_unless(is_fixed(value))),
    }
}

/// The row of what is given at a place.
fn row_at<'a>(rows: &'a [Row], place: Place<'_>) -> Option<&'a Row>
    ensures { option_map (λ r. row_view r.now) result
        ≡ row_at (rows_view rows.now) (place_view place.entry) }
{
    for row in rows {
        if covers(row.place, place) {
            return Some(row);
        }
    }
    None
}

/// What is wrong with an option that is given, by its row.
fn judged_by(alloc: Global, row: &Row, given: Given<'_>) -> Result<Option<Trouble>, WantOfMemory>
    ensures { IfOk result
        (λ trouble. trouble ≡ judged_by (row_view row.now) (given_view given.entry)) }
{
    if fits_place(row.place, given.place) {
        fits(alloc, row.shape, given.value)
    } else {
        Ok(Some(Trouble::BadValue))
    }
}

/// What is wrong with an option that is given.
pub(crate) fn judged(
    alloc: Global,
    rows: &[Row],
    given: Given<'_>,
) -> Result<Option<Trouble>, WantOfMemory>
    ensures { IfOk result
        (λ trouble. trouble ≡ judged (rows_view rows.now) (given_view given.entry)) }
{
    match row_at(rows, given.place) {
        Some(row) => judged_by(alloc, row, given),
        None => Ok(Some(Trouble::UnknownOption)),
    }
}
