// The values that a table has under names.
ghost use Rattle.std.specs.Prelude.{◌≡◌, ◌≤◌};
ghost use Rattle.std.specs.Option.{option_map};
ghost use Rattle.toml.specs.View.{view, items_view};
ghost use Rattle.vx_reading.specs.Plans.{value_within, text_at, text_within, truth_at, items_of, list_at, list_within, whole_or, whole_at, whole_within};

use crate::judging::whole_in;
use toml::Value;

/// The value under a name of a table that stands under another name.
fn value_within<'a>(group: &str, name: &str, table: &'a Value) -> Option<&'a Value>
    ensures { option_map (λ v. view v.now) result
        ≡ value_within group.now name.now (view table.now) }
{
    match table.get(group) {
        Some(inner) => inner.get(name),
        None => None,
    }
}

/// The text under a name of a table.
pub(crate) fn text_at<'a>(name: &str, table: &'a Value) -> Option<&'a str>
    ensures { option_map (λ t. t.now) result ≡ text_at name.now (view table.now) }
{
    table.get(name)?.as_str()
}

/// The text under a name of a table that stands under another name.
pub(crate) fn text_within<'a>(group: &str, name: &str, table: &'a Value) -> Option<&'a str>
    ensures { option_map (λ t. t.now) result ≡ text_within group.now name.now (view table.now) }
{
    value_within(group, name, table)?.as_str()
}

/// The truth under a name of a table.
pub(crate) fn truth_at(name: &str, table: &Value) -> Option<bool>
    ensures { result ≡ truth_at name.now (view table.now) }
{
    table.get(name)?.as_bool()
}

/// The items of the list that a value is, if it is there.
fn items_of(value: Option<&Value>) -> Option<&[Value]>
    ensures { option_map (λ items. items_view items.now) result
        ≡ items_of (option_map (λ v. view v.now) value.entry) }
{
    match value?.as_array() {
        Some(items) => Some(items.as_slice()),
        None => None,
    }
}

/// The list under a name of a table.
pub(crate) fn list_at<'a>(name: &str, table: &'a Value) -> Option<&'a [Value]>
    ensures { option_map (λ items. items_view items.now) result ≡ list_at name.now (view table.now) }
{
    items_of(table.get(name))
}

/// The list under a name of a table that stands under another name.
pub(crate) fn list_within<'a>(group: &str, name: &str, table: &'a Value) -> Option<&'a [Value]>
    ensures { option_map (λ items. items_view items.now) result
        ≡ list_within group.now name.now (view table.now) }
{
    items_of(value_within(group, name, table))
}

/// The whole number between two that a value is; where it is none or isn't there, another.
fn whole_or(least: u64, most: u64, otherwise: u64, value: Option<&Value>) -> u64
    requires { otherwise ≤ most }
    ensures observed { result
        ≡ whole_or least most otherwise (option_map (λ v. view v.now) value.entry) }
    ensures within { result ≤ most }
{
    let Some(value) = value else {
        return otherwise;
    };
    match whole_in(least, most, value) {
        Some(number) => number,
        None => otherwise,
    }
}

/// The whole number between two under a name of a table; where there is none, another.
pub(crate) fn whole_at(name: &str, least: u64, most: u64, otherwise: u64, table: &Value) -> u64
    requires { otherwise ≤ most }
    ensures observed { result ≡ whole_at name.now least most otherwise (view table.now) }
    ensures within { result ≤ most }
{
    whole_or(least, most, otherwise, table.get(name))
}

/// The whole number between two under a name of a table that stands under another name; where there is none, another.
pub(crate) fn whole_within(
    group: &str,
    name: &str,
    least: u64,
    most: u64,
    otherwise: u64,
    table: &Value,
) -> u64
    requires { otherwise ≤ most }
    ensures observed { result ≡ whole_within group.now name.now least most otherwise (view table.now) }
    ensures within { result ≤ most }
{
    whole_or(least, most, otherwise, value_within(group, name, table))
}
