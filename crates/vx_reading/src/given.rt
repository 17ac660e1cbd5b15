ghost use Rattle.std.specs.Prelude.{◌≡◌, ◌++◌, IfOk, OnOk, map};
ghost use Rattle.toml.specs.View.{view};
ghost use Rattle.vx_reading.specs.Judging.{pairs_in as pairs_in_view, is_group, is_table, given_by, given, is_given, count_given, is_within, within};
ghost use Rattle.vx_reading.specs.Options.{covers, fits_place, most_at};
ghost use Rattle.vx_reading.specs.Views.{place_view, rows_view, pair_view, pairs_view, givens_view};

use crate::pair::{Pair, pairs_in};
use crate::place::Place;
use crate::row::Row;
use crate::texts::{is_route_name, same_text};
use std::alloc::Global;
use toml::Value;
use vx_value::WantOfMemory;

/// An option that a table gives.
#[derive(Clone, Copy)]
pub(crate) struct Given<'a> {
    pub place: Place<'a>,
    pub value: &'a Value,
}

/// Whether the option of a place is the one that is given at another, where it stands by itself or in a table.
pub(crate) fn covers(option: Place<'_>, given: Place<'_>) -> bool
    ensures { result ≡ covers (place_view option.entry) (place_view given.entry) }
{
    match option {
        Place::Alone(a) => match given {
            Place::Alone(b) => same_text(a, b),
            Place::Within(_, _) | Place::Either(_, _) | Place::Each(_, _) | Place::Any(_) => false,
        },
        Place::Within(g, a) => match given {
            Place::Within(h, b) => same_text(g, h) && same_text(a, b),
            Place::Alone(_) | Place::Either(_, _) | Place::Each(_, _) | Place::Any(_) => false,
        },
        Place::Either(g, a) => match given {
            Place::Alone(b) => same_text(g, b),
            Place::Within(h, b) => same_text(g, h) && same_text(a, b),
            Place::Either(_, _) | Place::Each(_, _) | Place::Any(_) => false,
        },
        Place::Each(g, _) | Place::Any(g) => match given {
            Place::Alone(b) => same_text(g, b),
            Place::Within(h, _) => same_text(g, h),
            Place::Either(_, _) | Place::Each(_, _) | Place::Any(_) => false,
        },
    }
}

/// Whether what is given may stand there by the place of its option: what has names of its own stands in a table, and where they are
/// those of ports, under names that ports may have.
pub(crate) fn fits_place(option: Place<'_>, given: Place<'_>) -> bool
    ensures { result ≡ fits_place (place_view option.entry) (place_view given.entry) }
{
    match option {
        Place::Each(_, _) => match given {
            Place::Alone(_) => false,
            Place::Within(_, name) => is_route_name(name),
            Place::Either(_, _) | Place::Each(_, _) | Place::Any(_) => true,
        },
        Place::Any(_) => match given {
            Place::Alone(_) => false,
            Place::Within(_, _) | Place::Either(_, _) | Place::Each(_, _) | Place::Any(_) => true,
        },
        Place::Alone(_) | Place::Within(_, _) | Place::Either(_, _) => true,
    }
}

/// How often an option may be given that has the names of ports.
pub(crate) fn most_at(place: Place<'_>) -> Option<usize>
    ensures { result ≡ most_at (place_view place.entry) }
{
    match place {
        Place::Each(_, most) => Some(most),
        Place::Alone(_) | Place::Within(_, _) | Place::Either(_, _) | Place::Any(_) => None,
    }
}

/// Whether a place is in a table of that name.
fn is_within(group: &str, place: Place<'_>) -> bool
    ensures { result ≡ is_within group.now (place_view place.entry) }
{
    match place {
        Place::Alone(_) => false,
        Place::Within(other, _)
        | Place::Either(other, _)
        | Place::Each(other, _)
        | Place::Any(other) => same_text(other, group),
    }
}

/// Whether options stand in a table of that name.
fn is_group(rows: &[Row], group: &str) -> bool
    ensures { result ≡ is_group (rows_view rows.now) group.now }
{
    for row in rows {
        if is_within(group, row.place) {
            return true;
        }
    }
    false
}

/// Whether a value is a table.
pub(crate) fn is_table(value: &Value) -> bool
    ensures { result ≡ is_table (view value.now) }
{
    value.as_table().is_some()
}

/// Adds what a table gives under a name.
fn push_given<'a>(
    alloc: Global,
    all: &mut Vec<Given<'a>>,
    rows: &[Row],
    pair: Pair<'a>,
) -> Result<(), WantOfMemory>
    ensures { OnOk result
        (givens_view all.new.items ≡ givens_view all.old.items
        ++ given_by (rows_view rows.now) (pair_view pair.entry)) }
{
    if is_group(rows, pair.name) && is_table(pair.value) {
        let inner = pairs_in(alloc, pair.value)?;
        push_within(all, pair.name, inner.as_slice())
    } else {
        all.push(Given {
            place: Place::Alone(pair.name),
            value: pair.value,
        })?;
        Ok(())
    }
}

/// Adds the options that stand in a table of their own.
fn push_within<'a>(
    all: &mut Vec<Given<'a>>,
    group: &'a str,
    pairs: &[Pair<'a>],
) -> Result<(), WantOfMemory>
    ensures { OnOk result
        (givens_view all.new.items ≡ givens_view all.old.items
        ++ map (within group.now) (pairs_view pairs.now)) }
{
    for pair in pairs {
        all.push(Given {
            place: Place::Within(group, pair.name),
            value: pair.value,
        })?;
    }
    Ok(())
}

/// What a table gives.
pub(crate) fn given_in<'a>(
    alloc: Global,
    rows: &[Row],
    pairs: &[Pair<'a>],
) -> Result<Vec<Given<'a>>, WantOfMemory>
    ensures { IfOk result
        (λ all. givens_view all.items ≡ given (rows_view rows.now) (pairs_view pairs.now)) }
{
    let mut all = Vec::new(alloc);
    for pair in pairs {
        push_given(alloc, &mut all, rows, *pair)?;
    }
    Ok(all)
}

/// What a value gives, where it is a table.
pub(crate) fn given_of<'a>(
    alloc: Global,
    rows: &[Row],
    value: &'a Value,
) -> Result<Vec<Given<'a>>, WantOfMemory>
    ensures { IfOk result
        (λ all. givens_view all.items ≡ given (rows_view rows.now) (pairs_in_view (view value.now))) }
{
    let pairs = pairs_in(alloc, value)?;
    given_in(alloc, rows, pairs.as_slice())
}

/// Whether the option of a place is given.
pub(crate) fn is_given(place: Place<'_>, all: &[Given<'_>]) -> bool
    ensures { result ≡ is_given (place_view place.entry) (givens_view all.now) }
{
    for given in all {
        if covers(place, given.place) {
            return true;
        }
    }
    false
}

/// How many of those that are given the option of a place is.
pub(crate) fn count_given(place: Place<'_>, all: &[Given<'_>]) -> usize
    ensures { result ≡ count_given (place_view place.entry) (givens_view all.now) }
{
    let mut count = 0;
    for given in all {
        if covers(place, given.place) {
            count += 1;
        }
    }
    count
}
