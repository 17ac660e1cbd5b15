// How a transform merges events into groups.
ghost use Rattle.std.specs.Prelude.{◌≡◌, ◌++◌, IfOk, OnOk, option_and_then};
ghost use Rattle.std.specs.List.{flat_map};
ghost use Rattle.toml.specs.Data.{as_str};
ghost use Rattle.toml.specs.View.{view};
ghost use Rattle.vx_reading.specs.Judging.{pairs_in as pairs_in_view};
ghost use Rattle.vx_reading.specs.Plans.{group_by_of, strategy_in, strategies_of};
ghost use Rattle.vx_reading.specs.Strategies.{how_named};
ghost use Rattle.vx_reading.specs.Views.{pair_view};

use crate::adding::push;
use crate::fields::paths_of;
use crate::pair::{Pair, pairs_in};
use crate::texts::same_text;
use crate::values::list_at;
use std::alloc::Global;
use toml::Value;
use vx_plan::{How, PathList, Strategy, StrategyList};
use vx_value::{Text, WantOfMemory};

/// The paths of the values that tell groups apart: none where a transform doesn't say.
pub(crate) fn group_by_of(alloc: Global, table: &Value) -> Result<PathList, WantOfMemory>
    ensures { IfOk result (λ paths. paths ≡ group_by_of (view table.now)) }
{
    match list_at("group_by", table) {
        Some(values) => paths_of(alloc, values),
        None => Ok(PathList::new(alloc)),
    }
}

/// The way to merge a field that has this name.
fn how_named(name: &str) -> Option<How>
    ensures { result ≡ how_named name.now }
{
    match name {
        name if same_text("discard", name) => Some(How::Discard),
        name if same_text("retain", name) => Some(How::Retain),
        name if same_text("sum", name) => Some(How::Sum),
        name if same_text("max", name) => Some(How::Max),
        name if same_text("min", name) => Some(How::Min),
        name if same_text("concat", name) => Some(How::Concat),
        name if same_text("concat_newline", name) => Some(How::ConcatNewline),
        name if same_text("concat_raw", name) => Some(How::ConcatRaw),
        name if same_text("array", name) => Some(How::Array),
        _ => None,
    }
}

/// The way that a value names, if it does.
fn how_of(value: &Value) -> Option<How>
    ensures { result ≡ option_and_then how_named (as_str (view value.now)) }
{
    match value.as_str() {
        Some(name) => how_named(name),
        None => None,
    }
}

/// Adds how a field is merged, if a value names a way.
fn push_strategy(
    alloc: Global,
    strategies: &mut StrategyList,
    pair: Pair<'_>,
) -> Result<(), WantOfMemory>
    ensures { OnOk result (strategies.new ≡ strategies.old ++ strategy_in (pair_view pair.entry)) }
{
    let Some(how) = how_of(pair.value) else {
        return Ok(());
    };
    let field = Text::copy_of(alloc, pair.name)?;
    push(strategies, Strategy { field, how })
}

/// How the fields are merged that a table has, by the bytes of their names.
fn strategies_in(alloc: Global, table: &Value) -> Result<StrategyList, WantOfMemory>
    ensures { IfOk result
        (λ strategies. strategies ≡ flat_map strategy_in (pairs_in_view (view table.now))) }
{
    let pairs = pairs_in(alloc, table)?;
    let mut strategies = StrategyList::new(alloc);
    for pair in pairs.as_slice() {
        push_strategy(alloc, &mut strategies, *pair)?;
    }
    Ok(strategies)
}

/// How a transform merges fields: no field has a way of its own where it doesn't say.
pub(crate) fn strategies_of(alloc: Global, table: &Value) -> Result<StrategyList, WantOfMemory>
    ensures { IfOk result (λ strategies. strategies ≡ strategies_of (view table.now)) }
{
    match table.get("merge_strategies") {
        Some(inner) => strategies_in(alloc, inner),
        None => Ok(StrategyList::new(alloc)),
    }
}
