// By what a transform that discards repeats tells them.
ghost use Rattle.std.specs.Prelude.{◌≡◌, ◌++◌, ◌∷◌, [], IfOk, OnOk};
ghost use Rattle.std.specs.List.{flat_map};
ghost use Rattle.std.specs.Option.{option_map};
ghost use Rattle.toml.specs.View.{view, items_view};
ghost use Rattle.vx_reading.specs.Judging.{items_in};
ghost use Rattle.vx_reading.specs.Plans.{path_in, default_paths, matched, fields_of};

use crate::adding::push;
use crate::plans::texts_of;
use crate::texts::path_spelled;
use crate::values::list_within;
use std::alloc::Global;
use toml::Value;
use vx_plan::{DedupeFields, PathList};
use vx_value::{Path, Text, TextList, WantOfMemory};

/// Adds the path of one name.
fn push_name(alloc: Global, paths: &mut PathList, name: &str) -> Result<(), WantOfMemory>
    ensures { OnOk result (paths.new ≡ paths.old ++ (name.now ∷ []) ∷ []) }
{
    let mut names = TextList::new(alloc);
    push(&mut names, Text::copy_of(alloc, name)?)?;
    push(paths, Path::of(names))
}

/// The paths where a configuration doesn't say which: `timestamp`, `host` and `message`.
fn default_paths(alloc: Global) -> Result<PathList, WantOfMemory>
    ensures { IfOk result (λ paths. paths ≡ default_paths) }
{
    let mut paths = PathList::new(alloc);
    push_name(alloc, &mut paths, "timestamp")?;
    push_name(alloc, &mut paths, "host")?;
    push_name(alloc, &mut paths, "message")?;
    Ok(paths)
}

/// Adds the path that a value is, if it is one.
fn push_spelled(alloc: Global, paths: &mut PathList, value: &Value) -> Result<(), WantOfMemory>
    ensures { OnOk result (paths.new ≡ paths.old ++ path_in (view value.now)) }
{
    let Some(text) = value.as_str() else {
        return Ok(());
    };
    match path_spelled(alloc, text)? {
        Some(path) => push(paths, path),
        None => Ok(()),
    }
}

/// The paths among some values.
pub(crate) fn paths_of(alloc: Global, values: &[Value]) -> Result<PathList, WantOfMemory>
    ensures { IfOk result (λ paths. paths ≡ flat_map path_in (items_in (items_view values.now))) }
{
    let mut paths = PathList::new(alloc);
    for value in values {
        push_spelled(alloc, &mut paths, value)?;
    }
    Ok(paths)
}

/// The values at some paths, where a list says which, and else at those of a transform that doesn't say.
fn matched(alloc: Global, values: Option<&[Value]>) -> Result<DedupeFields, WantOfMemory>
    ensures { IfOk result
        (λ fields. fields ≡ matched (option_map (λ items. items_view items.now) values.entry)) }
{
    match values {
        Some(values) => Ok(DedupeFields::Match(paths_of(alloc, values)?)),
        None => Ok(DedupeFields::Match(default_paths(alloc)?)),
    }
}

/// By what events repeat each other: by all fields but some, where a table says which, and else by the values at some paths.
pub(crate) fn fields_of(alloc: Global, table: &Value) -> Result<DedupeFields, WantOfMemory>
    ensures { IfOk result (λ fields. fields ≡ fields_of (view table.now)) }
{
    match list_within("fields", "ignore", table) {
        Some(values) => Ok(DedupeFields::Ignore(texts_of(alloc, values)?)),
        None => matched(alloc, list_within("fields", "match", table)),
    }
}
