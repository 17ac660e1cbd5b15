ghost use Rattle.std.specs.Prelude.{◌≡◌, IfOk};

use crate::route::{Route, RouteList};
use std::alloc::Global;
use vx_condition::{DedupeFields, PathList, Strategy, StrategyList};
use vx_demo::DemoSettings;
use vx_value::{Text, WantOfMemory};

/// What generated input is made of, once more.
pub(crate) fn copy_demo(alloc: Global, demo: &DemoSettings) -> Result<DemoSettings, WantOfMemory>
    ensures { IfOk result (λ copy. copy ≡ demo.now) }
{
    Ok(DemoSettings {
        lines: demo.lines.copy(alloc)?,
        sequence: demo.sequence,
        count: demo.count,
        seed: demo.seed,
    })
}

/// The same text once more, where there is one.
pub(crate) fn copy_optional(
    alloc: Global,
    text: &Option<Text>,
) -> Result<Option<Text>, WantOfMemory>
    ensures { IfOk result (λ copy. copy ≡ text.now) }
{
    match text {
        None => Ok(None),
        Some(text) => Ok(Some(text.copy(alloc)?)),
    }
}

/// The same ways of a route once more.
pub(crate) fn copy_routes(alloc: Global, routes: &RouteList) -> Result<RouteList, WantOfMemory>
    ensures { IfOk result (λ copies. copies ≡ routes.now) }
{
    let mut copies = RouteList::new(alloc);
    for route in routes.as_slice() {
        let copy = Route {
            name: route.name.copy(alloc)?,
            condition: route.condition.copy(alloc)?,
        };
        copies.push(copy).map_err(|_| WantOfMemory)?;
    }
    Ok(copies)
}

/// The same paths once more.
pub(crate) fn copy_paths(alloc: Global, paths: &PathList) -> Result<PathList, WantOfMemory>
    ensures { IfOk result (λ copies. copies ≡ paths.now) }
{
    let mut copies = PathList::new(alloc);
    for path in paths.as_slice() {
        copies.push(path.copy(alloc)?).map_err(|_| WantOfMemory)?;
    }
    Ok(copies)
}

/// The same strategies once more.
pub(crate) fn copy_strategies(
    alloc: Global,
    strategies: &StrategyList,
) -> Result<StrategyList, WantOfMemory>
    ensures { IfOk result (λ copies. copies ≡ strategies.now) }
{
    let mut copies = StrategyList::new(alloc);
    for strategy in strategies.as_slice() {
        let copy = Strategy {
            field: strategy.field.copy(alloc)?,
            how: strategy.how,
        };
        copies.push(copy).map_err(|_| WantOfMemory)?;
    }
    Ok(copies)
}

/// What tells repeats apart, once more.
pub(crate) fn copy_fields(
    alloc: Global,
    fields: &DedupeFields,
) -> Result<DedupeFields, WantOfMemory>
    ensures { IfOk result (λ copy. copy ≡ fields.now) }
{
    match fields {
        DedupeFields::Match(paths) => Ok(DedupeFields::Match(copy_paths(alloc, paths)?)),
        DedupeFields::Ignore(names) => Ok(DedupeFields::Ignore(names.copy(alloc)?)),
    }
}
