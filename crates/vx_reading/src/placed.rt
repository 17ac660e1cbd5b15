// The conditions of a component's options.
ghost use Rattle.std.specs.Prelude.{◌≡◌, ◌++◌, IfOk, OnOk, map};
ghost use Rattle.vx_reading.specs.Conditions.{placed_way, placed_any, placed_in};
ghost use Rattle.vx_reading.specs.Views.{all_placed_view};

use crate::place::Place;
use std::alloc::Global;
use vx_plan::{RouteList, Settings};
use vx_value::{Text, WantOfMemory};

/// The text of a condition, and where the table of its component has it.
#[derive(Clone, Copy)]
pub(crate) struct Placed<'a> {
    pub place: Place<'a>,
    pub text: &'a Text,
}

/// Adds a condition, if there is one.
fn push_any<'a>(
    all: &mut Vec<Placed<'a>>,
    name: &'a str,
    text: &'a Option<Text>,
) -> Result<(), WantOfMemory>
    ensures { OnOk result
        (all_placed_view all.new.items ≡ all_placed_view all.old.items
        ++ placed_any name.now text.now) }
{
    let Some(text) = text else {
        return Ok(());
    };
    let place = Place::Alone(name);
    all.push(Placed { place, text })?;
    Ok(())
}

/// Adds the conditions of a route.
fn push_ways<'a>(all: &mut Vec<Placed<'a>>, ways: &'a RouteList) -> Result<(), WantOfMemory>
    ensures { OnOk result
        (all_placed_view all.new.items ≡ all_placed_view all.old.items ++ map placed_way ways.now) }
{
    for way in ways.as_slice() {
        let place = Place::Within("route", way.name.as_str());
        let text = &way.condition;
        all.push(Placed { place, text })?;
    }
    Ok(())
}

/// Adds the conditions of a component's options.
fn push_placed<'a>(all: &mut Vec<Placed<'a>>, settings: &'a Settings) -> Result<(), WantOfMemory>
    ensures { OnOk result
        (all_placed_view all.new.items ≡ all_placed_view all.old.items ++ placed_in settings.now) }
{
    match settings {
        Settings::Filter { condition } => {
            let place = Place::Alone("condition");
            let text = condition;
            all.push(Placed { place, text })?;
            Ok(())
        }
        Settings::Route { routes, .. } => push_ways(all, routes),
        Settings::Sample { exclude, .. } => push_any(all, "exclude", exclude),
        Settings::Reduce {
            starts_when,
            ends_when,
            ..
        } => {
            push_any(all, "ends_when", ends_when)?;
            push_any(all, "starts_when", starts_when)
        }
        _ => Ok(()),
    }
}

/// The conditions of a component's options, in the order in which they are read.
pub(crate) fn placed_in<'a>(
    alloc: Global,
    settings: &'a Settings,
) -> Result<Vec<Placed<'a>>, WantOfMemory>
    ensures { IfOk result (λ all. all_placed_view all.items ≡ placed_in settings.now) }
{
    let mut all = Vec::new(alloc);
    push_placed(&mut all, settings)?;
    Ok(all)
}
