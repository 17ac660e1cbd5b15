//! Transforms that judge event by event, and the shelf on which they put parcels.

use crate::parcels::{bare, close, end};
use std::alloc::Global;
use std::process::Abort;
use std::test::Fail;
use vx_condition::{DedupeFields, parse};
use vx_fixtures::{event_of_wholes, one, two, with_words};
use vx_pick::{Dedupe, Filter, Picker, Route, Sample};
use vx_transform::{Output, Shelf, Transform};
use vx_value::{Event, Path, Text};

// An event with a message.
fn event(alloc: Global, message: &str) -> Result<Event, Fail> {
    with_words(alloc, Event::new(alloc), ".message", message)
}

// The ports on which a transform puts out an event with a message, or none where it discards it.
fn ports_of<R: Abort, T: Transform>(
    rt: &R,
    alloc: Global,
    transform: &mut T,
    message: &str,
) -> Result<Option<u128>, Fail> {
    let parcel = bare(rt, alloc, event(alloc, message)?)?;
    let mut shelf = Shelf::new(alloc);
    if let Err(_back) = transform.apply(alloc, parcel, 0, &mut shelf) {
        panic!(rt; "no memory");
    }
    let ports = match shelf.take_output() {
        Some(Output { ports, parcel }) => {
            end(rt, parcel);
            Some(ports)
        }
        None => {
            let Some(parcel) = shelf.take_dropped() else {
                panic!(rt; "neither put out nor discarded");
            };
            end(rt, parcel);
            None
        }
    };
    close(rt, shelf);
    Ok(ports)
}

// Checks on which ports a transform puts out an event with a message.
fn answers<R: Abort, T: Transform>(
    rt: &R,
    alloc: Global,
    transform: &mut T,
    message: &str,
    want: Option<u128>,
) -> Result<(), Fail> {
    assert_eq!(rt; ports_of(rt, alloc, transform, message)?, want);
    Ok(())
}

// Checks that a transform puts nothing out by itself.
fn is_silent<R: Abort, T: Transform>(rt: &R, alloc: Global, transform: &mut T) {
    let mut shelf = Shelf::new(alloc);
    assert!(rt; transform.tick(alloc, 0, &mut shelf).is_ok());
    assert!(rt; transform.flush(alloc, &mut shelf).is_ok());
    close(rt, shelf);
}

// Checks that a transform with so many ports holds nothing, and does nothing by itself.
fn is_still<R: Abort, T: Transform>(
    rt: &R,
    alloc: Global,
    transform: &mut T,
    ports: u32,
) -> Result<(), Fail> {
    assert_eq!(rt; transform.ports(), ports);
    assert_eq!(rt; transform.due(), None);
    is_silent(rt, alloc, transform);
    if let Some(_copy) = transform.surrender() {
        panic!(rt; "a copy was held");
    }
    Ok(())
}

// A route by two conditions.
fn route(alloc: Global, reroute: bool) -> Result<Route, Fail> {
    let first = parse(alloc, "contains(.message, \"x\")")?;
    let second = parse(alloc, "contains(.message, \"y\")")?;
    Ok(Route::new(two(alloc, first, second)?, reroute))
}

#[test]
fn filter_drops_all(rt: HostRuntime) -> Result<(), Fail> {
    let mut filter = Filter::new(parse(rt.alloc(), ".message == \"k\"")?);
    answers(&rt, rt.alloc(), &mut filter, "a", None)?;
    answers(&rt, rt.alloc(), &mut filter, "b", None)?;
    answers(&rt, rt.alloc(), &mut filter, "k", Some(0b1))?;
    is_still(&rt, rt.alloc(), &mut filter, 1)
}

#[test]
fn route_to_three_sinks(rt: HostRuntime) -> Result<(), Fail> {
    let mut route = route(rt.alloc(), true)?;
    answers(&rt, rt.alloc(), &mut route, "xy", Some(0b11))?;
    answers(&rt, rt.alloc(), &mut route, "z", Some(0b100))?;
    is_still(&rt, rt.alloc(), &mut route, 3)
}

#[test]
fn route_that_discards(rt: HostRuntime) -> Result<(), Fail> {
    let mut route = route(rt.alloc(), false)?;
    answers(&rt, rt.alloc(), &mut route, "y", Some(0b10))?;
    answers(&rt, rt.alloc(), &mut route, "z", None)
}

// The ports that a picker says for an event with a message.
fn picked(
    rt: &impl Abort,
    alloc: Global,
    picker: &mut Picker,
    message: &str,
    want: u128,
) -> Result<(), Fail> {
    let event = event(alloc, message)?;
    assert_eq!(rt; picker.ports_for(alloc, &event)?, want);
    Ok(())
}

#[test]
fn pickers_by_one_condition_and_by_two(rt: HostRuntime) -> Result<(), Fail> {
    let mut one = Picker::Filter(Filter::new(parse(rt.alloc(), ".message == \"k\"")?));
    picked(&rt, rt.alloc(), &mut one, "k", 0b1)?;
    picked(&rt, rt.alloc(), &mut one, "a", 0)?;
    let mut two = Picker::Route(route(rt.alloc(), true)?);
    picked(&rt, rt.alloc(), &mut two, "xy", 0b11)?;
    picked(&rt, rt.alloc(), &mut two, "z", 0b100)
}

#[test]
fn sample_with_exclude(rt: HostRuntime) -> Result<(), Fail> {
    let exclude = parse(rt.alloc(), ".message == \"x\"")?;
    let mut sample = Sample::new(2, Some(exclude));
    answers(&rt, rt.alloc(), &mut sample, "a", Some(0b1))?;
    answers(&rt, rt.alloc(), &mut sample, "x", Some(0b1))?;
    answers(&rt, rt.alloc(), &mut sample, "b", None)?;
    answers(&rt, rt.alloc(), &mut sample, "c", Some(0b1))?;
    is_still(&rt, rt.alloc(), &mut sample, 1)
}

#[test]
fn dedupe_of_two_keys(rt: HostRuntime) -> Result<(), Fail> {
    let path = Path::read(rt.alloc(), ".message")?;
    let by = DedupeFields::Match(one(rt.alloc(), path)?);
    let mut dedupe = Dedupe::new(rt.alloc(), by, 2)?;
    answers(&rt, rt.alloc(), &mut dedupe, "a", Some(0b1))?;
    answers(&rt, rt.alloc(), &mut dedupe, "b", Some(0b1))?;
    answers(&rt, rt.alloc(), &mut dedupe, "a", None)?;
    answers(&rt, rt.alloc(), &mut dedupe, "c", Some(0b1))?;
    answers(&rt, rt.alloc(), &mut dedupe, "b", Some(0b1))?;
    is_still(&rt, rt.alloc(), &mut dedupe, 1)
}

#[test]
fn dedupe_that_ignores_a_field(rt: HostRuntime) -> Result<(), Fail> {
    let name = Text::copy_of(rt.alloc(), "n")?;
    let by = DedupeFields::Ignore(one(rt.alloc(), name)?);
    let mut picker = Picker::Dedupe(Dedupe::new(rt.alloc(), by, 10)?);
    let first = event_of_wholes(rt.alloc(), &[(".a", 1), (".n", 1)])?;
    let repeat = event_of_wholes(rt.alloc(), &[(".a", 1), (".n", 2)])?;
    let other = event_of_wholes(rt.alloc(), &[(".a", 2), (".n", 2)])?;
    assert_eq!(rt; picker.ports_for(rt.alloc(), &first)?, 0b1);
    assert_eq!(rt; picker.ports_for(rt.alloc(), &repeat)?, 0);
    assert_eq!(rt; picker.ports_for(rt.alloc(), &other)?, 0b1);
    Ok(())
}
