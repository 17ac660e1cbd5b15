//! Groups that end, expire and are flushed.

use crate::parcels::{bare, close, end};
use std::alloc::Global;
use std::process::Abort;
use std::test::Fail;
use vx_condition::{Condition, How, Strategy, StrategyList, parse};
use vx_fixtures::{event_of_wholes, one, with, with_words};
use vx_reduce::{Reduce, ReduceSettings};
use vx_transform::{Output, Shelf, Transform};
use vx_value::{Event, ItemList, Path, Text, Value, WantOfMemory};

// The condition of a text, if there is one.
fn condition(alloc: Global, text: Option<&str>) -> Result<Option<Condition>, Fail> {
    match text {
        Some(text) => Ok(Some(parse(alloc, text)?)),
        None => Ok(None),
    }
}

// A reduce by `.id`, whose groups expire after 10 ms and are looked at each 5 ms.
fn reduce(
    alloc: Global,
    starts_when: Option<&str>,
    ends_when: Option<&str>,
    strategies: StrategyList,
) -> Result<Reduce, Fail> {
    let path = Path::read(alloc, ".id")?;
    Ok(Reduce::new(ReduceSettings {
        group_by: one(alloc, path)?,
        starts_when: condition(alloc, starts_when)?,
        ends_when: condition(alloc, ends_when)?,
        expire_after_ms: 10,
        flush_period_ms: 5,
        strategies,
    })?)
}

// A reduce that sums, and whose groups end with a field `last`.
fn summing(alloc: Global) -> Result<Reduce, Fail> {
    reduce(alloc, None, Some("exists(.last)"), ItemList::new(alloc))
}

// An event with an identity, a number and a text.
fn event(alloc: Global, id: i64, n: i64, t: &str) -> Result<Event, Fail> {
    let event = event_of_wholes(alloc, &[(".id", id), (".n", n)])?;
    with_words(alloc, event, ".t", t)
}

// The same as the last one of its group.
fn last(alloc: Global, id: i64, n: i64, t: &str) -> Result<Event, Fail> {
    let event = event(alloc, id, n, t)?;
    with(alloc, event, ".last", Value::Truth(true))
}

// Gives an event without copies.
fn give(
    rt: &impl Abort,
    alloc: Global,
    reduce: &mut Reduce,
    event: Event,
    now: u64,
    shelf: &mut Shelf,
) {
    let parcel = match bare(rt, alloc, event) {
        Ok(parcel) => parcel,
        Err(_fail) => panic!(rt; "no memory"),
    };
    match reduce.apply(alloc, parcel, now, shelf) {
        Ok(()) => {}
        Err(_) => panic!(rt; "no memory"),
    }
}

// Checks that the next output is an event without copies.
fn comes(rt: &impl Abort, shelf: &mut Shelf, want: Event) {
    let Some(output) = shelf.take_output() else {
        panic!(rt; "no output");
    };
    let Output { ports, parcel } = output;
    assert_eq!(rt; ports, 1);
    assert!(rt; end(rt, parcel).get().is_same(&want));
}

// Ends what holds nothing any more, and a shelf on which nothing stands any more.
fn end_both(rt: &impl Abort, alloc: Global, reduce: Reduce, shelf: Shelf) {
    let (mut reduce, mut shelf) = (reduce, shelf);
    if let Err(WantOfMemory) = reduce.flush(alloc, &mut shelf) {
        panic!(rt; "no memory");
    }
    if let Some(_copy) = reduce.surrender() {
        panic!(rt; "a copy");
    }
    close(rt, shelf);
    reduce.end();
}

#[test]
fn a_group_ends(rt: HostRuntime) -> Result<(), Fail> {
    let alloc = rt.alloc();
    let first = event(alloc, 1, 2, "p")?;
    let other = event(alloc, 2, 7, "r")?;
    let second = last(alloc, 1, 3, "q")?;
    let merged = last(alloc, 1, 5, "p")?;
    let alone = event(alloc, 2, 7, "r")?;
    let mut reduce = summing(alloc)?;
    let mut shelf = Shelf::new(alloc);
    give(&rt, alloc, &mut reduce, first, 0, &mut shelf);
    give(&rt, alloc, &mut reduce, other, 0, &mut shelf);
    give(&rt, alloc, &mut reduce, second, 1, &mut shelf);
    comes(&rt, &mut shelf, merged);
    assert_eq!(&rt; reduce.due(), Some(5));
    assert!(&rt; reduce.tick(alloc, 9, &mut shelf).is_ok());
    assert_eq!(&rt; reduce.due(), Some(14));
    assert!(&rt; reduce.tick(alloc, 14, &mut shelf).is_ok());
    comes(&rt, &mut shelf, alone);
    assert_eq!(&rt; reduce.due(), None);
    end_both(&rt, alloc, reduce, shelf);
    Ok(())
}

// A reduce that joins texts, and whose groups begin with a field `last`.
fn joining(alloc: Global) -> Result<Reduce, Fail> {
    let field = Text::copy_of(alloc, "t")?;
    let how = How::Concat;
    let strategies = one(alloc, Strategy { field, how })?;
    reduce(alloc, Some("exists(.last)"), None, strategies)
}

#[test]
fn groups_are_flushed_in_order(rt: HostRuntime) -> Result<(), Fail> {
    let alloc = rt.alloc();
    let first = event(alloc, 2, 1, "a")?;
    let other = event(alloc, 1, 1, "b")?;
    let second = event(alloc, 2, 1, "c")?;
    let anew = last(alloc, 2, 9, "d")?;
    let merged = event(alloc, 2, 2, "a c")?;
    let alone = event(alloc, 1, 1, "b")?;
    let newer = last(alloc, 2, 9, "d")?;
    let mut reduce = joining(alloc)?;
    let mut shelf = Shelf::new(alloc);
    give(&rt, alloc, &mut reduce, first, 0, &mut shelf);
    give(&rt, alloc, &mut reduce, other, 0, &mut shelf);
    give(&rt, alloc, &mut reduce, second, 0, &mut shelf);
    give(&rt, alloc, &mut reduce, anew, 0, &mut shelf);
    comes(&rt, &mut shelf, merged);
    assert!(&rt; reduce.flush(alloc, &mut shelf).is_ok());
    comes(&rt, &mut shelf, alone);
    comes(&rt, &mut shelf, newer);
    end_both(&rt, alloc, reduce, shelf);
    Ok(())
}
