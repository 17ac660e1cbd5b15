use crate::comparing::spaced;
use std::alloc::Global;
use std::process::Abort;
use std::test::Fail;
use vx_fixtures::{event_of_wholes, one};
use vx_value::{
    Bytes, Event, EventList, NumberList, Path, PathFault, PutFault, Text, TextList, Value,
    ValueList, WantOfMemory,
};

// Whether a value is that whole number.
fn is_whole(value: Option<&Value>, whole: i64) -> bool {
    match value {
        Some(Value::Whole(found)) => *found == whole,
        _ => false,
    }
}

// Checks that an event has a whole number at a path.
fn has_whole(
    rt: &impl Abort,
    alloc: Global,
    event: &Event,
    path: &str,
    whole: i64,
) -> Result<(), Fail> {
    let path = Path::read(alloc, path)?;
    assert!(rt; is_whole(event.get(&path), whole));
    Ok(())
}

// An event whose `.a.b` is 2, and whose `.B` is 3.
const NEIGHBOURS: &[(&str, i64)] = &[(".a.b", 2), ("\"B\"", 3)];

#[test]
fn put_keeps_a_neighbour(rt: HostRuntime) -> Result<(), Fail> {
    let event = event_of_wholes(rt.alloc(), NEIGHBOURS)?;
    has_whole(&rt, rt.alloc(), &event, ".a.b", 2)?;
    has_whole(&rt, rt.alloc(), &event, ".B", 3)
}

// A path of as many names as may be.
const LONGEST: &str = ".a.a.a.a.a.a.a.a.a.a.a.a.a.a.a.a.a.a.a.a.a.a.a.a.a.a.a.a.a.a.a";

/// Checks what a put of a value at a path answers.
pub(crate) fn has_put_answer(
    rt: &impl Abort,
    alloc: Global,
    event: &mut Event,
    path: &str,
    value: Value,
    want: Result<(), PutFault>,
) -> Result<(), Fail> {
    let path = Path::read(alloc, path)?;
    assert_eq!(rt; event.put(&path, value), want);
    Ok(())
}

// Checks what a put of a list at that path answers.
fn has_answer(
    rt: &impl Abort,
    alloc: Global,
    list: ValueList,
    want: Result<(), PutFault>,
) -> Result<(), Fail> {
    let mut event = Event::new(alloc);
    has_put_answer(rt, alloc, &mut event, LONGEST, Value::Items(list), want)
}

// A list in a list.
fn two_levels(alloc: Global) -> Result<ValueList, WantOfMemory> {
    let mut list = ValueList::new(alloc);
    list.push(Value::Items(ValueList::new(alloc)))
        .map_err(|_| WantOfMemory)?;
    Ok(list)
}

#[test]
fn put_at_the_last_level(rt: HostRuntime) -> Result<(), Fail> {
    has_answer(&rt, rt.alloc(), ValueList::new(rt.alloc()), Ok(()))?;
    let deeper = two_levels(rt.alloc())?;
    has_answer(&rt, rt.alloc(), deeper, Err(PutFault::TooDeep))
}

// The fault of a text that is no path.
fn path_fault(alloc: Global, text: &str) -> Option<PathFault> {
    match Path::read(alloc, text) {
        Err(fault) => Some(fault),
        Ok(_) => None,
    }
}

// Whether a text is no path, and its fault is at that place.
pub(crate) fn has_path_fault(rt: &impl Abort, alloc: Global, text: &str, at: u64) {
    let fault = path_fault(alloc, text);
    assert_eq!(rt; fault, Some(PathFault::Syntax { at }));
}

// Texts that are no paths, each with the place of its fault.
const NO_PATHS: &[(&str, u64)] = &[
    ("a..b", 2),
    ("", 0),
    (".", 1),
    ("a.\"b", 4),
    ("\"\"", 1),
    ("1", 0),
    ("a b", 1),
];

#[test]
fn path_faults(rt: HostRuntime) {
    for (text, at) in NO_PATHS {
        has_path_fault(&rt, rt.alloc(), *text, *at);
    }
}

// A copy of the path that a text is read as.
fn copied_path(alloc: Global, text: &str) -> Result<Path, Fail> {
    let path = Path::read(alloc, text)?;
    Ok(path.copy(alloc)?)
}

#[test]
fn reads_quoted_names(rt: HostRuntime) -> Result<(), Fail> {
    let path = copied_path(rt.alloc(), ".a_1.\"b.\\\"c\"")?;
    assert_eq!(rt; path.names().len(), 2);
    let names = spaced(rt.alloc(), path.names())?;
    assert_eq!(rt; names.as_str(), "a_1 b.\"c ");
    Ok(())
}

#[test]
fn bytes_grow_and_shrink(rt: HostRuntime) -> Result<(), Fail> {
    let mut bytes = Bytes::copy_of(rt.alloc(), b"ab")?;
    bytes.push_slice(b"c")?;
    bytes.truncate(2);
    assert_eq!(rt; bytes.as_slice(), b"ab".as_slice());
    bytes.clear();
    assert!(rt; bytes.is_empty());
    Ok(())
}

// Two numbers, of which one was appended.
fn two_numbers(alloc: Global) -> Result<NumberList, WantOfMemory> {
    let mut numbers: NumberList = one(alloc, 4)?;
    let copy = numbers.copy()?;
    match numbers.append(copy) {
        Ok(()) => Ok(numbers),
        Err(_) => Err(WantOfMemory),
    }
}

#[test]
fn lists_grow_and_shrink(rt: HostRuntime) -> Result<(), Fail> {
    let mut numbers = two_numbers(rt.alloc())?;
    assert_eq!(rt; numbers.len(), 2);
    numbers.truncate(1);
    assert_eq!(rt; numbers.pop(), Some(4));
    Ok(())
}

#[test]
fn texts_are_copied(rt: HostRuntime) -> Result<(), Fail> {
    let texts: TextList = one(rt.alloc(), Text::copy_of(rt.alloc(), "x")?)?;
    assert_eq!(rt; texts.copy(rt.alloc())?.len(), 1);
    Ok(())
}

#[test]
fn events_are_copied(rt: HostRuntime) -> Result<(), Fail> {
    let events: EventList = one(rt.alloc(), Event::new(rt.alloc()))?;
    assert_eq!(rt; events.copy(rt.alloc())?.len(), 1);
    Ok(())
}

#[test]
fn values_in_order(rt: HostRuntime) -> Result<(), Fail> {
    let truth = Value::Truth(true);
    let whole = Value::Whole(-1);
    assert!(rt; truth.compare(&whole).is_lt());
    assert!(rt; whole.compare(&truth).is_gt());
    assert!(rt; whole.is_same(&whole.copy(rt.alloc())?));
    Ok(())
}

// Checks that the first of two events is its own copy, and that the second comes after it.
fn are_in_order(rt: &impl Abort, alloc: Global, first: &Event, second: &Event) -> Result<(), Fail> {
    assert!(rt; second.compare(first).is_gt());
    assert!(rt; first.is_same(&first.copy(alloc)?));
    Ok(())
}

#[test]
fn events_in_order(rt: HostRuntime) -> Result<(), Fail> {
    let one = event_of_wholes(rt.alloc(), &[(".a", 1)])?;
    let two = event_of_wholes(rt.alloc(), &[(".a", 2)])?;
    are_in_order(&rt, rt.alloc(), &one, &two)
}
