//! Events with some values.

use std::alloc::Global;
use std::test::Fail;
use vx_value::{Event, Path, Text, Value};

/// Puts a value at a path.
pub fn put(alloc: Global, event: &mut Event, path: &str, value: Value) -> Result<(), Fail> {
    let path = Path::read(alloc, path)?;
    event.put(&path, value)?;
    Ok(())
}

/// The event with a value at a path.
pub fn with(alloc: Global, event: Event, path: &str, value: Value) -> Result<Event, Fail> {
    let mut event = event;
    put(alloc, &mut event, path, value)?;
    Ok(event)
}

/// The event with a text at a path.
pub fn with_words(alloc: Global, event: Event, path: &str, words: &str) -> Result<Event, Fail> {
    let words = Text::copy_of(alloc, words)?;
    with(alloc, event, path, Value::Words(words))
}

/// An event with whole numbers at some paths.
pub fn event_of_wholes(alloc: Global, wholes: &[(&str, i64)]) -> Result<Event, Fail> {
    let mut event = Event::new(alloc);
    for (path, whole) in wholes {
        put(alloc, &mut event, *path, Value::Whole(*whole))?;
    }
    Ok(event)
}
