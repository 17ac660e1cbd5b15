// The stages of a sink's buffer.
ghost use Rattle.std.specs.Prelude.{◌≡◌, ◌+◌, IfOk, map};
ghost use Rattle.std.specs.Option.{option_map};
ghost use Rattle.toml.specs.View.{view, items_view};
ghost use Rattle.vx_reading.specs.Judging.{items_in};
ghost use Rattle.vx_reading.specs.Stages.{stages_of, stages_for, capacity_at, when_full_named, when_full_of, is_misplaced, stage_of, buffer_of, capacity_in, room_for, room_of, capacity_of_all};
ghost use Rattle.vx_reading.specs.Views.{part_view, parts_view};

use crate::adding::push;
use crate::judging::stages_in;
use crate::kind::Kind;
use crate::options::MOST_CAPACITY;
use crate::part::{Part, kind_of};
use crate::texts::same_text;
use crate::values::{text_at, whole_at};
use std::alloc::Global;
use toml::Value;
use vx_plan::{Class, Stage, StageList, WhenFull};
use vx_value::WantOfMemory;

/// For how many events a stage has room where it doesn't say.
const STAGE_CAPACITY: u64 = 500;

/// The stages that the table of a sink gives, in order.
fn stages_of(table: &Value) -> &[Value]
    ensures { items_in (items_view result.now) ≡ stages_of (view table.now) }
{
    match table.get("buffer") {
        Some(value) => stages_in(value),
        None => &[],
    }
}

/// The stages that the table of a component of a type gives; one that is no sink gives none.
pub(crate) fn stages_for(kind: Kind, table: &Value) -> &[Value]
    ensures { items_in (items_view result.now) ≡ stages_for kind (view table.now) }
{
    match kind.class() {
        Class::Source | Class::Transform => &[],
        Class::Sink => stages_of(table),
    }
}

/// For how many events a stage has room.
fn capacity_at(stage: &Value) -> u32
    ensures { result ≡ capacity_at (view stage.now) }
{
    whole_at("max_events", 1, MOST_CAPACITY, STAGE_CAPACITY, stage) as u32
}

/// What a full stage does, by the name of it: it blocks where there is none.
fn when_full_named(name: Option<&str>) -> WhenFull
    ensures { result ≡ when_full_named (option_map (λ t. t.now) name.entry) }
{
    match name {
        Some(text) if same_text(text, "overflow") => WhenFull::Overflow,
        Some(text) if same_text(text, "drop_newest") => WhenFull::DropNewest,
        _ => WhenFull::Block,
    }
}

/// What a full stage does.
pub(crate) fn when_full_of(stage: &Value) -> WhenFull
    ensures { result ≡ when_full_of (view stage.now) }
{
    when_full_named(text_at("when_full", stage))
}

/// Whether a stage stands where it may not, by whether it is the last: one that may stand overflows exactly where another is behind it.
pub(crate) fn is_misplaced(last: bool, when_full: WhenFull) -> bool
    ensures { result ≡ is_misplaced last when_full }
{
    match when_full {
        WhenFull::Block | WhenFull::DropNewest => !last,
        WhenFull::Overflow => last,
    }
}

/// Some stages as they are read.
fn stages_read(alloc: Global, given: &[Value]) -> Result<StageList, WantOfMemory>
    ensures { IfOk result (λ stages. stages ≡ map stage_of (items_in (items_view given.now))) }
{
    let mut stages = StageList::new(alloc);
    for value in given {
        let stage = Stage {
            max_events: capacity_at(value),
            when_full: when_full_of(value),
        };
        push(&mut stages, stage)?;
    }
    Ok(stages)
}

/// The buffer of a sink: one stage that says nothing where its table gives none.
pub(crate) fn buffer_of(alloc: Global, table: &Value) -> Result<StageList, WantOfMemory>
    ensures { IfOk result (λ buffer. buffer ≡ buffer_of (view table.now)) }
{
    let mut buffer = stages_read(alloc, stages_of(table))?;
    if buffer.is_empty() {
        let stage = Stage {
            max_events: STAGE_CAPACITY as u32,
            when_full: WhenFull::Block,
        };
        push(&mut buffer, stage)?;
    }
    Ok(buffer)
}

/// A sum. Past 2^64 - 1 it counts as want of memory: a document with so many stages is larger than any memory.
fn added(a: u64, b: u64) -> Result<u64, WantOfMemory>
    ensures { IfOk result (λ sum. sum ≡ a + b) }
{
    match a.checked_add(b) {
        Some(sum) => Ok(sum),
        None => Err(WantOfMemory),
    }
}

/// For how many events some stages have room together.
fn capacity_in(stages: &[Stage]) -> Result<u64, WantOfMemory>
    ensures { IfOk result (λ room. room ≡ capacity_in stages.now) }
{
    let mut room = 0;
    for stage in stages {
        room = added(room, stage.max_events as u64)?;
    }
    Ok(room)
}

/// For how many events the buffer of a component of a type has room; only those of sinks count.
fn room_for(alloc: Global, kind: Kind, table: &Value) -> Result<u64, WantOfMemory>
    ensures { IfOk result (λ room. room ≡ room_for kind (view table.now)) }
{
    match kind.class() {
        Class::Source | Class::Transform => Ok(0),
        Class::Sink => {
            let buffer = buffer_of(alloc, table)?;
            capacity_in(buffer.as_slice())
        }
    }
}

/// The same of a component as the document has it.
fn room_of(alloc: Global, part: Part<'_>) -> Result<u64, WantOfMemory>
    ensures { IfOk result (λ room. room ≡ room_of (part_view part.entry)) }
{
    match kind_of(part) {
        Some(kind) => room_for(alloc, kind, part.value),
        None => Ok(0),
    }
}

/// For how many events the buffers of all sinks among some components have room together.
pub(crate) fn capacity_of_all(alloc: Global, all: &[Part<'_>]) -> Result<u64, WantOfMemory>
    ensures { IfOk result (λ room. room ≡ capacity_of_all (parts_view all.now)) }
{
    let mut room = 0;
    for part in all {
        room = added(room, room_of(alloc, *part)?)?;
    }
    Ok(room)
}
