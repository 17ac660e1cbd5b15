//! What tables have, made into lists, texts and scripts.

use crate::lists::add;
use std::alloc::Global;
use vx_ends::{Act, ActList, Config, Scripted, Step, StepList};
use vx_value::{Bytes, Text, TextList, Variable, VariableList, WantOfMemory};

/// An answer of a port in memory to a take.
pub enum Play {
    /// These bytes of that stream.
    Piece(u64, &'static str),
    StreamEnded(u64),
    AllEnded,
    Idle,
    Fail,
}

/// Some texts.
pub fn texts(alloc: Global, some: &[&str]) -> Result<TextList, WantOfMemory> {
    let mut list = TextList::new(alloc);
    for text in some {
        add(&mut list, Text::copy_of(alloc, *text)?)?;
    }
    Ok(list)
}

/// A variable of an environment.
fn variable(alloc: Global, name: &str, value: &str) -> Result<Variable, WantOfMemory> {
    let name = Text::copy_of(alloc, name)?;
    let value = Text::copy_of(alloc, value)?;
    Ok(Variable { name, value })
}

/// An environment.
pub fn environment(alloc: Global, some: &[(&str, &str)]) -> Result<VariableList, WantOfMemory> {
    let mut list = VariableList::new(alloc);
    for (name, value) in some {
        add(&mut list, variable(alloc, *name, *value)?)?;
    }
    Ok(list)
}

/// A step that gives these bytes of that stream.
fn piece(alloc: Global, stream: u64, bytes: &[u8]) -> Result<Step, WantOfMemory> {
    let bytes = Bytes::copy_of(alloc, bytes)?;
    Ok(Step::Bytes { stream, bytes })
}

/// The step of an answer.
fn step(alloc: Global, play: &Play) -> Result<Step, WantOfMemory> {
    match play {
        Play::Piece(stream, text) => piece(alloc, *stream, text.as_bytes()),
        Play::StreamEnded(stream) => Ok(Step::StreamEnded(*stream)),
        Play::AllEnded => Ok(Step::AllEnded),
        Play::Idle => Ok(Step::Idle),
        Play::Fail => Ok(Step::Fail),
    }
}

/// The steps of some answers.
pub fn steps(alloc: Global, some: &[Play]) -> Result<StepList, WantOfMemory> {
    let mut list = StepList::new(alloc);
    for play in some {
        add(&mut list, step(alloc, play)?)?;
    }
    Ok(list)
}

/// Some acts.
pub fn acts(alloc: Global, some: &[Act]) -> Result<ActList, WantOfMemory> {
    let mut list = ActList::new(alloc);
    for act in some {
        add(&mut list, *act)?;
    }
    Ok(list)
}

/// The script of a port.
pub fn script(
    alloc: Global,
    name: &str,
    steps: StepList,
    some: &[Act],
) -> Result<Scripted, WantOfMemory> {
    let name = Text::copy_of(alloc, name)?;
    let acts = acts(alloc, some)?;
    Ok(Scripted { name, steps, acts })
}

/// A text at a path.
pub fn config(alloc: Global, path: &str, text: &str) -> Result<Config, WantOfMemory> {
    let path = Text::copy_of(alloc, path)?;
    let bytes = Bytes::copy_of(alloc, text.as_bytes())?;
    Ok(Config { path, bytes })
}

/// A source, and two consoles that read it: one by its name, and one on standard error by a pattern.
pub const TWO_SINKS: &str = "sources.in = { type = 'stdin' }
sinks.s1 = { type = 'console', inputs = ['in'], encoding.codec = 'text' }
sinks.s2 = { type = 'console', target = 'stderr', inputs = ['i*'], encoding.codec = 'text' }
";
