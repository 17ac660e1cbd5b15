use crate::writer::Writer;
use vx_pick::Picker;
use vx_sourcecore::{Generator, SourceCore};

/// What an instance does with its port.
#[derive(Drop)]
pub enum Role {
    /// Reads lines.
    Source(SourceCore),
    /// Makes its lines itself. It needs no port.
    Generator(Generator),
    /// Writes what it holds by a codec.
    Sink(Writer),
    /// Takes what it holds, and writes nothing. It needs no port.
    Blackhole,
    /// Judges what it holds, event by event. It needs no port.
    Transform(Picker),
    /// Merges what comes with what it keeps, which stands elsewhere: no worker does that. It needs no port.
    Merge,
    /// Nothing any more: memory was wanting while it cut what it had read.
    Unfit,
}

/// What an instance works with: its port, and what it does with that.
#[derive(Drop)]
pub struct Task<P> {
    pub port: P,
    pub role: Role,
}
