use crate::parts::Numbered;
use std::alloc::Global;
use vx_ends::Port;
use vx_moves::EngineState;

/// The engine of a run. Any number of its tasks may be out.
///
/// It can't be dropped: `end` ends it once each instance is retired.
pub struct Hub<P: Port> {
    pub alloc: Global,
    pub engine: EngineState<P>,
    /// Whether a call answered `Fatal`, or would have in a run that was given up: then no more is leased.
    pub fatal: bool,
    /// Room for the ports at the end.
    pub ports: Vec<Numbered<P>>,
    /// The instances that are sources.
    pub sources: Vec<u32>,
    /// The instances that merge.
    pub mergers: Vec<u32>,
}
