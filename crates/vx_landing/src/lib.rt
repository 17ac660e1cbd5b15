//! How a task comes back: what it did is noted in the engine's state, and where the run is given up what stands at it is given up.
//! And what an instance does that merges, in one call.
#![tactic(auto)]

mod ceasing;
mod land;
mod landing;
mod merging;

pub use land::accept_landing;
pub use merging::merge;
