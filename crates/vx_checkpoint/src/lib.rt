//! The document in which a file source keeps how far it has come.
#![tactic(auto)]

mod checkpoint;
mod document;

pub use checkpoint::{Checkpoint, CheckpointFault};
pub use document::{read, write};
