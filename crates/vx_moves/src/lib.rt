//! The engine's state in a run, which stands for its record, and one step for each kind of entry.
#![tactic(auto)]

mod abandon;
mod answer;
mod attempt;
mod close;
mod confirm;
mod create_batch;
mod divide;
mod engine;
mod give_up;
mod keeping;
mod lease;
mod lending;
mod merge;
mod pair;
mod push;
mod read;
mod return_task;
mod run;
mod settle;
mod spend;
mod split;
mod take;

pub use engine::EngineState;
pub use run::Run;
