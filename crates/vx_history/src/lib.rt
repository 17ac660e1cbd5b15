//! A history that exists in proofs alone: it takes no memory, and noting an entry takes no time.
#![tactic(auto)]

mod history;

pub use history::History;
