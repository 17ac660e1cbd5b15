//! The balance of a run: which batches are open, as its record has them.
#![tactic(auto)]

mod balance;
mod laws;

pub use balance::Balance;
pub use laws::balance_laws;
