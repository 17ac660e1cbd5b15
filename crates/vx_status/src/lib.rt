//! How a copy may be spent, and the two tables that fold outcomes into the statuses of events and batches.
#![tactic(auto)]

mod batch_status;
mod event_status;
mod outcome;

pub use batch_status::{BatchStatus, batch_update};
pub use event_status::{EventStatus, event_update};
pub use outcome::Outcome;
