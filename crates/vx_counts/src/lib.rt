//! Running counts: what each instance counted so far, kept up with each entry of the record.
#![tactic(auto)]

mod counts;
mod laws;

pub use counts::Counts;
pub use laws::{all, confirms, discards, firsts, others, owners, parts, places, roles};
