//! When a sink tries again what failed.
#![tactic(auto)]

mod schedule;

pub use schedule::Schedule;
