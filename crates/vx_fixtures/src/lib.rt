//! What the tests stand on: events, lists and scripts of ports.
#![tactic(auto)]

mod events;
mod lists;
mod scripts;

pub use events::{event_of_wholes, put, with, with_words};
pub use lists::{add, one, two};
pub use scripts::{Play, TWO_SINKS, acts, config, environment, script, steps, texts};
