//! Transforms that judge event by event: each puts a parcel out, whole, or discards it.
#![tactic(auto)]

mod answer;
mod dedupe;
mod dedupe_key;
mod feeding;
mod filter;
mod picker;
mod route;
mod sample;
mod seen_keys;

pub use dedupe::Dedupe;
pub use filter::Filter;
pub use picker::Picker;
pub use route::Route;
pub use sample::Sample;
