//! The transform that merges events into groups.
#![tactic(auto)]

mod answer;
mod combine;
mod entries;
mod expiry;
mod group;
mod group_key;
mod groups;
mod merge_rules;
mod merge_step;
mod plan;
mod reduce;
mod reduce_settings;
mod refused;

pub use reduce::Reduce;
pub use reduce_settings::ReduceSettings;
