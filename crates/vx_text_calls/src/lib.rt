//! The public calls of the crates that know no record, each made once, and vectors that other programs told.
#![tactic(auto)]

#[cfg(test)]
mod checkpoints;
#[cfg(test)]
mod comparing;
#[cfg(test)]
mod conditions;
#[cfg(test)]
mod frames;
#[cfg(test)]
mod graphs;
#[cfg(test)]
mod json_events;
#[cfg(test)]
mod os_ends;
#[cfg(test)]
mod plans;
#[cfg(test)]
mod probes;
#[cfg(test)]
mod schedules;
#[cfg(test)]
mod statuses;
#[cfg(test)]
mod values;
#[cfg(test)]
mod variables;
