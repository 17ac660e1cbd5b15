//! The ends in memory, call by call, and a hub that is driven by hand.
#![tactic(auto)]

#[cfg(test)]
mod by_hand;
#[cfg(test)]
mod callers;
#[cfg(test)]
mod memory_ends;
