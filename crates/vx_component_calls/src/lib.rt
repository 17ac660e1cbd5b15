//! The public calls of the crates of components, each made once: what reads them, what holds their copies, and what runs in them.
#![tactic(auto)]

#[cfg(test)]
mod counts;
#[cfg(test)]
mod groups;
#[cfg(test)]
mod hosts;
#[cfg(test)]
mod keepers;
#[cfg(test)]
mod ledgers;
#[cfg(test)]
mod parcels;
#[cfg(test)]
mod pickers;
#[cfg(test)]
mod prefixes;
#[cfg(test)]
mod readings;
#[cfg(test)]
mod sources;
