//! Whole runs between ends in memory.
#![tactic(auto)]

#[cfg(test)]
mod buffers;
#[cfg(test)]
mod ends;
#[cfg(test)]
mod faults;
#[cfg(test)]
mod files;
#[cfg(test)]
mod generated;
#[cfg(test)]
mod hosts;
#[cfg(test)]
mod json_runs;
#[cfg(test)]
mod merging;
#[cfg(test)]
mod plans;
#[cfg(test)]
mod retries;
#[cfg(test)]
mod runs;
#[cfg(test)]
mod transforms;
#[cfg(test)]
mod validates;
