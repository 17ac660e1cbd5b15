//! Where the parcels of each instance stand: what it put out, its children that wait for a target, its buffer stage by stage, and
//! what it holds.
#![tactic(auto)]

mod laws;
mod line;
mod looks;
mod lost;
mod marks;
mod places;
mod row;
mod rows;

pub use laws::{looks_laws, places_laws};
pub use line::Line;
pub use lost::Lost;
pub use places::Places;
