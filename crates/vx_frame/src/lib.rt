//! Lines out of the pieces of any number of streams.
#![tactic(auto)]

mod advance;
mod framer;
mod line;
mod piece;
mod unfinished;

pub use framer::Framer;
pub use line::{Line, LineList, with_room_for};
