//! What every transform promises, and the shelf on which it puts what it gives.
#![tactic(auto)]

mod back;
mod both_back;
mod immediate;
mod output;
mod shelf;
mod transform;

pub use back::Back;
pub use both_back::BothBack;
pub use immediate::Immediate;
pub use output::Output;
pub use shelf::Shelf;
pub use transform::Transform;
