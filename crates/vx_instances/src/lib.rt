//! What is known of each instance, and its task while that is unleased.
#![tactic(auto)]

mod facts;
mod laws;
mod progress;
mod state;
mod states;

pub use facts::{Batching, Facts};
pub use laws::states_laws;
pub use progress::Progress;
pub use state::InstanceState;
pub use states::InstanceStates;
