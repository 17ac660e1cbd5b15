//! What a worker takes along of an instance, what it does with that, and what it brings back. Nothing here knows of the hub.
#![tactic(auto)]

mod confirming;
mod landing;
mod laws;
mod sending;
mod task;
mod work;
mod writer;

pub use confirming::Confirmed;
pub use landing::{Done, Landing, PortsList};
pub use laws::task_laws;
pub use task::{Role, Task};
pub use work::{Job, Work};
pub use writer::Writer;
