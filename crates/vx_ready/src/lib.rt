//! What an instance has to do next: looks at the engine's state that answer as the record's own tests do.
#![tactic(auto)]

mod batches;
mod ending;
mod finishing;
mod jobs;
mod merging;
mod sources;
mod waits;

pub use batches::{is_batch_closed, retry_from};
pub use ending::is_ending;
pub use finishing::{holds_none, is_done};
pub use jobs::{first_job, is_open, is_settled};
pub use merging::{can_merge, is_check_due, must_flush};
pub use sources::{
    all_noticed, can_read, has_device, is_confirm_due, is_dry, is_sent, is_sink, is_source,
    is_transform,
};
pub use waits::{checks_at, waits_until};
