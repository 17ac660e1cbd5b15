ghost use Rattle.std.specs.Prelude.{◌≡◌, max};
ghost use Rattle.vx_status.specs.Tables.{batch_update, batch_rank, event_rank};

use crate::event_status::EventStatus;

/// The status of a batch. Each batch begins as `Delivered`.
#[derive(Clone, Copy, PartialEq, Eq, Debug)]
pub enum BatchStatus {
    Delivered,
    Errored,
    Rejected,
}

/// A batch's status after the status of one more event of it: the worse of the two, where a dropped event
/// leaves what stands.
pub fn batch_update(old: BatchStatus, event: EventStatus) -> BatchStatus
    ensures table { result ≡ batch_update old event }
    ensures worse { batch_rank result ≡ max (batch_rank old) (event_rank event) }
{
    match (old, event) {
        (BatchStatus::Delivered, EventStatus::Dropped | EventStatus::Delivered) => {
            BatchStatus::Delivered
        }
        (BatchStatus::Delivered, EventStatus::Errored) => BatchStatus::Errored,
        (BatchStatus::Delivered, EventStatus::Rejected) => BatchStatus::Rejected,
        (BatchStatus::Errored, EventStatus::Rejected) => BatchStatus::Rejected,
        (BatchStatus::Errored, _) => BatchStatus::Errored,
        (BatchStatus::Rejected, _) => BatchStatus::Rejected,
    }
}
