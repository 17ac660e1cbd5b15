ghost use Rattle.std.specs.Prelude.{◌≡◌, max};
ghost use Rattle.vx_status.specs.Tables.{event_update, event_rank};

/// The status of one event of a batch. Each event begins as `Dropped`.
#[derive(Clone, Copy, PartialEq, Eq, Debug)]
pub enum EventStatus {
    Dropped,
    Delivered,
    Errored,
    Rejected,
}

/// An event's status after one more outcome of a copy of it: the worse of the two. `Dropped` is the best and
/// leaves what stands, and `Rejected` is the worst.
pub fn event_update(old: EventStatus, new: EventStatus) -> EventStatus
    ensures table { result ≡ event_update old new }
    ensures worse { event_rank result ≡ max (event_rank old) (event_rank new) }
{
    match (old, new) {
        (EventStatus::Dropped, _) => new,
        (EventStatus::Delivered, EventStatus::Dropped) => EventStatus::Delivered,
        (EventStatus::Delivered, _) => new,
        (EventStatus::Errored, EventStatus::Rejected) => EventStatus::Rejected,
        (EventStatus::Errored, _) => EventStatus::Errored,
        (EventStatus::Rejected, _) => EventStatus::Rejected,
    }
}
