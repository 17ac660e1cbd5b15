ghost use Rattle.std.specs.Prelude.{◌≡◌, ◌≤◌, ◌↔◌};

use crate::event_status::EventStatus;

/// How a copy was spent. docs/OPERATIONS.md says when each comes.
#[derive(Clone, Copy, PartialEq, Eq, Debug)]
pub enum Outcome {
    /// An attempt with the copy's event answered well.
    Delivered,
    /// A transform discarded the event.
    Filtered,
    /// A full buffer dropped the event as its newest.
    NewestDropped,
    /// Nobody reads the output on which the event was put.
    NoConsumer,
    /// Every attempt that the sink may make failed.
    Attempts,
    /// The run was abandoned.
    Abandoned,
    /// The device refused the event.
    Refusal,
}

impl Outcome {
    ghost use Rattle.vx_status.specs.Tables.{status_of, event_rank, IsGood};

    /// The status that the outcome counts as. Four outcomes are good: no copy of the event failed.
    pub fn status(self) -> EventStatus
        ensures status { result ≡ status_of self }
        ensures good { IsGood self ↔ (event_rank result ≤ 1) }
    {
        match self {
            Outcome::Delivered => EventStatus::Delivered,
            Outcome::Filtered | Outcome::NewestDropped | Outcome::NoConsumer => {
                EventStatus::Dropped
            }
            Outcome::Attempts | Outcome::Abandoned => EventStatus::Errored,
            Outcome::Refusal => EventStatus::Rejected,
        }
    }
}
