use vx_status::{BatchStatus, EventStatus, Outcome, batch_update, event_update};

// The worse of two event statuses stands, in the order in which they are named here.
#[test]
fn event_table(rt: HostRuntime) {
    let statuses = [
        EventStatus::Dropped,
        EventStatus::Delivered,
        EventStatus::Errored,
        EventStatus::Rejected,
    ];
    for i in 0..4 {
        for j in 0..4 {
            let worse = if i < j { statuses[j] } else { statuses[i] };
            assert_eq!(rt; event_update(statuses[i], statuses[j]), worse);
        }
    }
}

// The rows of the batches' table: the old status, that of an event, and the new one.
const BATCH_ROWS: &[(BatchStatus, EventStatus, BatchStatus)] = &[
    (
        BatchStatus::Delivered,
        EventStatus::Dropped,
        BatchStatus::Delivered,
    ),
    (
        BatchStatus::Delivered,
        EventStatus::Delivered,
        BatchStatus::Delivered,
    ),
    (
        BatchStatus::Delivered,
        EventStatus::Errored,
        BatchStatus::Errored,
    ),
    (
        BatchStatus::Delivered,
        EventStatus::Rejected,
        BatchStatus::Rejected,
    ),
    (
        BatchStatus::Errored,
        EventStatus::Dropped,
        BatchStatus::Errored,
    ),
    (
        BatchStatus::Errored,
        EventStatus::Delivered,
        BatchStatus::Errored,
    ),
    (
        BatchStatus::Errored,
        EventStatus::Errored,
        BatchStatus::Errored,
    ),
    (
        BatchStatus::Errored,
        EventStatus::Rejected,
        BatchStatus::Rejected,
    ),
    (
        BatchStatus::Rejected,
        EventStatus::Dropped,
        BatchStatus::Rejected,
    ),
    (
        BatchStatus::Rejected,
        EventStatus::Delivered,
        BatchStatus::Rejected,
    ),
    (
        BatchStatus::Rejected,
        EventStatus::Errored,
        BatchStatus::Rejected,
    ),
    (
        BatchStatus::Rejected,
        EventStatus::Rejected,
        BatchStatus::Rejected,
    ),
];

#[test]
fn batch_table(rt: HostRuntime) {
    for (old, event, new) in BATCH_ROWS {
        assert_eq!(rt; batch_update(*old, *event), *new);
    }
}

// Each outcome with its status.
const OUTCOMES: &[(Outcome, EventStatus)] = &[
    (Outcome::Delivered, EventStatus::Delivered),
    (Outcome::Filtered, EventStatus::Dropped),
    (Outcome::NewestDropped, EventStatus::Dropped),
    (Outcome::NoConsumer, EventStatus::Dropped),
    (Outcome::Attempts, EventStatus::Errored),
    (Outcome::Abandoned, EventStatus::Errored),
    (Outcome::Refusal, EventStatus::Rejected),
];

#[test]
fn outcomes(rt: HostRuntime) {
    for (outcome, status) in OUTCOMES {
        assert_eq!(rt; outcome.status(), *status);
    }
}
