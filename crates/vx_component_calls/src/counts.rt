//! What an instance counts, by each of its calls.

use vx_counts::Counts;
use vx_ends::Position;
use vx_record::Tally;
use vx_sourcecore::NewLines;
use vx_status::{BatchStatus, Outcome};

#[test]
fn a_source_counts(rt: HostRuntime) {
    let mut new = NewLines::none();
    new.line(false, true);
    new.line(false, false);
    new.line(true, false);
    new.too_long(4);
    let mut counts = Counts::none();
    counts.read(30, new);
    counts.read(u64::MAX, NewLines::none());
    counts.created_batch(1);
    counts.noticed(BatchStatus::Errored);
    counts.unread();
    counts.confirmed(&[
        Position { stream: 1, end: 7 },
        Position { stream: 2, end: 5 },
    ]);
    counts.confirmed(&[
        Position { stream: 1, end: 9 },
        Position { stream: 2, end: 5 },
    ]);
    let wanted = Tally {
        read: u64::MAX,
        lines: 3,
        overlong: 4,
        undecodable: 1,
        events: 1,
        batches: 1,
        errored: 1,
        unread: 1,
        confirmed: 14,
        ..Tally::zero()
    };
    assert_eq!(rt; counts.tally, wanted);
}

#[test]
fn a_transform_counts(rt: HostRuntime) {
    let mut counts = Counts::none();
    counts.took();
    counts.took();
    counts.took();
    counts.answered(2, 1);
    counts.answered(u64::MAX, 0);
    counts.unread();
    let wanted = Tally {
        taken: 3,
        sent: u64::MAX,
        dropped: 1,
        unread: 1,
        ..Tally::zero()
    };
    assert_eq!(rt; counts.tally, wanted);
}

#[test]
fn a_sink_counts(rt: HostRuntime) {
    let mut counts = Counts::none();
    counts.took();
    counts.took();
    counts.attempted(10);
    counts.attempted(11);
    counts.spent(Outcome::Delivered);
    counts.spent(Outcome::Abandoned);
    counts.spent(Outcome::Refusal);
    counts.dropped_newest();
    let wanted = Tally {
        taken: 2,
        attempts: 2,
        bytes: 21,
        delivered: 1,
        errored: 1,
        rejected: 1,
        newest: 1,
        ..Tally::zero()
    };
    assert_eq!(rt; counts.tally, wanted);
}
