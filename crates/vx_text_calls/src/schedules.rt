//! The waits between a sink's attempts.

use vx_sinkcore::Schedule;

#[test]
fn five_failed_starts_wait(rt: HostRuntime) {
    let schedule = Schedule::new(1, 2, 4);
    let waits = [
        (1, Some(1000)),
        (2, Some(1000)),
        (3, Some(2000)),
        (4, Some(2000)),
        (5, None),
    ];
    for (k, wait) in waits {
        assert_eq!(rt; schedule.wait(k), wait, "behind failure {k}");
    }
}

#[test]
fn the_longest_wait_stays(rt: HostRuntime) {
    let schedule = Schedule::new(1, 30, u64::MAX);
    let waits = [
        (1, 1000),
        (2, 1000),
        (3, 2000),
        (4, 3000),
        (5, 5000),
        (6, 8000),
        (7, 13_000),
        (8, 21_000),
        (9, 30_000),
        (10, 30_000),
        (1 << 63, 30_000),
    ];
    for (k, wait) in waits {
        assert_eq!(rt; schedule.wait(k), Some(wait), "behind failure {k}");
    }
}
