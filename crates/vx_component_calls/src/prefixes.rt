use std::alloc::Global;
use std::test::Fail;
use vx_ends::{Position, PositionList};
use vx_ledger::Notice;
use vx_sourcecore::Prefix;
use vx_status::BatchStatus;
use vx_value::WantOfMemory;

/// Adds a batch that ends at a position.
fn create_batch_on(
    prefix: &mut Prefix,
    alloc: Global,
    batch: u64,
    position: Position,
) -> Result<(), WantOfMemory> {
    let ends = prefix.prepare(alloc, position)?;
    prefix.born(batch, ends);
    Ok(())
}

/// Adds a batch that ends at a place of stream 0.
fn create_batch(
    prefix: &mut Prefix,
    alloc: Global,
    batch: u64,
    end: u64,
) -> Result<(), WantOfMemory> {
    create_batch_on(prefix, alloc, batch, Position { stream: 0, end })
}

/// Tells the notice of a batch.
fn report(prefix: &mut Prefix, batch: u64, status: BatchStatus) {
    prefix.notice(Notice {
        batch,
        instance: 0,
        status,
    });
}

/// Where the only stream ends that is to be confirmed; `None` where none is, or another one.
fn due_end(due: Option<&PositionList>) -> Option<u64> {
    match due?.as_slice() {
        [position] if position.stream == 0 => Some(position.end),
        _ => None,
    }
}

/// A batch that is delivered is confirmed only once those before it are, and none behind a failed one is.
#[test]
fn confirm_prefix(rt: HostRuntime) -> Result<(), Fail> {
    let mut prefix = Prefix::new(rt.alloc(), true);
    create_batch(&mut prefix, rt.alloc(), 0, 2)?;
    create_batch(&mut prefix, rt.alloc(), 1, 4)?;
    create_batch(&mut prefix, rt.alloc(), 2, 6)?;
    report(&mut prefix, 1, BatchStatus::Delivered);
    assert!(rt; prefix.due().is_none());
    report(&mut prefix, 0, BatchStatus::Delivered);
    assert_eq!(rt; due_end(prefix.due()), Some(4));
    assert!(rt; prefix.take_due().is_some());
    report(&mut prefix, 2, BatchStatus::Errored);
    assert!(rt; prefix.due().is_none());
    Ok(())
}

/// Batches that needn't wait are confirmed at once, whatever becomes of those before them, and the same end isn't
/// confirmed twice.
#[test]
fn confirmed_at_birth(rt: HostRuntime) -> Result<(), Fail> {
    let mut prefix = Prefix::new(rt.alloc(), false);
    create_batch(&mut prefix, rt.alloc(), 0, 2)?;
    assert_eq!(rt; due_end(prefix.take_due().as_ref()), Some(2));
    assert!(rt; prefix.due().is_none());
    report(&mut prefix, 0, BatchStatus::Errored);
    create_batch(&mut prefix, rt.alloc(), 1, 4)?;
    assert_eq!(rt; due_end(prefix.due()), Some(4));
    Ok(())
}

/// The streams and the ends of two positions that are to be confirmed; `None` where there are more, or fewer.
fn two_ends(due: Option<&PositionList>) -> Option<[u64; 4]> {
    match due?.as_slice() {
        [a, b] => Some([a.stream, a.end, b.stream, b.end]),
        _ => None,
    }
}

/// Of each stream the end of its last batch is confirmed, by rising streams.
#[test]
fn confirmed_by_streams(rt: HostRuntime) -> Result<(), Fail> {
    let mut prefix = Prefix::new(rt.alloc(), false);
    create_batch_on(&mut prefix, rt.alloc(), 0, Position { stream: 1, end: 3 })?;
    create_batch_on(&mut prefix, rt.alloc(), 1, Position { stream: 0, end: 2 })?;
    assert!(rt; two_ends(prefix.take_due().as_ref()) == Some([0, 2, 1, 3]));
    create_batch_on(&mut prefix, rt.alloc(), 2, Position { stream: 1, end: 5 })?;
    assert!(rt; two_ends(prefix.due()) == Some([0, 2, 1, 5]));
    Ok(())
}
