// The rows of the open batches.
ghost use Rattle.std.specs.Prelude.{◌≡◌, ℕ, ◌+◌, ◌*◌, ◌^◌, ◌<◌, ◌≤◌, List, length};
ghost use Rattle.vx_ledger.specs.Ledger.{live_count, index_of, added_to, grown_rows, spent_rows, notice_of, AreKept, AreLiveIn};

use crate::finalizers::Finalizers;
use crate::notice::Notice;
use crate::open_batch::OpenBatch;
use std::collections::VecDeque;
use vx_status::{Outcome, batch_update};

// Where the batch's row stands. The oldest batch is found at once.
fn row_index(rows: &VecDeque<OpenBatch>, batch: u64, place: u64) -> usize
    requires { 0 < live_count batch place rows.now.items }
    ensures index { result ≡ index_of batch place rows.now.items }
    ensures below { result < length rows.now.items }
{
    for i in 0..rows.len() {
        let row = rows[i];
        if row.number == batch && row.place == place {
            return i;
        }
    }
    unreachable!()
}

// Counts that many more live copies of the batch.
fn add_to(rows: &mut VecDeque<OpenBatch>, batch: u64, place: u64, more: u64)
    requires live { 0 < live_count batch place rows.old.items }
    requires fits { live_count batch place rows.old.items + more < 2 ^ 64 }
    ensures { rows.new.items ≡ added_to batch place more rows.old.items }
{
    let i = row_index(rows, batch, place);
    let mut row = rows[i];
    row.count += more;
    rows[i] = row;
}

// Counts that many more live copies for each copy of the list.
pub(crate) fn grow(rows: &mut VecDeque<OpenBatch>, copies: &Finalizers, more: u64)
    requires live { AreLiveIn rows.old.items copies.now }
    requires kept { (next : ℕ) × AreKept next rows.old.items
        × (next + more * length copies.now < 2 ^ 64) }
    ensures { rows.new.items ≡ grown_rows more copies.now rows.old.items }
{
    for i in 0..copies.len() {
        let copy = copies.at(i);
        add_to(rows, copy.batch(), copy.place(), more);
    }
}

// Spends one live copy of the batch.
pub(crate) fn spend(
    rows: &mut VecDeque<OpenBatch>,
    batch: u64,
    place: u64,
    outcome: Outcome,
) -> Option<Notice>
    requires { 0 < live_count batch place rows.old.items }
    ensures rows { rows.new.items ≡ spent_rows batch place outcome rows.old.items }
    ensures notice { result ≡ notice_of batch place outcome rows.old.items }
{
    let i = row_index(rows, batch, place);
    let mut row = rows[i];
    row.status = batch_update(row.status, outcome.status());
    if row.count == 1 {
        let _ = rows.remove(i);
        Some(Notice {
            batch,
            instance: row.instance,
            status: row.status,
        })
    } else {
        row.count -= 1;
        rows[i] = row;
        None
    }
}
