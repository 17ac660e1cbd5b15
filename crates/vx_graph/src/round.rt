ghost use Rattle.std.specs.Prelude.{◌≡◌, ◌≢◌, ◌<◌, ◌≤◌, ◌++◌, ℕ, take, drop, slice_index, Contains, All, true, false, length, IfOk, IfSome, MatchOption, IfNone};
ghost use Rattle.vx_graph.specs.Rounds.{edge, marked, HasOpenReader, IsSquare, AllOpen, AllSettled, IsRound, AreApart, IsLeastFirst, Turned};

use crate::outputs::RowList;
use std::alloc::Global;
use vx_value::{ItemList, WantOfMemory};

/// The first reader in a row that isn't marked.
fn open_reader(row: &[bool], marks: &[bool]) -> Option<usize>
    requires { length row.now ≤ length marks.now }
    ensures { MatchOption result
        ((j : ℕ) → marked row.now j ≡ true → marked marks.now j ≡ true)
        (λ j. (j < length row.now) × (marked row.now j ≡ true) × (marked marks.now j ≡ false)) }
{
    for (j, reads) in row.iter().enumerate() {
        if *reads && !marks[j] {
            return Some(j);
        }
    }
    None
}

/// The first place that isn't marked while all its readers are.
fn next_settled(rows: &[ItemList<bool>], marks: &[bool]) -> Option<usize>
    requires square { IsSquare rows.now }
    requires same_len { length marks.now ≡ length rows.now }
    ensures { MatchOption result
        (AllOpen rows.now marks.now)
        (λ i. (i < length rows.now) × (marked marks.now i ≡ false)
        × ((j : ℕ) → edge rows.now i j ≡ true → marked marks.now j ≡ true)) }
{
    for (i, row) in rows.iter().enumerate() {
        if !marks[i] && open_reader(row.as_slice(), marks).is_none() {
            return Some(i);
        }
    }
    None
}

/// Marks each place from which reading ends. Each other place has a reader that isn't marked.
pub fn settled(alloc: Global, rows: &[ItemList<bool>]) -> Result<Vec<bool>, WantOfMemory>
    requires { IsSquare rows.now }
    ensures same_len { IfOk result (λ marks. length marks.items ≡ length rows.now) }
    ensures settled { IfOk result (λ marks. AllSettled rows.now marks.items) }
    ensures open { IfOk result (λ marks. AllOpen rows.now marks.items) }
{
    let mut marks = vec![in alloc; false; rows.len()]?;
    'marking: while let Some(i) = next_settled(rows, marks.as_slice()) {
        marks[i] = true;
    }
    Ok(marks)
}

/// The part of a path from the first place that is `at`.
fn from_place(alloc: Global, path: &[usize], at: usize) -> Result<Vec<usize>, WantOfMemory>
    requires { Contains path.now at }
    ensures { IfOk result
        (λ part. (k : ℕ) × (k < length path.now) × (slice_index path.now k ≡ at)
        × (part.items ≡ drop k path.now)) }
{
    for (k, place) in path.iter().enumerate() {
        if *place == at {
            let (_, part) = path.split_at(k);
            return Ok(Vec::from_slice(alloc, part)?);
        }
    }
    unreachable!()
}

/// A round among the places that aren't marked, found by going from reader to reader.
pub fn find_round(
    alloc: Global,
    rows: &[ItemList<bool>],
    marks: &[bool],
    start: usize,
) -> Result<Vec<usize>, WantOfMemory>
    requires square { IsSquare rows.now }
    requires same_len { length marks.now ≡ length rows.now }
    requires open { AllOpen rows.now marks.now }
    requires begins { start < length rows.now }
    requires unmarked { marked marks.now start ≡ false }
    ensures round { IfOk result (λ places. IsRound rows.now places.items) }
    ensures apart { IfOk result (λ places. AreApart places.items) }
{
    let mut seen = vec![in alloc; false; rows.len()]?;
    let mut path = Vec::new(alloc);
    let mut at = start;
    'walk: while !seen[at] {
        seen[at] = true;
        path.push(at)?;
        match open_reader(rows[at].as_slice(), marks) {
            Some(next) => at = next,
            None => unreachable!(),
        }
    }
    from_place(alloc, path.as_slice(), at)
}

/// The place of the least number.
fn least_place(places: &[usize]) -> usize
    requires { 0 < length places.now }
    ensures within { result < length places.now }
    ensures least { All (λ j. slice_index places.now result ≤ j) places.now }
{
    let mut least = 0;
    for (i, place) in places.iter().enumerate() {
        if *place < places[least] {
            least = i;
        }
    }
    least
}

/// Some places in the same round, the least first.
pub fn least_first(alloc: Global, places: &[usize]) -> Result<Vec<usize>, WantOfMemory>
    requires { 0 < length places.now }
    ensures turned { IfOk result (λ turned. Turned places.now turned.items) }
    ensures least { IfOk result (λ turned. IsLeastFirst turned.items) }
{
    let (front, back) = places.split_at(least_place(places));
    let mut turned = Vec::from_slice(alloc, back)?;
    turned.extend_from_slice(front)?;
    Ok(turned)
}
