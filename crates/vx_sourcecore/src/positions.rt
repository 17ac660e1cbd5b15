ghost use Rattle.std.specs.Prelude.{◌≡◌, ◌++◌, ◌∷◌, [], IfOk, OnOk};
ghost use Rattle.vx_record.specs.Confirms.{moved_to, same_positions};
ghost use Rattle.vx_sourcecore.specs.Prefixes.{NoneBelow};

use std::alloc::Global;
use vx_ends::{Position, PositionList};
use vx_value::WantOfMemory;

/// Positions with one more, which takes the place of its stream's older one. Streams rise.
pub(crate) fn moved(
    alloc: Global,
    positions: &[Position],
    to: Position,
) -> Result<PositionList, WantOfMemory>
    ensures { IfOk result (λ moved. moved ≡ moved_to to.stream to.end positions.now) }
{
    let mut before = PositionList::new(alloc);
    let mut rest = positions;
    while let Some((first, behind)) = rest.split_first() {
        if first.stream >= to.stream {
            return placed(before, to, rest);
        }
        push(&mut before, *first)?;
        rest = behind;
    }
    placed(before, to, rest)
}

/// Some positions, and behind them a position and those of later streams.
fn placed(
    before: PositionList,
    to: Position,
    rest: &[Position],
) -> Result<PositionList, WantOfMemory>
    requires { NoneBelow to.stream rest.now }
    ensures { IfOk result (λ moved. moved ≡ before ++ moved_to to.stream to.end rest.now) }
{
    let mut moved = before;
    push(&mut moved, to)?;
    match rest.split_first() {
        Some((first, behind)) if first.stream == to.stream => append(&mut moved, behind)?,
        _ => append(&mut moved, rest)?,
    }
    Ok(moved)
}

/// Whether two lists have the same positions.
pub(crate) fn same(a: &[Position], b: &[Position]) -> bool
    ensures { result ≡ same_positions a.now b.now }
{
    let (mut left, mut right) = (a, b);
    while let Some((p, behind)) = left.split_first() {
        match right.split_first() {
            Some((q, further)) if p.stream == q.stream && p.end == q.end => {
                left = behind;
                right = further;
            }
            _ => return false,
        }
    }
    right.is_empty()
}

/// Adds some positions.
fn append(list: &mut PositionList, more: &[Position]) -> Result<(), WantOfMemory>
    ensures { OnOk result (list.new ≡ list.old ++ more.now) }
{
    let mut rest = more;
    while let Some((first, behind)) = rest.split_first() {
        push(list, *first)?;
        rest = behind;
    }
    Ok(())
}

/// Adds a position.
fn push(list: &mut PositionList, position: Position) -> Result<(), WantOfMemory>
    ensures { OnOk result (list.new ≡ list.old ++ position ∷ []) }
{
    match list.push(position) {
        Ok(()) => Ok(()),
        Err(_) => Err(WantOfMemory),
    }
}
