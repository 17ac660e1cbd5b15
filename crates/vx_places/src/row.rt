ghost use Rattle.std.specs.Prelude.{◌≡◌, ◌==◌, ◌<◌, ℕ, false, [], length, IfOk, IfErr, IfSome, IfNone, remove, slice_index_or};
ghost use Rattle.vx_places.specs.Numbers.{for_target, parcels_out};
ghost use Rattle.vx_places.specs.Views.{KeepsOn};
ghost use Rattle.vx_places.specs.Calls.{LosesCopy, LosesLast, NothingToLose, NoneBefore, IsNew, IsNewKeeper, IsVacant, AreEmpty, empty_stages, unless_bare};

use crate::line::Line;
use crate::lost::Lost;
use std::alloc::Global;
use std::collections::VecDeque;
use vx_ledger::{Child, Finalizer, Finalizers, Parcel, SharedEvent};
use vx_transform::Output;
use vx_value::WantOfMemory;

/// The parcels of an instance.
pub struct Row {
    /// What it put out, the oldest first.
    pub outputs: Line<Output>,
    /// Its children that wait for a target, in the order in which their split made them.
    pub waiting: VecDeque<Child>,
    /// Its buffer, stage by stage.
    pub stages: Vec<Line<Parcel>>,
    /// What it holds, the oldest first. `None` while that is lent, as it is for ever where a keeper elsewhere has it.
    pub held: Option<Line<Parcel>>,
}

// Ends stages that are empty.
fn end_stages(stages: Vec<Line<Parcel>>)
    requires { AreEmpty stages.items }
{
    let mut rest = stages;
    while let Some(stage) = rest.pop() {
        stage.end();
    }
    rest.destroy_empty();
}

// Empty stages with so much room each.
fn make_stages(alloc: Global, capacities: &[usize]) -> Result<Vec<Line<Parcel>>, WantOfMemory>
    ensures { IfOk result (λ stages. stages.items ≡ empty_stages capacities.now) }
{
    let mut stages = Vec::with_capacity(alloc, capacities.len())?;
    for room in capacities {
        match Line::with_room(alloc, *room) {
            Ok(stage) => stages.push_reserved(stage),
            Err(WantOfMemory) => {
                end_stages(stages);
                return Err(WantOfMemory);
            }
        }
    }
    Ok(stages)
}

// An instance at which nothing stands, with so much room for what it holds.
pub(crate) fn make_row(
    alloc: Global,
    capacities: &[usize],
    held: usize,
) -> Result<Row, WantOfMemory>
    ensures { IfOk result (IsNew capacities.now held) }
{
    let stages = make_stages(alloc, capacities)?;
    match Line::with_room(alloc, held) {
        Ok(line) => Ok(Row {
            outputs: Line::new(alloc),
            waiting: VecDeque::new(alloc),
            stages,
            held: Some(line),
        }),
        Err(WantOfMemory) => {
            end_stages(stages);
            Err(WantOfMemory)
        }
    }
}

// The same with a keeper elsewhere, which has what the instance holds.
pub(crate) fn make_keeper_row(alloc: Global, capacities: &[usize]) -> Result<Row, WantOfMemory>
    ensures { IfOk result (IsNewKeeper capacities.now) }
{
    let stages = make_stages(alloc, capacities)?;
    Ok(Row {
        outputs: Line::new(alloc),
        waiting: VecDeque::new(alloc),
        stages,
        held: None,
    })
}

// What is left of a parcel. Where that is nothing, it is ended.
fn rest_of(event: SharedEvent, left: Finalizers) -> Option<Parcel>
    ensures { result ≡ unless_bare event left }
{
    if left.is_empty() {
        left.end();
        None
    } else {
        Some(Parcel {
            event,
            finalizers: left,
        })
    }
}

// Takes the last copy of a parcel, and gives what is left of it, which is nothing where that was its only one. A parcel without a
// copy comes back.
fn take_last(parcel: Parcel) -> Result<(Finalizer, Option<Parcel>), Parcel>
    ensures loses { IfOk result (λ taken. LosesLast taken.0 parcel taken.1) }
    ensures bare { IfErr result (λ back. (back ≡ parcel) × (parcel.finalizers ≡ [])) }
{
    let Parcel {
        event,
        mut finalizers,
    } = parcel;
    match finalizers.pop() {
        None => Err(Parcel { event, finalizers }),
        Some(copy) => Ok((copy, rest_of(event, finalizers))),
    }
}

// Takes the last copy of the oldest parcel, and ends the parcel where it was the only one. `None` where there is no parcel, or the
// oldest has no copy.
pub(crate) fn take_copy(line: &mut Line<Parcel>) -> Option<Lost>
    ensures loses { IfSome result
        (λ lost. LosesCopy lost.copy lost.last line.old.items line.new.items) }
    ensures room { line.new.room ≡ line.old.room }
    ensures none { IfNone result (line.new ≡ line.old) }
    ensures empty { IfNone result (NothingToLose line.old.items) }
{
    match take_last(line.pop()?) {
        Ok((copy, left)) => match left {
            Some(parcel) => {
                line.put_back(parcel);
                Some(Lost { copy, last: false })
            }
            None => Some(Lost { copy, last: true }),
        },
        Err(parcel) => {
            line.put_back(parcel);
            None
        }
    }
}

// The same of the oldest output. What is left of it stays on its ports.
pub(crate) fn take_output_copy(line: &mut Line<Output>) -> Option<Lost>
    ensures loses { IfSome result
        (λ lost. LosesCopy lost.copy lost.last (parcels_out line.old.items)
        (parcels_out line.new.items)) }
    ensures on { KeepsOn line.old.items line.new.items }
    ensures room { line.new.room ≡ line.old.room }
    ensures none { IfNone result (line.new ≡ line.old) }
    ensures empty { IfNone result (NothingToLose (parcels_out line.old.items)) }
{
    let Output { ports, parcel } = line.pop()?;
    match take_last(parcel) {
        Ok((copy, left)) => match left {
            Some(parcel) => {
                line.put_back(Output { ports, parcel });
                Some(Lost { copy, last: false })
            }
            None => Some(Lost { copy, last: true }),
        },
        Err(parcel) => {
            line.put_back(Output { ports, parcel });
            None
        }
    }
}

// Ends the waiting child at a place, of which no copy is left.
fn end_child(waiting: &mut VecDeque<Child>, k: usize)
    requires within { k < length waiting.old.items }
    requires bare { (child : Child) → child ≡ slice_index_or waiting.old.items k child →
        child.parcel.finalizers ≡ [] }
    ensures { waiting.new.items ≡ remove waiting.old.items k }
{
    match waiting.remove(k) {
        Some(Child { target: _, parcel }) => {
            let Parcel {
                event: _,
                finalizers,
            } = parcel;
            finalizers.end();
        }
        None => unreachable!(),
    }
}

// Takes the last copy of the waiting child at a place, the oldest for its target, and ends the child where it was the only one.
// `None` where it has no copy.
pub(crate) fn take_child_copy(waiting: &mut VecDeque<Child>, k: usize, target: u32) -> Option<Lost>
    requires { NoneBefore target k waiting.old.items }
    ensures loses { IfSome result
        (λ lost. LosesCopy lost.copy lost.last (for_target target waiting.old.items)
        (for_target target waiting.new.items)) }
    ensures others { (t : ℕ) → (target == t) ≡ false →
        for_target t waiting.new.items ≡ for_target t waiting.old.items }
    ensures none { IfNone result (waiting.new ≡ waiting.old) }
    ensures empty { IfNone result (NothingToLose (for_target target waiting.old.items)) }
{
    let copy = waiting[k].parcel.finalizers.pop()?;
    let last = waiting[k].parcel.finalizers.is_empty();
    if last {
        end_child(waiting, k);
    }
    Some(Lost { copy, last })
}

// Ends the row of an instance at which nothing stands that isn't lent.
pub(crate) fn end_row(row: Row)
    requires { IsVacant row }
{
    let Row {
        outputs,
        waiting,
        stages,
        held,
    } = row;
    outputs.end();
    waiting.destroy_empty();
    end_stages(stages);
    match held {
        Some(held) => held.end(),
        None => {}
    }
}
