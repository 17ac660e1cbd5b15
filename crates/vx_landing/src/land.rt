// How a task comes back.
ghost use Rattle.std.specs.Prelude.{◌≡◌, ◌<◌, ◌∷◌, ◌++◌, ◌||◌, is_some, is_err, true, false, length, None, Ok, IfErr, OnOk};
ghost use Rattle.vx_record.specs.Abandoning.{abandoned};
ghost use Rattle.vx_record.specs.Additions.{OnlyAdds};
ghost use Rattle.vx_record.specs.Makers.{IsFor};
ghost use Rattle.vx_tasks.specs.declared.landing.Done.{Done};
ghost use Rattle.vx_tasks.specs.Out.{HasDone, confirm_entries, lacks_cut, turn_entry};
ghost use Rattle.vx_moves.specs.Leaving.{Leaves};
ghost use Rattle.vx_moves.specs.Capacities.{IsHeldLimitOf};
ghost use Rattle.vx_moves.specs.Stands.{Stands};
ghost use Rattle.vx_ready.specs.Asking.{IsServed};
ghost use Rattle.vx_landing.specs.Failures.{LacksBirth};
ghost use Rattle.vx_landing.specs.Landings.{ComesBehind, HasComeBack, HasTask, IsNotedSo, done_entries, IsConfirmable, IsBackWith, HasLanded, IsWellLanded, is_reading, wants_memory};
ghost use Rattle.vx_landing.specs.Standing.{IsWell, AwayIsWell, LentWhileOut};

use crate::ceasing::complete_return;
use crate::landing::{
    create_cut_batch, into_cut, land_attempt, land_judged, mark_out_of_memory, mark_starved,
    note_closed, note_confirm, note_failed, note_idle, note_read,
};
use std::alloc::Global;
use vx_ends::Port;
use vx_ledger::Short;
use vx_moves::EngineState;
use vx_sourcecore::Turned;
use vx_tasks::{Confirmed, Done, Landing, Task};

/// Brings a task back: takes back what its instance holds, notes its confirm and what was done, and that it is unleased. Where the run is
/// given up, all that stands at the instance is spent as abandoned, and its port, if it has one, closed for good.
///
/// It is short of numbers or memory where a birth found none, or the work or its answer found no memory: each entry that was made
/// stands then.
pub fn accept_landing<P: Port>(
    engine: &mut EngineState<P>,
    alloc: Global,
    landing: Landing<P>,
) -> Result<(), Short>
    requires stands { Stands P.observed engine.old }
    requires served { IsServed engine.old }
    requires within { landing.instance < length engine.old.states }
    requires lent { LentWhileOut engine.old }
    requires away { AwayIsWell engine.old }
    requires done { HasDone P.observed engine.old.log landing }
    requires room { IsHeldLimitOf engine.old.log landing.instance landing.held.room }
    ensures unleased { HasComeBack P.observed landing.instance engine.old engine.new }
    ensures noted { IsNotedSo
        (is_err result || abandoned engine.old.log) landing engine.old.log engine.new.log }
    ensures marked { engine.new.run.out_of_memory ≡ (wants_memory landing.done || engine.old.run.out_of_memory) }
    ensures well { OnOk result (IsWell engine.old → IsWell engine.new) }
    ensures reason { IfErr result
        (λ short. abandoned engine.new.log ≡ false → LacksBirth engine.new.log short) }
    ensures task { is_some engine.old.run.abandoned ≡ false →
        HasTask engine.new.states landing.instance landing.task }
{
    let Landing {
        instance,
        worker: _,
        task,
        held,
        confirmed,
        done,
    } = landing;
    engine.give_back(instance, held);
    note_confirmed(engine, instance, &confirmed);
    let landed = note_done(engine, alloc, instance, &task, done);
    complete_return(engine, instance, task);
    landed
}

// Notes the confirm that was made or failed, if there was one.
fn note_confirmed<P: Port>(engine: &mut EngineState<P>, i: u32, confirmed: &Option<Confirmed>)
    requires stands { Stands P.observed engine.old }
    requires within { i < length engine.old.states }
    requires may { IsConfirmable engine.old.log i confirmed.now }
    ensures stands { Stands P.observed engine.new }
    ensures log { engine.new.log ≡ confirm_entries i confirmed.now ++ engine.old.log }
    ensures only { OnlyAdds (IsFor i) engine.old.log engine.new.log }
    ensures leaves { Leaves engine.old engine.new }
    ensures size { length engine.new.states ≡ length engine.old.states }
{
    if let Some(confirmed) = confirmed {
        note_confirm(engine, i, confirmed);
    }
}

// Notes what was done.
fn note_done<P: Port>(
    engine: &mut EngineState<P>,
    alloc: Global,
    i: u32,
    task: &Task<P>,
    done: Done,
) -> Result<(), Short>
    requires stands { Stands P.observed engine.old }
    requires within { i < length engine.old.states }
    requires back { IsBackWith P.observed engine.old i task.now done }
    ensures landed { HasLanded P.observed i task.now engine.old engine.new }
    ensures noted { OnlyAdds (ComesBehind i)
        (done_entries (is_err result || abandoned engine.old.log) engine.old.log i done
        ++ engine.old.log) engine.new.log }
    ensures marked { engine.new.run.out_of_memory ≡ (wants_memory done || engine.old.run.out_of_memory) }
    ensures well { OnOk result (IsWellLanded i engine.old engine.new) }
    ensures reason { IfErr result (LacksBirth engine.new.log) }
{
    match done {
        Done::Nothing => Ok(()),
        Done::Read(turned) => note_turn(engine, alloc, i, task, turned),
        Done::Attempted { all, sent, reply } => {
            land_attempt(engine, i, &all, sent, reply);
            Ok(())
        }
        Done::Judged(ports) => land_judged(engine, alloc, i, &ports),
        Done::Closed => {
            note_closed(engine, i);
            Ok(())
        }
        Done::OutOfMemory => {
            mark_out_of_memory(engine, i);
            Err(Short::WantOfMemory)
        }
        Done::Starved => {
            mark_starved(engine, i);
            Err(Short::WantOfMemory)
        }
    }
}

// Notes a turn of a source.
fn note_turn<P: Port>(
    engine: &mut EngineState<P>,
    alloc: Global,
    i: u32,
    task: &Task<P>,
    turned: Turned,
) -> Result<(), Short>
    requires stands { Stands P.observed engine.old }
    requires within { i < length engine.old.states }
    requires back { IsBackWith P.observed engine.old i task.now (Done.Read turned) }
    ensures landed { HasLanded P.observed i task.now engine.old engine.new }
    ensures noted { OnlyAdds (ComesBehind i)
        (turn_entry engine.old.log i turned ∷ engine.old.log) engine.new.log }
    ensures marked { engine.new.run.out_of_memory ≡ (lacks_cut turned || engine.old.run.out_of_memory) }
    ensures well { OnOk result (IsWellLanded i engine.old engine.new) }
    ensures reason { IfErr result (LacksBirth engine.new.log) }
{
    match turned {
        Turned::Idle => {
            note_idle(engine, i, false);
            Ok(())
        }
        Turned::Failed { at_start } => {
            note_failed(engine, i, at_start);
            Ok(())
        }
        turned => land_read(engine, alloc, i, task, turned),
    }
}

// Notes what a turn of a source took, and creates the batch of that. Where no memory was found to cut it, what the instance owes
// and counts isn't known any more.
fn land_read<P: Port>(
    engine: &mut EngineState<P>,
    alloc: Global,
    i: u32,
    task: &Task<P>,
    turned: Turned,
) -> Result<(), Short>
    requires stands { Stands P.observed engine.old }
    requires within { i < length engine.old.states }
    requires back { IsBackWith P.observed engine.old i task.now (Done.Read turned) }
    requires reading { is_reading turned ≡ true }
    ensures landed { HasLanded P.observed i task.now engine.old engine.new }
    ensures noted { OnlyAdds (ComesBehind i)
        (turn_entry engine.old.log i turned ∷ engine.old.log) engine.new.log }
    ensures marked { engine.new.run.out_of_memory ≡ (lacks_cut turned || engine.old.run.out_of_memory) }
    ensures well { OnOk result (IsWellLanded i engine.old engine.new) }
    ensures reason { IfErr result (LacksBirth engine.new.log) }
{
    note_read(engine, i, &turned);
    match into_cut(turned) {
        Some((stream, cut)) => match create_cut_batch(engine, alloc, i, stream, cut) {
            Ok(()) => Ok(()),
            Err(short) => Err(short),
        },
        None => {
            mark_out_of_memory(engine, i);
            Err(Short::WantOfMemory)
        }
    }
}
