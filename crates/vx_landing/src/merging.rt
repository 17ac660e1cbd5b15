// What an instance does that merges: it is leased, does what there is to do, and is unleased again.
ghost use Rattle.std.specs.Prelude.{◌≡◌, ◌<◌, ◌≤◌, [], length, true, false, IfErr, OnErr, OnOk};
ghost use Rattle.vx_record.specs.Additions.{OnlyAdds};
ghost use Rattle.vx_record.specs.Inputs.{unanswered};
ghost use Rattle.vx_record.specs.Owing.{owes_discards};
ghost use Rattle.vx_record.specs.Turns.{since_lease};
ghost use Rattle.vx_ledger.specs.declared.short.Short.TheVariants.{WantOfMemory as NoMemory};
ghost use Rattle.vx_tasks.specs.Joining.{joins_at};
ghost use Rattle.vx_moves.specs.Leaving.{Leaves};
ghost use Rattle.vx_moves.specs.Merging.{IsMergeOf};
ghost use Rattle.vx_moves.specs.Stands.{Stands};
ghost use Rattle.vx_ready.specs.Asking.{IsServed};
ghost use Rattle.vx_ready.specs.Jobs.{IsLeasable};
ghost use Rattle.vx_landing.specs.Landings.{IsOwingNow};
ghost use Rattle.vx_landing.specs.Merging.{HasInputs, HasMerged, HasTakenOne, HasWorked, HasWorkedWell, IsMergeStep, IsMerging, IsTaking};
ghost use Rattle.vx_landing.specs.Standing.{AwayIsWell, IsWell, LentWhileOut};

use std::alloc::Global;
use vx_ends::Port;
use vx_keeping::Hosts;
use vx_ledger::Short;
use vx_moves::EngineState;
use vx_ready::{is_check_due, must_flush};
use vx_value::WantOfMemory;

/// How many parcels one lease takes from a buffer at the most.
const TAKES: u32 = 64;

/// Has an instance that merges do what there is to do at a moment, in milliseconds, in the name of a worker. It is leased, takes what
/// is buffered, and answers that; then it puts out all that it holds if nothing more can come, or acts by itself if its check is due.
/// What it discards is spent. Then it is unleased again, with the task that it had.
///
/// For want of memory it answers nothing, and what it owes isn't known any more.
pub fn merge<P: Port, H: Hosts>(
    engine: &mut EngineState<P>,
    alloc: Global,
    hosts: &mut H,
    i: u32,
    worker: u32,
    now: u64,
) -> Result<(), Short>
    requires stands { Stands P.observed engine.old }
    requires served { IsServed engine.old }
    requires within { i < length engine.old.states }
    requires joins { joins_at engine.old.log i ≡ true }
    requires leasable { IsLeasable engine.old i now }
    requires latest { engine.old.run.latest ≤ now }
    requires lent { LentWhileOut engine.old }
    requires away { AwayIsWell engine.old }
    ensures merged { HasMerged P.observed i worker now engine.old engine.new }
    ensures answered { OnOk result (unanswered engine.new.log i ≡ []) }
    ensures well { OnOk result (IsWell engine.old → IsWell engine.new) }
    ensures short { IfErr result (λ short. short ≡ NoMemory) }
{
    let (task, _positions) = engine.lease(i, worker, now);
    let worked = work(engine, alloc, hosts, i, now);
    engine.return_task(i, task);
    worked
}

// Has an instance do what there is to do that was leased at a moment. For want of memory what it owes isn't known any more.
fn work<P: Port, H: Hosts>(
    engine: &mut EngineState<P>,
    alloc: Global,
    hosts: &mut H,
    i: u32,
    now: u64,
) -> Result<(), Short>
    requires stands { Stands P.observed engine.old }
    requires served { IsServed engine.old }
    requires within { i < length engine.old.states }
    requires taking { IsTaking engine.old.log i now }
    requires fresh { length (since_lease engine.old.log i) ≡ 0 }
    requires bare { unanswered engine.old.log i ≡ [] }
    ensures worked { HasWorked P.observed i engine.old engine.new }
    ensures well { OnOk result (HasWorkedWell i engine.old engine.new) }
    ensures owing { OnErr result (IsOwingNow i engine.old.states engine.new.states) }
    ensures short { IfErr result (λ short. short ≡ NoMemory) }
{
    let took = take_inputs(engine, i, now);
    match answer(engine, alloc, hosts, i, now, took) {
        Ok(()) => Ok(()),
        Err(WantOfMemory) => {
            engine.states.owed(i);
            Err(Short::WantOfMemory)
        }
    }
}

// Takes what is buffered, until nothing is, its keeper has no room, or so many were taken as one lease takes. Whether anything was
// taken. It takes no memory.
fn take_inputs<P: Port>(engine: &mut EngineState<P>, i: u32, now: u64) -> bool
    requires stands { Stands P.observed engine.old }
    requires within { i < length engine.old.states }
    requires taking { IsTaking engine.old.log i now }
    requires fresh { length (since_lease engine.old.log i) ≡ 0 }
    ensures stands { Stands P.observed engine.new }
    ensures taking { IsTaking engine.new.log i now }
    ensures some { result ≡ true → HasInputs engine.new.log i }
    ensures none { result ≡ false → engine.new ≡ engine.old }
    ensures only { OnlyAdds (IsMergeStep i) engine.old.log engine.new.log }
    ensures leaves { Leaves engine.old engine.new }
    ensures size { length engine.new.states ≡ length engine.old.states }
{
    for taken in 0..TAKES {
        if !take_input(engine, i, now) {
            return taken > 0;
        }
    }
    true
}

// Takes one more parcel; `false` where there is none to take, or no room for it.
fn take_input<P: Port>(engine: &mut EngineState<P>, i: u32, now: u64) -> bool
    requires stands { Stands P.observed engine.old }
    requires within { i < length engine.old.states }
    requires taking { IsTaking engine.old.log i now }
    requires few { length (since_lease engine.old.log i) < 64 }
    ensures took { result ≡ true → HasTakenOne P.observed i now engine.old engine.new }
    ensures none { result ≡ false → engine.new ≡ engine.old }
{
    if !engine.has_kept_room(i) {
        return false;
    }
    match engine.places.first_filled(i) {
        Some(stage) => {
            engine.take_kept(i, stage, now);
            true
        }
        None => false,
    }
}

// Answers what was taken, if anything was. Then it puts out all that it holds if nothing more can come, or acts by itself if its check
// is due. What it discards is spent.
fn answer<P: Port, H: Hosts>(
    engine: &mut EngineState<P>,
    alloc: Global,
    hosts: &mut H,
    i: u32,
    now: u64,
    took: bool,
) -> Result<(), WantOfMemory>
    requires stands { Stands P.observed engine.old }
    requires served { IsServed engine.old }
    requires within { i < length engine.old.states }
    requires taking { IsTaking engine.old.log i now }
    requires some { took ≡ true → HasInputs engine.old.log i }
    requires none { took ≡ false → unanswered engine.old.log i ≡ [] }
    ensures stands { Stands P.observed engine.new }
    ensures only { OnlyAdds (IsMergeOf i) engine.old.log engine.new.log }
    ensures answered { OnOk result (unanswered engine.new.log i ≡ []) }
    ensures spent { OnOk result (owes_discards engine.new.log i ≡ false) }
    ensures leaves { Leaves engine.old engine.new }
    ensures size { length engine.new.states ≡ length engine.old.states }
{
    if !took {
        return act(engine, alloc, hosts, i, now);
    }
    match engine.merge_taken(alloc, hosts, i, now) {
        Ok(()) => act(engine, alloc, hosts, i, now),
        Err(WantOfMemory) => Err(WantOfMemory),
    }
}

// Has an instance that answered all that it took put out all that it holds if nothing more can come, or act by itself if its check is
// due. What it discards is spent.
fn act<P: Port, H: Hosts>(
    engine: &mut EngineState<P>,
    alloc: Global,
    hosts: &mut H,
    i: u32,
    now: u64,
) -> Result<(), WantOfMemory>
    requires stands { Stands P.observed engine.old }
    requires served { IsServed engine.old }
    requires within { i < length engine.old.states }
    requires merging { IsMerging engine.old.log i now }
    requires none { unanswered engine.old.log i ≡ [] }
    requires spent { owes_discards engine.old.log i ≡ false }
    ensures stands { Stands P.observed engine.new }
    ensures only { OnlyAdds (IsMergeOf i) engine.old.log engine.new.log }
    ensures answered { OnOk result (unanswered engine.new.log i ≡ []) }
    ensures spent { OnOk result (owes_discards engine.new.log i ≡ false) }
    ensures leaves { Leaves engine.old engine.new }
    ensures size { length engine.new.states ≡ length engine.old.states }
{
    if must_flush(engine, i) {
        return engine.merge_flush(alloc, hosts, i, now);
    }
    if is_check_due(engine, hosts, i, now) {
        return engine.merge_tick(alloc, hosts, i, now);
    }
    Ok(())
}
