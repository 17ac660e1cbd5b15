// What is done at an instance that comes back after the run was given up.
ghost use Rattle.std.specs.Prelude.{◌≡◌, ◌<◌, [], ◌∷◌, length, is_some, true, false, Some, IsSome, ℕ};
ghost use Rattle.vx_record.specs.declared.entry.Entry.TheVariants.{Home};
ghost use Rattle.vx_record.specs.Abandoning.{abandoned};
ghost use Rattle.vx_record.specs.Additions.{OnlyAdds};
ghost use Rattle.vx_record.specs.Installs.{device_at, is_closed};
ghost use Rattle.vx_record.specs.Makers.{IsFor};
ghost use Rattle.vx_record.specs.Places.{Place, owner};
ghost use Rattle.vx_record.specs.Places.Place.{Held};
ghost use Rattle.vx_record.specs.Shifts.{at};
ghost use Rattle.vx_record.specs.Turns.{is_out};
ghost use Rattle.vx_instances.specs.Calls.{IsShutAt, HasTaskBack, IsBack};
ghost use Rattle.vx_instances.specs.declared.facts.Facts.{Facts};
ghost use Rattle.vx_record.specs.Records.{Record};
ghost use Rattle.vx_instances.specs.Staying.{EachState, OneState, SameFlags};
ghost use Rattle.vx_places.specs.Capacities.{SameCapacities};
ghost use Rattle.vx_places.specs.Views.{parcels_here};
ghost use Rattle.vx_moves.specs.Returns.{IsReturned};
ghost use Rattle.vx_moves.specs.Leaving.{Leaves};
ghost use Rattle.vx_moves.specs.Stands.{Stands, Steps};
ghost use Rattle.vx_landing.specs.Landings.{ComesBehind, HasTask};

use vx_ends::Port;
use vx_moves::EngineState;
use vx_ready::has_device;
use vx_tasks::Task;

// Gives up all that stands at an instance that is unleased, its port shut, where the run is given up, and closes its port, if it
// has one, for good.
pub(crate) fn cease<P: Port>(engine: &mut EngineState<P>, i: u32)
    requires stands { Stands P.observed engine.old }
    requires within { i < length engine.old.states }
    requires over { abandoned engine.old.log ≡ true }
    requires unleased { is_out engine.old.log i ≡ false }
    requires shut { IsShutAt P.observed engine.old.states i }
    ensures stands { Stands P.observed engine.new }
    ensures only { OnlyAdds (IsFor i) engine.old.log engine.new.log }
    ensures behind { OnlyAdds (ComesBehind i) engine.old.log engine.new.log }
    ensures leaves { Leaves engine.old engine.new }
    ensures size { length engine.new.states ≡ length engine.old.states }
    ensures unleased { is_out engine.new.log i ≡ false }
    ensures bare { (p : Place) → owner p ≡ i → at engine.new.log p ≡ [] }
    ensures closed { device_at engine.new.log i ≡ true → is_closed engine.new.log i ≡ true }
{
    engine.give_up(i);
    if has_device(engine, i) && !engine.states.get(i).facts.closed {
        engine.close(i);
    }
}

// Brings an instance back with its task.
pub(crate) fn note_return<P: Port>(engine: &mut EngineState<P>, i: u32, task: Task<P>)
    requires stands { Stands P.observed engine.old }
    requires within { i < length engine.old.states }
    requires out { is_out engine.old.log i ≡ true }
    requires kept { IsSome (parcels_here engine.old.places (Held i)) }
    requires back { HasTaskBack P.observed engine.old.states engine.old.log i task }
    requires returned { engine.old.run.out_of_memory ≡ false → IsReturned engine.old.log i }
    ensures steps { Steps P.observed (Home i) engine.old engine.new }
    ensures only { OnlyAdds (IsFor i) engine.old.log engine.new.log }
    ensures behind { OnlyAdds (ComesBehind i) engine.old.log engine.new.log }
    ensures unleased { is_out engine.new.log i ≡ false }
    ensures back { OneState (λ was is. is ≡ record was { task = Some task }) i engine.old.states
        engine.new.states }
    ensures capacities { SameCapacities engine.old.places engine.new.places }
    ensures run { engine.new.run ≡ engine.old.run }
{
    engine.return_task(i, task);
}

// Brings an instance back with its task. Where the run is given up its port is closed before, and all that stands at it is given up
// behind.
pub(crate) fn complete_return<P: Port>(engine: &mut EngineState<P>, i: u32, task: Task<P>)
    requires stands { Stands P.observed engine.old }
    requires within { i < length engine.old.states }
    requires out { is_out engine.old.log i ≡ true }
    requires kept { IsSome (parcels_here engine.old.places (Held i)) }
    requires back { HasTaskBack P.observed engine.old.states engine.old.log i task }
    requires returned { engine.old.run.out_of_memory ≡ false → IsReturned engine.old.log i }
    ensures stands { Stands P.observed engine.new }
    ensures only { OnlyAdds (IsFor i) engine.old.log engine.new.log }
    ensures behind { OnlyAdds (ComesBehind i) engine.old.log engine.new.log }
    ensures size { length engine.new.states ≡ length engine.old.states }
    ensures capacities { SameCapacities engine.old.places engine.new.places }
    ensures run { engine.new.run ≡ engine.old.run }
    ensures flags { EachState SameFlags engine.old.states engine.new.states }
    ensures unleased { is_out engine.new.log i ≡ false }
    ensures noted { abandoned engine.old.log ≡ false → engine.new.log ≡ Home i ∷ engine.old.log }
    ensures bare { abandoned engine.old.log ≡ true → (p : Place) → owner p ≡ i →
        at engine.new.log p ≡ [] }
    ensures closed { abandoned engine.old.log ≡ true → device_at engine.new.log i ≡ true →
        is_closed engine.new.log i ≡ true }
    ensures task { is_some engine.old.run.abandoned ≡ false → HasTask engine.new.states i task }
{
    if engine.run.abandoned.is_none() {
        note_return(engine, i, task);
    } else {
        note_return(engine, i, shut(task));
        cease(engine, i);
    }
}

// Closes the port of a task.
fn shut<P: Port>(task: Task<P>) -> Task<P>
    ensures shut { (P.observed result.port).started ≡ false }
    ensures back { (f : Facts) (h : Record) (i : ℕ) → IsBack P.observed f h i task →
        IsBack P.observed f h i result }
{
    let Task { mut port, role } = task;
    port.close();
    Task { port, role }
}
