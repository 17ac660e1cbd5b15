ghost use Rattle.std.specs.Prelude.{◌≡◌, ◌<◌, length, true, false, Some, IsSome};
ghost use Rattle.vx_record.specs.declared.entry.Entry.TheVariants.{Home};
ghost use Rattle.vx_record.specs.Abandoning.{MayStillCome};
ghost use Rattle.vx_record.specs.Places.Place.{Held};
ghost use Rattle.vx_record.specs.Turns.{is_out};
ghost use Rattle.vx_places.specs.Views.{parcels_here};
ghost use Rattle.vx_places.specs.Capacities.{SameCapacities};
ghost use Rattle.vx_tasks.specs.Joining.{joins_at};
ghost use Rattle.vx_instances.specs.Calls.{HasTaskBack};
ghost use Rattle.vx_instances.specs.Staying.{OneState};
ghost use Rattle.vx_moves.specs.Returns.{IsReturned};
ghost use Rattle.vx_moves.specs.Stands.{Stands, Steps};

use crate::engine::EngineState;
use vx_ends::Port;
use vx_tasks::Task;

impl<P: Port> EngineState<P> {
    /// Brings an instance back with its task.
    pub fn return_task(&mut self, i: u32, task: Task<P>)
        requires stands { Stands P.observed self.old }
        requires within { i < length self.old.states }
        requires out { is_out self.old.log i ≡ true }
        requires left { MayStillCome self.old.log (Home i) }
        requires kept { joins_at self.old.log i ≡ false →
            IsSome (parcels_here self.old.places (Held i)) }
        requires back { HasTaskBack P.observed self.old.states self.old.log i task }
        requires returned { self.old.run.out_of_memory ≡ false → IsReturned self.old.log i }
        ensures steps { Steps P.observed (Home i) self.old self.new }
        ensures back { OneState (λ was is. is ≡ record was { task = Some task }) i self.old.states
            self.new.states }
        ensures capacities { SameCapacities self.old.places self.new.places }
        ensures run { self.new.run ≡ self.old.run }
    {
        self.states.arrive(i, task);
        self.log.note(&i);
    }
}
