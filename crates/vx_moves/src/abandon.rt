ghost use Rattle.std.specs.Prelude.{◌≡◌, Some};
ghost use Rattle.vx_record.specs.declared.entry.Entry.TheVariants.{Abandon};
ghost use Rattle.vx_record.specs.Ending.{MayAbandon};
ghost use Rattle.vx_places.specs.Capacities.{SameCapacities};
ghost use Rattle.vx_moves.specs.Stands.{Stands, Steps};

use crate::engine::EngineState;
use vx_ends::Port;
use vx_record::AbandonCause;

impl<P: Port> EngineState<P> {
    /// Notes that the run is given up, and why.
    pub fn abandon(&mut self, cause: AbandonCause)
        requires stands { Stands P.observed self.old }
        requires may { MayAbandon self.old.log cause }
        ensures steps { Steps P.observed (Abandon cause) self.old self.new }
        ensures cause { self.new.run ≡ record self.old.run { abandoned = Some cause } }
        ensures capacities { SameCapacities self.old.places self.new.places }
        ensures states { self.new.states ≡ self.old.states }
    {
        self.run.abandoned = Some(cause);
        self.log.note(&cause);
    }
}
