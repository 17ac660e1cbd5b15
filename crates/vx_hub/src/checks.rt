// When instances that merge act by themselves.
ghost use Rattle.std.specs.Prelude.{◌≡◌, ℕ, length, slice_get, true, false, None, IfSome};
ghost use Rattle.vx_moves.specs.Stands.{Stands};
ghost use Rattle.vx_hub.specs.Standing.{IsHub, AreMergers};
ghost use Rattle.vx_hub.specs.Waiting.{SomeoneChecks, ComesBy, NoneChecksBefore};

use crate::due::sooner;
use crate::hub::Hub;
use vx_ends::Port;
use vx_keeping::Hosts;
use vx_moves::EngineState;
use vx_ready::checks_at;

impl<P: Port> Hub<P> {
    /// The soonest of the moments, in milliseconds, from which on unleased instances that merge are to act by themselves. `None`
    /// where none is to, or a call answered `Fatal`. It takes no memory, and looks at those instances alone. Of one that runs a transform
    /// which the program hands in, `hosts` alone says when it acts.
    pub fn next_check<H: Hosts>(&self, hosts: &H) -> Option<u64>
        requires { IsHub P.observed self.now }
        ensures checks { IfSome result (SomeoneChecks self.now.engine) }
        ensures only { self.now.fatal ≡ false → NoneChecksBefore self.now.engine result }
        ensures sound { self.now.fatal ≡ true → result ≡ None }
    {
        if self.fatal {
            return None;
        }
        soonest_check(&self.engine, hosts, self.mergers.as_slice())
    }
}

/// The soonest of the moments at which some instances that merge act by themselves.
fn soonest_check<P: Port, H: Hosts>(
    engine: &EngineState<P>,
    hosts: &H,
    mergers: &[u32],
) -> Option<u64>
    requires stands { Stands P.observed engine.now }
    requires mergers { AreMergers engine.now.run.plan.components
        (length engine.now.states) mergers.now }
    ensures checks { IfSome result (SomeoneChecks engine.now) }
    ensures only { (k : ℕ) → IfSome (slice_get mergers.now k) (ComesBy engine.now result) }
{
    let mut soonest = None;
    for k in 0..mergers.len() {
        soonest = sooner(soonest, checks_at(engine, hosts, mergers[k]));
    }
    soonest
}
