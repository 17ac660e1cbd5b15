// Until when nobody has work.
ghost use Rattle.std.specs.Prelude.{◌≡◌, ◌<◌, true, false, None, length};
ghost use Rattle.vx_moves.specs.Stands.{Stands};
ghost use Rattle.vx_ready.specs.Asking.{IsServed};
ghost use Rattle.vx_hub.specs.Standing.{IsHub};
ghost use Rattle.vx_hub.specs.Waiting.{IsSoonest, sooner as sooner_of};

use crate::hub::Hub;
use vx_ends::Port;
use vx_moves::EngineState;
use vx_ready::waits_until;

impl<P: Port> Hub<P> {
    /// The soonest of the moments, in milliseconds, for which unleased instances wait: a source to be read again, a sink to write a batch
    /// that will be old enough, or one that failed once more. `None` exactly where none waits, or a call answered `Fatal`, or the run was
    /// given up. It takes no memory, and looks at each instance, so it is for where nobody has work.
    pub fn due(&self) -> Option<u64>
        requires { IsHub P.observed self.now }
        ensures soonest { self.now.fatal ≡ false →
            IsSoonest self.now.engine (length self.now.engine.states) result }
        ensures sound { self.now.fatal ≡ true → result ≡ None }
    {
        if self.fatal {
            return None;
        }
        soonest(&self.engine)
    }
}

/// The soonest of the moments for which unleased instances wait.
fn soonest<P: Port>(engine: &EngineState<P>) -> Option<u64>
    requires stands { Stands P.observed engine.now }
    requires served { IsServed engine.now }
    ensures { IsSoonest engine.now (length engine.now.states) result }
{
    let mut soonest = None;
    for i in 0..engine.states.len() as u32 {
        soonest = sooner(soonest, waits_until(engine, i));
    }
    soonest
}

/// The sooner of two moments, if there are any.
pub(crate) fn sooner(a: Option<u64>, b: Option<u64>) -> Option<u64>
    ensures { result ≡ sooner_of a b }
{
    match (a, b) {
        (Some(a), Some(b)) => Some(a.min(b)),
        (Some(a), None) => Some(a),
        (None, b) => b,
    }
}
