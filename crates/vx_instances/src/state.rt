ghost use Rattle.std.specs.Prelude.{◌≡◌, IfSome, IfNone, None, if◌then◌else◌};
ghost use Rattle.vx_instances.specs.Calls.{Leaves, Shuts};

use crate::facts::{Batching, Facts};
use crate::progress::Progress;
use vx_counts::Counts;
use vx_ends::{Port, PositionList};
use vx_ledger::Outlet;
use vx_plan::Class;
use vx_tasks::Task;
use vx_value::Text;

/// An instance: what its component says, what is known of it, and its task unless that is out.
#[derive(Drop)]
pub struct InstanceState<P> {
    /// The name of its component.
    pub name: Text,
    pub class: Class,
    /// Whether the component works with a port.
    pub device: bool,
    /// The instances that read each of its ports, in the order of the ports, and in byte order of their components' names.
    pub outlet: Outlet,
    /// How it collects, if it is a sink.
    pub batching: Option<Batching>,
    /// How long it rests behind a read, if it is a source, in milliseconds.
    pub interval: u64,
    pub facts: Facts,
    pub progress: Progress,
    pub counts: Counts,
    /// Its port, and what it does with that; `None` while a worker has them.
    pub task: Option<Task<P>>,
}

/// Takes the task of a state along at a moment, with what is to be confirmed to its port. Where the component has none, that is let go.
pub(crate) fn take_task<P>(
    state: &mut InstanceState<P>,
    now: u64,
) -> Option<(Task<P>, Option<PositionList>)>
    ensures some { IfSome result (λ r. Leaves now state.old state.new r.0 r.1) }
    ensures none { IfNone result (state.old.task ≡ None) }
    ensures same { IfNone result (state.new ≡ state.old) }
{
    match state.task.take() {
        Some(task) => {
            let positions = state.progress.prefix.take_due();
            state.facts.leased_at = now;
            Some((task, for_device(state.device, positions)))
        }
        None => None,
    }
}

/// What is to be confirmed, if there is a port for that.
fn for_device(device: bool, positions: Option<PositionList>) -> Option<PositionList>
    ensures { result ≡ (if device then positions else None) }
{
    if device { positions } else { None }
}

/// Closes the port of a state, if its task is unleased.
pub(crate) fn shut_port<P: Port>(state: &mut InstanceState<P>)
    ensures { Shuts P.observed state.old state.new }
{
    if let Some(task) = &mut state.task {
        task.port.close();
    }
}
