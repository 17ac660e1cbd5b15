//! What stays of a task that is out, and what its hub may note of it. The function does nothing: what it ensures is proved.

ghost use Rattle.vx_tasks.specs.Laws.{TaskLaws};

use vx_ends::Port;

/// A task that is out is kept by whatever spares it: it stays as it left, and as it will come back. Of an attempt that
/// starved the port tells more than the record will have. A sink batch that is closed stays so where no birth is due. What a
/// transform judged may be answered: each parcel that it holds is put out on its ports, or stays and is discarded, and what it keeps
/// stands for that too.
pub fn task_laws<P: Port>()
    ensures { TaskLaws P.observed }
{}
