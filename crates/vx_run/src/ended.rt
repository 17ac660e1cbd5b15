use vx_cli::Fault;
use vx_ends::World;
use vx_history::History;
use vx_hub::NumberedList;
use vx_record::{Entry, TallyList};

/// How a run ended, and what it leaves behind.
#[derive(Drop)]
pub struct Ended<W: World> {
    /// The exit status: 0 where there is no fault, else the fault's.
    pub status: u8,
    /// Why the run didn't end well.
    pub fault: Option<Fault>,
    /// What happened, entry by entry. It exists in proofs alone.
    pub history: History<Entry>,
    /// What each instance counted, in the order of their numbers. It is empty where the run didn't begin, and may be
    /// where no memory was found.
    pub tallies: TallyList,
    /// The port of each instance, in the order of their numbers; `None` for one that has no device. It is empty where the run didn't
    /// begin.
    pub ports: NumberedList<Option<W::Port>>,
    /// The world that the run was given.
    pub world: W,
}
