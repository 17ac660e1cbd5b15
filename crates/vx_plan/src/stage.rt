use crate::when_full::WhenFull;
use vx_value::ItemList;

/// One stage of a buffer.
#[derive(Clone, Copy, PartialEq, Eq, Debug)]
pub struct Stage {
    /// For how many events it has room: 1 to 1,000,000.
    pub max_events: u32,
    /// What it does when it is full.
    pub when_full: WhenFull,
}

/// The stages of a buffer, in the order in which they are tried.
pub type StageList = ItemList<Stage>;
