use vx_condition::{Condition, PathList, StrategyList};

/// How events are merged into groups.
#[derive(Drop)]
pub struct ReduceSettings {
    /// The paths whose values tell groups apart.
    pub group_by: PathList,
    /// An event of which this holds begins a group.
    pub starts_when: Option<Condition>,
    /// An event of which this holds ends the group that it is in.
    pub ends_when: Option<Condition>,
    /// So many milliseconds after its last event a check puts a group out.
    pub expire_after_ms: u64,
    /// So many milliseconds after a check the next one is due.
    pub flush_period_ms: u64,
    /// How fields are merged.
    pub strategies: StrategyList,
}
