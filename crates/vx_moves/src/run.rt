use vx_plan::Plan;
use vx_record::AbandonCause;

/// What is known of the run as a whole.
#[derive(Drop)]
pub struct Run {
    /// The plan that is in force.
    pub plan: Plan,
    /// Why the run was abandoned.
    pub abandoned: Option<AbandonCause>,
    /// The moment of the Install, and from the first lease on that of the last one, in milliseconds.
    pub latest: u64,
    /// Whether the caller marked the run as short of memory. Until then, what came back had done what it was asked to.
    pub out_of_memory: bool,
}
