//! The record of a run: its entries, and what they mean.
#![tactic(auto)]

mod abandon_cause;
mod child;
mod entry;
mod finality;
mod instance;
mod laws;
mod output;
mod row_laws;
mod taken;
mod tally;
mod tally_list;
mod task_laws;

pub use abandon_cause::AbandonCause;
pub use child::{Child, ChildList};
pub use entry::Entry;
pub use finality::final_laws;
pub use instance::{Instance, InstanceList, Start};
pub use laws::{
    accounted, answering, beginnings, conserved, counting, first_wiring, growth, judging,
    line_events, one_event, one_notice, one_place, routing_kept, running_status, waiting,
};
pub use output::{Output, OutputList};
pub use row_laws::{attempt_laws, end_laws, lease_laws, plan_laws, source_laws, spend_laws};
pub use taken::Taken;
pub use tally::Tally;
pub use tally_list::TallyList;
pub use task_laws::{
    own_answers, own_attempts, own_confirms, own_counts, own_leases, own_reads, own_turns, shifts,
    tasks_out,
};
