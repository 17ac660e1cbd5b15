use crate::run::Run;
use vx_balance::Balance;
use vx_ends::Port;
use vx_history::History;
use vx_instances::InstanceStates;
use vx_keeping::Keeper;
use vx_places::Places;
use vx_record::Entry;

/// Where parcels stand, what is known of each instance, which batches are open, what is known of the run, and what happened.
///
/// It can't be dropped, since parcels stand in it.
pub struct EngineState<P: Port> {
    pub places: Places,
    /// What each instance keeps that merges, by its number; none in the places of the others.
    pub keepers: Vec<Option<Keeper>>,
    pub states: InstanceStates<P>,
    pub balance: Balance,
    pub run: Run,
    /// The record, which exists in proofs alone.
    pub log: History<Entry>,
}
