//! The laws of every plan. A law's function does nothing: what it ensures is proved.

ghost use Rattle.vx_plan.specs.Accepted.{IsPlan};
ghost use Rattle.vx_plan.specs.First.{first_plan};
ghost use Rattle.vx_plan.specs.GraphTargets.{TargetsOfGraph};
ghost use Rattle.vx_plan.specs.Chains.{ChainAcknowledged, AcknowledgedOn};

/// A source's batches wait exactly where a chain of targets leads from it to a sink that acknowledges: where it is such a
/// sink itself, or those of one of its targets would wait.
pub fn acknowledged_chains()
    ensures chain { ChainAcknowledged }
    ensures on { AcknowledgedOn }
{}

/// The plan of standard input to standard output may be installed.
pub fn first_plan_stands()
    ensures { IsPlan first_plan }
{}

/// The targets of a component's port are its readers in the graph of the plan.
pub fn graph_targets()
    ensures { TargetsOfGraph }
{}
