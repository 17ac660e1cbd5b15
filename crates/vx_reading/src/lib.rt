//! A configuration is read: a text and an environment give a plan, or the first fault.
#![tactic(auto)]

mod adding;
mod diagnostic;
mod diagnostic_options;
mod diagnostic_parts;
mod diagnostic_stages;
mod diagnostics;
mod exclusion;
mod fields;
mod first;
mod given;
mod graphs;
mod item;
mod judging;
mod kind;
mod laws;
mod merging;
mod options;
mod owner;
mod pair;
mod part;
mod paths;
mod place;
mod placed;
mod plan_fault;
mod plans;
mod reading;
mod refusals;
mod row;
mod shape;
mod spot;
mod stages;
mod texts;
mod tried;
mod trouble;
mod values;

pub use laws::{few_components, first_configuration, one_answer};
pub use plan_fault::PlanFault;
pub use reading::{ReadPlan, read_plan};
pub use tried::ConditionLists;
