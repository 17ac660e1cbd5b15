ghost use Rattle.std.specs.Prelude.{◌≡◌, Bool, IfOk};
ghost use Rattle.vx_value.specs.Texts.{ByteString};
ghost use Rattle.toml.specs.View.{view};
ghost use Rattle.vx_plan.specs.Accepted.{IsPlan};
ghost use Rattle.vx_reading.specs.Components.{parts};
ghost use Rattle.vx_reading.specs.Names.{AreApart, names_of};
ghost use Rattle.vx_reading.specs.Views.{parts_view};
ghost use Rattle.vx_reading.specs.Reading.{IsRightlyJudged, IsTextRead, IsReading};
ghost use Rattle.vx_reading.specs.Answers.{plan_in, HasConditions, IsFound};

use crate::diagnostic::DiagnosticList;
use crate::diagnostics::diagnostics;
use crate::first::first;
use crate::graphs::nodes_of;
use crate::part::{Part, parts};
use crate::plan_fault::PlanFault;
use crate::plans::{components_of, global_of};
use crate::refusals::push_refusals;
use crate::tried::{ConditionLists, Tried, try_all};
use std::alloc::Global;
use toml::Value;
use vx_graph::{GraphFault, check};
use vx_plan::{ComponentList, Global as Options, Plan};
use vx_subst::{SubstFault, replace};
use vx_value::{VariableList, WantOfMemory};

/// What was read: a plan, and the conditions of each of its components.
#[derive(Drop)]
pub struct ReadPlan {
    pub plan: Plan,
    /// The conditions of each component of the plan, in order: of a filter one, of a route one for each way, of a sample or a reduce the
    /// one that it may have, and none of others.
    pub conditions: ConditionLists,
}

/// What was found in a document: its options, its components with their conditions, and each fault.
#[derive(Drop)]
struct Found {
    global: Options,
    components: ComponentList,
    conditions: ConditionLists,
    diagnostics: DiagnosticList,
}

/// The plan of a document.
fn read_root(alloc: Global, root: &Value) -> Result<ReadPlan, PlanFault>
    ensures judged { (refuses : ByteString → Bool)
        × IsRightlyJudged refuses (view root.now) (plan_in result) }
    ensures conditions { IfOk result HasConditions }
    ensures apart { IfOk result (λ read. AreApart (names_of read.plan.components)) }
    ensures accepted { IfOk result (λ read. IsPlan read.plan) }
{
    let all = parts(alloc, root)?;
    read_parts(alloc, root, all.as_slice())
}

/// What is found in a document that has these components.
fn find(alloc: Global, root: &Value, all: &[Part<'_>]) -> Result<Found, WantOfMemory>
    requires { parts_view all.now ≡ parts (view root.now) }
    ensures { IfOk result (IsFound (view root.now)) }
{
    let global = global_of(alloc, root)?;
    let components = components_of(alloc, &global, all)?;
    let Tried {
        refused,
        conditions,
    } = try_all(alloc, &components)?;
    let mut diagnostics = diagnostics(alloc, root, all)?;
    push_refusals(alloc, &mut diagnostics, &refused, &components)?;
    Ok(Found {
        global,
        components,
        conditions,
        diagnostics,
    })
}

/// The plan of a document that has these components.
fn read_parts(alloc: Global, root: &Value, all: &[Part<'_>]) -> Result<ReadPlan, PlanFault>
    requires { parts_view all.now ≡ parts (view root.now) }
    ensures judged { (refuses : ByteString → Bool)
        × IsRightlyJudged refuses (view root.now) (plan_in result) }
    ensures conditions { IfOk result HasConditions }
{
    let Found {
        global,
        components,
        conditions,
        diagnostics,
    } = find(alloc, root, all)?;
    if let Some(fault) = first(diagnostics) {
        return Err(fault);
    }
    // A plan looks at each pair of its components: now they are known to be few.
    let plan = Plan::new(alloc, global, components)?;
    let nodes = nodes_of(alloc, &plan)?;
    match check(alloc, nodes) {
        Ok(_) => Ok(ReadPlan { plan, conditions }),
        Err(GraphFault::WantOfMemory) => Err(PlanFault::WantOfMemory),
        Err(fault) => Err(PlanFault::Graph(fault)),
    }
}

/// The plan of a text.
fn read_text(alloc: Global, text: &str, environment: &VariableList) -> Result<ReadPlan, PlanFault>
    ensures read { (refuses : ByteString → Bool)
        × IsTextRead refuses environment.now text.now (plan_in result) }
    ensures conditions { IfOk result HasConditions }
    ensures apart { IfOk result (λ read. AreApart (names_of read.plan.components)) }
    ensures accepted { IfOk result (λ read. IsPlan read.plan) }
{
    let replaced = match replace(alloc, text, environment) {
        Ok(replaced) => replaced,
        Err(SubstFault::MissingVariable { name, at }) => {
            return Err(PlanFault::MissingVariable { name, at });
        }
        Err(SubstFault::WantOfMemory) => return Err(PlanFault::WantOfMemory),
    };
    match toml::table_from_str(alloc, replaced.as_str()) {
        Ok(table) => read_root(alloc, &Value::Table(table)),
        Err(fault) if fault.is_memory() => Err(PlanFault::WantOfMemory),
        Err(_) => Err(PlanFault::NotToml),
    }
}

/// The plan of a configuration: a TOML text in which variables are replaced by their values.
///
/// A refusal is the first fault in the order of `PlanFault`. Within one kind the global options come first, then
/// sources, transforms and sinks, each by the bytes of the component's name, and then by the bytes of the path. Want of
/// memory comes at any text. The components of a plan have different names, and the plan may be installed. Each condition is read
/// once, and comes with the plan: nothing is said of what `regex` would make of a pattern another time.
pub fn read_plan(
    alloc: Global,
    bytes: &[u8],
    environment: &VariableList,
) -> Result<ReadPlan, PlanFault>
    ensures read { IsReading environment.now bytes.now (plan_in result) }
    ensures conditions { IfOk result HasConditions }
    ensures apart { IfOk result (λ read. AreApart (names_of read.plan.components)) }
    ensures accepted { IfOk result (λ read. IsPlan read.plan) }
{
    match std::str::from_utf8(bytes) {
        Ok(text) => read_text(alloc, text, environment),
        Err(_) => Err(PlanFault::NotToml),
    }
}
