ghost use Rattle.std.specs.Prelude.{◌≡◌, ◌++◌, IfOk, string_bytes};
ghost use Rattle.vx_cli.specs.Shown.{shown};
ghost use Rattle.vx_cli.specs.Texts.{listed, of_component, graph_text, plan_text};

use crate::showing::shown;
use std::alloc::{AllocError, Global};
use vx_graph::GraphFault;
use vx_reading::PlanFault;
use vx_value::Text;

/// What is wrong with a configuration, in words for people; nothing for want of memory.
pub(crate) fn plan_text(alloc: Global, fault: &PlanFault) -> Result<String, AllocError>
    ensures { IfOk result (λ text. string_bytes text ≡ plan_text fault.now) }
{
    match fault {
        PlanFault::MissingVariable { name, at } => {
            let name = shown(alloc, name)?;
            format!(in alloc; "missing variable {name} at {at}")
        }
        PlanFault::NotToml => format!(in alloc; "not a TOML document"),
        PlanFault::UnknownKind { path } => told_at(alloc, "unknown kind at ", path),
        PlanFault::UnknownOption { path } => told_at(alloc, "unknown option ", path),
        PlanFault::MissingOption { path } => told_at(alloc, "missing option ", path),
        PlanFault::BadValue { path } => told_at(alloc, "bad value at ", path),
        PlanFault::TooMany { path, found, limit } => {
            let path = shown(alloc, path)?;
            format!(in alloc; "too many at {path}: {found}, limit {limit}")
        }
        PlanFault::Graph(fault) => graph_text(alloc, fault),
        PlanFault::WantOfMemory => Ok(String::new(alloc)),
    }
}

/// What is wrong with a graph, in words for people; nothing for want of memory.
fn graph_text(alloc: Global, fault: &GraphFault) -> Result<String, AllocError>
    ensures { IfOk result (λ text. string_bytes text ≡ graph_text fault.now) }
{
    match fault {
        GraphFault::NoSources => format!(in alloc; "no sources"),
        GraphFault::NoSinks => format!(in alloc; "no sinks"),
        GraphFault::NoInputs(name) => {
            let place = of_component(alloc, name)?;
            format!(in alloc; "no inputs{place}")
        }
        GraphFault::UnknownInput { name, input } => {
            let input = shown(alloc, input)?;
            let place = of_component(alloc, name)?;
            format!(in alloc; "unknown input {input}{place}")
        }
        GraphFault::Cycle(names) => {
            let names = listed(alloc, names.as_slice())?;
            format!(in alloc; "cycle {names}")
        }
        GraphFault::WantOfMemory => Ok(String::new(alloc)),
    }
}

/// Whose inputs a graph's fault is about.
fn of_component(alloc: Global, name: &Text) -> Result<String, AllocError>
    ensures { IfOk result (λ place. string_bytes place ≡ of_component name.now) }
{
    told_at(alloc, " of component ", name)
}

/// What is wrong, and a name or a path behind it as it is printed.
fn told_at(alloc: Global, what: &str, name: &Text) -> Result<String, AllocError>
    ensures { IfOk result (λ text. string_bytes text ≡ what.now ++ shown name.now) }
{
    let name = shown(alloc, name)?;
    format!(in alloc; "{what}{name}")
}

/// Names as they are printed, with a comma and a blank between two of them. They are those of a cycle, which has at most 256.
fn listed(alloc: Global, names: &[Text]) -> Result<String, AllocError>
    ensures { IfOk result (λ text. string_bytes text ≡ listed names.now) }
{
    match names {
        [] => Ok(String::new(alloc)),
        [name] => shown(alloc, name),
        [name, rest @ ..] => {
            let name = shown(alloc, name)?;
            let rest = listed(alloc, rest)?;
            format!(in alloc; "{name}, {rest}")
        }
    }
}
