ghost use Rattle.std.specs.Prelude.{◌≡◌, ◌++◌, OnOk, OnErr, IfOk, string_bytes};
ghost use Rattle.vx_cli.specs.Texts.{text_of, reason_of, failed_after};
ghost use Rattle.vx_cli.specs.Wordings.{text_as};

use crate::fault::Fault;
use crate::plan_texts::plan_text;
use crate::showing::shown;
use std::alloc::{AllocError, Global};
use vx_graph::GraphFault;
use vx_reading::PlanFault;
use vx_value::{Bytes, WantOfMemory};

/// How the program is called, as it is printed where the words are no command.
const USAGE: &str = "vector: usage: vector --config FILE [options]
vector: usage: vector validate FILE
";

/// Appends what is printed of a fault: lines that end with a line feed, or nothing for a failed print and for want of
/// memory.
///
/// Where no memory is found `out` is as before.
pub fn fault_text(alloc: Global, fault: &Fault, out: &mut Bytes) -> Result<(), WantOfMemory>
    ensures ok { OnOk result (out.new ≡ out.old ++ text_of fault.now) }
    ensures err { OnErr result (out.new ≡ out.old) }
{
    match wording_of(fault) {
        Wording::Usage => out.push_slice(USAGE.as_bytes()),
        Wording::Nothing => Ok(()),
        Wording::Line => {
            let reason = reason(alloc, fault)?;
            let line = format!(in alloc; "vector: {reason}\n")?;
            out.push_slice(line.as_str().as_bytes())
        }
    }
}

/// What is printed of a fault.
#[derive(Clone, Copy)]
enum Wording {
    /// How the program is called.
    Usage,
    /// Nothing.
    Nothing,
    /// A line with the reason.
    Line,
}

/// What is printed of a fault.
fn wording_of(fault: &Fault) -> Wording
    ensures { text_of fault.now ≡ text_as fault.now result }
{
    match fault {
        Fault::Usage => Wording::Usage,
        Fault::PrintFailed | Fault::WantOfMemory => Wording::Nothing,
        Fault::ConfigRefused(PlanFault::WantOfMemory) => Wording::Nothing,
        Fault::ConfigRefused(PlanFault::Graph(GraphFault::WantOfMemory)) => Wording::Nothing,
        Fault::ConfigRefused(_)
        | Fault::UnknownHost(_)
        | Fault::ConfigRead { .. }
        | Fault::Numbers { .. }
        | Fault::SourceFailed { .. }
        | Fault::ConfirmFailed { .. } => Wording::Line,
    }
}

/// The reason of a fault, in words for people.
fn reason(alloc: Global, fault: &Fault) -> Result<String, AllocError>
    ensures { IfOk result (λ reason. string_bytes reason ≡ reason_of fault.now) }
{
    match fault {
        Fault::ConfigRead { path } => {
            let path = shown(alloc, path)?;
            format!(in alloc; "cannot read {path}")
        }
        Fault::ConfigRefused(fault) => {
            let text = plan_text(alloc, fault)?;
            format!(in alloc; "configuration refused: {text}")
        }
        Fault::UnknownHost(name) => {
            let name = shown(alloc, name)?;
            format!(in alloc; "no host transform {name}")
        }
        Fault::Numbers { next, wanted } => {
            format!(in alloc; "copy numbers are used up: next {next}, wanted {wanted}")
        }
        Fault::SourceFailed { name, at } => {
            let name = shown(alloc, name)?;
            let place = failed_after(alloc, *at)?;
            format!(in alloc; "source {name}{place}")
        }
        Fault::ConfirmFailed { name } => {
            let name = shown(alloc, name)?;
            format!(in alloc; "source {name} could not be confirmed")
        }
        Fault::Usage | Fault::PrintFailed | Fault::WantOfMemory => Ok(String::new(alloc)),
    }
}

/// Where a source failed.
fn failed_after(alloc: Global, at: u64) -> Result<String, AllocError>
    ensures { IfOk result (λ place. string_bytes place ≡ failed_after at) }
{
    format!(in alloc; " failed after {at} bytes")
}
