ghost use Rattle.std.specs.Prelude.{◌≡◌, ◌≤◌, [], ◌∷◌, length, IfOk, string_bytes};
ghost use Rattle.vx_ends.specs.Observation.{Grows};
ghost use Rattle.vx_ends.specs.declared.call.Call.TheVariants as call;
ghost use Rattle.vx_run.specs.Showing.{IsJudgedSo, count_of, same_class, valid_text};

use crate::preparing::plan_at;
use std::alloc::{AllocError, Global};
use vx_cli::Fault;
use vx_ends::{Printer, World};
use vx_plan::{Class, Component, Plan};
use vx_value::{Text, VariableList};

/// Judges the configuration at a path, and prints how many components it has where it stands for a plan. Nothing is
/// run. `PrintFailed` comes only where that print failed.
pub(crate) fn validate<W: World, P: Printer>(
    alloc: Global,
    file: &Text,
    environment: &VariableList,
    world: &mut W,
    out: &mut P,
) -> Option<Fault>
    ensures judged { IsJudgedSo environment.now (W.texts world.old) file.now (W.faults world.old)
        (W.faults world.new) (out.new ≡ out.old) (P.printed out.old) (P.printed out.new)
        (P.faults out.old) (P.faults out.new) result }
    ensures called { Grows (W.calls world.old) (W.calls world.new) (call.Config file.now ∷ []) }
    ensures texts { W.texts world.new ≡ W.texts world.old }
{
    let read = match plan_at(alloc, file, environment, world) {
        Ok(read) => read,
        Err(fault) => return Some(fault),
    };
    let Ok(text) = valid_text(alloc, &read.plan) else {
        return Some(Fault::WantOfMemory);
    };
    match out.print(text.as_str().as_bytes()) {
        Ok(()) => None,
        Err(_) => Some(Fault::PrintFailed),
    }
}

/// What is printed of a configuration that stands for a plan.
pub fn valid_text(alloc: Global, plan: &Plan) -> Result<String, AllocError>
    ensures { IfOk result (λ text. string_bytes text ≡ valid_text plan.now) }
{
    let components = plan.components.as_slice();
    let sources = count_of(Class::Source, components);
    let transforms = count_of(Class::Transform, components);
    let sinks = count_of(Class::Sink, components);
    format!(in alloc; "valid: {sources} sources, {transforms} transforms, {sinks} sinks\n")
}

/// How many components are of a class.
fn count_of(class: Class, components: &[Component]) -> usize
    ensures count { result ≡ count_of class components.now }
    ensures few { result ≤ length components.now }
{
    match components {
        [] => 0,
        [first, rest @ ..] => count_of(class, rest) + usize::from(same_class(first.class, class)),
    }
}

/// Whether two classes are the same.
fn same_class(a: Class, b: Class) -> bool
    ensures { result ≡ same_class a b }
{
    match (a, b) {
        (Class::Source, Class::Source) => true,
        (Class::Transform, Class::Transform) => true,
        (Class::Sink, Class::Sink) => true,
        _ => false,
    }
}
