ghost use Rattle.std.specs.Prelude.{◌≡◌, ◌++◌, OnOk};
ghost use Rattle.std.specs.Option.{option_map};
ghost use Rattle.toml.specs.View.{view};
ghost use Rattle.vx_reading.specs.Components.{type_in};
ghost use Rattle.vx_reading.specs.Diagnostics.{part_diagnostic, at_type, own_diagnostics, kind_diagnostics, type_diagnostics, part_diagnostics};
ghost use Rattle.vx_reading.specs.Judging.{given, pairs_in as pairs_in_view};
ghost use Rattle.vx_reading.specs.Options.{rows_of as rows_for};
ghost use Rattle.vx_reading.specs.Views.{part_view};

use crate::diagnostic::{DiagnosticList, push, push_if};
use crate::diagnostic_options::{excluded, push_options};
use crate::diagnostic_stages::push_stages;
use crate::given::{given_of, is_table};
use crate::judging::bad_unless;
use crate::kind::Kind;
use crate::options::{exclusion_of, kind_named, rows_of};
use crate::part::{Part, is_later_stdin, is_taken, owner_of};
use crate::paths::{buffer_lead, part_lead, part_path, type_path};
use crate::spot::Spot;
use crate::stages::stages_for;
use crate::texts::is_name;
use crate::trouble::Trouble;
use std::alloc::Global;
use toml::Value;
use vx_value::WantOfMemory;

/// Adds the fault of a component itself: it is no table, its name is malformed, or an earlier table has it.
fn push_part_itself(
    alloc: Global,
    diagnostics: &mut DiagnosticList,
    root: &Value,
    part: Part<'_>,
) -> Result<(), WantOfMemory>
    ensures { OnOk result
        (diagnostics.new ≡ diagnostics.old ++ part_diagnostic (view root.now) (part_view part.entry)) }
{
    if is_table(part.value) && is_name(part.name) && !is_taken(root, part.class, part.name) {
        return Ok(());
    }
    let path = part_path(alloc, part)?;
    push(alloc, diagnostics, owner_of(part), path, Trouble::BadValue)
}

/// Adds the fault of a component's type, if something is wrong with it.
fn push_type(
    alloc: Global,
    diagnostics: &mut DiagnosticList,
    part: Part<'_>,
    trouble: Option<Trouble>,
) -> Result<(), WantOfMemory>
    ensures { OnOk result
        (diagnostics.new ≡ diagnostics.old
        ++ at_type (part_view part.entry) trouble) }
{
    let Some(trouble) = trouble else {
        return Ok(());
    };
    let path = type_path(alloc, part)?;
    push(alloc, diagnostics, owner_of(part), path, trouble)
}

/// Adds the faults of the options of a component of a type.
fn push_own(
    alloc: Global,
    diagnostics: &mut DiagnosticList,
    part: Part<'_>,
    kind: Kind,
) -> Result<(), WantOfMemory>
    ensures { OnOk result
        (diagnostics.new ≡ diagnostics.old
        ++ own_diagnostics (part_view part.entry) kind
        (given (rows_for kind) (pairs_in_view (part_view part.entry).value))) }
{
    let rows = rows_of(kind);
    let all = given_of(alloc, rows, part.value)?;
    let lead = part_lead(alloc, part)?;
    let spot = Spot {
        owner: owner_of(part),
        lead: lead.as_str(),
    };
    push_options(alloc, diagnostics, spot, rows, all.as_slice())?;
    let Some(exclusion) = exclusion_of(kind) else {
        return Ok(());
    };
    let trouble = excluded(all.as_slice(), exclusion);
    push_if(alloc, diagnostics, spot, exclusion.later, trouble)
}

/// Adds the faults of a component whose type is known: of the type itself, of its options, and of the stages of its buffer.
fn push_kind(
    alloc: Global,
    diagnostics: &mut DiagnosticList,
    first: Option<&str>,
    part: Part<'_>,
    kind: Kind,
) -> Result<(), WantOfMemory>
    ensures { OnOk result
        (diagnostics.new ≡ diagnostics.old
        ++ kind_diagnostics (option_map (λ name. name.now) first.entry) (part_view part.entry) kind) }
{
    let later = bad_unless(!is_later_stdin(first, part));
    push_type(alloc, diagnostics, part, later)?;
    push_own(alloc, diagnostics, part, kind)?;
    let lead = buffer_lead(alloc, part)?;
    let spot = Spot {
        owner: owner_of(part),
        lead: lead.as_str(),
    };
    push_stages(alloc, diagnostics, spot, stages_for(kind, part.value))
}

/// Adds the faults of a component by its type, which has to be a text that names one.
fn push_typed(
    alloc: Global,
    diagnostics: &mut DiagnosticList,
    first: Option<&str>,
    part: Part<'_>,
) -> Result<(), WantOfMemory>
    ensures { OnOk result
        (diagnostics.new ≡ diagnostics.old
        ++ type_diagnostics (option_map (λ name. name.now) first.entry) (part_view part.entry)
        (type_in (part_view part.entry).value)) }
{
    let Some(value) = part.value.get("type") else {
        return push_type(alloc, diagnostics, part, Some(Trouble::MissingOption));
    };
    let Some(text) = value.as_str() else {
        return push_type(alloc, diagnostics, part, Some(Trouble::BadValue));
    };
    match kind_named(part.class, text) {
        Some(kind) => push_kind(alloc, diagnostics, first, part, kind),
        None => push_type(alloc, diagnostics, part, Some(Trouble::UnknownKind)),
    }
}

/// Adds the faults of a component.
pub(crate) fn push_part(
    alloc: Global,
    diagnostics: &mut DiagnosticList,
    root: &Value,
    first: Option<&str>,
    part: Part<'_>,
) -> Result<(), WantOfMemory>
    ensures { OnOk result
        (diagnostics.new ≡ diagnostics.old
        ++ part_diagnostics (view root.now) (option_map (λ name. name.now) first.entry)
        (part_view part.entry)) }
{
    push_part_itself(alloc, diagnostics, root, part)?;
    if is_table(part.value) {
        push_typed(alloc, diagnostics, first, part)
    } else {
        Ok(())
    }
}
