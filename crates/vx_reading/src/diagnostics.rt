ghost use Rattle.std.specs.Prelude.{◌≡◌, ◌++◌, IfOk, OnOk, Some, None, not, filter};
ghost use Rattle.std.specs.Option.{option_map};
ghost use Rattle.std.specs.List.{flat_map};
ghost use Rattle.toml.specs.View.{view};
ghost use Rattle.vx_reading.specs.Components.{parts, first_stdin};
ghost use Rattle.vx_reading.specs.Diagnostics.{is_section, global_given, at_table, section_diagnostics, part_diagnostics, diagnostics, global_diagnostics, all_section_diagnostics};
ghost use Rattle.vx_reading.specs.Judging.{Pair as SpecPair};
ghost use Rattle.vx_reading.specs.Views.{pairs_view, givens_view, parts_view};

use crate::diagnostic::{DiagnosticList, push};
use crate::diagnostic_options::push_options;
use crate::diagnostic_parts::push_part;
use crate::given::{Given, given_in, is_table};
use crate::judging::{bad_unless, too_many};
use crate::options::{MOST_CAPACITY, global_rows, is_section, section_name, section_number};
use crate::owner::Owner;
use crate::pair::{Pair, pairs_in};
use crate::part::{Part, first_stdin};
use crate::spot::Spot;
use crate::stages::capacity_of_all;
use crate::trouble::Trouble;
use std::alloc::Global;
use toml::Value;
use vx_plan::Class;
use vx_value::{Text, WantOfMemory};

/// How many components a configuration may have.
const MOST_PARTS: u64 = 256;

/// The members of a document but the three tables of components.
fn global_pairs<'a>(alloc: Global, pairs: &[Pair<'a>]) -> Result<Vec<Pair<'a>>, WantOfMemory>
    ensures { IfOk result
        (λ kept. pairs_view kept.items
        ≡ filter (λ (p : SpecPair). not (is_section p.name)) (pairs_view pairs.now)) }
{
    let mut kept = Vec::new(alloc);
    for pair in pairs {
        if !is_section(pair.name) {
            kept.push(*pair)?;
        }
    }
    Ok(kept)
}

/// The global options.
fn global_given<'a>(alloc: Global, root: &'a Value) -> Result<Vec<Given<'a>>, WantOfMemory>
    ensures { IfOk result (λ all. givens_view all.items ≡ global_given (view root.now)) }
{
    let pairs = pairs_in(alloc, root)?;
    let kept = global_pairs(alloc, pairs.as_slice())?;
    given_in(alloc, global_rows(), kept.as_slice())
}

/// Adds the faults of the global options.
fn push_global(
    alloc: Global,
    diagnostics: &mut DiagnosticList,
    root: &Value,
) -> Result<(), WantOfMemory>
    ensures { OnOk result (diagnostics.new ≡ diagnostics.old ++ global_diagnostics (view root.now)) }
{
    let all = global_given(alloc, root)?;
    let owner = Owner {
        section: 0,
        name: "",
    };
    let spot = Spot { owner, lead: "" };
    push_options(alloc, diagnostics, spot, global_rows(), all.as_slice())
}

/// Adds the fault of the table of a class, if something is wrong with it.
fn push_table(
    alloc: Global,
    diagnostics: &mut DiagnosticList,
    section: u8,
    class: Class,
    trouble: Option<Trouble>,
) -> Result<(), WantOfMemory>
    ensures { OnOk result (diagnostics.new ≡ diagnostics.old ++ at_table section class trouble) }
{
    let Some(trouble) = trouble else {
        return Ok(());
    };
    let owner = Owner { section, name: "" };
    let path = Text::copy_of(alloc, section_name(class))?;
    push(alloc, diagnostics, owner, path, trouble)
}

/// Adds the fault of the table of a class that is no table.
fn push_section(
    alloc: Global,
    diagnostics: &mut DiagnosticList,
    root: &Value,
    class: Class,
) -> Result<(), WantOfMemory>
    ensures { OnOk result (diagnostics.new ≡ diagnostics.old ++ section_diagnostics (view root.now) class) }
{
    let Some(table) = root.get(section_name(class)) else {
        return Ok(());
    };
    let trouble = bad_unless(is_table(table));
    push_table(alloc, diagnostics, section_number(class), class, trouble)
}

/// Adds the faults of the three tables themselves.
fn push_sections(
    alloc: Global,
    diagnostics: &mut DiagnosticList,
    root: &Value,
) -> Result<(), WantOfMemory>
    ensures { OnOk result (diagnostics.new ≡ diagnostics.old ++ all_section_diagnostics (view root.now)) }
{
    push_section(alloc, diagnostics, root, Class::Source)?;
    push_section(alloc, diagnostics, root, Class::Transform)?;
    push_section(alloc, diagnostics, root, Class::Sink)
}

/// Adds the faults of the components.
fn push_parts(
    alloc: Global,
    diagnostics: &mut DiagnosticList,
    root: &Value,
    all: &[Part<'_>],
) -> Result<(), WantOfMemory>
    requires { parts_view all.now ≡ parts (view root.now) }
    ensures { OnOk result
        (diagnostics.new ≡ diagnostics.old
        ++ flat_map (part_diagnostics (view root.now) (first_stdin (view root.now)))
        (parts (view root.now))) }
{
    let first = first_stdin(all);
    for part in all {
        push_part(alloc, diagnostics, root, first, *part)?;
    }
    Ok(())
}

/// Every fault of a document.
pub(crate) fn diagnostics(
    alloc: Global,
    root: &Value,
    all: &[Part<'_>],
) -> Result<DiagnosticList, WantOfMemory>
    requires { parts_view all.now ≡ parts (view root.now) }
    ensures { IfOk result (λ found. found ≡ diagnostics (view root.now)) }
{
    let mut found = DiagnosticList::new(alloc);
    push_global(alloc, &mut found, root)?;
    let count = too_many(all.len() as u64, MOST_PARTS);
    push_table(alloc, &mut found, 0, Class::Source, count)?;
    let room = too_many(capacity_of_all(alloc, all)?, MOST_CAPACITY);
    push_table(
        alloc,
        &mut found,
        section_number(Class::Sink),
        Class::Sink,
        room,
    )?;
    push_sections(alloc, &mut found, root)?;
    push_parts(alloc, &mut found, root, all)?;
    Ok(found)
}
