ghost use Rattle.std.specs.Prelude.{◌≡◌, ◌++◌, IfOk, OnOk, is_some, find};
ghost use Rattle.std.specs.Option.{option_map};
ghost use Rattle.toml.specs.View.{view};
ghost use Rattle.vx_reading.specs.Components.{Part as SpecPart, parts, parts_in, has_part, is_taken, type_in, kind_of, reads_stdin, is_later_stdin};
ghost use Rattle.vx_reading.specs.Diagnostics.{owner_of};
ghost use Rattle.vx_reading.specs.Names.{AreApart, part_names, AreApartByClass};
ghost use Rattle.vx_reading.specs.Views.{owner_view, part_view, parts_view};

use crate::kind::Kind;
use crate::options::{kind_named, section_name};
use crate::owner::{Owner, owner_in};
use crate::pair::pairs_in;
use crate::texts::same_text;
use crate::values::text_at;
use std::alloc::Global;
use toml::Value;
use vx_plan::Class;
use vx_value::WantOfMemory;

/// A component as the document has it.
#[derive(Clone, Copy)]
pub(crate) struct Part<'a> {
    pub class: Class,
    pub name: &'a str,
    pub value: &'a Value,
}

/// To whom the faults of a component belong.
pub(crate) fn owner_of<'a>(part: Part<'a>) -> Owner<'a>
    ensures { owner_view result ≡ owner_of (part_view part.entry) }
{
    owner_in(part.class, part.name)
}

/// Adds the components of a class, by the bytes of their names.
fn push_parts<'a>(
    alloc: Global,
    parts: &mut Vec<Part<'a>>,
    root: &'a Value,
    class: Class,
) -> Result<(), WantOfMemory>
    ensures all { OnOk result
        (parts_view parts.new.items ≡ parts_view parts.old.items
        ++ parts_in (view root.now) class) }
    ensures apart { OnOk result (AreApart (part_names (parts_in (view root.now) class))) }
{
    let Some(table) = root.get(section_name(class)) else {
        return Ok(());
    };
    let pairs = pairs_in(alloc, table)?;
    'members: for pair in pairs.as_slice() {
        let part = Part {
            class,
            name: pair.name,
            value: pair.value,
        };
        parts.push(part)?;
    }
    Ok(())
}

/// The components of a document: sources, transforms, sinks.
pub(crate) fn parts<'a>(alloc: Global, root: &'a Value) -> Result<Vec<Part<'a>>, WantOfMemory>
    ensures all { IfOk result (λ all. parts_view all.items ≡ parts (view root.now)) }
    ensures apart { IfOk result (λ all. AreApartByClass (view root.now)) }
{
    let mut all = Vec::new(alloc);
    push_parts(alloc, &mut all, root, Class::Source)?;
    push_parts(alloc, &mut all, root, Class::Transform)?;
    push_parts(alloc, &mut all, root, Class::Sink)?;
    Ok(all)
}

/// Whether a class has a component of that name.
fn has_part(root: &Value, class: Class, name: &str) -> bool
    ensures { result ≡ has_part (view root.now) class name.now }
{
    match root.get(section_name(class)) {
        Some(table) => table.get(name).is_some(),
        None => false,
    }
}

/// Whether a name stands in an earlier one of the three tables.
pub(crate) fn is_taken(root: &Value, class: Class, name: &str) -> bool
    ensures { result ≡ is_taken (view root.now) class name.now }
{
    match class {
        Class::Source => false,
        Class::Transform => has_part(root, Class::Source, name),
        Class::Sink => {
            has_part(root, Class::Source, name) || has_part(root, Class::Transform, name)
        }
    }
}

/// The type of a component, where its table has that type.
pub(crate) fn kind_of(part: Part<'_>) -> Option<Kind>
    ensures { result ≡ kind_of (part_view part.entry) }
{
    kind_named(part.class, text_at("type", part.value)?)
}

/// Whether a component reads standard input.
fn reads_stdin(part: Part<'_>) -> bool
    ensures { result ≡ reads_stdin (part_view part.entry) }
{
    match kind_of(part) {
        Some(Kind::Stdin) => true,
        _ => false,
    }
}

/// The name of the first component that reads standard input.
pub(crate) fn first_stdin<'a>(parts: &[Part<'a>]) -> Option<&'a str>
    ensures { option_map (λ name. name.now) result
        ≡ option_map (λ (p : SpecPart). p.name) (find reads_stdin (parts_view parts.now)) }
{
    for part in parts {
        if reads_stdin(*part) {
            return Some(part.name);
        }
    }
    None
}

/// Whether a component reads standard input after the first that does.
pub(crate) fn is_later_stdin(first: Option<&str>, part: Part<'_>) -> bool
    ensures { result ≡ is_later_stdin (option_map (λ name. name.now) first.entry)
        (part_view part.entry) }
{
    match first {
        Some(name) => reads_stdin(part) && !same_text(name, part.name),
        None => false,
    }
}
