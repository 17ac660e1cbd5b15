ghost use Rattle.std.specs.Prelude.{◌≡◌, ◌++◌, ◌∷◌, [], IfOk, OnOk, string_bytes};
ghost use Rattle.vx_reading.specs.Components.{part_path, section_name as section_name_of};
ghost use Rattle.vx_reading.specs.Diagnostics.{type_path, part_lead, buffer_lead};
ghost use Rattle.vx_reading.specs.Options.{dot, place_path};
ghost use Rattle.vx_reading.specs.Views.{place_view, part_view};

use crate::options::section_name;
use crate::part::Part;
use crate::place::Place;
use std::alloc::Global;
use vx_plan::Class;
use vx_value::{Text, WantOfMemory};

/// Adds a text at the end.
fn push(out: &mut String, text: &str) -> Result<(), WantOfMemory>
    ensures { OnOk result (string_bytes out.new ≡ string_bytes out.old ++ text.now) }
{
    out.push_str(text)?;
    Ok(())
}

/// The path of an option, behind what leads to its table.
pub(crate) fn option_path(alloc: Global, lead: &str, place: Place<'_>) -> Result<Text, WantOfMemory>
    ensures { IfOk result (λ path. path ≡ lead.now ++ place_path (place_view place.entry)) }
{
    let mut out = String::new(alloc);
    push(&mut out, lead)?;
    match place {
        Place::Alone(name) | Place::Either(name, _) | Place::Each(name, _) | Place::Any(name) =>
            push(&mut out, name)?,
        Place::Within(group, name) => {
            push(&mut out, group)?;
            push(&mut out, ".")?;
            push(&mut out, name)?;
        }
    }
    Text::copy_of(alloc, out.as_str())
}

/// The path of a component.
pub(crate) fn part_path(alloc: Global, part: Part<'_>) -> Result<Text, WantOfMemory>
    ensures { IfOk result (λ path. path ≡ part_path (part_view part.entry)) }
{
    let mut out = String::new(alloc);
    push(&mut out, section_name(part.class))?;
    push(&mut out, ".")?;
    push(&mut out, part.name)?;
    Text::copy_of(alloc, out.as_str())
}

/// What leads to the options of a component.
pub(crate) fn part_lead(alloc: Global, part: Part<'_>) -> Result<Text, WantOfMemory>
    ensures { IfOk result (λ lead. lead ≡ part_lead (part_view part.entry)) }
{
    lead_of(alloc, part.class, part.name)
}

/// What leads to the options of a stage of a component's buffer.
pub(crate) fn buffer_lead(alloc: Global, part: Part<'_>) -> Result<Text, WantOfMemory>
    ensures { IfOk result (λ lead. lead ≡ buffer_lead (part_view part.entry)) }
{
    let lead = part_lead(alloc, part)?;
    let mut out = String::new(alloc);
    push(&mut out, lead.as_str())?;
    push(&mut out, "buffer.")?;
    Text::copy_of(alloc, out.as_str())
}

/// What leads to the options of the component of a class that has a name.
pub(crate) fn lead_of(alloc: Global, class: Class, name: &str) -> Result<Text, WantOfMemory>
    ensures { IfOk result (λ lead. lead ≡ (section_name_of class ++ dot ∷ name.now) ++ dot ∷ []) }
{
    let mut out = String::new(alloc);
    push(&mut out, section_name(class))?;
    push(&mut out, ".")?;
    push(&mut out, name)?;
    push(&mut out, ".")?;
    Text::copy_of(alloc, out.as_str())
}

/// The path of a component's type.
pub(crate) fn type_path(alloc: Global, part: Part<'_>) -> Result<Text, WantOfMemory>
    ensures { IfOk result (λ path. path ≡ type_path (part_view part.entry)) }
{
    let lead = part_lead(alloc, part)?;
    option_path(alloc, lead.as_str(), Place::Alone("type"))
}
