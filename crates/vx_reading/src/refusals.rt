// The faults of conditions that are refused.
ghost use Rattle.std.specs.Prelude.{◌≡◌, ◌++◌, IfOk, OnOk};
ghost use Rattle.vx_value.specs.Texts.{ByteString};
ghost use Rattle.vx_reading.specs.Conditions.{is_one, refusals_of, refusals};
ghost use Rattle.vx_reading.specs.Refused.{is_kept};

use crate::diagnostic::{DiagnosticList, push_if};
use crate::judging::bad_unless;
use crate::owner::owner_in;
use crate::paths::lead_of;
use crate::placed::placed_in;
use crate::spot::Spot;
use std::alloc::Global;
use std::collections::BTreeSet;
use vx_plan::{Component, ComponentList};
use vx_value::{TextList, WantOfMemory};

/// Texts that are refused, each once: to find one among many takes few comparisons.
type Refused<'a> = BTreeSet<&'a str, Global>;

/// Some texts, each once.
fn by_bytes<'a>(alloc: Global, texts: &'a TextList) -> Result<Refused<'a>, WantOfMemory>
    ensures { IfOk result
        (λ refused. (text : ByteString) → is_kept refused text ≡ is_one texts.now text) }
{
    let mut refused = BTreeSet::new(alloc);
    for text in texts.as_slice() {
        match refused.insert(text.as_str()) {
            Ok(_) => {}
            Err(_) => return Err(WantOfMemory),
        }
    }
    Ok(refused)
}

/// Whether a text is refused.
fn is_kept(refused: &Refused<'_>, text: &str) -> bool
    ensures { result ≡ is_kept refused.now text.now }
{
    refused.contains(text)
}

/// Adds the faults of a component's conditions.
fn push_component(
    alloc: Global,
    diagnostics: &mut DiagnosticList,
    refused: &Refused<'_>,
    component: &Component,
) -> Result<(), WantOfMemory>
    ensures { OnOk result
        (diagnostics.new ≡ diagnostics.old ++ refusals_of (is_kept refused.now) component.now) }
{
    let name = component.name.as_str();
    let lead = lead_of(alloc, component.class, name)?;
    let spot = Spot {
        owner: owner_in(component.class, name),
        lead: lead.as_str(),
    };
    let all = placed_in(alloc, &component.settings)?;
    for placed in all.as_slice() {
        let right = !is_kept(refused, placed.text.as_str());
        push_if(alloc, diagnostics, spot, placed.place, bad_unless(right))?;
    }
    Ok(())
}

/// Adds the faults of the conditions of some components.
fn push_components(
    alloc: Global,
    diagnostics: &mut DiagnosticList,
    refused: &Refused<'_>,
    components: &ComponentList,
) -> Result<(), WantOfMemory>
    ensures { OnOk result
        (diagnostics.new ≡ diagnostics.old ++ refusals (is_kept refused.now) components.now) }
{
    for component in components.as_slice() {
        push_component(alloc, diagnostics, refused, component)?;
    }
    Ok(())
}

/// Adds the faults of the conditions of some components, of which these are refused.
pub(crate) fn push_refusals(
    alloc: Global,
    diagnostics: &mut DiagnosticList,
    refused: &TextList,
    components: &ComponentList,
) -> Result<(), WantOfMemory>
    ensures { OnOk result
        (diagnostics.new ≡ diagnostics.old ++ refusals (is_one refused.now) components.now) }
{
    let refused = by_bytes(alloc, refused)?;
    push_components(alloc, diagnostics, &refused, components)
}
