ghost use Rattle.std.specs.Prelude.{◌≡◌, ◌++◌, ◌∷◌, [], OnOk};
ghost use Rattle.vx_reading.specs.Diagnostics.{found, at_option};
ghost use Rattle.vx_reading.specs.Views.{owner_view, place_view};

use crate::adding;
use crate::owner::Owner;
use crate::paths::option_path;
use crate::place::Place;
use crate::spot::Spot;
use crate::trouble::Trouble;
use std::alloc::Global;
use vx_value::{ItemList, Text, WantOfMemory};

/// A fault of a configuration, and the part of it to which the fault belongs.
#[derive(Drop)]
pub(crate) struct Diagnostic {
    /// 0 for the global options, 1 for sources, 2 for transforms, 3 for sinks.
    pub section: u8,
    /// The name of the component; empty for what belongs to none.
    pub name: Text,
    pub path: Text,
    pub trouble: Trouble,
}

/// Faults of a configuration.
pub(crate) type DiagnosticList = ItemList<Diagnostic>;

/// Adds a fault.
pub(crate) fn push(
    alloc: Global,
    diagnostics: &mut DiagnosticList,
    owner: Owner<'_>,
    path: Text,
    trouble: Trouble,
) -> Result<(), WantOfMemory>
    ensures { OnOk result
        (diagnostics.new ≡ diagnostics.old ++ found (owner_view owner.entry) path trouble ∷ []) }
{
    let name = Text::copy_of(alloc, owner.name)?;
    let diagnostic = Diagnostic {
        section: owner.section,
        name,
        path,
        trouble,
    };
    adding::push(diagnostics, diagnostic)
}

/// Adds the fault of an option, if something is wrong with it.
pub(crate) fn push_if(
    alloc: Global,
    diagnostics: &mut DiagnosticList,
    spot: Spot<'_>,
    place: Place<'_>,
    trouble: Option<Trouble>,
) -> Result<(), WantOfMemory>
    ensures { OnOk result
        (diagnostics.new ≡ diagnostics.old
        ++ at_option (owner_view spot.entry.owner) spot.entry.lead.now (place_view place.entry) trouble) }
{
    let Some(trouble) = trouble else {
        return Ok(());
    };
    let path = option_path(alloc, spot.lead, place)?;
    push(alloc, diagnostics, spot.owner, path, trouble)
}
