// The faults of the stages of a buffer.
ghost use Rattle.std.specs.Prelude.{◌≡◌, ◌++◌, OnOk};
ghost use Rattle.toml.specs.View.{view, items_view};
ghost use Rattle.vx_reading.specs.Diagnostics.{misplaced, stage_diagnostics, buffer_diagnostics};
ghost use Rattle.vx_reading.specs.Judging.{items_in};
ghost use Rattle.vx_reading.specs.Views.{owner_view};

use crate::diagnostic::{DiagnosticList, push_if};
use crate::diagnostic_options::push_options;
use crate::given::given_of;
use crate::judging::bad_unless;
use crate::options::stage_rows;
use crate::place::Place;
use crate::spot::Spot;
use crate::stages::{is_misplaced, when_full_of};
use crate::trouble::Trouble;
use std::alloc::Global;
use toml::Value;
use vx_value::WantOfMemory;

/// What is wrong with the place of a stage, by whether it is the last.
fn misplaced(last: bool, stage: &Value) -> Option<Trouble>
    ensures { result ≡ misplaced last (view stage.now) }
{
    bad_unless(!is_misplaced(last, when_full_of(stage)))
}

/// Adds the faults of a stage.
fn push_stage(
    alloc: Global,
    diagnostics: &mut DiagnosticList,
    spot: Spot<'_>,
    last: bool,
    stage: &Value,
) -> Result<(), WantOfMemory>
    ensures { OnOk result
        (diagnostics.new ≡ diagnostics.old
        ++ stage_diagnostics (owner_view spot.entry.owner) spot.entry.lead.now last (view stage.now)) }
{
    let rows = stage_rows();
    let all = given_of(alloc, rows, stage)?;
    push_options(alloc, diagnostics, spot, rows, all.as_slice())?;
    let trouble = misplaced(last, stage);
    push_if(alloc, diagnostics, spot, Place::Alone("when_full"), trouble)
}

/// Adds the faults of the stages of a buffer.
pub(crate) fn push_stages(
    alloc: Global,
    diagnostics: &mut DiagnosticList,
    spot: Spot<'_>,
    stages: &[Value],
) -> Result<(), WantOfMemory>
    ensures { OnOk result
        (diagnostics.new ≡ diagnostics.old
        ++ buffer_diagnostics (owner_view spot.entry.owner) spot.entry.lead.now
        (items_in (items_view stages.now))) }
{
    for (i, stage) in stages.iter().enumerate() {
        let last = i + 1 == stages.len();
        push_stage(alloc, diagnostics, spot, last, stage)?;
    }
    Ok(())
}
