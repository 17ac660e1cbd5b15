ghost use Rattle.std.specs.Prelude.{◌≡◌, ◌++◌, OnOk};
ghost use Rattle.vx_reading.specs.Diagnostics.{given_diagnostics, lacking, crowded, option_diagnostics, excluded};
ghost use Rattle.vx_reading.specs.Views.{owner_view, rows_view, row_view, givens_view, exclusion_view};

use crate::diagnostic::{DiagnosticList, push_if};
use crate::exclusion::Exclusion;
use crate::given::{Given, count_given, is_given, most_at};
use crate::judging::{bad_unless, judged, too_many};
use crate::row::Row;
use crate::spot::Spot;
use crate::trouble::Trouble;
use std::alloc::Global;
use vx_value::WantOfMemory;

/// Adds the faults of what a table gives.
fn push_given(
    alloc: Global,
    diagnostics: &mut DiagnosticList,
    spot: Spot<'_>,
    rows: &[Row],
    all: &[Given<'_>],
) -> Result<(), WantOfMemory>
    ensures { OnOk result
        (diagnostics.new ≡ diagnostics.old
        ++ given_diagnostics (owner_view spot.entry.owner) spot.entry.lead.now (rows_view rows.now)
        (givens_view all.now)) }
{
    for given in all {
        let trouble = judged(alloc, rows, *given)?;
        push_if(alloc, diagnostics, spot, given.place, trouble)?;
    }
    Ok(())
}

/// What is wrong with an option that isn't given.
fn lacking(all: &[Given<'_>], row: Row) -> Option<Trouble>
    ensures { result ≡ lacking (givens_view all.now) (row_view row) }
{
    if row.required && !is_given(row.place, all) {
        Some(Trouble::MissingOption)
    } else {
        None
    }
}

/// What is wrong with an option that is given more often than it may be.
fn crowded(all: &[Given<'_>], row: Row) -> Option<Trouble>
    ensures { result ≡ crowded (givens_view all.now) (row_view row) }
{
    match most_at(row.place) {
        Some(most) => too_many(count_given(row.place, all) as u64, most as u64),
        None => None,
    }
}

/// Adds the faults of a table's options: of what is given, and of how often it is.
pub(crate) fn push_options(
    alloc: Global,
    diagnostics: &mut DiagnosticList,
    spot: Spot<'_>,
    rows: &[Row],
    all: &[Given<'_>],
) -> Result<(), WantOfMemory>
    ensures { OnOk result
        (diagnostics.new ≡ diagnostics.old
        ++ option_diagnostics (owner_view spot.entry.owner) spot.entry.lead.now (rows_view rows.now)
        (givens_view all.now)) }
{
    push_given(alloc, diagnostics, spot, rows, all)?;
    for row in rows {
        push_if(alloc, diagnostics, spot, row.place, lacking(all, *row))?;
        push_if(alloc, diagnostics, spot, row.place, crowded(all, *row))?;
    }
    Ok(())
}

/// What is wrong with the later one of two options that exclude each other.
pub(crate) fn excluded(all: &[Given<'_>], exclusion: Exclusion) -> Option<Trouble>
    ensures { result ≡ excluded (givens_view all.now) (exclusion_view exclusion) }
{
    bad_unless(!(is_given(exclusion.earlier, all) && is_given(exclusion.later, all)))
}
