ghost use Rattle.std.specs.Prelude.{◌≡◌, ◌<◌, length, slice_index_or, IfSome, IfNone, []};
ghost use Rattle.vx_reading.specs.declared.diagnostic.Diagnostic.{Diagnostic as SpecDiagnostic};
ghost use Rattle.vx_reading.specs.Diagnostics.{rank, precedes, IsFirst, fault_at, HasFault};

use crate::diagnostic::{Diagnostic, DiagnosticList};
use crate::plan_fault::PlanFault;
use crate::texts::{same_text, text_lt};
use crate::trouble::Trouble;
use vx_value::Text;

/// The place of a trouble among the kinds.
fn rank(trouble: Trouble) -> u8
    ensures { result ≡ rank trouble }
{
    match trouble {
        Trouble::UnknownKind => 0,
        Trouble::UnknownOption => 1,
        Trouble::MissingOption => 2,
        Trouble::BadValue => 3,
        Trouble::TooMany { .. } => 4,
    }
}

/// Whether a fault is tried before another: by kind, then by table, then by the component's name, then by path.
fn precedes(a: &Diagnostic, b: &Diagnostic) -> bool
    ensures { result ≡ precedes a.now b.now }
{
    let rank_a = rank(a.trouble);
    let rank_b = rank(b.trouble);
    rank_a < rank_b
        || (rank_a == rank_b
            && (a.section < b.section
                || (a.section == b.section
                    && (text_lt(a.name.as_str(), b.name.as_str())
                        || (same_text(a.name.as_str(), b.name.as_str())
                            && text_lt(a.path.as_str(), b.path.as_str()))))))
}

/// The place of the fault that is tried first.
fn first_place(diagnostics: &[Diagnostic]) -> usize
    requires { 0 < length diagnostics.now }
    ensures within { result < length diagnostics.now }
    ensures first { (best : SpecDiagnostic) → slice_index_or diagnostics.now result best ≡ best →
        IsFirst diagnostics.now best }
{
    let mut best = 0;
    for (i, diagnostic) in diagnostics.iter().enumerate() {
        if precedes(diagnostic, &diagnostics[best]) {
            best = i;
        }
    }
    best
}

/// What is answered of a trouble at a path.
fn fault_at(path: Text, trouble: Trouble) -> PlanFault
    ensures { result ≡ fault_at path trouble }
{
    match trouble {
        Trouble::UnknownKind => PlanFault::UnknownKind { path },
        Trouble::UnknownOption => PlanFault::UnknownOption { path },
        Trouble::MissingOption => PlanFault::MissingOption { path },
        Trouble::BadValue => PlanFault::BadValue { path },
        Trouble::TooMany { found, limit } => PlanFault::TooMany { path, found, limit },
    }
}

/// What is answered of the fault that is tried first; `None` exactly where there is none.
pub(crate) fn first(diagnostics: DiagnosticList) -> Option<PlanFault>
    ensures some { IfSome result (λ fault. HasFault diagnostics fault) }
    ensures none { IfNone result (diagnostics ≡ []) }
{
    if diagnostics.is_empty() {
        return None;
    }
    let mut left = diagnostics.into_vec();
    let first = left.swap_remove(first_place(left.as_slice()));
    Some(fault_at(first.path, first.trouble))
}
