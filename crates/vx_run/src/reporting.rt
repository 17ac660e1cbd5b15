ghost use Rattle.std.specs.Prelude.{◌≡◌, unwrap_or};
ghost use Rattle.vx_run.specs.Showing.{IsFollowed};
ghost use Rattle.vx_run.specs.Reporting.{IsKept, IsSaid, IsPrinted};
ghost use Rattle.vx_cli.specs.Statuses.{ended_status};

use std::alloc::Global;
use vx_cli::{Fault, fault_text};
use vx_ends::Printer;
use vx_value::{Bytes, WantOfMemory};

/// Prints why a run didn't end well. Where no memory is found for the text, the fault is want of memory, of which
/// nothing is printed.
pub(crate) fn report<L: Printer>(alloc: Global, fault: Option<Fault>, err: &mut L) -> Option<Fault>
    ensures kept { IsKept fault result }
    ensures said { IsSaid (err.new ≡ err.old) (L.printed err.old) (L.printed err.new)
        (L.faults err.old) (L.faults err.new) result }
{
    let fault = fault?;
    let mut text = Bytes::new(alloc);
    match fault_text(alloc, &fault, &mut text) {
        Ok(()) => {
            print(&text, err);
            Some(fault)
        }
        Err(WantOfMemory) => Some(Fault::WantOfMemory),
    }
}

/// Prints a text, if there is one.
fn print<L: Printer>(text: &Bytes, err: &mut L)
    ensures { IsPrinted (err.new ≡ err.old) (L.printed err.old) (L.printed err.new)
        (L.faults err.old) (L.faults err.new) text.now }
{
    if !text.is_empty() {
        let _ = err.print(text.as_slice());
    }
}

/// Prints what the instances of a run counted, where there is something to print and memory sufficed. The run's fault is given back;
/// where there was none, and the print failed, it is that.
pub(crate) fn sum_up<P: Printer>(
    summary: Option<Bytes>,
    fault: Option<Fault>,
    out: &mut P,
) -> Option<Fault>
    ensures { IsFollowed (out.new ≡ out.old) (P.printed out.old) (P.printed out.new)
        (P.faults out.old) (P.faults out.new) summary fault result }
{
    let Some(lines) = summary else {
        return fault;
    };
    if matches!(fault, Some(Fault::WantOfMemory)) {
        return fault;
    }
    match out.print(lines.as_slice()) {
        Ok(()) => fault,
        Err(_) => Some(or_unprinted(fault)),
    }
}

/// The fault of a run whose counts couldn't be printed.
fn or_unprinted(fault: Option<Fault>) -> Fault
    ensures { result ≡ unwrap_or fault Fault.PrintFailed }
{
    match fault {
        Some(fault) => fault,
        None => Fault::PrintFailed,
    }
}

/// The status of a run that ends with that fault, or with none.
pub(crate) fn status_of(fault: &Option<Fault>) -> u8
    ensures { result ≡ ended_status fault.now }
{
    match fault {
        None => 0,
        Some(fault) => fault.status(),
    }
}
