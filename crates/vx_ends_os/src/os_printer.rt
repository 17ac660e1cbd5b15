ghost use Rattle.std.specs.Prelude.{None};

use crate::os_output::OsOutput;
use std::io::Write;
use vx_ends::{Failed, Printer};

/// Prints to standard output, or to standard error. It tells nothing of what was printed.
#[derive(Drop)]
pub struct OsPrinter {
    output: OsOutput,
    faults: u64,
}

impl OsPrinter {
    /// A printer to standard error where `err` is set, else to standard output.
    pub fn new(rt: HostRuntime, err: bool) -> Self {
        OsPrinter {
            output: OsOutput::new(rt, err),
            faults: 0,
        }
    }
}

impl Printer for OsPrinter {
    ghost printed = { λ _. None };

    ghost faults = { λ p. p.faults };

    fn print(&mut self, bytes: &[u8]) -> Result<(), Failed> {
        if self.output.write_all(bytes).is_ok() {
            return Ok(());
        }
        self.faults = self.faults.saturating_add(1);
        Err(Failed)
    }
}
