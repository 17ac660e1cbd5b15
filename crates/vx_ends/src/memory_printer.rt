ghost use Rattle.std.specs.Prelude.{◌≡◌, ◌≤◌, [], ◌++◌, Some, OnOk, OnErr, IsErr, true};
ghost use Rattle.vx_ends.specs.Acts.{raised};
ghost use Rattle.vx_ends.specs.Observation.{Grows, Rose};

use crate::printer::Printer;
use crate::trouble::Failed;
use std::alloc::Global;
use std::marker::Model;
use vx_value::Bytes;

/// A printer that keeps what it prints, and fails from a print on.
#[derive(Drop)]
pub struct MemoryPrinter {
    printed: Bytes,
    prints: u64,
    fail_from: Option<u64>,
    faults: u64,
}

impl Model for MemoryPrinter {
    ghost use Rattle.vx_ends.specs.Printing.{Printing};

    ghost Value = { Printing };

    ghost view = { λ p. record { printed = p.printed; prints = p.prints; fail_from = p.fail_from; faults = p.faults } };
}

impl MemoryPrinter {
    /// A printer that fails from that print on, counted from 0, and never without one.
    pub fn new(alloc: Global, fail_from: Option<u64>) -> Self
        ensures { result ≡ record { printed = []; prints = 0; fail_from = fail_from; faults = 0 } }
    {
        MemoryPrinter {
            printed: Bytes::new(alloc),
            prints: 0,
            fail_from,
            faults: 0,
        }
    }

    /// The bytes that were printed.
    pub fn printed(&self) -> &[u8]
        ensures { result.now ≡ self.now.printed }
    {
        self.printed.as_slice()
    }
}

impl Printer for MemoryPrinter {
    ghost use Rattle.vx_ends.specs.Printing.{IsToFail};

    ghost printed = { λ p. Some p.printed };

    ghost faults = { λ p. p.faults };

    /// Prints the bytes. For want of memory the print fails too.
    fn print(&mut self, bytes: &[u8]) -> Result<(), Failed>
        ensures fails { IsToFail self.old → IsErr result }
        ensures prints { self.new.prints ≡ raised self.old.prints true }
        ensures fail_from { self.new.fail_from ≡ self.old.fail_from }
        ensures printed_ok { OnOk result (self.new.printed ≡ self.old.printed ++ bytes.now) }
        ensures printed_err { OnErr result (self.new.printed ≡ self.old.printed) }
        ensures faults_err { OnErr result (self.new.faults ≡ raised self.old.faults true) }

        ensures ok { OnOk result (Grows (Some self.old.printed) (Some self.new.printed) bytes.now) }
        ensures err { OnErr result (Some self.new.printed ≡ Some self.old.printed) }
        ensures cause { OnErr result (Rose self.old.faults self.new.faults) }
        ensures kept { OnOk result (self.new.faults ≡ self.old.faults) }
        ensures later { self.old.faults ≤ self.new.faults }
    {
        let print = self.prints;
        self.prints = print.saturating_add(1);
        let fails = match self.fail_from {
            Some(first) => first <= print,
            None => false,
        };
        if fails || self.printed.push_slice(bytes).is_err() {
            self.faults = self.faults.saturating_add(1);
            return Err(Failed);
        }
        Ok(())
    }
}
