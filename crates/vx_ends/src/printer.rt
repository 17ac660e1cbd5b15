ghost use Rattle.std.specs.Prelude.{◌≡◌, ◌≤◌, ℕ, List, Option, OnOk, OnErr};
ghost use Rattle.vx_ends.specs.Observation.{Grows, Rose};

use crate::trouble::Failed;

/// Where texts for people are printed.
pub trait Printer: Drop {
    /// The bytes that were printed, where it tells them.
    ghost printed: { Self → Option (List ℕ) };

    /// How many prints failed. It rises at each `Failed` (at 2^64 - 1 it stays), and stays otherwise.
    ghost faults: { Self → ℕ };

    /// Prints the bytes, all of them where the answer is `Ok`.
    fn print(&mut self, bytes: &[u8]) -> Result<(), Failed>
        ensures ok { OnOk result (Grows (printed self.old) (printed self.new) bytes.now) }
        ensures err { OnErr result (printed self.new ≡ printed self.old) }
        ensures cause { OnErr result (Rose (faults self.old) (faults self.new)) }
        ensures kept { OnOk result (faults self.new ≡ faults self.old) }
        ensures later { faults self.old ≤ faults self.new };
}
