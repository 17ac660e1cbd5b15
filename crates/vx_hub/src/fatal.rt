ghost use Rattle.std.specs.Prelude.{◌≡◌};
ghost use Rattle.vx_hub.specs.Failures.{fatal_of};

use vx_ledger::Short;

/// Why the hub can't go on. Only an abandonment is left.
#[derive(Clone, Copy, PartialEq, Eq, Debug)]
pub enum Fatal {
    /// Copies would have numbers past 2^63.
    Numbers { next: u64, wanted: u64 },
    /// No memory was found.
    WantOfMemory,
}

impl From<Short> for Fatal {
    fn from(short: Short) -> Self
        ensures { result ≡ fatal_of short }
    {
        match short {
            Short::Numbers { next, wanted } => Fatal::Numbers { next, wanted },
            Short::WantOfMemory => Fatal::WantOfMemory,
        }
    }
}
