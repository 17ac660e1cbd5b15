ghost use Rattle.std.specs.Prelude.{◌≡◌, ℕ, List, [], ◌∷◌, ◌++◌, is_some};
ghost use Rattle.vx_json.specs.Objects.{object_of};
ghost use Rattle.vx_json.specs.Probing.{HasProbed};

use crate::nesting::Nesting;
use crate::probe_mode::ProbeMode;

/// Whether bytes that come one at a time are an object, as `read` reads one. It takes no memory.
#[derive(Clone, Copy)]
pub struct Probe {
    /// Where it stands. `None` where no object begins so.
    probe_mode: Option<ProbeMode>,
    /// What is open there.
    nesting: Nesting,
}

impl Probe {
    /// A judge that was given no bytes.
    pub fn new() -> Self
        ensures { HasProbed [] result }
    {
        Probe {
            probe_mode: Some(ProbeMode::Before),
            nesting: Nesting::none(),
        }
    }

    /// Takes one more byte.
    pub fn take(&mut self, byte: u8)
        ensures { (bytes : List ℕ) → HasProbed bytes self.old →
            HasProbed (bytes ++ byte ∷ []) self.new }
    {
        if let Some(probe_mode) = self.probe_mode {
            self.probe_mode = probe_mode.step(&mut self.nesting, byte);
        }
    }

    /// Whether the bytes so far are an object: what `read` gives an event for.
    pub fn is_object(&self) -> bool
        ensures { (bytes : List ℕ) → HasProbed bytes self.now → result ≡ is_some (object_of bytes) }
    {
        match self.probe_mode {
            Some(probe_mode) => probe_mode.ends_object(&self.nesting),
            None => false,
        }
    }
}
