ghost use Rattle.std.specs.Prelude.{◌≡◌, IfOk};

use std::alloc::Global as Allocator;
use vx_value::{Text, WantOfMemory};

/// The global options.
#[derive(Drop)]
pub struct Global {
    /// The folder in which checkpoints are kept.
    pub data_dir: Text,
    /// Whether sinks acknowledge where they don't say otherwise.
    pub acknowledgements: bool,
}

impl Global {
    /// The same options once more.
    pub fn copy(&self, alloc: Allocator) -> Result<Self, WantOfMemory>
        ensures { IfOk result (λ copy. copy ≡ self.now) }
    {
        Ok(Global {
            data_dir: self.data_dir.copy(alloc)?,
            acknowledgements: self.acknowledgements,
        })
    }
}
