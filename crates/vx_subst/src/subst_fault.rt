use std::fmt;
use vx_value::{Text, WantOfMemory};

/// Why a text's variables aren't replaced.
#[derive(Drop)]
pub enum SubstFault {
    /// A variable that has no default isn't in the environment: its name, and the place of its `$`, counted in
    /// bytes from 0. Of several it is the first in the text.
    MissingVariable { name: Text, at: u64 },
    /// No memory was found.
    WantOfMemory,
}

impl From<WantOfMemory> for SubstFault {
    ghost use Rattle.vx_subst.specs.declared.subst_fault.SubstFault.TheVariants.{WantOfMemory};
    ghost use Rattle.std.specs.Prelude.{◌≡◌};

    ghost from_gives = { λ _ fault. fault ≡ WantOfMemory };

    fn from(_want: WantOfMemory) -> SubstFault {
        SubstFault::WantOfMemory
    }
}
