use std::alloc::AllocError;
use vx_value::WantOfMemory;

/// Why the words give no command.
#[derive(Clone, Copy, PartialEq, Eq, Debug)]
pub enum CliFault {
    /// The words are in no command's grammar.
    Usage,
    /// No memory was found.
    WantOfMemory,
}

impl From<WantOfMemory> for CliFault {
    ghost use Rattle.vx_cli.specs.declared.cli_fault.CliFault.TheVariants.{WantOfMemory};
    ghost use Rattle.std.specs.Prelude.{◌≡◌};

    ghost from_gives = { λ _ fault. fault ≡ WantOfMemory };

    fn from(_want: WantOfMemory) -> CliFault {
        CliFault::WantOfMemory
    }
}

impl From<AllocError> for CliFault {
    ghost use Rattle.vx_cli.specs.declared.cli_fault.CliFault.TheVariants.{WantOfMemory};
    ghost use Rattle.std.specs.Prelude.{◌≡◌};

    ghost from_gives = { λ _ fault. fault ≡ WantOfMemory };

    fn from(_error: AllocError) -> CliFault {
        CliFault::WantOfMemory
    }
}
