use vx_value::{Text, WantOfMemory};

/// How far a file was read.
#[derive(Drop)]
pub struct Checkpoint {
    /// The path of the file.
    pub path: Text,
    /// How many of its bytes are done with, below 2^63 in a document.
    pub offset: u64,
}

/// Why bytes are no checkpoint's document. Each comes only where none that stands before it here does.
#[derive(Clone, Copy, PartialEq, Eq, Debug)]
pub enum CheckpointFault {
    /// The bytes are no JSON text.
    NotJson,
    /// It is no object, or its version is missing or no whole number of 64 bits with a sign. Or its version is 1, and
    /// its keys aren't exactly `offset`, `path` and `version`, its path is no text, or its offset is no whole number
    /// from 0 to 2^63 - 1.
    WrongShape,
    /// Its version is another than 1.
    WrongVersion { found: i64 },
    /// No memory was found.
    WantOfMemory,
}

impl From<WantOfMemory> for CheckpointFault {
    ghost use Rattle.vx_checkpoint.specs.declared.checkpoint.CheckpointFault.TheVariants.{WantOfMemory};
    ghost use Rattle.std.specs.Prelude.{◌≡◌};

    ghost from_gives = { λ _ fault. fault ≡ WantOfMemory };

    fn from(_want: WantOfMemory) -> CheckpointFault {
        CheckpointFault::WantOfMemory
    }
}
