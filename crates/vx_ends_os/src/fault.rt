ghost use Rattle.std.specs.Prelude.{◌≡◌, ◌↔◌, ◌⊎◌, IsTrue};

use std::io;
use std::io::ErrorKind;
use vx_checkpoint::CheckpointFault;
use vx_value::WantOfMemory;

/// Why a device didn't do what it was asked to.
#[derive(Clone, Copy)]
pub(crate) enum Fault {
    /// The system, or what stands on the disk, doesn't allow it.
    Failed,
    /// No memory was found.
    WantOfMemory,
}

impl From<WantOfMemory> for Fault {
    fn from(_want: WantOfMemory) -> Fault {
        Fault::WantOfMemory
    }
}

impl From<io::Error> for Fault {
    fn from(error: io::Error) -> Fault {
        match error.kind() {
            ErrorKind::OutOfMemory => Fault::WantOfMemory,
            _ => Fault::Failed,
        }
    }
}

impl From<CheckpointFault> for Fault {
    fn from(fault: CheckpointFault) -> Fault {
        match fault {
            CheckpointFault::WantOfMemory => Fault::WantOfMemory,
            CheckpointFault::NotJson
            | CheckpointFault::WrongShape
            | CheckpointFault::WrongVersion { .. } => Fault::Failed,
        }
    }
}

/// Whether a read that failed so may go well later: no byte was there yet, or a signal cut in.
pub(crate) fn is_for_now(kind: ErrorKind) -> bool
    ensures { IsTrue result ↔ ((kind ≡ ErrorKind.Interrupted) ⊎ (kind ≡ ErrorKind.WouldBlock)) }
{
    match kind {
        ErrorKind::Interrupted | ErrorKind::WouldBlock => true,
        _ => false,
    }
}
