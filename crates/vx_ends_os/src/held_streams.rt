ghost use Rattle.std.specs.Prelude.{◌≡◌, ◌⊎◌, IfSome, pos};
ghost use Rattle.std.specs.Fd.{file_raw_fd};

use std::fs::{File, OpenOptions};
use std::os::fd::AsRawFd;

/// The device that has no byte and keeps none.
const NOTHING: &str = "/dev/null";

/// The numbers of the standard streams that this process was started without, kept from the files that it opens.
///
/// The system gives to what is opened the least number that is free. So a file that is opened while standard output is
/// closed would get its number, and what is printed would go into that file; and one that is opened while standard input
/// is closed would be read as that. Input is held to be written alone, and the outputs to be read alone, so a use of a
/// closed stream fails as before.
///
/// Where the device that has no byte can't be opened, no number is held.
#[derive(Drop)]
pub struct HeldStreams {
    input: Option<File>,
    output: Option<File>,
    other_output: Option<File>,
}

// Holds the number of standard input, where that is the least that is free.
fn hold_input(rt: HostRuntime) -> Option<File>
    ensures { IfSome result (λ file. file_raw_fd file ≡ pos 0) }
{
    let mut options = OpenOptions::new();
    options.write(true);
    match options.open(&rt, NOTHING) {
        Ok(file) if file.as_raw_fd() == 0 => Some(file),
        _ => None,
    }
}

// Holds the number of standard output or of standard error, where that is the least that is free.
fn hold_output(rt: HostRuntime) -> Option<File>
    ensures { IfSome result (λ file. (file_raw_fd file ≡ pos 1) ⊎ (file_raw_fd file ≡ pos 2)) }
{
    match File::open(&rt, NOTHING) {
        Ok(file) if file.as_raw_fd() == 1 || file.as_raw_fd() == 2 => Some(file),
        _ => None,
    }
}

impl HeldStreams {
    ghost use Rattle.vx_ends_os.specs.Streams.{HoldsStandardStreams};

    /// Holds the number of each standard stream that isn't open. It is to be made before anything is opened, and kept
    /// until the end of the process.
    pub fn new(rt: HostRuntime) -> Self
        ensures { HoldsStandardStreams result }
    {
        HeldStreams {
            input: hold_input(rt),
            output: hold_output(rt),
            other_output: hold_output(rt),
        }
    }
}
