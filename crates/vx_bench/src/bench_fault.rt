use std::fmt;
use vx_json::JsonFault;
use vx_value::WantOfMemory;

/// Why there is nothing to tell.
#[derive(Clone, Copy)]
pub enum BenchFault {
    /// The words are no task.
    Usage,
    /// Standard input can't be read.
    Input,
    /// Standard output or standard error can't be written.
    Output,
    /// The input is no event.
    Refused(JsonFault),
    /// No memory was found.
    WantOfMemory,
}

impl BenchFault {
    /// The status that the program ends with.
    pub fn status(self) -> u8 {
        match self {
            BenchFault::Usage => 64,
            BenchFault::Refused(_) => 65,
            BenchFault::WantOfMemory => 71,
            BenchFault::Input | BenchFault::Output => 74,
        }
    }
}

impl From<WantOfMemory> for BenchFault {
    fn from(_want: WantOfMemory) -> BenchFault {
        BenchFault::WantOfMemory
    }
}

impl fmt::Display for BenchFault {
    fn fmt<W: fmt::Write>(&self, f: &mut fmt::Formatter<W>) -> fmt::Result {
        match self {
            BenchFault::Usage => write!(
                f,
                "call it with one word: lines, read, copy, text or layers"
            ),
            BenchFault::Input => write!(f, "cannot read standard input"),
            BenchFault::Output => write!(f, "cannot write"),
            BenchFault::Refused(fault) => write!(f, "the input is no event: {fault:?}"),
            BenchFault::WantOfMemory => write!(f, "out of memory"),
        }
    }
}
