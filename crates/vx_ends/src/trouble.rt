/// A print that failed.
#[derive(Clone, Copy, PartialEq, Eq, Debug)]
pub struct Failed;

/// The answer of a device to one attempt.
#[derive(Clone, Copy, PartialEq, Eq, Debug)]
pub enum Reply {
    /// All bytes were given, and the device finished well.
    Ok,
    /// The device failed.
    Failed,
    /// The device refused what it was given.
    Refused,
}

/// Why a call of an end gave no answer.
#[derive(Clone, Copy, PartialEq, Eq, Debug)]
pub enum Trouble {
    /// The device failed: its count of faults rose in that call.
    Failed,
    /// The device refused what it was given: its count of refusals rose in that call.
    Refused,
    /// No memory was found.
    WantOfMemory,
}
