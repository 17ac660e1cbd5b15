// Callers that know a port by its clauses alone.
ghost use Rattle.std.specs.Prelude.{◌≡◌, ℕ, ◌<◌, ◌≤◌, ◌++◌, [], List, length, take, OnOk, IfOk, IfSome, IfNone, IsTrue, IsErrOf};
ghost use Rattle.vx_ends.specs.Observation.{Grows, SameBytes, Rose};

use vx_ends::{Port, Took, Trouble};
use vx_value::Bytes;

// Gives the bytes to a started port until a give fails: how many were given, and whether all were.
pub fn give_all<P: Port>(port: &mut P, bytes: &[u8]) -> (usize, bool)
    requires { IsTrue (P.observed port.old).started }
    ensures started { (P.observed port.new).started ≡ (P.observed port.old).started }
    ensures within { result.0 ≤ length bytes.now }
    ensures given { Grows (P.observed port.old).given (P.observed port.new).given
        (take result.0 bytes.now) }
    ensures rest { SameBytes (record (P.observed port.old) { given = (P.observed port.new).given })
        (P.observed port.new) }
    ensures all { IsTrue result.1 → result.0 ≡ length bytes.now }
    ensures faults { (P.observed port.old).faults ≤ (P.observed port.new).faults }
    ensures refusals { (P.observed port.old).refusals ≤ (P.observed port.new).refusals }
    ensures idles { (P.observed port.old).idles ≤ (P.observed port.new).idles }
{
    let mut at = 0;
    while at < bytes.len() {
        match port.give(&bytes[at..]) {
            Ok(n) => at += n as usize,
            Err(_) => return (at, false),
        }
    }
    (at, true)
}

// Takes once of a started port, and appends to `out` what came. The stream of which it came.
pub fn take_once<P: Port>(
    port: &mut P,
    buffer: &mut [u8],
    out: &mut Bytes,
) -> Result<Option<u64>, Trouble>
    requires room { 0 < length buffer.old }
    requires started { IsTrue (P.observed port.old).started }
    ensures some { IfOk result
        (λ came. IfSome came
        (λ from. (more : List ℕ)
        × Grows ((P.observed port.old).taken from) ((P.observed port.new).taken from) more
        × (out.new ≡ out.old ++ more))) }
    ensures none { IfOk result
        (λ came. IfNone came
        ((out.new ≡ out.old)
        × ((stream : ℕ) →
        Grows ((P.observed port.old).taken stream) ((P.observed port.new).taken stream) []))) }
    ensures failed { IsErrOf result Trouble.Failed →
        Rose (P.observed port.old).faults (P.observed port.new).faults }
    ensures given { (P.observed port.new).given ≡ (P.observed port.old).given }
{
    match port.take(buffer)? {
        Took::Bytes { stream, n } => match out.push_slice(&buffer[..n as usize]) {
            Ok(()) => Ok(Some(stream)),
            Err(_) => Err(Trouble::WantOfMemory),
        },
        Took::StreamEnded { stream: _ } | Took::AllEnded | Took::Idle => Ok(None),
    }
}

// One attempt: starts the port, gives all the bytes, and finishes.
pub fn attempt<P: Port>(port: &mut P, bytes: &[u8]) -> Result<(), Trouble>
    ensures given { OnOk result (Grows (P.observed port.old).given (P.observed port.new).given bytes.now) }
    ensures taken { (P.observed port.new).taken ≡ (P.observed port.old).taken }
    ensures faults { (P.observed port.old).faults ≤ (P.observed port.new).faults }
{
    port.start()?;
    if !give_all(port, bytes).1 {
        return Err(Trouble::Failed);
    }
    port.finish()
}
