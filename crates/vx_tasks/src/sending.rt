ghost use Rattle.std.specs.Prelude.{◌≡◌, ◌≤◌, length, take, IfOk, IfErr, OnErr, OnOk, IsNone, IsErrOf, IsTrue, Some, false};
ghost use Rattle.vx_ends.specs.Observation.{Grows, Rose, CountsBy, nothing};
ghost use Rattle.vx_tasks.specs.Attempts.{OnlyGives, IsCaused, IsWhole, CountsReply, CountsSent, sent_counts, trouble_counts};
ghost use Rattle.vx_sourcecore.specs.Turns.{StartsAtMost};

use vx_ends::{Port, Reply, Trouble};

/// What one attempt sent, in bytes, and what the device answered.
#[derive(Clone, Copy, Debug)]
pub(crate) struct Attempted {
    pub(crate) sent: u64,
    pub(crate) reply: Reply,
}

/// An attempt for which memory was wanting after that many bytes were sent.
#[derive(Clone, Copy, Debug)]
pub(crate) struct CutShort {
    pub(crate) sent: u64,
}

/// Starts the port if it isn't started, gives it the bytes, and finishes. After a failure or want of memory the port is closed.
pub(crate) fn attempt<P: Port>(port: &mut P, bytes: &[u8]) -> Result<Attempted, CutShort>
    ensures within { IfOk result (λ attempted. attempted.sent ≤ length bytes.now) }
    ensures given { IfOk result
        (λ attempted. Grows (P.observed port.old).given (P.observed port.new).given
        (take attempted.sent bytes.now)) }
    ensures whole { IfOk result (IsWhole (length bytes.now)) }
    ensures cause { IfOk result (IsCaused (P.observed port.old) (P.observed port.new)) }
    ensures others { OnlyGives (P.observed port.old) (P.observed port.new) }
    ensures counts { IfOk result (CountsReply (P.observed port.old) (P.observed port.new)) }
    ensures uncounted { OnErr result (StartsAtMost (P.observed port.old) (P.observed port.new)) }
    ensures short { IfErr result
        (λ short. Grows (P.observed port.old).given (P.observed port.new).given
        (take short.sent bytes.now)) }
    ensures part { IfErr result (λ short. short.sent ≤ length bytes.now) }
    ensures closed { OnErr result ((P.observed port.new).started ≡ false) }
{
    let (sent, answer) = start_and_give(port, bytes);
    let trouble = match answer {
        Ok(()) => {
            return Ok(Attempted {
                sent,
                reply: Reply::Ok,
            });
        }
        Err(trouble) => trouble,
    };
    match trouble {
        Trouble::Refused => Ok(Attempted {
            sent,
            reply: Reply::Refused,
        }),
        Trouble::Failed => {
            port.close();
            Ok(Attempted {
                sent,
                reply: Reply::Failed,
            })
        }
        Trouble::WantOfMemory => {
            port.close();
            Err(CutShort { sent })
        }
    }
}

/// Starts the port if it isn't started, gives it the bytes, and finishes where all were given.
fn start_and_give<P: Port>(port: &mut P, bytes: &[u8]) -> (u64, Result<(), Trouble>)
    ensures counts { CountsSent result.1 (P.observed port.old) (P.observed port.new) }
    ensures within { result.0 ≤ length bytes.now }
    ensures given { Grows (P.observed port.old).given (P.observed port.new).given
        (take result.0 bytes.now) }
    ensures others { OnlyGives (P.observed port.old) (P.observed port.new) }
    ensures whole { OnOk result.1 (result.0 ≡ length bytes.now) }
{
    match port.start() {
        Ok(()) => give_and_finish(port, bytes),
        Err(trouble) => (0, Err(trouble)),
    }
}

/// Gives the bytes, and finishes where all were given.
fn give_and_finish<P: Port>(port: &mut P, bytes: &[u8]) -> (u64, Result<(), Trouble>)
    requires { IsTrue (P.observed port.old).started }
    ensures within { result.0 ≤ length bytes.now }
    ensures given { Grows (P.observed port.old).given (P.observed port.new).given
        (take result.0 bytes.now) }
    ensures whole { OnOk result.1 (result.0 ≡ length bytes.now) }
    ensures counts { CountsBy (sent_counts result.1) (P.observed port.old) (P.observed port.new) }
    ensures others { OnlyGives (P.observed port.old) (P.observed port.new) }
    ensures started { (P.observed port.new).started ≡ (P.observed port.old).started }
{
    let (sent, trouble) = give_all(port, bytes);
    match trouble {
        Some(trouble) => (sent as u64, Err(trouble)),
        None => (sent as u64, port.finish()),
    }
}

/// Gives the bytes until a give fails: how many were given, and why not all of them.
fn give_all<P: Port>(port: &mut P, bytes: &[u8]) -> (usize, Option<Trouble>)
    requires { IsTrue (P.observed port.old).started }
    ensures within { result.0 ≤ length bytes.now }
    ensures given { Grows (P.observed port.old).given (P.observed port.new).given
        (take result.0 bytes.now) }
    ensures whole { IsNone result.1 → result.0 ≡ length bytes.now }
    ensures counts { CountsBy (trouble_counts result.1) (P.observed port.old) (P.observed port.new) }
    ensures others { OnlyGives (P.observed port.old) (P.observed port.new) }
    ensures started { (P.observed port.new).started ≡ (P.observed port.old).started }
{
    let mut at = 0;
    while at < bytes.len() {
        match port.give(&bytes[at..]) {
            Ok(n) => at += n as usize,
            Err(trouble) => return (at, Some(trouble)),
        }
    }
    (at, None)
}
