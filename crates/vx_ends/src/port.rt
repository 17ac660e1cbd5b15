ghost use Rattle.std.specs.Prelude.{◌≡◌, ◌≢◌, ℕ, ◌<◌, ◌≤◌, ◌++◌, List, length, IfOk, OnOk, OnErr, IsOk, IsTrue, false, not, ◌&&◌, is_ok};
ghost use Rattle.vx_ends.specs.Observation.{Observation, Grows, Shrinks, SameBytes, TakeLeaves, HasCause, HasIdle, HasRefusal, CountsBy, nothing, is_failed, is_refused, is_idle, piece_of, part_of, ended_by, over_after, IsWithin, IsOfOpen, EndsAll, EndsStream};

use crate::position::PositionList;
use crate::trouble::Trouble;

/// What a take brought.
#[derive(Clone, Copy, PartialEq, Eq, Debug)]
pub enum Took {
    /// `n` bytes of the stream stand at the front of the buffer.
    Bytes { stream: u64, n: u32 },
    /// The stream has ended.
    StreamEnded { stream: u64 },
    /// Every stream has ended, and none comes any more.
    AllEnded,
    /// There is nothing now.
    Idle,
}

/// A device, as a run sees it: it is started, bytes are taken or given, positions are confirmed, and it is closed.
///
/// What is observed of it (`Observation`) are the bytes that went through it, as far as it tells them, whether it is started, the
/// streams that have ended, and its counts of faults, idles, refusals, starts, finishes and confirms, which never fall, and which may
/// be exact.
pub trait Port: Drop {
    ghost observed: { Self → Observation };

    /// Makes the device ready. A port that is started answers `Ok` and does nothing.
    fn start(&mut self) -> Result<(), Trouble>
        ensures started { OnOk result (IsTrue (observed self.new).started) }
        ensures closed { OnErr result ((observed self.new).started ≡ (observed self.old).started) }
        ensures again { IsTrue (observed self.old).started →
            IsOk result × (observed self.new ≡ observed self.old) }
        ensures bytes { SameBytes (observed self.old) (observed self.new) }
        ensures cause { HasCause (observed self.old).faults (observed self.new).faults result }
        ensures unrefused { result ≢ Err Trouble.Refused }
        ensures idles { (observed self.old).idles ≤ (observed self.new).idles }
        ensures refusals { (observed self.old).refusals ≤ (observed self.new).refusals }
        ensures counts { CountsBy
            (record nothing {
              failed = is_failed result;
              started = is_ok result && not (observed self.old).started;
            }) (observed self.old)
            (observed self.new) };

    /// Takes bytes of one stream into the front of the buffer, at most as many as it holds. The port is started.
    fn take(&mut self, into: &mut [u8]) -> Result<Took, Trouble>
        requires room { 0 < length into.old }
        requires started { IsTrue (observed self.old).started }
        ensures within { IfOk result (IsWithin (length into.old)) }
        ensures taken { (stream : ℕ) →
            Grows ((observed self.old).taken stream) ((observed self.new).taken stream)
            (piece_of stream result into.new) }
        ensures left { (stream : ℕ) →
            Shrinks ((observed self.old).left stream) ((observed self.new).left stream)
            (piece_of stream result into.new) }
        ensures ended { (observed self.new).ended ≡ (observed self.old).ended ++ ended_by result }
        ensures open { IfOk result (IsOfOpen (observed self.old).ended) }
        ensures over { (observed self.new).over ≡ over_after (observed self.old).over result }
        ensures after_end { IsTrue (observed self.old).over →
            IfOk result (λ took. took ≡ Took.AllEnded) }
        ensures all_ended { IfOk result (EndsAll (observed self.new)) }
        ensures stream_ended { IfOk result (EndsStream (observed self.new)) }
        ensures rest { TakeLeaves (observed self.old) (observed self.new) }
        ensures cause { HasCause (observed self.old).faults (observed self.new).faults result }
        ensures idle { HasIdle (observed self.old).idles (observed self.new).idles result }
        ensures unrefused { result ≢ Err Trouble.Refused }
        ensures refusals { (observed self.old).refusals ≤ (observed self.new).refusals }
        ensures counts { CountsBy
            (record nothing { failed = is_failed result; idle = is_idle result }) (observed self.old)
            (observed self.new) };

    /// Gives the first bytes of a piece, and answers how many were given. The port is started.
    fn give(&mut self, bytes: &[u8]) -> Result<u32, Trouble>
        requires some { 0 < length bytes.now }
        requires started { IsTrue (observed self.old).started }
        ensures some { IfOk result (λ n. 0 < n) }
        ensures within { IfOk result (λ n. n ≤ length bytes.now) }
        ensures given { Grows (observed self.old).given (observed self.new).given
            (part_of result bytes.now) }
        ensures rest { SameBytes (record (observed self.old) { given = (observed self.new).given })
            (observed self.new) }
        ensures started { (observed self.new).started ≡ (observed self.old).started }
        ensures cause { HasCause (observed self.old).faults (observed self.new).faults result }
        ensures refusal { HasRefusal (observed self.old).refusals (observed self.new).refusals result }
        ensures idles { (observed self.old).idles ≤ (observed self.new).idles }
        ensures counts { CountsBy
            (record nothing { failed = is_failed result; refused = is_refused result })
            (observed self.old) (observed self.new) };

    /// Ends what was given since the last finish: the device has it where the answer is `Ok`. The port is started.
    fn finish(&mut self) -> Result<(), Trouble>
        requires { IsTrue (observed self.old).started }
        ensures bytes { SameBytes (observed self.old) (observed self.new) }
        ensures started { (observed self.new).started ≡ (observed self.old).started }
        ensures cause { HasCause (observed self.old).faults (observed self.new).faults result }
        ensures refusal { HasRefusal (observed self.old).refusals (observed self.new).refusals result }
        ensures idles { (observed self.old).idles ≤ (observed self.new).idles }
        ensures counts { CountsBy
            (record nothing {
              failed = is_failed result;
              refused = is_refused result;
              finished = is_ok result;
            }) (observed self.old) (observed self.new) };

    /// Confirms positions: what stands before them in their streams isn't wanted any more.
    fn confirm(&mut self, positions: &PositionList) -> Result<(), Trouble>
        ensures ok { OnOk result
            (Grows (observed self.old).confirmed (observed self.new).confirmed positions.now) }
        ensures err { OnErr result ((observed self.new).confirmed ≡ (observed self.old).confirmed) }
        ensures rest { SameBytes (record (observed self.old) { confirmed = (observed self.new).confirmed })
            (observed self.new) }
        ensures started { (observed self.new).started ≡ (observed self.old).started }
        ensures cause { HasCause (observed self.old).faults (observed self.new).faults result }
        ensures unrefused { result ≢ Err Trouble.Refused }
        ensures idles { (observed self.old).idles ≤ (observed self.new).idles }
        ensures refusals { (observed self.old).refusals ≤ (observed self.new).refusals }
        ensures counts { CountsBy
            (record nothing { failed = is_failed result; confirmed = is_ok result }) (observed self.old)
            (observed self.new) };

    /// Closes the port. It can't fail.
    fn close(&mut self)
        ensures closed { (observed self.new).started ≡ false }
        ensures bytes { SameBytes (observed self.old) (observed self.new) }
        ensures faults { (observed self.old).faults ≤ (observed self.new).faults }
        ensures idles { (observed self.old).idles ≤ (observed self.new).idles }
        ensures refusals { (observed self.old).refusals ≤ (observed self.new).refusals }
        ensures counts { CountsBy nothing (observed self.old) (observed self.new) };
}
