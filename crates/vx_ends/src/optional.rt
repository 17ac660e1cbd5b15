ghost use Rattle.std.specs.Prelude.{◌≡◌, ◌≢◌, ℕ, ◌<◌, ◌≤◌, ◌++◌, length, IfOk, OnOk, OnErr, IsOk, IsTrue, false, not, ◌&&◌, is_ok};
ghost use Rattle.vx_ends.specs.Observation.{Grows, Shrinks, SameBytes, TakeLeaves, HasCause, HasIdle, HasRefusal, CountsBy, nothing, is_failed, is_refused, is_idle, piece_of, part_of, ended_by, over_after, IsWithin, IsOfOpen, EndsAll, EndsStream};

use crate::port::{Port, Took};
use crate::position::PositionList;
use crate::trouble::Trouble;

/// A port that may not be there, as that of a component that has no device. Where there is none it is never started, nothing goes
/// through it, and it tells nothing; a start and a confirm find no memory, the one answer that counts nothing.
impl<P: Port> Port for Option<P> {
    ghost use Rattle.vx_ends.specs.Silent.{observed_if};

    ghost observed = { observed_if P.observed };

    fn start(&mut self) -> Result<(), Trouble> {
        match self {
            Some(port) => port.start(),
            None => Err(Trouble::WantOfMemory),
        }
    }

    fn take(&mut self, into: &mut [u8]) -> Result<Took, Trouble> {
        match self {
            Some(port) => port.take(into),
            None => unreachable!(),
        }
    }

    fn give(&mut self, bytes: &[u8]) -> Result<u32, Trouble> {
        match self {
            Some(port) => port.give(bytes),
            None => unreachable!(),
        }
    }

    fn finish(&mut self) -> Result<(), Trouble> {
        match self {
            Some(port) => port.finish(),
            None => unreachable!(),
        }
    }

    fn confirm(&mut self, positions: &PositionList) -> Result<(), Trouble> {
        match self {
            Some(port) => port.confirm(positions),
            None => Err(Trouble::WantOfMemory),
        }
    }

    fn close(&mut self) {
        match self {
            Some(port) => port.close(),
            None => {}
        }
    }
}
