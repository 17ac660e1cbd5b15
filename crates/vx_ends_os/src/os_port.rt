ghost use Rattle.std.specs.Prelude.{◌≡◌, ◌≢◌, ◌≤◌, ◌&&◌, not, Err, IsOk, IsTrue, OnOk, OnErr, is_ok, false};
ghost use Rattle.vx_ends.specs.Observation.{CountsBy, HasCause, Rose, SameBytes, is_failed, nothing, raised};
ghost use Rattle.vx_ends_os.specs.Faults.{is_counted, trouble_of};

use crate::device::Device;
use crate::fault::Fault;
use crate::read_result::ReadResult;
use vx_ends::{Port, PositionList, Took, Trouble};

/// The most bytes that one give hands to the system.
const MOST_WRITTEN: usize = 0x7fff_ffff;

/// A port on a standard stream of this process, or on a file. It tells its counts and states, and nothing of what went
/// through it.
///
/// What is read is the one stream 0. A take reads it by one call of the system, in pieces of at most 65,536 bytes as they
/// come. A give writes by one call of the system, with no buffer between, and waits while the device takes nothing.
///
/// A read of standard input that brings no byte is the end of all for ever, and so is one of a file that is read once. A
/// file that is read as it grows is idle at its end. Its confirms are kept in the document of its checkpoint, from which
/// the next port on it starts.
#[derive(Drop)]
pub struct OsPort {
    device: Device,
    over: bool,
    started: bool,
    faults: u64,
    idles: u64,
    starts: u64,
    finishes: u64,
    confirms: u64,
}

impl OsPort {
    /// A closed port on that device, with counts of 0.
    pub(crate) fn new(device: Device) -> Self
        ensures device { result.device ≡ device }
        ensures over { result.over ≡ false }
        ensures started { result.started ≡ false }
        ensures faults { result.faults ≡ 0 }
        ensures idles { result.idles ≡ 0 }
        ensures starts { result.starts ≡ 0 }
        ensures finishes { result.finishes ≡ 0 }
        ensures confirms { result.confirms ≡ 0 }
    {
        OsPort {
            device,
            over: false,
            started: false,
            faults: 0,
            idles: 0,
            starts: 0,
            finishes: 0,
            confirms: 0,
        }
    }

    // The trouble of a fault. The count of faults rises where the device failed, and all else stays.
    fn counted(&mut self, fault: Fault) -> Trouble
        ensures trouble { result ≡ trouble_of fault }
        ensures unrefused { result ≢ Trouble.Refused }
        ensures rose { result ≡ Trouble.Failed → Rose self.old.faults self.new.faults }
        ensures raised { self.new.faults ≡ raised self.old.faults (is_counted fault) }
        ensures later { self.old.faults ≤ self.new.faults }
        ensures rest { self.new ≡ record self.old { faults = self.new.faults } }
    {
        match fault {
            Fault::Failed => {
                self.faults = self.faults.saturating_add(1);
                Trouble::Failed
            }
            Fault::WantOfMemory => Trouble::WantOfMemory,
        }
    }
}

impl Port for OsPort {
    ghost use Rattle.vx_ends_os.specs.Ports.{observed_of};

    ghost observed = { observed_of };

    fn start(&mut self) -> Result<(), Trouble>
        // A port that is started stays the same, and so does its device.
        ensures unchanged { IsTrue (observed_of self.old).started → self.new ≡ self.old }

        ensures started { OnOk result (IsTrue (observed_of self.new).started) }
        ensures closed { OnErr result ((observed_of self.new).started ≡ (observed_of self.old).started) }
        ensures again { IsTrue (observed_of self.old).started →
            IsOk result × (observed_of self.new ≡ observed_of self.old) }
        ensures bytes { SameBytes (observed_of self.old) (observed_of self.new) }
        ensures cause { HasCause (observed_of self.old).faults (observed_of self.new).faults result }
        ensures unrefused { result ≢ Err Trouble.Refused }
        ensures idles { (observed_of self.old).idles ≤ (observed_of self.new).idles }
        ensures refusals { (observed_of self.old).refusals ≤ (observed_of self.new).refusals }
        ensures counts { CountsBy
            (record nothing {
              failed = is_failed result;
              started = is_ok result && not (observed_of self.old).started;
            }) (observed_of self.old)
            (observed_of self.new) }
    {
        if self.started {
            return Ok(());
        }
        match self.device.start() {
            Ok(()) => {
                self.started = true;
                self.starts = self.starts.saturating_add(1);
                Ok(())
            }
            Err(fault) => Err(self.counted(fault)),
        }
    }

    fn take(&mut self, into: &mut [u8]) -> Result<Took, Trouble> {
        if self.over {
            return Ok(Took::AllEnded);
        }
        match self.device.take(into) {
            Ok(ReadResult::Bytes(n)) => Ok(Took::Bytes { stream: 0, n }),
            Ok(ReadResult::Nothing) => {
                self.idles = self.idles.saturating_add(1);
                Ok(Took::Idle)
            }
            Ok(ReadResult::End) => {
                self.over = true;
                Ok(Took::AllEnded)
            }
            Err(fault) => Err(self.counted(fault)),
        }
    }

    fn give(&mut self, bytes: &[u8]) -> Result<u32, Trouble> {
        let n = bytes.len().min(MOST_WRITTEN);
        match self.device.give(&bytes[..n]) {
            0 => Err(self.counted(Fault::Failed)),
            written => Ok(written),
        }
    }

    fn finish(&mut self) -> Result<(), Trouble> {
        match self.device.finish() {
            Ok(()) => {
                self.finishes = self.finishes.saturating_add(1);
                Ok(())
            }
            Err(fault) => Err(self.counted(fault)),
        }
    }

    fn confirm(&mut self, positions: &PositionList) -> Result<(), Trouble> {
        match self.device.confirm(positions) {
            Ok(()) => {
                self.confirms = self.confirms.saturating_add(1);
                Ok(())
            }
            Err(fault) => Err(self.counted(fault)),
        }
    }

    fn close(&mut self) {
        self.device.close();
        self.started = false;
    }
}
