ghost use Rattle.std.specs.Prelude.{◌<◌, ◌≤◌, ◌^◌, length, IfOk, IfSome, IsSomeAnd, OnOk};
ghost use Rattle.vx_ends_os.specs.Reading.{IsInRoom};

use crate::fault::{Fault, is_for_now};
use crate::file_in::FileIn;
use crate::file_out::FileOut;
use crate::os_output::OsOutput;
use crate::read_result::ReadResult;
use std::io::{Read, Write};
use std::rt::Stdin;
use vx_ends::PositionList;

/// The most bytes that one read of standard input asks for.
const MOST_READ: usize = 65_536;

/// What a port of this process stands on.
#[derive(Drop)]
pub(crate) enum Device {
    /// Standard input, to be read.
    Input(Stdin),
    /// Standard output or standard error, to be written.
    Output(OsOutput),
    /// A file to be read as it grows.
    FileIn(FileIn),
    /// A file to be appended to.
    FileOut(FileOut),
}

// Reads what comes next of standard input, by one call of the system.
fn read(stdin: &mut Stdin, into: &mut [u8]) -> Result<ReadResult, Fault>
    requires { 0 < length into.old }
    ensures { IfOk result (IsInRoom (length into.old)) }
{
    let room = into.len().min(MOST_READ);
    match stdin.read(&mut into[..room]) {
        Ok(0) => Ok(ReadResult::End),
        Ok(n) => Ok(ReadResult::Bytes(n as u32)),
        Err(error) if is_for_now(error.kind()) => Ok(ReadResult::Nothing),
        Err(_) => Err(Fault::Failed),
    }
}

impl Device {
    ghost use Rattle.vx_ends_os.specs.Devices.{file_of, LetsSayNoMore};
    ghost use Rattle.vx_ends_os.specs.Documents.{SaysEnd, SaysNoMore};

    /// Makes the device ready.
    pub(crate) fn start(&mut self) -> Result<(), Fault>
        ensures { IfSome (file_of self.old)
            (λ was. IfSome was.place (λ _. IsSomeAnd (file_of self.new) (SaysNoMore was))) }
    {
        match self {
            Device::Input(_) | Device::Output(_) => Ok(()),
            Device::FileIn(file) => file.start(),
            Device::FileOut(file) => Ok(file.start()?),
        }
    }

    /// Takes what comes next into the front of the buffer, by one call of the system.
    pub(crate) fn take(&mut self, into: &mut [u8]) -> Result<ReadResult, Fault>
        requires { 0 < length into.old }
        ensures within { IfOk result (IsInRoom (length into.old)) }
        ensures document { LetsSayNoMore self.old self.new }
    {
        match self {
            Device::Input(stdin) => read(stdin, into),
            Device::FileIn(file) => file.take(into),
            Device::Output(_) | Device::FileOut(_) => Err(Fault::Failed),
        }
    }

    /// Writes the first bytes of a piece by one call of the system, and answers how many; 0 where that failed.
    pub(crate) fn give(&mut self, bytes: &[u8]) -> u32
        requires { length bytes.now < 2 ^ 32 }
        ensures within { result ≤ length bytes.now }
        ensures document { LetsSayNoMore self.old self.new }
    {
        let written = match self {
            Device::Input(_) | Device::FileIn(_) => return 0,
            Device::Output(output) => output.write(bytes),
            Device::FileOut(file) => file.write(bytes),
        };
        match written {
            Ok(n) => n as u32,
            Err(_) => 0,
        }
    }

    /// Hands on what is written and held back.
    pub(crate) fn finish(&mut self) -> Result<(), Fault>
        ensures { LetsSayNoMore self.old self.new }
    {
        match self {
            Device::Input(_) | Device::FileIn(_) => Err(Fault::Failed),
            Device::Output(output) => Ok(output.flush()?),
            Device::FileOut(file) => Ok(file.flush()?),
        }
    }

    /// Notes how far its stream is done with, where it keeps that.
    pub(crate) fn confirm(&mut self, positions: &PositionList) -> Result<(), Fault>
        ensures { OnOk result
            (IfSome (file_of self.old)
            (λ was. IsSomeAnd (file_of self.new) (SaysEnd positions.now was))) }
    {
        match self {
            Device::Input(_) | Device::Output(_) | Device::FileOut(_) => Ok(()),
            Device::FileIn(file) => file.confirm(positions),
        }
    }

    /// Closes the device. A standard stream stays open.
    pub(crate) fn close(&mut self)
        ensures { LetsSayNoMore self.old self.new }
    {
        match self {
            Device::Input(_) | Device::Output(_) => {}
            Device::FileIn(file) => file.close(),
            Device::FileOut(file) => file.close(),
        }
    }
}
