ghost use Rattle.std.specs.Prelude.{◌≡◌, ◌≢◌, ◌↔◌, ◌⊎◌, None, IfErr, IsTrue};
ghost use Rattle.std.specs.Io.{WritesAtMost};
ghost use Rattle.std.specs.Io.KnownBytes.{Keeps, WriteAppends};
ghost use Rattle.std.specs.IoError.{error_kind};

use libc::net::{POLLOUT, poll};
use libc::types::pollfd;
use std::io::{Error, ErrorKind, Write};
use std::os::fd::AsRawFd;
use std::time::Duration;
use std::{io, thread};

/// The longest rest between two tries, in milliseconds.
const LONGEST_REST: u64 = 20;

/// Standard output or standard error, to be written with no buffer between.
///
/// A call that would block waits until the stream takes more, and one that was interrupted is made again. Neither took
/// a byte, so nothing is lost and nothing is repeated.
#[derive(Clone, Copy)]
pub(crate) struct OsOutput {
    rt: HostRuntime,
    err: bool,
}

impl OsOutput {
    /// Standard error where `err` is set, else standard output.
    pub(crate) fn new(rt: HostRuntime, err: bool) -> Self
        ensures { result.err ≡ err }
    {
        OsOutput { rt, err }
    }

    // One write.
    fn try_write(&self, bytes: &[u8]) -> io::Result<usize>
        ensures { WritesAtMost result bytes.now }
    {
        if self.err {
            self.rt.stderr().write(bytes)
        } else {
            self.rt.stdout().write(bytes)
        }
    }

    // One flush.
    fn try_flush(&self) -> io::Result<()> {
        if self.err {
            self.rt.stderr().flush()
        } else {
            self.rt.stdout().flush()
        }
    }

    // Whether a call that failed so is made again. Where it would block, the stream is waited for first.
    fn goes_on(&self, kind: ErrorKind, tries: u64) -> bool
        ensures { IsTrue result ↔ ((kind ≡ ErrorKind.Interrupted) ⊎ (kind ≡ ErrorKind.WouldBlock)) }
    {
        match kind {
            ErrorKind::Interrupted => true,
            ErrorKind::WouldBlock => {
                self.wait();
                self.rest(tries);
                true
            }
            _ => false,
        }
    }

    // Waits until the stream takes more or has failed, or a signal cuts in.
    fn wait(&self) {
        let fd = if self.err {
            self.rt.stderr().as_raw_fd()
        } else {
            self.rt.stdout().as_raw_fd()
        };
        let mut asked = [pollfd {
            fd,
            events: POLLOUT,
            revents: 0,
        }];
        poll(&mut asked, -1);
    }

    // Rests the longer the more tries there were, since some streams are told as ready, and take nothing.
    fn rest(&self, tries: u64) {
        if tries > 0 {
            thread::sleep(&self.rt, Duration::from_millis(tries.min(LONGEST_REST)));
        }
    }
}

impl Write for OsOutput {
    /// Writes as many of the bytes as one call of the system takes.
    fn write(&mut self, bytes: &[u8]) -> io::Result<usize>
        ensures bound { WritesAtMost result bytes.now }
        ensures bytes { WriteAppends None None result bytes.now }
        ensures uninterrupted { IfErr result (λ e. error_kind e ≢ ErrorKind.Interrupted) }
        ensures waited { IfErr result (λ e. error_kind e ≢ ErrorKind.WouldBlock) }
    {
        for tries in 0..u64::MAX {
            match self.try_write(bytes) {
                Err(error) if self.goes_on(error.kind(), tries) => {}
                written => return written,
            }
        }
        Err(Error::from(ErrorKind::TimedOut))
    }

    /// Hands on what is written and held back.
    fn flush(&mut self) -> io::Result<()>
        ensures bytes { Keeps None None }
        ensures uninterrupted { IfErr result (λ e. error_kind e ≢ ErrorKind.Interrupted) }
        ensures waited { IfErr result (λ e. error_kind e ≢ ErrorKind.WouldBlock) }
    {
        for tries in 0..u64::MAX {
            match self.try_flush() {
                Err(error) if self.goes_on(error.kind(), tries) => {}
                flushed => return flushed,
            }
        }
        Err(Error::from(ErrorKind::TimedOut))
    }
}
