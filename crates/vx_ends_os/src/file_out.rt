ghost use Rattle.std.specs.Prelude.{◌≡◌, IfErr, ◌≢◌};
ghost use Rattle.std.specs.Io.{WritesAtMost};
ghost use Rattle.std.specs.IoError.{error_kind};

use std::fs::{File, OpenOptions};
use std::io;
use std::io::{Error, ErrorKind, Write};
use std::os::unix::fs::OpenOptionsExt;
use vx_value::Text;

/// The rights of a new file, of which the mask of the process takes away its own.
const RIGHTS: u32 = 0o644;

/// A file that is appended to. What is written stands behind all that the file has then, whoever wrote it.
#[derive(Drop)]
pub(crate) struct FileOut {
    rt: HostRuntime,
    path: Text,
    file: Option<File>,
}

impl FileOut {
    /// A file at a path, not opened yet.
    pub(crate) fn new(rt: HostRuntime, path: Text) -> Self
        ensures { result.path ≡ path }
    {
        FileOut {
            rt,
            path,
            file: None,
        }
    }

    /// Opens the file, and makes it where it isn't there.
    pub(crate) fn start(&mut self) -> io::Result<()> {
        let mut options = OpenOptions::new();
        options.append(true).create(true).mode(RIGHTS);
        self.file = Some(options.open(&self.rt, self.path.as_str())?);
        Ok(())
    }

    /// Writes as many of the bytes as one call of the system takes. A call that a signal interrupts took none, and is
    /// made again.
    pub(crate) fn write(&mut self, bytes: &[u8]) -> io::Result<usize>
        ensures bound { WritesAtMost result bytes.now }
        ensures uninterrupted { IfErr result (λ e. error_kind e ≢ ErrorKind.Interrupted) }
    {
        let Some(file) = &mut self.file else {
            return Err(Error::from(ErrorKind::NotFound));
        };
        for _ in 0..u64::MAX {
            match file.write(bytes) {
                Err(error) if error.kind() == ErrorKind::Interrupted => {}
                written => return written,
            }
        }
        Err(Error::from(ErrorKind::TimedOut))
    }

    /// Hands on what is written and held back.
    pub(crate) fn flush(&mut self) -> io::Result<()> {
        match &mut self.file {
            Some(file) => file.flush(),
            None => Err(Error::from(ErrorKind::NotFound)),
        }
    }

    /// Closes the file.
    pub(crate) fn close(&mut self) {
        self.file = None;
    }
}
