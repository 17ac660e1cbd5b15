ghost use Rattle.std.specs.Prelude.{◌≡◌, ◌≢◌, ◌<◌, ◌^◌, ◌-◌, ◌⊎◌, ◌↔◌, ◌&&◌, if◌then◌else◌, not, max, length, slice_get, false, IfOk, IfSome, OnOk, OnErr, IsTrue, Ok, Some, None};
ghost use Rattle.vx_ends_os.specs.Ends.{with_end, greatest_end};
ghost use Rattle.vx_ends_os.specs.Places.{GoesOn, first_place, next_of, offset_at, opened};
ghost use Rattle.vx_ends_os.specs.Looks.{after_look, behind_line, is_other};
ghost use Rattle.vx_ends_os.specs.Reading.{IsInRoom, taken_of, more, after_read, after_call};

use crate::checkpoint_file::CheckpointFile;
use crate::fault::{Fault, is_for_now};
use crate::file_change::{FileChange, Look, is_successor};
use crate::place::Place;
use crate::read_result::ReadResult;
use std::alloc::Global;
use std::fs::File;
use std::io::{Error, ErrorKind};
use std::os::unix::fs::FileExt;
use std::{fs, io};
use vx_ends::{Position, PositionList};
use vx_value::WantOfMemory;

/// The most bytes that one take reads.
const MOST_READ: usize = 65_536;

/// The byte that ends a line.
const LINE_FEED: u8 = b'\n';

/// A file that is read as it grows, and the checkpoint of how much of it is done with.
///
/// It is one stream. At the end of the open file reading begins anew: at the front of what the path names, where that has
/// come to be another file with bytes, and at the front of the open file, where that is shorter than what was read of it.
/// A line that is open then ends there: a line feed comes that no file has, so that it doesn't grow together with the
/// first line behind.
#[derive(Drop)]
pub(crate) struct FileIn {
    rt: HostRuntime,
    once: bool,
    // The path of the file, and the document in which is kept how much of it is done with.
    checkpoint: CheckpointFile,
    // How far the stream was taken; nothing is known before a start.
    place: Option<Place>,
    // The open file; none where nothing was at the path yet.
    file: Option<File>,
    // Whether the last byte of the stream ended no line.
    in_line: bool,
    // Whether another file was seen at the path when the open one was read to its end last.
    succeeded: bool,
}

// The greatest end so far, and of a position, where that is of the one stream.
fn with_end(so_far: Option<u64>, position: &Position) -> Option<u64>
    ensures { result ≡ with_end so_far position.now }
{
    if position.stream == 0 {
        Some(position.end.max(so_far.unwrap_or(0)))
    } else {
        so_far
    }
}

// The greatest end of the one stream among some positions.
fn greatest_end(positions: &[Position]) -> Option<u64>
    ensures { result ≡ greatest_end positions.now }
{
    let mut greatest = None;
    for position in positions {
        greatest = with_end(greatest, position);
    }
    greatest
}

impl FileIn {
    ghost use Rattle.vx_ends_os.specs.Devices.{Reads, SameFile};
    ghost use Rattle.vx_ends_os.specs.Documents.{SaysEnd, SaysNoMore, said_of};

    /// A file at a path with its checkpoint, not opened yet. Where `once` is set it ends where it was read to its end.
    pub(crate) fn new(
        rt: HostRuntime,
        alloc: Global,
        path: &str,
        once: bool,
        checkpoint: &str,
    ) -> Result<Self, WantOfMemory>
        ensures reads { IfOk result (Reads path.now once checkpoint.now) }
        ensures place { IfOk result (λ file. file.place ≡ None) }
    {
        let checkpoint = CheckpointFile::new(rt, alloc, checkpoint, path)?;
        Ok(FileIn {
            rt,
            once,
            checkpoint,
            place: None,
            file: None,
            in_line: false,
            succeeded: false,
        })
    }

    /// Opens the file at the offset that its checkpoint names: at its front where there is none, where it names another
    /// path, and where the file is shorter. A file that isn't there is waited for, but where it is read once.
    ///
    /// After a close it goes on at its place, and begins anew where the file is shorter.
    pub(crate) fn start(&mut self) -> Result<(), Fault>
        ensures taken { taken_of self.new.place ≡ taken_of self.old.place }
        ensures first { self.old.place ≡ None →
            IfSome self.new.place
            (λ place. (next_of place ≡ said_of self.new) ⊎ (next_of place ≡ 0)) }
        ensures later { IfSome self.old.place (λ place. GoesOn place self.new.place) }
        ensures document { IfSome self.old.place (λ _. SaysNoMore self.old self.new) }
        ensures same { SameFile self.old self.new }
    {
        let place = match self.place {
            Some(place) => place,
            None => self.begin()?,
        };
        self.open(place)
    }

    // Begins the stream at the offset that the checkpoint names.
    fn begin(&mut self) -> Result<Place, Fault>
        ensures ok { IfOk result (λ place. self.new.place ≡ Some place) }
        ensures place { IfOk result (λ place. place ≡ first_place (said_of self.new)) }
        ensures kept { OnOk result (said_of self.new < 2 ^ 63) }
        ensures err { OnErr result (self.new ≡ self.old) }
        ensures same { SameFile self.old self.new }
    {
        let place = Place::new(self.checkpoint.read()?);
        self.place = Some(place);
        Ok(place)
    }

    // Opens what is at the path, and goes on in it at a place; at its front where it is shorter. Where nothing is there yet
    // the place is kept for what comes.
    fn open(&mut self, place: Place) -> Result<(), Fault>
        requires { self.old.place ≡ Some place }
        ensures taken { taken_of self.new.place ≡ place.taken }
        ensures place { GoesOn place self.new.place }
        ensures err { OnErr result (self.new ≡ self.old) }
        ensures document { SaysNoMore self.old self.new }
        ensures same { SameFile self.old self.new }
    {
        if let Some(file) = self.at_path()? {
            let length = file.metadata()?.len();
            self.go_on(place, file, length);
        }
        Ok(())
    }

    // Goes on at a place in a file of so many bytes that was opened; at its front where it is shorter.
    fn go_on(&mut self, place: Place, file: File, length: u64)
        requires { self.old.place ≡ Some place }
        ensures place { self.new.place ≡ Some (opened length place) }
        ensures file { self.new.file ≡ Some file }
        ensures succeeded { self.new.succeeded ≡ false }
        ensures line { self.new.in_line ≡ self.old.in_line }
        ensures document { SaysNoMore self.old self.new }
        ensures same { SameFile self.old self.new }
    {
        let place = place.opened(length);
        self.place = Some(place);
        self.file = Some(file);
        self.succeeded = false;
        if place.next() == 0 {
            self.checkpoint.forget();
        }
    }

    // The file at the path, opened.
    fn at_path(&self) -> Result<Option<File>, Fault> {
        match self.plain_file() {
            Ok(file) => Ok(Some(file)),
            Err(error) if error.kind() == ErrorKind::NotFound && !self.once => Ok(None),
            Err(error) => Err(Fault::from(error)),
        }
    }

    // The plain file at the path, opened. What is none isn't opened: that may wait without end.
    fn plain_file(&self) -> io::Result<File> {
        let path = self.checkpoint.path();
        if fs::metadata(&self.rt, path)?.is_file() {
            File::open(&self.rt, path)
        } else {
            Err(Error::from(ErrorKind::InvalidInput))
        }
    }

    /// Takes what comes next, by one read.
    pub(crate) fn take(&mut self, into: &mut [u8]) -> Result<ReadResult, Fault>
        requires { 0 < length into.old }
        ensures within { IfOk result (IsInRoom (length into.old)) }
        ensures taken { taken_of self.new.place ≡ after_call (taken_of self.old.place) result }
        ensures place { IfSome self.old.place (λ place. GoesOn place self.new.place) }
        ensures end { result ≡ Ok ReadResult.End → IsTrue self.old.once }
        ensures document { SaysNoMore self.old self.new }
        ensures same { SameFile self.old self.new }
    {
        let Some(place) = self.place else {
            return Err(Fault::Failed);
        };
        if self.in_line && place.next() == 0 {
            return Ok(self.begin_anew(place, into));
        }
        let Some(file) = &self.file else {
            return self.find(place);
        };
        let room = into.len().min(MOST_READ);
        match file.read_at(&mut into[..room], place.next()) {
            Ok(0) => self.at_end(place, into),
            Ok(n) => {
                self.took(place, &into[..n]);
                Ok(ReadResult::Bytes(n as u32))
            }
            Err(error) if is_for_now(error.kind()) => Ok(ReadResult::Nothing),
            Err(_) => Err(Fault::Failed),
        }
    }

    // Goes on behind bytes that were read.
    fn took(&mut self, mut place: Place, bytes: &[u8])
        ensures place { self.new.place
            ≡ Some (record place { taken = more place.taken (length bytes.now) }) }
        ensures line { IsTrue self.new.in_line
            ↔ (slice_get bytes.now (length bytes.now - 1) ≢ Some 10) }
        ensures rest { self.new
            ≡ record self.old { place = self.new.place; in_line = self.new.in_line } }
    {
        place.took(bytes.len() as u64);
        self.place = Some(place);
        self.in_line = bytes.last() != Some(&LINE_FEED);
    }

    // Opens the file once it is there, and has bytes.
    fn find(&mut self, place: Place) -> Result<ReadResult, Fault>
        requires { self.old.place ≡ Some place }
        ensures nothing { IfOk result (λ read_result. read_result ≡ ReadResult.Nothing) }
        ensures taken { taken_of self.new.place ≡ taken_of self.old.place }
        ensures place { GoesOn place self.new.place }
        ensures document { SaysNoMore self.old self.new }
        ensures same { SameFile self.old self.new }
    {
        if self.is_there()? {
            self.open(place)?;
        }
        Ok(ReadResult::Nothing)
    }

    // Whether there is something at the path to be opened.
    fn is_there(&self) -> Result<bool, Fault> {
        match fs::metadata(&self.rt, self.checkpoint.path()) {
            Ok(found) => Ok(found.len() > 0 || !found.is_file()),
            Err(error) if error.kind() == ErrorKind::NotFound => Ok(false),
            Err(error) => Err(Fault::from(error)),
        }
    }

    // Ends, waits for more or begins anew, where the open file was read to its end.
    fn at_end(&mut self, place: Place, into: &mut [u8]) -> Result<ReadResult, Fault>
        requires room { 0 < length into.old }
        requires place { self.old.place ≡ Some place }
        ensures within { IfOk result (IsInRoom (length into.old)) }
        ensures taken { taken_of self.new.place ≡ after_call (taken_of self.old.place) result }
        ensures place { GoesOn place self.new.place }
        ensures end { (result ≡ Ok ReadResult.End) ↔ IsTrue self.old.once }
        ensures document { SaysNoMore self.old self.new }
        ensures same { SameFile self.old self.new }
    {
        if self.once {
            Ok(ReadResult::End)
        } else {
            let look = self.look();
            Ok(self.after_look(look, place, into))
        }
    }

    // What the open file and its path show now, where they can be looked at.
    fn look(&self) -> Option<Look> {
        let open = self.file.as_ref()?.metadata().ok()?;
        let has_other = match fs::metadata(&self.rt, self.checkpoint.path()) {
            Ok(named) => is_successor(&named, &open),
            Err(_) => false,
        };
        Some(Look {
            length: open.len(),
            has_other,
        })
    }

    // Begins anew where the open file is shorter than what was read of it, and where another one was seen at the path for
    // the second time in a row; else waits for more.
    fn after_look(&mut self, look: Option<Look>, place: Place, into: &mut [u8]) -> ReadResult
        requires room { 0 < length into.old }
        requires place { self.old.place ≡ Some place }
        ensures within { IsInRoom (length into.old) result }
        ensures place { self.new.place
            ≡ Some (after_look self.old.in_line self.old.succeeded look place) }
        ensures taken { taken_of self.new.place ≡ after_read place.taken result }
        ensures succeeded { self.new.succeeded
            ≡ (is_other (next_of place) look && not self.old.succeeded) }
        ensures file { self.new.file
            ≡ (if is_other (next_of place) look
            && self.old.succeeded then None else self.old.file) }
        ensures goes_on { result ≢ ReadResult.End }
        ensures document { SaysNoMore self.old self.new }
        ensures same { SameFile self.old self.new }
    {
        match FileChange::of(place.next(), look) {
            FileChange::Shorter => self.begin_anew(place, into),
            FileChange::Other if self.succeeded => {
                self.file = None;
                self.begin_anew(place, into)
            }
            file_change => {
                self.succeeded = file_change == FileChange::Other;
                ReadResult::Nothing
            }
        }
    }

    // Begins anew at the front of a file. A line that is open ends before.
    fn begin_anew(&mut self, mut place: Place, into: &mut [u8]) -> ReadResult
        requires room { 0 < length into.old }
        requires place { self.old.place ≡ Some place }
        ensures within { IsInRoom (length into.old) result }
        ensures place { self.new.place ≡ Some (behind_line self.old.in_line place) }
        ensures taken { taken_of self.new.place ≡ after_read place.taken result }
        ensures line { self.new.in_line ≡ false }
        ensures succeeded { self.new.succeeded ≡ false }
        ensures file { self.new.file ≡ self.old.file }
        ensures goes_on { result ≢ ReadResult.End }
        ensures document { SaysNoMore self.old self.new }
        ensures same { SameFile self.old self.new }
    {
        let was_in_line = self.in_line;
        if was_in_line {
            into[0] = LINE_FEED;
            place.took(1);
        }
        self.place = Some(place.anew());
        self.in_line = false;
        self.succeeded = false;
        self.checkpoint.forget();
        if was_in_line {
            ReadResult::Bytes(1)
        } else {
            ReadResult::Nothing
        }
    }

    /// Keeps on the disk what of the file is done with, by the positions of its stream that are.
    ///
    /// The offset that is put on the disk is that of the greatest end. Where no end is of its stream, nothing is. Where that
    /// can't be put there, the document may say what it did.
    pub(crate) fn confirm(&mut self, positions: &PositionList) -> Result<(), Fault>
        ensures ok { OnOk result (SaysEnd positions.now self.old self.new) }
        ensures err { OnErr result
            (IfSome (greatest_end positions.now)
            (λ end. IfSome self.old.place
            (λ place. said_of self.new
            ≡ max (said_of self.old) (offset_at place.from place.base end)))) }
        ensures kept { greatest_end positions.now ≡ None → self.new ≡ self.old }
        ensures unstarted { self.old.place ≡ None → self.new ≡ self.old }
        ensures same { SameFile self.old self.new }
        ensures rest { self.new ≡ record self.old { checkpoint = self.new.checkpoint } }
    {
        let Some(end) = greatest_end(positions.as_slice()) else {
            return Ok(());
        };
        match self.place {
            Some(place) => self.checkpoint.write(place.offset_of(end)),
            None => Err(Fault::Failed),
        }
    }

    /// Closes the file. Its place is kept.
    pub(crate) fn close(&mut self)
        ensures { self.new ≡ record self.old { file = None } }
    {
        self.file = None;
    }
}
