ghost use Rattle.std.specs.Prelude.{◌≡◌, ◌++◌, ◌<◌, ◌^◌, ◌⊎◌, codes, string_bytes, max, IfOk, IfSome, IsSomeAnd, OnOk, OnErr, Ok, None};
ghost use Rattle.vx_checkpoint.specs.Document.{Mark};
ghost use Rattle.vx_checkpoint.specs.Readings.{Says};
ghost use Rattle.vx_ends_os.specs.Places.{IsOffsetFor};
ghost use Rattle.vx_ends_os.specs.Documents.{SameDocument};

use crate::fault::Fault;
use crate::place::GREATEST;
use std::alloc::{AllocError, Global};
use std::fs::{File, OpenOptions};
use std::io::{ErrorKind, Write};
use std::os::unix::fs::OpenOptionsExt;
use std::path::Path;
use std::{fs, io};
use vx_checkpoint::Checkpoint;
use vx_value::{Text, WantOfMemory};

/// What the name ends with under which a document is written before it has its place.
const BESIDE: &str = ".new";

/// The rights of a new document, of which the mask of the process takes away its own.
const RIGHTS: u32 = 0o644;

/// The document of a file's checkpoint on the disk, and what it says, as far as is known.
#[derive(Drop)]
pub(crate) struct CheckpointFile {
    rt: HostRuntime,
    alloc: Global,
    place: Text,
    beside: String,
    // The path of the file, and the greatest offset that the document may say of it.
    mark: Checkpoint,
}

// The path beside a place, under another name.
fn beside(alloc: Global, place: &str) -> Result<String, AllocError>
    ensures { IfOk result (λ path. string_bytes path ≡ place.now ++ codes ".new") }
{
    let mut path = String::from_str(alloc, place)?;
    path.push_str(BESIDE)?;
    Ok(path)
}

// The folder in which a path stands.
fn folder_of(place: &str) -> &str {
    match Path::new(place).parent() {
        Some(folder) if !folder.as_str().is_empty() => folder.as_str(),
        _ => ".",
    }
}

// The checkpoint in the bytes of a document; none where there is no document.
fn checkpoint_in(alloc: Global, bytes: Option<Vec<u8>>) -> Result<Option<Checkpoint>, Fault>
    ensures none { bytes ≡ None → result ≡ Ok None }
    ensures some { IfSome bytes
        (λ bytes. IfOk result
        (λ kept. IsSomeAnd kept (λ kept. Says bytes.items (Mark kept.path kept.offset)))) }
{
    match bytes {
        Some(bytes) => Ok(Some(vx_checkpoint::read(alloc, bytes.as_slice())?)),
        None => Ok(None),
    }
}

// The offset from which the file at a path is read, by the checkpoint that is kept: 0 where that names another path.
fn offset_for(kept: Option<Checkpoint>, path: &str) -> u64
    ensures offset { IsOffsetFor kept path.now result }
    ensures kept { result < 2 ^ 63 }
{
    match kept {
        Some(kept) if kept.path.as_str() == path => kept.offset.min(GREATEST),
        _ => 0,
    }
}

impl CheckpointFile {
    ghost use Rattle.vx_ends_os.specs.Devices.{StandsAt};

    /// The document at a place for the file at a path. Nothing is known of what it says.
    pub(crate) fn new(
        rt: HostRuntime,
        alloc: Global,
        place: &str,
        path: &str,
    ) -> Result<Self, WantOfMemory>
        ensures place { IfOk result (StandsAt place.now) }
        ensures path { IfOk result (λ file. file.mark.path ≡ path.now) }
    {
        let Ok(beside) = beside(alloc, place) else {
            return Err(WantOfMemory);
        };
        let mark = Checkpoint {
            path: Text::copy_of(alloc, path)?,
            offset: 0,
        };
        Ok(CheckpointFile {
            rt,
            alloc,
            place: Text::copy_of(alloc, place)?,
            beside,
            mark,
        })
    }

    /// The path of the file.
    pub(crate) fn path(&self) -> &str
        ensures { result.now ≡ self.now.mark.path }
    {
        self.mark.path.as_str()
    }

    /// The offset from which the file is read by what stands there: 0 where nothing does, or the checkpoint of another
    /// path. What is no checkpoint's document is a fault, and stays as it is.
    pub(crate) fn read(&mut self) -> Result<u64, Fault>
        ensures says { IfOk result (λ offset. self.new.mark.offset ≡ offset) }
        ensures kept { IfOk result (λ offset. offset < 2 ^ 63) }
        ensures err { OnErr result (self.new ≡ self.old) }
        ensures same { SameDocument self.old self.new }
    {
        let kept = checkpoint_in(self.alloc, self.bytes()?)?;
        Ok(self.learn(kept))
    }

    // Notes what the document says, and from which offset the file is read by it.
    fn learn(&mut self, kept: Option<Checkpoint>) -> u64
        ensures offset { IsOffsetFor kept self.old.mark.path result }
        ensures kept { result < 2 ^ 63 }
        ensures says { self.new.mark.offset ≡ result }
        ensures same { SameDocument self.old self.new }
    {
        let offset = offset_for(kept, self.mark.path.as_str());
        self.mark.offset = offset;
        offset
    }

    // The bytes of the file that stands there.
    fn bytes(&self) -> Result<Option<Vec<u8>>, Fault> {
        match fs::metadata(&self.rt, self.place.as_str()) {
            Ok(found) if found.is_file() => Ok(Some(fs::read(&self.rt, self.place.as_str())?)),
            Ok(_) => Err(Fault::Failed),
            Err(error) if error.kind() == ErrorKind::NotFound => Ok(None),
            Err(error) => Err(Fault::from(error)),
        }
    }

    /// Lets the document say an offset. A crash at any moment leaves the one that stood there, or the new one whole.
    ///
    /// Where that fails either may stand there, so it may say the greater of both.
    pub(crate) fn write(&mut self, offset: u64) -> Result<(), Fault>
        requires { offset < 2 ^ 63 }
        ensures ok { OnOk result (self.new.mark.offset ≡ offset) }
        ensures err { OnErr result (self.new.mark.offset ≡ max self.old.mark.offset offset) }
        ensures same { SameDocument self.old self.new }
    {
        let before = self.mark.offset;
        self.mark.offset = offset;
        let written = self.put_mark();
        if written.is_err() {
            self.mark.offset = before.max(offset);
        }
        written
    }

    /// Lets the document say 0 where it may say more: of the file that is at the path now nothing is done with. So a run
    /// that is killed before the next confirm leaves no offset of another file.
    ///
    /// Where that can't be written, it is written where reading begins anew the next time, or the next confirm writes what
    /// is due then.
    pub(crate) fn forget(&mut self)
        ensures offset { (self.new.mark.offset ≡ 0)
            ⊎ (self.new.mark.offset ≡ self.old.mark.offset) }
        ensures same { SameDocument self.old self.new }
    {
        if self.mark.offset > 0 {
            let _ = self.write(0);
        }
    }

    // Puts the document of the mark there.
    fn put_mark(&self) -> Result<(), Fault>
        requires { self.now.mark.offset < 2 ^ 63 }
    {
        let document = vx_checkpoint::write(self.alloc, &self.mark)?;
        let file = self.open_beside()?;
        match self.put(file, document.as_slice()) {
            Ok(()) => Ok(()),
            Err(error) => {
                let _ = fs::remove_file(&self.rt, self.beside.as_str());
                Err(Fault::from(error))
            }
        }
    }

    // A new file beside the place. What stood there is removed: it may be of other rights, or lead elsewhere.
    fn open_beside(&self) -> io::Result<File> {
        let _ = fs::remove_file(&self.rt, self.beside.as_str());
        let mut options = OpenOptions::new();
        options.write(true).create_new(true).mode(RIGHTS);
        options.open(&self.rt, self.beside.as_str())
    }

    // Writes a document into the file beside the place, and renames that over the place once the disk has it.
    fn put(&self, mut file: File, document: &[u8]) -> io::Result<()> {
        file.write_all(document)?;
        file.sync_all()?;
        fs::rename(&self.rt, self.beside.as_str(), self.place.as_str())?;
        let folder = File::open(&self.rt, folder_of(self.place.as_str()))?;
        folder.sync_all()
    }
}
