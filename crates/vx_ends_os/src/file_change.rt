ghost use Rattle.std.specs.Prelude.{◌≡◌, ◌↔◌, IsTrue};
ghost use Rattle.vx_ends_os.specs.Looks.{is_shorter, is_other};

use std::fs::Metadata;
use std::os::unix::fs::MetadataExt;

/// What a look at a file showed at whose end a reader stands.
#[derive(Clone, Copy)]
pub(crate) struct Look {
    /// How many bytes it has.
    pub(crate) length: u64,
    /// Whether its path names another file that has bytes.
    pub(crate) has_other: bool,
}

/// What becomes of a file at whose end a reader stands.
#[derive(Clone, Copy, PartialEq, Eq)]
pub(crate) enum FileChange {
    /// It may grow.
    Same,
    /// It is shorter than what was read of it.
    Shorter,
    /// Its path names another file that has bytes.
    Other,
}

impl FileChange {
    /// What becomes of a file whose reader comes to `next`. What can't be looked at is as it was.
    pub(crate) fn of(next: u64, look: Option<Look>) -> Self
        ensures shorter { (result ≡ FileChange.Shorter) ↔ IsTrue (is_shorter next look) }
        ensures other { (result ≡ FileChange.Other) ↔ IsTrue (is_other next look) }
    {
        match look {
            Some(look) if look.length < next => FileChange::Shorter,
            Some(look) if look.has_other => FileChange::Other,
            _ => FileChange::Same,
        }
    }
}

/// Whether a path names another file than the open one, and bytes stand in it.
pub(crate) fn is_successor(named: &Metadata, open: &Metadata) -> bool {
    let same = named.dev() == open.dev() && named.ino() == open.ino();
    !same && named.is_file() && named.len() > 0
}
