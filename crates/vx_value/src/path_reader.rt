ghost use Rattle.std.specs.Prelude.{◌≡◌, ◌++◌, ◌∷◌, [], IfOk, ℕ};
ghost use Rattle.std.specs.Str.{IsUtf8};

use crate::item_list::ItemList;
use crate::path_mode::{PathMode, PathMove};
use crate::text::{Text, TextList};
use crate::want_of_memory::WantOfMemory;
use std::alloc::Global;
use std::mem;

/// A reader in the midst of a path.
#[derive(Drop)]
pub struct PathReader {
    /// Where it stands.
    pub mode: PathMode,
    /// The bytes of the name that has begun.
    pub name: Vec<u8>,
    /// The names that have ended.
    pub names: TextList,
}

impl PathReader {
    ghost use Rattle.vx_value.specs.Reads.{Takes};
    ghost use Rattle.vx_value.specs.Texts.{is_empty};
    ghost use Rattle.vx_value.specs.Paths.{move_of};

    /// A reader before everything.
    pub fn new(alloc: Global) -> Self
        ensures mode { result.mode ≡ PathMode.Start }
        ensures name { result.name.items ≡ [] }
        ensures names { result.names ≡ [] }
    {
        PathReader {
            mode: PathMode::Start,
            name: Vec::new(alloc),
            names: ItemList::new(alloc),
        }
    }

    /// Ends the name that has begun.
    pub fn end_name(&mut self, alloc: Global) -> Result<(), WantOfMemory>
        requires { IsUtf8 self.old.name.items }
        ensures names { IfOk result
            (λ _. self.new.names ≡ self.old.names ++ self.old.name.items ∷ []) }
        ensures name { self.new.name.items ≡ [] }
        ensures mode { self.new.mode ≡ self.old.mode }
    {
        let name = mem::replace(&mut self.name, Vec::new(alloc));
        match self.names.push(Text::from_utf8(name)) {
            Ok(()) => Ok(()),
            Err(_) => Err(WantOfMemory),
        }
    }

    /// Takes a byte, and tells whether some path goes on so.
    pub fn take(&mut self, alloc: Global, byte: u8) -> Result<bool, WantOfMemory>
        requires { move_of self.old.mode (is_empty self.old.name.items) byte ≡ PathMove.Ends →
            IsUtf8 self.old.name.items }
        ensures { IfOk result (Takes self.old self.new byte) }
    {
        match self.mode.takes(self.name.is_empty(), byte) {
            PathMove::Refused => Ok(false),
            PathMove::Adds(mode) => {
                self.name.push(byte)?;
                self.mode = mode;
                Ok(true)
            }
            PathMove::Passes(mode) => {
                self.mode = mode;
                Ok(true)
            }
            PathMove::Ends => {
                self.end_name(alloc)?;
                self.mode = PathMode::Name;
                Ok(true)
            }
        }
    }
}
