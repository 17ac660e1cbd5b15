ghost use Rattle.std.specs.Prelude.{◌≡◌, ◌≤◌, length, Some, IfOk, IfErr};

use crate::path_fault::PathFault;
use crate::path_reader::PathReader;
use crate::text::{Text, TextList};
use crate::want_of_memory::WantOfMemory;
use std::alloc::Global;
use std::marker::Model;

/// A path: 1 to 31 names. Contracts see the list of the names.
#[derive(Drop)]
pub struct Path {
    names: TextList,
}

impl Model for Path {
    ghost use Rattle.std.specs.Prelude.{ℕ, List, length, ◌≤◌};

    ghost Value = { List (List ℕ) };

    ghost view = { λ p. p.names };

    ghost invariant = { λ p. (1 ≤ length p.names) × (length p.names ≤ 31) };
}

impl Path {
    ghost use Rattle.vx_value.specs.Paths.{path_names, IsPathFault};

    /// The path of some names, of which there are 1 to 31. It takes no memory.
    pub fn of(names: TextList) -> Self
        requires some { 1 ≤ length names }
        requires few { length names ≤ 31 }
        ensures { result ≡ names }
    {
        Path { names }
    }

    /// The path that a text spells: names joined by dots, with a dot in front or without. A name is a letter, `_` or `@`
    /// and then letters, digits, `_` and `@`, or it stands in quotes, where `\"` and `\\` are the quote and the backslash.
    ///
    /// `Syntax` comes where the text is no path, and tells the length of its longest prefix that begins one, in bytes.
    /// `Long` comes where the path has more than 31 names, and `WantOfMemory` where no memory is found.
    pub fn read(alloc: Global, text: &str) -> Result<Self, PathFault>
        ensures ok { IfOk result (λ path. path_names text.now ≡ Some path) }
        ensures fault { IfErr result (IsPathFault text.now) }
    {
        let mut reader = PathReader::new(alloc);
        for (i, byte) in text.as_bytes().iter().enumerate() {
            match reader.take(alloc, *byte) {
                Ok(true) => {}
                Ok(false) => return Err(PathFault::Syntax { at: i as u64 }),
                Err(_) => return Err(PathFault::WantOfMemory),
            }
        }
        if !reader.mode.may_end() {
            return Err(PathFault::Syntax {
                at: text.len() as u64,
            });
        }
        match reader.end_name(alloc) {
            Ok(()) => {}
            Err(_) => return Err(PathFault::WantOfMemory),
        }
        if reader.names.len() > 31 {
            return Err(PathFault::Long);
        }
        let PathReader {
            mode: _,
            name: _,
            names,
        } = reader;
        Ok(Path { names })
    }

    /// The names, in order.
    pub fn names(&self) -> &[Text]
        ensures names { result.now ≡ self.now }
        ensures some { 1 ≤ length self.now }
        ensures few { length self.now ≤ 31 }
    {
        self.names.as_slice()
    }

    /// The same path once more.
    pub fn copy(&self, alloc: Global) -> Result<Self, WantOfMemory>
        ensures { IfOk result (λ copy. copy ≡ self.now) }
    {
        let names = self.names.copy(alloc)?;
        Ok(Path { names })
    }
}
