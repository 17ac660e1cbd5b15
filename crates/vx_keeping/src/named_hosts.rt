ghost use Rattle.std.specs.Prelude.{◌≡◌, ℕ, List, Option};
ghost use Rattle.std.specs.List.{list_any};
ghost use Rattle.vx_value.specs.Texts.{ByteString, same_text};
ghost use Rattle.vx_keeping.specs.Assigning.{assigned, released};

use crate::hosts::Hosts;
use vx_value::Text;

/// Transforms that a program hands in, each with a name, and with the instance that runs it, if one does.
pub trait NamedHosts: Hosts {
    /// Their names, in order.
    ghost names: { Self → List ByteString };

    /// The instances that run them, in the same order.
    ghost runs: { Self → List (Option ℕ) };

    /// Whether one of them has a name.
    fn has(&self, name: &Text) -> bool
        ensures { result ≡ list_any (same_text name.now) (names self.now) };

    /// Has no instance run any of them.
    fn release(&mut self)
        ensures names { names self.new ≡ names self.old }
        ensures runs { runs self.new ≡ released (names self.old) };

    /// Has an instance run the first of a name that no instance runs, and changes nothing else. Where there is none, it changes nothing.
    fn assign(&mut self, name: &Text, instance: u32)
        ensures names { names self.new ≡ names self.old }
        ensures runs { runs self.new ≡
            assigned name.now instance (names self.old) (runs self.old) };
}
