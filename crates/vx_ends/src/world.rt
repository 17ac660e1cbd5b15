ghost use Rattle.std.specs.Prelude.{◌≡◌, ◌≢◌, ℕ, List, [], ◌∷◌, Option, IfOk, Err};
ghost use Rattle.vx_ends.specs.declared.call.Call.{Call};
ghost use Rattle.vx_ends.specs.declared.call.Call.TheVariants as call;
ghost use Rattle.vx_ends.specs.Observation.{Grows, HasCause, IsFresh};
ghost use Rattle.vx_ends.specs.Texts.{IsTextAt};
ghost use Rattle.vx_ends.specs.declared.world.Config.{Config};

use crate::port::Port;
use crate::port_spec::PortSpec;
use crate::trouble::Trouble;
use vx_value::{Bytes, ItemList, Text, WantOfMemory};

/// A path, and the bytes of the text at it.
#[derive(Drop)]
pub struct Config {
    pub path: Text,
    pub bytes: Bytes,
}

/// Some texts with their paths.
pub type ConfigList = ItemList<Config>;

/// What is around a run: it gives the text of a configuration, and makes the ports.
pub trait World: Drop {
    type Port: Port;

    /// The texts at its paths, where it tells them. No call changes them.
    ghost texts: { Self → Option (List Config) };

    /// How many reads of a configuration failed. It never falls, and rises at each `Failed` (at
    /// 2^64 - 1 it stays).
    ghost faults: { Self → ℕ };

    /// Its calls, in order, whatever was answered, where it tells them.
    ghost calls: { Self → Option (List Call) };

    /// The bytes of the text at a path.
    fn config(&mut self, path: &str) -> Result<Bytes, Trouble>
        ensures text { IfOk result (IsTextAt (texts self.old) path.now) }
        ensures texts { texts self.new ≡ texts self.old }
        ensures calls { Grows (calls self.old) (calls self.new) (call.Config path.now ∷ []) }
        ensures cause { HasCause (faults self.old) (faults self.new) result }
        ensures unrefused { result ≢ Err Trouble.Refused };

    /// A closed port of that form, with counts of 0, through which nothing went yet.
    fn port(&mut self, spec: &PortSpec) -> Result<Self::Port, WantOfMemory>
        ensures fresh { IfOk result (λ port. IsFresh spec.now (Self.Port.observed port)) }
        ensures texts { texts self.new ≡ texts self.old }
        ensures calls { Grows (calls self.old) (calls self.new) (call.Port spec.now ∷ []) }
        ensures faults { faults self.new ≡ faults self.old };
}
