ghost use Rattle.std.specs.Prelude.{◌≡◌};
ghost use Rattle.vx_ends.specs.Acts.{first_act, later_acts};

use crate::act::{Act, ActList};
use std::marker::Model;

/// Acts that are used one after another. Contracts see those that are still to be used.
#[derive(Drop)]
pub struct Acts {
    list: ActList,
    used: usize,
}

impl Model for Acts {
    ghost use Rattle.std.specs.Prelude.{List, drop};
    ghost use Rattle.vx_ends.specs.declared.act.Act.{Act};

    ghost Value = { List Act };

    ghost view = { λ a. drop a.used a.list };
}

impl Acts {
    /// All acts of a list.
    pub fn new(list: ActList) -> Self
        ensures { result ≡ list }
    {
        Acts { list, used: 0 }
    }

    /// Uses the next act. Past the last one it is to pass.
    pub fn next(&mut self) -> Act
        ensures act { result ≡ first_act self.old }
        ensures later { self.new ≡ later_acts self.old }
    {
        if self.used >= self.list.len() {
            return Act::Pass;
        }
        let act = self.list.as_slice()[self.used];
        self.used += 1;
        act
    }
}
