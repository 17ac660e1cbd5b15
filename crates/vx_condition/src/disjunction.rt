ghost use Rattle.std.specs.Prelude.{◌≡◌, [], ◌∷◌, ◌++◌, IfOk, OnOk, IsOk, true};

use crate::conjunction::Conjunction;
use std::alloc::Global;
use std::marker::Model;
use vx_value::{Event, WantOfMemory};

/// Conjunctions, one of which has to hold, as a condition is. Contracts see the list of what they stand for.
#[cycle(tree)]
#[derive(Drop)]
pub struct Disjunction {
    branches: Vec<Conjunction>,
}

impl Model for Disjunction {
    ghost use Rattle.std.specs.Prelude.{List, ◌+◌};
    ghost use Rattle.std.specs.Coded.{coded_list};
    ghost use Rattle.vx_condition.specs.Trees as tree;
    ghost use Rattle.vx_condition.specs.TreeCode.{coded_term};

    ghost Value = { List (List tree.Term) };

    ghost coded = { coded_list (coded_list coded_term) };

    ghost use Rattle.vx_condition.specs.Sizes.{disjunction_size};
    ghost use Rattle.vx_condition.specs.Trees.{disjunction_of};

    ghost view = { λ d. d.branches.items };

    ghost size = { λ cs. 1 + disjunction_size (disjunction_of cs) };

    ghost use Rattle.std.proofs.Common.{arith};
    ghost use Rattle.vx_condition.specs.Falls.{most-branches};

    ghost size_decreases = { λ d h. Prim.omega (arith, most-branches d.branches.items) };
}

impl Disjunction {
    ghost use Rattle.vx_condition.specs.Meaning.{disjunction_holds, is_free_disjunction};
    ghost use Rattle.vx_condition.specs.Trees.{disjunction_of};

    /// A disjunction without branches. It takes no memory.
    pub fn new(alloc: Global) -> Self
        ensures { result ≡ [] }
    {
        Disjunction {
            branches: Vec::new(alloc),
        }
    }

    /// Adds a branch at the end.
    pub fn push(&mut self, branch: Conjunction) -> Result<(), WantOfMemory>
        ensures { OnOk result (self.new ≡ self.old ++ branch ∷ []) }
    {
        self.branches.push(branch)?;
        Ok(())
    }

    /// Whether some branch holds of an event. It takes memory only for a match.
    #[cycle(holds)]
    pub fn holds(&self, alloc: Global, event: &Event) -> Result<bool, WantOfMemory>
        ensures value { IfOk result
            (λ holds. holds ≡ disjunction_holds (disjunction_of self.now) event.now.fields) }
        ensures lean { is_free_disjunction (disjunction_of self.now) ≡ true → IsOk result }
    {
        for branch in self.branches.as_slice() {
            if branch.holds(alloc, event)? {
                return Ok(true);
            }
        }
        Ok(false)
    }
}
