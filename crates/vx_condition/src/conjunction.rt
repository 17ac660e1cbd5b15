ghost use Rattle.std.specs.Prelude.{◌≡◌, [], ◌∷◌, ◌++◌, IfOk, OnOk, IsOk, true};

use crate::term::Term;
use std::alloc::Global;
use std::marker::Model;
use vx_value::{Event, WantOfMemory};

/// Terms, all of which have to hold. Contracts see the list of what they stand for.
#[cycle(tree)]
#[derive(Drop)]
pub struct Conjunction {
    terms: Vec<Term>,
}

impl Model for Conjunction {
    ghost use Rattle.std.specs.Prelude.{List, map, ◌+◌};
    ghost use Rattle.std.specs.Coded.{coded_list};
    ghost use Rattle.vx_condition.specs.Trees as tree;
    ghost use Rattle.vx_condition.specs.TreeCode.{coded_term};

    ghost Value = { List tree.Term };

    ghost coded = { coded_list coded_term };

    ghost use Rattle.vx_condition.specs.Sizes.{conjunction_size};
    ghost use Rattle.vx_condition.specs.Trees.{conjunction_of};
    ghost use Rattle.vx_condition.specs.Views.{term_view};

    ghost view = { λ c. map term_view c.terms.items };

    ghost size = { λ ts. 1 + conjunction_size (conjunction_of ts) };

    ghost use Rattle.std.proofs.Common.{arith};
    ghost use Rattle.vx_condition.specs.Falls.{most-terms};

    ghost size_decreases = { λ c h. Prim.omega (arith, most-terms c.terms.items) };
}

impl Conjunction {
    ghost use Rattle.vx_condition.specs.Meaning.{conjunction_holds, is_free_conjunction};
    ghost use Rattle.vx_condition.specs.Trees.{conjunction_of};
    ghost use Rattle.vx_condition.specs.Views.{term_view};

    /// A conjunction without terms. It takes no memory.
    pub fn new(alloc: Global) -> Self
        ensures { result ≡ [] }
    {
        Conjunction {
            terms: Vec::new(alloc),
        }
    }

    /// Adds a term at the end.
    pub fn push(&mut self, term: Term) -> Result<(), WantOfMemory>
        ensures { OnOk result (self.new ≡ self.old ++ term_view term ∷ []) }
    {
        self.terms.push(term)?;
        Ok(())
    }

    /// Whether each term holds of an event. It takes memory only for a match.
    #[cycle(holds)]
    pub fn holds(&self, alloc: Global, event: &Event) -> Result<bool, WantOfMemory>
        ensures value { IfOk result
            (λ holds. holds ≡ conjunction_holds (conjunction_of self.now) event.now.fields) }
        ensures lean { is_free_conjunction (conjunction_of self.now) ≡ true → IsOk result }
    {
        for term in self.terms.as_slice() {
            if !term.holds(alloc, event)? {
                return Ok(false);
            }
        }
        Ok(true)
    }
}
