ghost use Rattle.std.specs.Prelude.{◌≡◌, IfOk, IsOk, true};

use crate::disjunction::Disjunction;
use crate::predicate::Predicate;
use std::alloc::Global;
use vx_value::{Event, WantOfMemory};

/// What stands between two `&&`.
#[cycle(tree)]
#[derive(Drop)]
pub struct Term {
    /// How many `!` stand before it.
    pub negations: u32,
    /// What they negate.
    pub atom: Atom,
}

/// What `!` negates.
#[cycle(tree)]
#[derive(Drop)]
pub enum Atom {
    /// A predicate.
    Stated(Predicate),
    /// A condition in brackets.
    Bracketed(Disjunction),
}

impl Term {
    ghost use Rattle.vx_condition.specs.Meaning.{term_holds, is_free_term};
    ghost use Rattle.vx_condition.specs.Views.{term_view};

    /// Whether it holds of an event. It takes memory only for a match.
    #[cycle(holds)]
    pub fn holds(&self, alloc: Global, event: &Event) -> Result<bool, WantOfMemory>
        ensures value { IfOk result
            (λ holds. holds ≡ term_holds (term_view self.now) event.now.fields) }
        ensures lean { is_free_term (term_view self.now) ≡ true → IsOk result }
    {
        let plain = self.atom.holds(alloc, event)?;
        Ok(plain != (self.negations % 2 == 1))
    }
}

impl Atom {
    ghost use Rattle.vx_condition.specs.Meaning.{term_holds, is_free_term};
    ghost use Rattle.vx_condition.specs.Views.{atom_view};

    /// Whether it holds of an event. It takes memory only for a match.
    #[cycle(holds)]
    pub fn holds(&self, alloc: Global, event: &Event) -> Result<bool, WantOfMemory>
        ensures value { IfOk result
            (λ holds. holds ≡ term_holds (atom_view self.now) event.now.fields) }
        ensures lean { is_free_term (atom_view self.now) ≡ true → IsOk result }
    {
        match self {
            Atom::Stated(predicate) => predicate.holds(alloc, event),
            Atom::Bracketed(condition) => condition.holds(alloc, event),
        }
    }
}
