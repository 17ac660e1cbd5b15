use crate::conjunction::Conjunction;
use crate::disjunction::Disjunction;
use crate::term::{Atom, Term};
use std::alloc::Global;
use std::mem;
use vx_value::WantOfMemory;

/// What was read of a condition, inside its brackets.
#[derive(Drop)]
pub struct Frame {
    /// How many levels are open around it, its own bracket counted.
    pub base: u32,
    /// The branches that are whole.
    pub branches: Disjunction,
    /// The terms of the branch that has begun.
    pub terms: Conjunction,
    /// How many `!` stand before the term that comes.
    pub negations: u32,
}

impl Frame {
    ghost use Rattle.std.specs.Prelude.{◌≡◌, [], OnOk, IfOk};
    ghost use Rattle.vx_condition.specs.Moves.{fresh, with_term, all_branches};
    ghost use Rattle.vx_condition.specs.Views.{atom_view};

    /// A frame without anything.
    pub fn new(alloc: Global, base: u32) -> Self
        ensures { result ≡ fresh base }
    {
        Frame {
            base,
            branches: Disjunction::new(alloc),
            terms: Conjunction::new(alloc),
            negations: 0,
        }
    }

    /// Adds a term, behind the `!` that stand before it.
    pub fn push(&mut self, atom: Atom) -> Result<(), WantOfMemory>
        ensures { OnOk result (self.new ≡ with_term self.old (atom_view atom)) }
    {
        let term = Term {
            negations: self.negations,
            atom,
        };
        self.terms.push(term)?;
        self.negations = 0;
        Ok(())
    }

    /// Ends the branch that has begun.
    pub fn end_branch(&mut self, alloc: Global) -> Result<(), WantOfMemory>
        ensures { OnOk result
            (self.new ≡ record self.old { branches = all_branches self.old; terms = [] }) }
    {
        let terms = mem::replace(&mut self.terms, Conjunction::new(alloc));
        self.branches.push(terms)
    }

    /// The condition that it is, with its last branch.
    pub fn into_disjunction(self) -> Result<Disjunction, WantOfMemory>
        ensures { IfOk result (λ all. all ≡ all_branches self) }
    {
        let Frame {
            base: _,
            branches,
            terms,
            negations: _,
        } = self;
        let mut branches = branches;
        branches.push(terms)?;
        Ok(branches)
    }
}
