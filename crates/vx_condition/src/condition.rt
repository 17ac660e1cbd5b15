ghost use Rattle.std.specs.Prelude.{◌≡◌, IfOk, IsOk};
ghost use Rattle.vx_condition.specs.Conditions.{Says, IsMatchFree, IsCondition};
ghost use Rattle.vx_condition.specs.Trees.{disjunction_of};

use crate::disjunction::Disjunction;
use std::alloc::Global;
use std::marker::Model;
use vx_value::{Event, ItemList, Text, WantOfMemory};

/// A condition on events. Contracts see it as its text.
#[derive(Drop)]
pub struct Condition {
    text: Text,
    tree: Disjunction,
}

/// A list of conditions.
pub type ConditionList = ItemList<Condition>;

impl Model for Condition {
    ghost use Rattle.std.specs.Prelude.{List, ℕ};
    ghost use Rattle.vx_condition.specs.Trees.{disjunction_of};
    ghost use Rattle.vx_condition.specs.Conditions.{IsCondition};

    ghost Value = { List ℕ };

    ghost view = { λ c. c.text };

    ghost invariant = { λ c. IsCondition (disjunction_of c.tree) c.text };
}

impl Condition {
    // The condition of a text and its tree.
    pub(crate) fn of(text: Text, tree: Disjunction) -> Self
        requires { IsCondition (disjunction_of tree) text }
        ensures { result ≡ text }
    {
        Condition { text, tree }
    }

    /// Whether the condition holds of an event.
    ///
    /// A missing value counts as null at `==` and `!=`. `<` and its kin hold of whole numbers alone, and `contains` and
    /// `match` of texts alone. `WantOfMemory` comes only at a condition with `match` in it.
    pub fn holds(&mut self, alloc: Global, event: &Event) -> Result<bool, WantOfMemory>
        ensures meaning { IfOk result (Says self.old event.now.fields) }
        ensures lean { IsMatchFree self.old → IsOk result }
        ensures same { self.new ≡ self.old }
    {
        self.tree.holds(alloc, event)
    }
}
