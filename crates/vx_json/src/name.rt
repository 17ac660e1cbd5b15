ghost use Rattle.std.specs.Prelude.{nat_eq, refl, Some};
ghost use Rattle.std.specs.Ordering.{nat_cmp};
ghost use Rattle.std.specs.Cmp.{partial_equiv_from_equiv, on_per, on_equiv, on_po, on_total};
ghost use Rattle.std.specs.Cmp.Lexicographic.{pointwise, slice_cmp, nat_list_eq_equiv, nat_list_cmp_total, texts_ties, texts_po};

use std::cmp::Ordering;
use vx_value::Text;

/// The name of a field in a tree, in the order of its bytes. A short one lies in the tree itself.
#[derive(Drop)]
pub struct Name {
    pub text: Text,
}

impl PartialEq for Name {
    ghost eq = { λ m n. pointwise nat_eq m.text n.text };

    ghost laws = { on_per (λ n. n.text) (partial_equiv_from_equiv nat_list_eq_equiv) };

    fn eq(&self, other: &Self) -> bool {
        self.text.as_str() == other.text.as_str()
    }
}

impl Eq for Name {
    ghost laws = { on_equiv (λ n. n.text) nat_list_eq_equiv };
}

impl PartialOrd for Name {
    ghost partial_cmp = { λ m n. Some (slice_cmp nat_cmp m.text n.text) };

    ghost laws = { on_po (λ n. n.text) texts_po };

    fn partial_cmp(&self, other: &Self) -> Option<Ordering> {
        Some(self.cmp(other))
    }
}

impl Ord for Name {
    ghost cmp = { λ m n. slice_cmp nat_cmp m.text n.text };

    ghost total = { on_total (λ n. n.text) nat_list_cmp_total };

    ghost matches_partial_cmp = { λ m n. refl };

    ghost matches_eq = { λ m n. texts_ties m.text n.text };

    fn cmp(&self, other: &Self) -> Ordering {
        self.text.as_str().cmp(other.text.as_str())
    }
}
