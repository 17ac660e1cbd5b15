ghost use Rattle.std.specs.Prelude.{◌≡◌, ◌<◌, ◌≤◌, ℕ, List, true, false, not, length, map, IfOk, MatchOption, Contains, All};
ghost use Rattle.vx_value.specs.Texts.{ByteString};
ghost use Rattle.vx_graph.specs.Cycles.{IsCycle, name_at};
ghost use Rattle.vx_graph.specs.Outputs.{rows_of};
ghost use Rattle.vx_graph.specs.Rounds.{marked};

use crate::node::Node;
use crate::order::push;
use crate::outputs::RowList;
use crate::round::{find_round, least_first, settled};
use std::alloc::Global;
use vx_value::{ItemList, TextList, WantOfMemory};

/// The first place that isn't marked.
fn first_unmarked(marks: &[bool]) -> Option<usize>
    ensures { MatchOption result
        ((i : ℕ) → i < length marks.now → marked marks.now i ≡ true)
        (λ i. (i < length marks.now) × (marked marks.now i ≡ false)) }
{
    for (i, mark) in marks.iter().enumerate() {
        if !*mark {
            return Some(i);
        }
    }
    None
}

/// The names of the components at some places.
fn names_at(alloc: Global, nodes: &[Node], places: &[usize]) -> Result<TextList, WantOfMemory>
    requires { All (λ i. i < length nodes.now) places.now }
    ensures { IfOk result (λ names. names ≡ map (name_at nodes.now) places.now) }
{
    let mut names = ItemList::new(alloc);
    for place in places {
        push(&mut names, nodes[*place].name.copy(alloc)?)?;
    }
    Ok(names)
}

/// A cycle among components, if there is one.
pub fn find_cycle(
    alloc: Global,
    nodes: &[Node],
    rows: &[ItemList<bool>],
) -> Result<Option<TextList>, WantOfMemory>
    requires { rows.now ≡ rows_of nodes.now }
    ensures { IfOk result
        (λ found. MatchOption found ((texts : List ByteString) → IsCycle nodes.now texts → ⊥)
        (λ texts. IsCycle nodes.now texts)) }
{
    let marks = settled(alloc, rows)?;
    match first_unmarked(marks.as_slice()) {
        None => Ok(None),
        Some(start) => {
            let round = find_round(alloc, rows, marks.as_slice(), start)?;
            let turned = least_first(alloc, round.as_slice())?;
            Ok(Some(names_at(alloc, nodes, turned.as_slice())?))
        }
    }
}
