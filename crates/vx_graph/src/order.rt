ghost use Rattle.std.specs.Prelude.{◌≡◌, IfOk, OnOk, ◌++◌, ◌∷◌, [], ◌≤◌, length};
ghost use Rattle.std.specs.List.{position_or_len};
ghost use Rattle.vx_value.specs.Texts.{text_le, same_text};
ghost use Rattle.vx_graph.specs.Order.{in_order, node_le};

use crate::node::{Node, NodeList};
use std::alloc::Global;
use vx_value::{ItemList, WantOfMemory};

/// Whether two texts are the same.
#[tactic(auto, using(crate::proofs::Names::same_text_is))]
pub fn same_text(a: &str, b: &str) -> bool
    ensures { result ≡ same_text a.now b.now }
{
    a == b
}

/// Whether a text comes no later than another by its bytes.
#[tactic(auto, using(crate::proofs::Names::byte_order))]
fn text_le(a: &[u8], b: &[u8]) -> bool
    ensures { result ≡ text_le a.now b.now }
{
    let mut i = 0;
    'bytes: while i < a.len() && i < b.len() {
        if a[i] != b[i] {
            return a[i] < b[i];
        }
        i += 1;
    }
    i == a.len()
}

/// Where a component goes among sorted ones.
fn place_of(sorted: &[Node], node: &Node) -> usize
    ensures place { result ≡ position_or_len (node_le node.now) sorted.now }
    ensures within { result ≤ length sorted.now }
{
    for (i, other) in sorted.iter().enumerate() {
        if text_le(
            node.name.as_str().as_bytes(),
            other.name.as_str().as_bytes(),
        ) {
            return i;
        }
    }
    sorted.len()
}

/// The components in the byte order of their names.
#[tactic(auto, using(crate::proofs::Names::entering))]
pub fn in_order(alloc: Global, nodes: NodeList) -> Result<NodeList, WantOfMemory>
    ensures { IfOk result (λ sorted. sorted ≡ in_order nodes) }
{
    let mut left = nodes.into_vec();
    let mut sorted = Vec::new(alloc);
    'nodes: while let Some(node) = left.pop() {
        let at = place_of(sorted.as_slice(), &node);
        match sorted.insert(at, node) {
            Ok(()) => {}
            Err(_) => return Err(WantOfMemory),
        }
    }
    Ok(ItemList::from_vec(sorted))
}

/// Adds an item at the end of a list.
pub fn push<T: Drop>(list: &mut ItemList<T>, item: T) -> Result<(), WantOfMemory>
    ensures { OnOk result (list.new ≡ list.old ++ item ∷ []) }
{
    match list.push(item) {
        Ok(()) => Ok(()),
        Err(_) => Err(WantOfMemory),
    }
}
