ghost use Rattle.std.specs.Prelude.{◌≡◌, ◌<◌, true, None, length, map, IfOk, OnOk, IfErr};
ghost use Rattle.std.specs.List.{position_or_len};
ghost use Rattle.std.specs.List.Sorted.{IsPermutation};
ghost use Rattle.vx_value.specs.Texts.{same_text};
ghost use Rattle.vx_graph.specs.Faults.{IsAccepted, IsFault};
ghost use Rattle.vx_graph.specs.Order.{in_order, IsInOrder};
ghost use Rattle.vx_graph.specs.Targets.{port_count, targets};
ghost use Rattle.vx_graph.specs.declared.node.Node.{Node};

use crate::cycle::find_cycle;
use crate::graph_fault::GraphFault;
use crate::inputs::{first_bare, first_unknown};
use crate::node::{Node, NodeList, has_sink, has_source};
use crate::order::{in_order, same_text};
use crate::outputs::{TargetLists, all_outputs, all_readers, all_rows};
use std::alloc::Global;
use std::marker::Model;
use vx_value::{Text, TextList, WantOfMemory};

/// A graph that may stand. Contracts see its components, in the byte order of their names.
#[derive(Drop)]
pub struct Graph {
    nodes: NodeList,
    targets: TargetLists,
}

impl Model for Graph {
    ghost use Rattle.std.specs.Prelude.{◌≡◌, List, map};
    ghost use Rattle.vx_graph.specs.declared.node.Node.{Node};
    ghost use Rattle.vx_graph.specs.Outputs.{readers_of};

    ghost Value = { List Node };

    ghost view = { λ g. g.nodes };

    ghost invariant = { λ g. g.targets ≡ map (readers_of g.nodes) g.nodes };
}

/// The place of the component of a name, or the number of components.
fn place_named(nodes: &[Node], name: &str) -> usize
    ensures { result ≡ position_or_len (λ (node : Node). same_text node.name name.now) nodes.now }
{
    for (i, node) in nodes.iter().enumerate() {
        if same_text(node.name.as_str(), name) {
            return i;
        }
    }
    nodes.len()
}

/// How many ports the component of a name has; 0 where there is none.
fn ports_named(nodes: &[Node], name: &str) -> usize
    ensures { result ≡ port_count nodes.now name.now }
{
    for node in nodes {
        if same_text(node.name.as_str(), name) {
            return node.ports.len();
        }
    }
    0
}

impl Graph {
    /// How many ports the component of a name has; 0 where there is none.
    pub fn ports(&self, name: &str) -> usize
        ensures { result ≡ port_count self.now name.now }
    {
        ports_named(self.nodes.as_slice(), name)
    }

    /// The names of the components that read a port of a component, in byte order. It takes no memory.
    pub fn targets(&self, name: &str, port: u32) -> &TextList
        requires { port < port_count self.now name.now }
        ensures { result.now ≡ targets self.now name.now port }
    {
        let i = place_named(self.nodes.as_slice(), name);
        let lists = &self.targets.as_slice()[i];
        &lists.as_slice()[port as usize]
    }
}

/// Checks the graph of some components, whose names are distinct.
///
/// The components are taken in the byte order of their names. The refusals are tried in the order of `GraphFault`. An input that is named twice counts once.
pub fn check(alloc: Global, nodes: NodeList) -> Result<Graph, GraphFault>
    ensures order { IsInOrder (in_order nodes) }
    ensures same { IsPermutation nodes (in_order nodes) }
    ensures components { IfOk result (λ graph. graph ≡ in_order nodes) }
    ensures accepted { OnOk result (IsAccepted (in_order nodes)) }
    ensures refused { IfErr result (IsFault (in_order nodes)) }
{
    let nodes = in_order(alloc, nodes)?;
    check_ordered(alloc, nodes)
}

/// Checks the graph of some components, which are in byte order.
fn check_ordered(alloc: Global, nodes: NodeList) -> Result<Graph, GraphFault>
    ensures components { IfOk result (λ graph. graph ≡ nodes) }
    ensures accepted { OnOk result (IsAccepted nodes) }
    ensures refused { IfErr result (IsFault nodes) }
{
    let slice = nodes.as_slice();
    if !has_source(slice) {
        return Err(GraphFault::NoSources);
    }
    if !has_sink(slice) {
        return Err(GraphFault::NoSinks);
    }
    if let Some(name) = first_bare(slice) {
        return Err(GraphFault::NoInputs(Text::copy_of(alloc, name)?));
    }
    let outputs = all_outputs(alloc, slice)?;
    if let Some((name, input)) = first_unknown(slice, outputs.as_slice()) {
        let name = Text::copy_of(alloc, name)?;
        let input = Text::copy_of(alloc, input)?;
        return Err(GraphFault::UnknownInput { name, input });
    }
    let rows = all_rows(alloc, slice, outputs.as_slice())?;
    if let Some(texts) = find_cycle(alloc, slice, rows.as_slice())? {
        return Err(GraphFault::Cycle(texts));
    }
    let targets = all_readers(alloc, slice, outputs.as_slice())?;
    Ok(Graph { nodes, targets })
}
