//! Who reads each port of a graph. Which graphs are refused tell `checks/texts.py` and a run.

use crate::comparing::spaced;
use std::alloc::Global;
use std::process::Abort;
use std::test::Fail;
use vx_graph::{Class, Graph, Node, NodeList, check};
use vx_value::{ItemList, Text, TextList, WantOfMemory};

/// A component: its class, its name, its ports and its inputs.
type Row = (
    Class,
    &'static str,
    &'static [&'static str],
    &'static [&'static str],
);

/// The one port of a component that has no others.
const ALONE: &[&str] = &[""];

/// A list of texts.
fn texts(alloc: Global, words: &[&str]) -> Result<TextList, WantOfMemory> {
    let mut list = Vec::new(alloc);
    for word in words {
        list.push(Text::copy_of(alloc, *word)?)?;
    }
    Ok(ItemList::from_vec(list))
}

/// The component of a row.
fn node(alloc: Global, row: &Row) -> Result<Node, WantOfMemory> {
    let (class, name, ports, inputs) = row;
    Ok(Node {
        name: Text::copy_of(alloc, *name)?,
        class: *class,
        ports: texts(alloc, *ports)?,
        inputs: texts(alloc, *inputs)?,
    })
}

/// The components of some rows.
fn nodes(alloc: Global, rows: &[Row]) -> Result<NodeList, WantOfMemory> {
    let mut list = Vec::new(alloc);
    for row in rows {
        list.push(node(alloc, row)?)?;
    }
    Ok(ItemList::from_vec(list))
}

/// A graph in which ports have several readers.
const READERS: &[Row] = &[
    (Class::Sink, "z", &[], &["s", "s", "r.a", "r.a"]),
    (Class::Source, "s", ALONE, &[]),
    (Class::Transform, "r", &["a", "b", "c"], &["s"]),
    (Class::Transform, "f", ALONE, &["r.*"]),
    (Class::Sink, "B", &[], &["*.a", "f*"]),
    (Class::Sink, "b", &[], &["r.b"]),
];

/// The readers of its ports.
const TARGETS: &[(&str, u32, &str)] = &[
    ("s", 0, "r z "),
    ("r", 0, "B f z "),
    ("r", 1, "b f "),
    ("f", 0, "B "),
    ("r", 2, "f "),
];

/// The graph of some rows that is accepted.
fn accepted(alloc: Global, rows: &[Row]) -> Result<Graph, Fail> {
    match check(alloc, nodes(alloc, rows)?) {
        Ok(graph) => Ok(graph),
        Err(_) => Err(Fail::new("refused")),
    }
}

/// The readers of a port.
fn targets_of(alloc: Global, graph: &Graph, name: &str, port: u32) -> Result<String, Fail> {
    if (port as usize) < graph.ports(name) {
        spaced(alloc, graph.targets(name, port).as_slice())
    } else {
        Err(Fail::new("no such port"))
    }
}

/// Checks the readers of a port.
fn has_targets(
    rt: &impl Abort,
    alloc: Global,
    graph: &Graph,
    name: &str,
    port: u32,
    want: &str,
) -> Result<(), Fail> {
    let found = targets_of(alloc, graph, name, port)?;
    assert_eq!(rt; found.as_str(), want);
    Ok(())
}

/// Checks the readers of each port.
fn have_targets(rt: &impl Abort, alloc: Global, graph: &Graph) -> Result<(), Fail> {
    for (name, port, want) in TARGETS {
        has_targets(rt, alloc, graph, *name, *port, *want)?;
    }
    Ok(())
}

/// Checks how many ports a component has.
fn has_ports(rt: &impl Abort, graph: &Graph, name: &str, want: usize) {
    assert_eq!(rt; graph.ports(name), want);
}

#[test]
fn targets_in_byte_order(rt: HostRuntime) -> Result<(), Fail> {
    let graph = accepted(rt.alloc(), READERS)?;
    has_ports(&rt, &graph, "r", 3);
    has_ports(&rt, &graph, "none", 0);
    have_targets(&rt, rt.alloc(), &graph)
}
