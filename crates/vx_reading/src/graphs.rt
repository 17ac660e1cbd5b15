ghost use Rattle.std.specs.Prelude.{◌≡◌, ◌++◌, IfOk, OnOk, map};
ghost use Rattle.vx_plan.specs.Components.{port_names};
ghost use Rattle.vx_plan.specs.Graphs.{node_class, node_of, nodes_of};

use crate::adding::push;
use std::alloc::Global;
use vx_graph::{Node, NodeList};
use vx_plan::{Class, Component, Plan};
use vx_value::{Text, TextList, WantOfMemory};

/// The class of a component in the graph.
fn node_class(class: Class) -> vx_graph::Class
    ensures { result ≡ node_class class }
{
    match class {
        Class::Source => vx_graph::Class::Source,
        Class::Transform => vx_graph::Class::Transform,
        Class::Sink => vx_graph::Class::Sink,
    }
}

/// The names of a component's ports.
fn ports_of(alloc: Global, component: &Component) -> Result<TextList, WantOfMemory>
    ensures { IfOk result (λ ports. ports ≡ port_names component.now) }
{
    let mut ports = TextList::new(alloc);
    for i in 0..component.ports() {
        push(&mut ports, Text::copy_of(alloc, component.port_name(i))?)?;
    }
    Ok(ports)
}

/// A component as the graph has it.
fn node_of(alloc: Global, component: &Component) -> Result<Node, WantOfMemory>
    ensures { IfOk result (λ node. node ≡ node_of component.now) }
{
    Ok(Node {
        name: component.name.copy(alloc)?,
        class: node_class(component.class),
        ports: ports_of(alloc, component)?,
        inputs: component.inputs.copy(alloc)?,
    })
}

/// The graph of a plan.
pub(crate) fn nodes_of(alloc: Global, plan: &Plan) -> Result<NodeList, WantOfMemory>
    ensures { IfOk result (λ nodes. nodes ≡ nodes_of plan.now) }
{
    let mut nodes = NodeList::new(alloc);
    for component in plan.components.as_slice() {
        push(&mut nodes, node_of(alloc, component)?)?;
    }
    Ok(nodes)
}
