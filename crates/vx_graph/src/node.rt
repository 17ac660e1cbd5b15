ghost use Rattle.std.specs.Prelude.{◌≡◌};
ghost use Rattle.std.specs.List.{list_any};
ghost use Rattle.vx_graph.specs.Classes.{is_source, is_sink};

use vx_value::{ItemList, Text, TextList};

/// The class of a component.
#[derive(Clone, Copy, PartialEq, Eq, Debug)]
pub enum Class {
    /// It makes events, and reads nobody.
    Source,
    /// It reads components, and is read.
    Transform,
    /// It reads components, and nobody reads it.
    Sink,
}

/// A component: its name, its class, the names of its ports, and its inputs.
///
/// A port with an empty name is read as the component's name, another as the component's name, `.` and its own.
/// An input is such a text, or a text with `*`, each of which stands for any text.
#[derive(Drop)]
pub struct Node {
    pub name: Text,
    pub class: Class,
    pub ports: TextList,
    pub inputs: TextList,
}

/// The components of a configuration.
pub type NodeList = ItemList<Node>;

/// Whether some component is a source.
pub fn has_source(nodes: &[Node]) -> bool
    ensures { result ≡ list_any is_source nodes.now }
{
    nodes.iter().any(|node| matches!(node.class, Class::Source))
}

/// Whether some component is a sink.
pub fn has_sink(nodes: &[Node]) -> bool
    ensures { result ≡ list_any is_sink nodes.now }
{
    nodes.iter().any(|node| matches!(node.class, Class::Sink))
}
