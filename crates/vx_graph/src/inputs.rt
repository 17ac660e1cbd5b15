ghost use Rattle.std.specs.Prelude.{◌≡◌, true, false, not, Some, None, map, MatchOption, find};
ghost use Rattle.vx_graph.specs.Faults.{lacks_inputs, first_bare, unknown_in, unknown_among, first_unknown, Unknown};
ghost use Rattle.vx_graph.specs.Outputs.{outputs_of, is_known};

use crate::node::{Class, Node};
use crate::outputs::is_known;
use vx_value::TextList;

/// Whether a component that must read somebody has no input.
fn lacks_inputs(node: &Node) -> bool
    ensures { result ≡ lacks_inputs node.now }
{
    match node.class {
        Class::Source => false,
        Class::Transform => node.inputs.is_empty(),
        Class::Sink => node.inputs.is_empty(),
    }
}

/// The name of the first component that must read somebody and has no input.
pub fn first_bare(nodes: &[Node]) -> Option<&str>
    ensures { MatchOption result (first_bare nodes.now ≡ None)
        (λ name. first_bare nodes.now ≡ Some name.now) }
{
    for node in nodes {
        if lacks_inputs(node) {
            return Some(node.name.as_str());
        }
    }
    None
}

/// A component's first input that means no output.
fn unknown_in<'a>(nodes: &[Node], outputs: &[TextList], reader: &'a Node) -> Option<&'a str>
    requires { outputs.now ≡ map outputs_of nodes.now }
    ensures { MatchOption result (unknown_in nodes.now reader.now ≡ None)
        (λ input. unknown_in nodes.now reader.now ≡ Some input.now) }
{
    for input in reader.inputs.as_slice() {
        if !is_known(nodes, outputs, reader.name.as_str(), input.as_str()) {
            return Some(input.as_str());
        }
    }
    None
}

/// The first component with an input that means no output, and its first such input.
pub fn first_unknown<'a>(nodes: &'a [Node], outputs: &[TextList]) -> Option<(&'a str, &'a str)>
    requires { outputs.now ≡ map outputs_of nodes.now }
    ensures { MatchOption result (first_unknown nodes.now ≡ None)
        (λ found. first_unknown nodes.now
        ≡ Some (record { reader = found.0.now; input = found.1.now })) }
{
    for reader in nodes {
        if let Some(input) = unknown_in(nodes, outputs, reader) {
            return Some((reader.name.as_str(), input));
        }
    }
    None
}
