ghost use Rattle.std.specs.Prelude.{◌≡◌, IfOk, OnOk, ◌++◌, ◌∷◌, [], map};
ghost use Rattle.std.specs.List.{list_any};
ghost use Rattle.vx_graph.specs.Outputs.{output_text, outputs_of, is_met, reads_output, reads_from, readers, readers_of, is_known, row_of, rows_of};
ghost use Rattle.vx_graph.specs.Turns.{left_text};
ghost use Rattle.vx_graph.specs.declared.node.Node.{Node};

use crate::node::Node;
use crate::order::{push, same_text};
use crate::pattern::{Left, has_star, is_like, output_pieces, whole};
use std::alloc::Global;
use vx_value::{ItemList, Text, TextList, WantOfMemory};

/// The texts of the outputs of some components, in their order.
pub type OutputLists = ItemList<TextList>;

/// The readers of some components' outputs: for each component a list for each port.
pub type TargetLists = ItemList<OutputLists>;

/// For each of some components, whether each of them reads it.
pub type RowList = ItemList<ItemList<bool>>;

/// The text by which inputs name a component's port.
fn output_text(alloc: Global, name: &str, port: &str) -> Result<Text, WantOfMemory>
    ensures { IfOk result (λ text. text ≡ output_text name.now port.now) }
{
    let mut text = String::from_str(alloc, name)?;
    if !port.is_empty() {
        text.push_str(".")?;
        text.push_str(port)?;
    }
    Text::copy_of(alloc, text.as_str())
}

/// The texts of a component's ports.
fn outputs_of(alloc: Global, node: &Node) -> Result<TextList, WantOfMemory>
    ensures { IfOk result (λ texts. texts ≡ outputs_of node.now) }
{
    let mut texts = ItemList::new(alloc);
    for port in node.ports.as_slice() {
        push(
            &mut texts,
            output_text(alloc, node.name.as_str(), port.as_str())?,
        )?;
    }
    Ok(texts)
}

/// The texts of the ports of each component.
pub fn all_outputs(alloc: Global, nodes: &[Node]) -> Result<OutputLists, WantOfMemory>
    ensures { IfOk result (λ lists. lists ≡ map outputs_of nodes.now) }
{
    let mut lists = ItemList::new(alloc);
    for node in nodes {
        push(&mut lists, outputs_of(alloc, node)?)?;
    }
    Ok(lists)
}

/// Whether a reader's input means an output of an owner, whose text comes in pieces.
fn is_meant(reader: &str, owner: &str, input: &str, text: Left) -> bool
    ensures { result ≡ is_met reader.now owner.now input.now (left_text text.entry) }
{
    is_like(input.as_bytes(), text) && !(has_star(input.as_bytes()) && same_text(reader, owner))
}

/// Whether a reader's input means an output of an owner.
fn is_met(reader: &str, owner: &str, input: &str, text: &str) -> bool
    ensures { result ≡ is_met reader.now owner.now input.now text.now }
{
    is_meant(reader, owner, input, whole(text))
}

/// Whether a reader's input means a port of an owner. It takes no memory.
pub fn reads_port(reader: &str, owner: &str, port: &str, input: &str) -> bool
    ensures { result ≡ is_met reader.now owner.now input.now (output_text owner.now port.now) }
{
    is_meant(reader, owner, input, output_pieces(owner, port))
}

/// Whether a component reads an output of an owner.
fn reads_output(reader: &Node, owner: &str, text: &str) -> bool
    ensures { result ≡ reads_output reader.now owner.now text.now }
{
    for input in reader.inputs.as_slice() {
        if is_met(reader.name.as_str(), owner, input.as_str(), text) {
            return true;
        }
    }
    false
}

/// Whether a component reads one of some outputs of an owner.
fn reads_some(reader: &Node, owner: &str, texts: &[Text]) -> bool
    ensures { result ≡ list_any (λ text. reads_output reader.now owner.now text) texts.now }
{
    for text in texts {
        if reads_output(reader, owner, text.as_str()) {
            return true;
        }
    }
    false
}

/// Whether a reader's input means one of some outputs of an owner.
fn is_among(reader: &str, owner: &str, input: &str, texts: &[Text]) -> bool
    ensures { result ≡ list_any (λ text. is_met reader.now owner.now input.now text) texts.now }
{
    for text in texts {
        if is_met(reader, owner, input, text.as_str()) {
            return true;
        }
    }
    false
}

/// Whether a reader's input means some output.
pub fn is_known(nodes: &[Node], outputs: &[TextList], reader: &str, input: &str) -> bool
    requires { outputs.now ≡ map outputs_of nodes.now }
    ensures { result ≡ is_known nodes.now reader.now input.now }
{
    for (i, node) in nodes.iter().enumerate() {
        if is_among(reader, node.name.as_str(), input, outputs[i].as_slice()) {
            return true;
        }
    }
    false
}

/// The names of the components that read an output of an owner.
fn readers(alloc: Global, nodes: &[Node], owner: &str, text: &str) -> Result<TextList, WantOfMemory>
    ensures { IfOk result (λ names. names ≡ readers nodes.now owner.now text.now) }
{
    let mut names = ItemList::new(alloc);
    for node in nodes {
        if reads_output(node, owner, text) {
            push(&mut names, node.name.copy(alloc)?)?;
        }
    }
    Ok(names)
}

/// The readers of each of some outputs of an owner.
fn readers_of(
    alloc: Global,
    nodes: &[Node],
    owner: &str,
    texts: &[Text],
) -> Result<OutputLists, WantOfMemory>
    ensures { IfOk result (λ lists. lists ≡ map (readers nodes.now owner.now) texts.now) }
{
    let mut lists = ItemList::new(alloc);
    for text in texts {
        push(&mut lists, readers(alloc, nodes, owner, text.as_str())?)?;
    }
    Ok(lists)
}

/// The readers of each output of each component.
pub fn all_readers(
    alloc: Global,
    nodes: &[Node],
    outputs: &[TextList],
) -> Result<TargetLists, WantOfMemory>
    requires { outputs.now ≡ map outputs_of nodes.now }
    ensures { IfOk result (λ lists. lists ≡ map (readers_of nodes.now) nodes.now) }
{
    let mut lists = ItemList::new(alloc);
    for (i, node) in nodes.iter().enumerate() {
        push(
            &mut lists,
            readers_of(alloc, nodes, node.name.as_str(), outputs[i].as_slice())?,
        )?;
    }
    Ok(lists)
}

/// Whether each component reads one of some outputs of an owner.
fn row_of(
    alloc: Global,
    nodes: &[Node],
    owner: &str,
    texts: &[Text],
) -> Result<ItemList<bool>, WantOfMemory>
    ensures { IfOk result
        (λ row. row
        ≡ map (λ (reader : Node). list_any (λ text. reads_output reader owner.now text) texts.now)
        nodes.now) }
{
    let mut row = ItemList::new(alloc);
    for node in nodes {
        push(&mut row, reads_some(node, owner, texts))?;
    }
    Ok(row)
}

/// For each component, whether each component reads it.
pub fn all_rows(
    alloc: Global,
    nodes: &[Node],
    outputs: &[TextList],
) -> Result<RowList, WantOfMemory>
    requires { outputs.now ≡ map outputs_of nodes.now }
    ensures { IfOk result (λ rows. rows ≡ rows_of nodes.now) }
{
    let mut rows = ItemList::new(alloc);
    for (i, node) in nodes.iter().enumerate() {
        push(
            &mut rows,
            row_of(alloc, nodes, node.name.as_str(), outputs[i].as_slice())?,
        )?;
    }
    Ok(rows)
}
