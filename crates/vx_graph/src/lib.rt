//! The graph of a configuration: which component reads which output, and whether a graph may stand.
#![tactic(auto)]

mod cycle;
mod graph;
mod graph_fault;
mod inputs;
mod node;
mod order;
mod outputs;
mod pattern;
mod round;

pub use graph::{Graph, check};
pub use graph_fault::GraphFault;
pub use node::{Class, Node, NodeList};
pub use outputs::reads_port;
