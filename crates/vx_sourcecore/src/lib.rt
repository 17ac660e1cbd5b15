//! What a source does beside its port: how it cuts what it takes into lines and their events, and which of its batches may be
//! confirmed.
#![tactic(auto)]

mod demo_lines;
mod ends;
mod framing;
mod generator;
mod laws;
mod new_lines;
mod positions;
mod prefix;
mod source;

pub use demo_lines::Lines;
pub use ends::Ends;
pub use generator::Generator;
pub use laws::{lines, source_laws};
pub use new_lines::NewLines;
pub use prefix::{Due, Passing, Prefix};
pub use source::{Cut, SourceCore, Turned};
