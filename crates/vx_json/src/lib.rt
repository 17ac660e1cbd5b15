//! Events and values as JSON, and how sinks write events.
#![tactic(auto)]

mod encode;
mod frame;
mod json_fault;
mod laws;
mod leaf;
mod line;
mod mode;
mod name;
mod nesting;
mod number_move;
mod number_place;
mod object_builder;
mod plain;
mod probe;
mod probe_mode;
mod probe_step;
mod put_field;
mod quote;
mod reader;
mod run;
mod step;
mod text_move;
mod text_place;
mod walk;
mod word_place;
mod writer;

pub use encode::encode_event;
pub use json_fault::JsonFault;
pub use laws::{line_events, one_object};
pub use line::{line_event, line_into_event};
pub use probe::Probe;
pub use reader::read;
pub use vx_codec::{Codec, Decoding};
pub use writer::{write, write_value};
