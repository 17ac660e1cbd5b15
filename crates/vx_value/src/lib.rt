//! The words of every layer: texts, bytes, lists that contracts see as lists, events, and want of memory.
#![tactic(auto)]

mod bytes;
mod event;
mod field;
mod field_list;
mod item_list;
mod path;
mod path_fault;
mod path_mode;
mod path_reader;
mod put_fault;
mod short_text;
mod text;
mod value;
mod value_list;
mod variable;
mod want_of_memory;

pub use bytes::Bytes;
pub use event::{Event, EventList};
pub use field::Field;
pub use field_list::FieldList;
pub use item_list::{ItemList, NumberList};
pub use path::Path;
pub use path_fault::PathFault;
pub use path_mode::{PathMode, PathMove};
pub use put_fault::PutFault;
pub use text::{Text, TextList};
pub use value::Value;
pub use value_list::ValueList;
pub use variable::{Variable, VariableList};
pub use want_of_memory::WantOfMemory;
