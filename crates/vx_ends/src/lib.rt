//! The ends of a run, as its engine sees them: the world that makes ports, ports, the clock and printers.
//!
//! Each is a trait that says what an end may answer, with counts of its faults, and what it tells of the bytes
//! that went through it. The ends in memory tell everything; real ends tell nothing of contents.
#![tactic(auto)]

mod act;
mod acts;
mod answers;
mod call;
mod clock;
mod memory_clock;
mod memory_port;
mod memory_printer;
mod memory_world;
mod optional;
mod port;
mod port_spec;
mod position;
mod printer;
mod script;
mod scripted;
mod step;
mod trouble;
mod world;

pub use act::{Act, ActList};
pub use call::Call;
pub use clock::Clock;
pub use memory_clock::MemoryClock;
pub use memory_port::MemoryPort;
pub use memory_printer::MemoryPrinter;
pub use memory_world::MemoryWorld;
pub use port::{Port, Took};
pub use port_spec::{Form, PortSpec};
pub use position::{Position, PositionList};
pub use printer::Printer;
pub use scripted::{Scripted, ScriptedList};
pub use step::{Step, StepList};
pub use trouble::{Failed, Reply, Trouble};
pub use world::{Config, ConfigList, World};
