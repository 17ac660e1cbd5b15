//! The real ends of this process: its standard streams and files, its clock, and printers.
//!
//! Each meets its trait in counts and states, and tells nothing of contents: no contract can say what a descriptor gives
//! or takes.
#![tactic(auto)]

mod checkpoint_file;
mod device;
mod fault;
mod file_change;
mod file_in;
mod file_out;
mod held_streams;
mod os_clock;
mod os_output;
mod os_port;
mod os_printer;
mod os_world;
mod place;
mod read_result;
mod sendable;

pub use held_streams::HeldStreams;
pub use os_clock::OsClock;
pub use os_port::OsPort;
pub use os_printer::OsPrinter;
pub use os_world::OsWorld;
