//! What an operator types and reads: the words of the program are a command, or there is a fault; the faults that a
//! run may end with, their exit statuses, and what is printed of them and of what was counted.
#![tactic(auto)]

mod cli_fault;
mod command;
mod fault;
mod grammars;
mod laws;
mod plan_texts;
mod reading;
mod showing;
mod summaries;
mod texts;

pub use cli_fault::CliFault;
pub use command::Command;
pub use fault::Fault;
pub use laws::{fault_lines, one_command, printed_names, refusals, spellings};
pub use reading::read_words;
pub use summaries::summary_line;
pub use texts::fault_text;
