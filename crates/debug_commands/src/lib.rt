//! The debugger's commands as they are written: what a typed line asks for, over a table of labels.
#![tactic(auto)]

mod address;
mod command;
mod fault;
pub mod laws;
mod operands;
mod table;

pub use command::{Back, Command, Events, Recall, SetStops, Stop, View, Watched};
pub use fault::DebugFault;
pub use table::{about_line, command_of, help_text};
