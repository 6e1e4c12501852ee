//! The program: what the words of its command line ask for is done, over any files and streams.
#![tactic(auto)]

mod carrying;
mod debugging;

pub use carrying::{Answer, FAULT, refuse, status_of, tell_fault};
pub use commands::{Folder, ProgramFault, Writing};
pub use image::Sink;
pub use schedules::{Progress, STRIDE};
