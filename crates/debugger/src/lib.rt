//! The debugger: what words, values and states look like as text, and a machine that is driven by commands.
#![tactic(auto)]

mod answer;
mod caps;
mod changed;
mod fault;
mod last_stop;
mod marks;
mod ram;
mod reaching;
mod recalling;
mod reply;
mod run;
pub mod scheduled;
mod session;
mod state;
mod stepping;
mod stops;
mod talking;
mod timeline;

pub use debug_commands::{DebugFault, laws};
pub use disassembler::disassemble;
pub use fault::TalkFault;
pub use reply::Reply;
pub use session::Session;
pub use talking::{talk, talk_told};
