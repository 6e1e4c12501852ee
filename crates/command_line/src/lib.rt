//! The program's command line: which plan its words ask for, or the text of the help or the refusal.
#![tactic(auto)]

mod fault;
/// What holds of the table of commands.
pub mod laws;
mod layout;
mod misfit;
mod numbers;
mod plans;
mod program;
mod reading;
mod table;
mod values;

pub use fault::PlanFault;
pub use layout::Layout;
pub use plans::{Plan, ProveRequest, Reports, RunRequest, Why};
pub use reading::plan;
