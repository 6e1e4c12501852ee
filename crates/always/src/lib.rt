//! Always: what holds of every run of a machine: of one in a set of states that no event leaves, and of code that a set of capabilities
//! encloses.
#![tactic(auto)]

pub mod laws;
mod set;

pub use set::StateSet;
