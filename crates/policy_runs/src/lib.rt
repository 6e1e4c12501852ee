//! Rules in a run of a program on its schedule: the first step before which one of them is broken.
#![tactic(auto)]

mod breach;
mod keeper;

pub use breach::{Breach, find_breach};
