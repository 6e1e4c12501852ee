//! The arithmetic of capabilities for C: total functions that keep no state and take no memory.
#![tactic(auto)]

mod caps;
mod insns;
mod lengths;
mod words;
