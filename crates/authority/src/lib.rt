//! Authority: what code can come to hold, and what it can change, without a trap, an unsealing or a sealed jump.
#![tactic(auto)]

pub mod laws;
pub mod worlds;
