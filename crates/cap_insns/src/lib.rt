//! The rows over capabilities that touch neither memory nor special registers and do not jump: what each of them gives.
#![tactic(auto)]

mod derived;
mod numbers;
mod rows;

pub use numbers::{alignment_mask, integer, representable_length};
pub use rows::cap_op;
