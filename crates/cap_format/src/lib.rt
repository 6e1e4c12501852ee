//! The 128-bit capability word: its fields and its form in memory.
#![tactic(auto)]

pub mod laws;
mod word;

pub use word::CapWord;
