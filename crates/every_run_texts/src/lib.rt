//! Whether every run keeps to a policy, as a text.
#![tactic(auto)]

mod place;
mod verdict_text;

pub use verdict_text::put_verdict;
