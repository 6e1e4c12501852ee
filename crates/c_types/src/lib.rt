//! Capabilities and words as C passes them: structures of 64-bit halves, and what they stand for.
#![tactic(auto)]

mod cap;
mod halves;
mod types;

pub use cap::{inside, outside};
pub use halves::{halves_of, number_of, word_of};
pub use types::{CheriCap, CheriFields, CheriInsn, CheriNumber, CheriWord};
