//! Decodes words of the instruction table and encodes instructions, each the inverse of the other.
#![tactic(auto)]

mod capability_rows;
mod decoding;
mod encoding;
mod fields;
mod immediates;
mod integer_rows;
pub mod laws;
mod memory_rows;
mod opcodes;
mod system_rows;

pub use decoding::decode;
pub use encoding::encode;
