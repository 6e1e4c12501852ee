//! Capabilities as 128-bit words: bounds are read off the word's mantissas each time that they are asked for.
#![tactic(auto)]

mod decoding;
mod mantissas;
mod rep;
mod rounding;
mod set_bounds;
mod well_formed;
mod window;
mod word_cap;
mod word_parts;

pub use decoding::parts;
pub use well_formed::is_well_formed;
pub use window::keeps_bounds;
pub use word_cap::WordCap;
pub use word_parts::Parts;
