//! Objects on bounds: what setting them gives, what a length alone needs, what a capability's word means, and what a register holds.
#![tactic(auto)]

mod bounds;
mod length;
mod pair;
mod value;
mod word;

pub use bounds::bounds_object;
pub use length::length_object;
pub use value::put_value;
pub use word::word_object;
