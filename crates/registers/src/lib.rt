//! The general registers, and the addresses that what they hold is known to allow.
#![tactic(auto)]

mod extent;
mod registers;

pub use extent::Extent;
pub use registers::Registers;
