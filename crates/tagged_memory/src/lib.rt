//! RAM with a tag for each granule of 16 bytes.
#![tactic(auto)]

mod bytes;
mod fault;
pub mod laws;
mod memory;
mod place;
mod planes;
mod tagged;

pub use fault::MemoryFault;
pub use memory::Memory;
pub use tagged::Tagged;
