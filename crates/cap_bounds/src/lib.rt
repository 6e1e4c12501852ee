//! Bounds: what a capability word means, and the capabilities that keep it.
#![tactic(auto)]

mod capability;
mod decode;
mod encode;
pub mod laws;
mod plain_cap;
mod rep;
mod rounding;
mod set_bounds;
mod window;
mod words;

pub use plain_cap::PlainCap;
pub use rep::CapRep;
pub use rounding::{granule, is_exact};
pub use window::Window;
pub use words::{is_well_formed, representable};
