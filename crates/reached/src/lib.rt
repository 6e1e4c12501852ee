//! The capabilities that code can come to hold from given roots, whatever it does, with where each was found and the chain that leads
//! there.
#![tactic(auto)]

mod granules;
mod member;
mod opens;
mod search;
mod span;
mod system;
mod way;

pub use member::{Member, Place};
pub use opens::opens_capabilities;
pub use search::closure;
pub use way::chain;
