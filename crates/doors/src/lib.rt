//! Doors: what code can come to hold and change until the kernel runs, by sealed jumps too.
//!
//! A turn is a run without a trap or an unsealing. What is reachable through doors is what is reachable, and each door among it without
//! its seal: a sentry, the two of a pair that CInvoke accepts, and a sealed value with CInvoke to which code may seal a partner. It
//! bounds what a turn comes to and what code can learn in it; sealing gives nothing beyond it, because code seals only what it holds. A
//! search finds all of it, and no more, with the doors that lead there.
//!
//! Laws over any set of capabilities take it as a type that is a `CapSet`: an implementation says which values are members.
#![tactic(auto)]

pub mod laws;
pub mod lent;
mod opening;
mod set;
mod start;
mod through;
mod turn;
pub mod worlds;

pub use opening::opens;
pub use set::CapSet;
pub use start::{roots, specials};
pub use through::{Door, Through, closure_through_doors};
pub use turn::{Turn, run_turn};
