//! Every run of an image, with any code in some ranges: whether each keeps to the rules of a policy.
//!
//! The image is opened, and its own code is done step by step, up to code that may be any. Each step looks at what is known alone: so it
//! is the same step in every run. Then all that this code can ever come to hold is found, through doors and through traps too; where
//! nothing of it breaks a rule, and none of it opens the system registers, seals or unseals, no run ever breaks one.
//!
//! Where a trap enters the image's own code, that is done from there to its end, once for all: what any code may have left in registers
//! and memory is unknown in it, and at its return any code gets nothing but what it could hold before.
#![tactic(auto)]

mod breach;
mod enclosure;
mod following;
mod handler;
mod kept;
pub mod laws;
mod marks;
mod members;
mod proving;
mod ranges;
mod step;
mod verdict;
mod walk;

pub use proving::prove;
pub use verdict::{Unshown, Verdict};
