//! The assembler: the image that a text means, or the first fault of its first faulty line.
#![tactic(auto)]

mod assembly;
mod at_fault;
mod blocks;
mod builder;
mod bytes;
mod capabilities;
mod checks;
mod fault;
mod further;
mod labels;
pub mod laws;
mod lines;
mod misplaced;
mod placed;
mod places;
mod reason;
mod standing;
mod values;

pub use assembly::{Assembly, assemble, assemble_or_stop};
pub use fault::{AsmCode, AsmFault};
pub use further::{FurtherFaults, further_faults};
pub use misplaced::Misplaced;
pub use placed::PlacedLine;
pub use reason::Reason;
pub use standing::{Standing, Stopped};
