//! What code can reach, as texts.
#![tactic(auto)]

mod answer;
mod asked;
mod counts;
mod graph;
pub mod laws;
mod members;
mod object;
mod open_devices;
mod opened;
mod places;
mod summary;

pub use answer::{put_answer, put_held};
pub use asked::first_that;
pub use graph::put_graph;
pub use members::put_members;
pub use object::{put_member, put_objects};
pub use summary::put_summary;
