//! Where a value came from: how each step makes what it writes of what places held before it, and the last event that wrote a place.
#![tactic(auto)]

mod holding;
pub mod laws;
mod making;
mod place;
mod rows;
mod search;
mod tag_question;
mod tags;
mod written;

pub use holding::{held, is_there};
pub use making::Making;
pub use place::Place;
pub use search::{Found, Search, Sought};
pub use tag_question::{TagCondition, TagQuestion};
pub use tags::tag_asked;
pub use written::step_made;
