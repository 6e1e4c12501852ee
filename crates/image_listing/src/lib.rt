//! The listing of an image, with the names of a table of symbols or without, and what a listing may begin with.
#![tactic(auto)]

mod header;
mod listing;

pub use header::write_header;
pub use listing::{list, list_named};
