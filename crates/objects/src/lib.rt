//! Objects: what is told for other programs, an object of JSON a line.
#![tactic(auto)]

mod item;
mod line;
mod place;

pub use item::Item;
pub use json::Writer;
pub use line::{begin, finish, object_line, put};
pub use place::put_place;
