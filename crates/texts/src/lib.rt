//! Texts: what lines are made of, and how they are written.
#![tactic(auto)]

mod appended;
mod hex;
mod piece;

pub use appended::{TextSink, append, fill, text};
pub use hex::{hex_digits, short_digits};
pub use piece::Piece;
