//! What was read of the line that has an assembler's fault; and the lines of a text that place instructions.
#![tactic(auto)]

// Appends pieces to a text: a line of the code for a line of the text.
macro_rules! append_pieces {
    ($text:expr, $($piece:tt)*) => { texts::append($text, &texts::pieces![$($piece)*]) };
}

mod placing;
mod reading;
mod reasons;

pub use placing::source_lines;
pub use reading::{detail, line_at};
