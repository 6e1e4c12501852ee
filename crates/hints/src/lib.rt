//! What the author of a faulty line of assembly probably meant, by tables of what is written otherwise elsewhere; and what a file is
//! that was taken for an image.
//!
//! A hint is a short line of printable ASCII, which a contract says; of its words none says anything. A line that is proposed is one
//! that the assembler reads, though its labels and its place may be at fault.
#![tactic(auto)]

// Appends pieces to a text: a line of the code for a line of the text.
macro_rules! append_pieces {
    ($text:expr, $($piece:tt)*) => { texts::append($text, &texts::pieces![$($piece)*]) };
}

// A hint of pieces.
macro_rules! hint_of {
    ($alloc:expr, $($piece:tt)*) => {{
        let mut hint = Vec::new($alloc);
        append_pieces!(&mut hint, $($piece)*)?;
        Ok(hint)
    }};
}

// The first hint of these that isn't empty.
macro_rules! first_known {
    ($alloc:expr; $($hint:expr;)*) => {{
        $(
            let hint = $hint?;
            if !hint.is_empty() {
                return Ok(hint);
            }
        )*
        Ok(Vec::new($alloc))
    }};
}

mod binary;
mod faulty;
mod files;
mod labels;
mod meant;
mod near;
mod numbers;
mod operands;
mod proposals;
mod shapes;
mod table;
mod unknown;

pub use files::{image_hint, is_elf};
pub use meant::hint;
