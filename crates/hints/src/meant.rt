//! Hints.
ghost use Rattle.std.specs.Prelude.{◌≡◌, ◌≤◌, IfOk, IsTrue, length, vec_len};
ghost use Rattle.hints.specs.Printable.{are_printable};

use crate::binary::foreign;
use crate::faulty::Faulty;
use crate::labels::mislabelled;
use crate::operands::{misformed, out_of_range};
use crate::proposals::words;
use crate::table::{TOO_LONG, row_of};
use crate::unknown::unknown;
use asm_lines::{LineFault, parse_line};
use std::alloc::{AllocError, Global};

/// The most bytes of a hint. What a line has in it can make one longer, which then helps nobody.
const MOST_BYTES: usize = 200;

/// Whether all bytes are printable ASCII.
fn are_printable(text: &[u8]) -> bool
    ensures { result ≡ are_printable text.now }
{
    text.iter().all(|byte| *byte >= 32 && *byte < 127)
}

/// What is said of a line, by its first fault.
fn proposed(alloc: Global, text: &[u8], line: &[u8]) -> Result<Vec<u8>, AllocError> {
    let faulty = Faulty::new(line);
    match parse_line(line).fault {
        Some(LineFault::A1) => unknown(alloc, faulty),
        Some(LineFault::A2) => misformed(alloc, faulty),
        Some(LineFault::A3) => out_of_range(alloc, faulty),
        Some(LineFault::A8) => words(alloc, foreign(line)),
        Some(LineFault::A9) => words(alloc, row_of(TOO_LONG, faulty.word)),
        None => mislabelled(alloc, text, faulty),
    }
}

/// What the author of `line`, the first faulty line of `text`, probably meant: one line of printable ASCII, of at most 200 bytes and
/// without its line feed; nothing where that isn't known. `line` is without its line feed.
///
/// # Errors
///
/// Out of memory.
pub fn hint(alloc: Global, text: &[u8], line: &[u8]) -> Result<Vec<u8>, AllocError>
    ensures short { IfOk result (λ hint. vec_len hint ≤ 200) }
    ensures printable { IfOk result (λ hint. IsTrue (are_printable hint.items)) }
{
    let hint = proposed(alloc, text, line)?;
    if hint.len() <= MOST_BYTES && are_printable(&hint) {
        Ok(hint)
    } else {
        Ok(Vec::new(alloc))
    }
}
