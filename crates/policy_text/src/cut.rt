//! How a line is cut.
ghost use Rattle.std.specs.Prelude.{◌≡◌, option_map};
ghost use Rattle.policy_text.specs.Policy.{uncommented, cut_at, cut_at_dots};

use asm_lines::{Class, run_length};

/// A line up to its comment.
pub(crate) fn uncommented(line: &[u8]) -> &[u8]
    ensures { result.now ≡ uncommented line.now }
{
    &line[..run_length(line, Class::Not(b'#'))]
}

/// What stands before the first such byte and after it, if there is one.
pub(crate) fn cut_at(text: &[u8], byte: u8) -> Option<(&[u8], &[u8])>
    ensures { option_map (λ sides. (sides.0.now, sides.1.now)) result ≡ cut_at byte text.now }
{
    let end = run_length(text, Class::Not(byte));
    if end < text.len() {
        Some((&text[..end], &text[end + 1..]))
    } else {
        None
    }
}

/// What stands before the first two dots and after them, if there are two in a row.
pub(crate) fn cut_at_dots(text: &[u8]) -> Option<(&[u8], &[u8])>
    ensures { option_map (λ sides. (sides.0.now, sides.1.now)) result ≡ cut_at_dots text.now }
{
    let mut place = 0;
    while place + 1 < text.len() {
        if text[place] == b'.' && text[place + 1] == b'.' {
            return Some((&text[..place], &text[place + 2..]));
        }
        place += 1;
    }
    None
}
