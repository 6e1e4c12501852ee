//! The text of a rule.
ghost use Rattle.std.specs.Prelude.{◌≡◌, [], drop, get_or};
ghost use Rattle.symbols.specs.Symbols.{lines_of};
ghost use Rattle.policy_text.specs.Policy.{line_text};

use crate::cut::uncommented;
use asm_lines::{trimmed_end, trimmed_start};
use symbols::split_line;

/// What is left of a text after so many lines.
fn rest_from(text: &[u8], lines: u64) -> &[u8]
    ensures { lines_of result.now ≡ drop lines (lines_of text.now) }
{
    let mut rest = text;
    let mut left = lines;
    while left > 0 && !rest.is_empty() {
        rest = split_line(rest).1;
        left -= 1;
    }
    rest
}

/// The first line of a text; of none an empty one.
fn first_line(text: &[u8]) -> &[u8]
    ensures { result.now ≡ get_or (lines_of text.now) 0 [] }
{
    if text.is_empty() {
        text
    } else {
        split_line(text).0
    }
}

/// A line of a text by its number, counted from 1, without its comment and without blanks at its ends; of none an empty one.
#[tactic(auto, unfolding(crate::specs::Policy::line_text))]
pub fn line_text(text: &[u8], number: u64) -> &[u8]
    ensures { result.now ≡ line_text text.now number }
{
    let line = first_line(rest_from(text, number.saturating_sub(1)));
    trimmed_end(trimmed_start(uncommented(line)))
}
