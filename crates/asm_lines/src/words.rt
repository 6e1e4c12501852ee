//! The words of a line, and numbers between two.
ghost use Rattle.std.specs.Prelude.{◌≡◌, ◌≤◌, [], ◌∷◌, length, take, drop, IfSome, MatchOption};
ghost use Rattle.asm_lines.specs.Words.{number_between, read_number, words_of};

use crate::class::{Class, run_length};
use crate::operand::natural;

/// A text up to its byte number `end`.
fn before<'a>(text: &'a [u8], end: usize) -> &'a [u8]
    requires { end ≤ length text.now }
    ensures { result.now ≡ take end text.now }
{
    &text[..end]
}

/// A text from its byte number `start` on.
fn from<'a>(text: &'a [u8], start: usize) -> &'a [u8]
    requires { start ≤ length text.now }
    ensures { result.now ≡ drop start text.now }
{
    &text[start..]
}

/// The first word of a line and what follows it, or none where there is no word.
#[tactic(auto, using(crate::proofs::Cut::no_word))]
pub fn split_word<'a>(line: &'a [u8]) -> Option<(&'a [u8], &'a [u8])>
    ensures { MatchOption result (words_of line.now ≡ []) (λ p. words_of line.now ≡ p.0.now ∷ words_of p.1.now) }
{
    let text = from(line, run_length(line, Class::Blank));
    if text.is_empty() {
        return None;
    }
    let end = run_length(text, Class::Solid);
    Some((before(text, end), from(text, end)))
}

/// A number of `low` to `high`, both of them included.
pub fn number_between(text: &[u8], low: u64, high: u64) -> Option<u64>
    ensures value { result ≡ read_number (number_between low high text.now) }
    ensures bound { IfSome result (λ n. n ≤ high) }
{
    match natural(text, high) {
        Ok(number) if number >= low => Some(number),
        _ => None,
    }
}
