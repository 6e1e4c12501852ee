//! The search of words for the first that isn't 0.
ghost use Rattle.std.specs.Prelude.{◌≡◌, ◌+◌, ◌≤◌, ◌==◌, not, length};
ghost use Rattle.std.specs.Bool.{OnTrue};
ghost use Rattle.std.specs.List.{position_or_len};
ghost use Rattle.std.specs.Simd.Lanes.{chunk};

use std::simd::prelude::*;

/// The words that are searched at a time.
const LANES: usize = 8;

/// The index of the first word that isn't 0, or the length where there is none.
pub fn first_word(words: &[u64]) -> usize
    ensures { result ≡ position_or_len (λ word. not (word == 0)) words.now }
{
    let mut start = 0;
    while words.len() - start >= LANES && are_zero(words, start) {
        start += LANES;
    }
    start + first_of_few(&words[start..])
}

/// Whether the words of a block are all 0.
#[inline(always)]
fn are_zero(words: &[u64], start: usize) -> bool
    requires { start + LANES ≤ length words.now }
    ensures { OnTrue result (position_or_len (λ word. not (word == 0)) (chunk start LANES words.now) ≡ LANES) }
{
    u64x8::from_slice(&words[start..]).reduce_or() == 0
}

/// The index of the first word that isn't 0, or the length, one word at a time.
#[inline]
fn first_of_few(words: &[u64]) -> usize
    ensures { result ≡ position_or_len (λ word. not (word == 0)) words.now }
{
    let mut index = 0;
    while index < words.len() && words[index] == 0 {
        index += 1;
    }
    index
}
