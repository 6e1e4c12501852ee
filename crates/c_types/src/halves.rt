//! Words and numbers in two halves.

ghost use Rattle.std.specs.Prelude.{◌≡◌, ◌+◌, ◌*◌, ◌^◌};
ghost use Rattle.c_types.specs.Halves.{joined};
ghost use Rattle.c_types.specs.Words.{bits};

use crate::types::CheriWord;
use cap_format::CapWord;

/// The number of its halves.
#[inline(always)]
pub fn number_of(high: u64, low: u64) -> u128
    ensures { result ≡ joined high low }
{
    u128::from(high) << 64 | u128::from(low)
}

/// The word of its halves.
#[inline(always)]
pub fn word_of(word: CheriWord) -> CapWord
    ensures { result ≡ bits word }
{
    CapWord::from_logical(number_of(word.upper, word.address))
}

/// The halves of a word.
#[inline(always)]
pub fn halves_of(word: CapWord) -> CheriWord
    ensures { bits result ≡ word }
{
    let bits = word.logical();
    CheriWord {
        address: (bits & 0xffff_ffff_ffff_ffff) as u64,
        upper: (bits >> 64) as u64,
    }
}
