//! A capability that comes from C, and one that goes there.

ghost use Rattle.std.specs.Prelude.{◌≡◌};
ghost use Rattle.word_cap.specs.WordCap.{word_value};
ghost use Rattle.c_types.specs.Words.{capability_of};

use crate::halves::{halves_of, word_of};
use crate::types::{CheriCap, CheriWord};
use cap_bounds::CapRep;
use word_cap::WordCap;

/// The capability that C passed.
#[inline(always)]
pub fn inside(cap: CheriCap) -> WordCap
    ensures { word_value result ≡ capability_of cap }
{
    let word = CheriWord {
        address: cap.address,
        upper: cap.upper,
    };
    WordCap::from_word(word_of(word), cap.tag)
}

/// The capability as C takes it.
#[inline(always)]
pub fn outside<C: CapRep>(cap: C) -> CheriCap
    ensures { capability_of result ≡ C.value cap }
{
    let word = halves_of(cap.word());
    CheriCap {
        address: word.address,
        upper: word.upper,
        tag: cap.tag(),
    }
}
