//! Setting the bounds of a word.

ghost use Rattle.std.specs.Prelude.{◌≡◌, ◌^◌, ◌<◌};
ghost use Rattle.cap_format.specs.Word.{address_of, flag_of, otype_of, perms_of};
ghost use Rattle.cap_bounds.specs.SetBounds.{may_bound};
ghost use Rattle.cap_bounds.specs.WordLaws.{joined};
ghost use Rattle.word_cap.specs.WordCap.{word_value};

use crate::decoding::bounds_hold;
use crate::rounding::Encoding;
use crate::word_cap::WordCap;
use base::otype;
use cap_format::CapWord;

/// Whether the value is an unsealed capability whose bounds hold the request.
#[inline(always)]
pub(crate) fn may_bound(c: WordCap, length: u64) -> bool
    ensures { result ≡ may_bound (word_value c) length }
{
    if !c.tag {
        return false;
    }
    if c.word.otype() != otype::UNSEALED {
        return false;
    }
    bounds_hold(c.word, c.word.address(), length)
}

/// The word with these bounds and its own permissions, flag, object type and address. Its reserved bits are cleared.
#[inline(always)]
#[tactic(auto, unfolding(cap_bounds::specs::WordLaws::joined))]
pub(crate) fn word_with(word: CapWord, bounds: Encoding) -> CapWord
    requires t { bounds.t < 2 ^ 12 }
    requires b { bounds.b < 2 ^ 14 }
    ensures fields { result ≡ joined (perms_of word) (flag_of word) (otype_of word) bounds.ie bounds.t bounds.b (address_of word) }
    ensures range { result < 2 ^ 128 }
{
    let fields = (u64::from(word.perms()) << 48)
        + (u64::from(word.flag()) << 45)
        + (u64::from(word.otype()) << 27);
    let bounds = (u64::from(bounds.ie) << 26) + (bounds.t << 14) + bounds.b;
    CapWord::from_logical((u128::from(fields + bounds) << 64) + u128::from(word.address()))
}
