//! Values in two forms beside each other: the records that are easy to believe, and the words that the program runs on.

ghost use Rattle.std.specs.Prelude.{◌≤◌};

use crate::words::Words;
use cap_bounds::{CapRep, PlainCap, is_well_formed};
use cap_format::CapWord;
use word_cap::{WordCap, parts};

/// A value in both forms.
#[derive(Clone, Copy)]
pub(crate) struct Both {
    pub record: PlainCap,
    pub word: WordCap,
}

/// The capability word that the next two words are: its high half and its address.
fn cap_word(words: &mut Words) -> CapWord {
    let high = words.hex();
    let address = words.hex();
    CapWord::from_logical(u128::from(high) << 64 | u128::from(address))
}

/// A word in both forms, tagged if it may be.
pub(crate) fn pair_of(word: CapWord, tag: bool) -> Both {
    let well_formed = is_well_formed(word);
    Both {
        record: PlainCap::from_word(word, tag && well_formed),
        word: WordCap::from_word(word, tag && well_formed),
    }
}

/// The value that the next three words are; what is tagged is to be well-formed.
pub(crate) fn pair(words: &mut Words) -> Both {
    let word = cap_word(words);
    let tag = words.bit();
    if tag && !is_well_formed(word) {
        words.refuse();
    }
    pair_of(word, tag)
}

/// What each call says of a value.
fn said<C: CapRep>(c: C) -> [u128; 8] {
    let word = c.word().logical();
    let tag = u128::from(c.tag());
    let base = u128::from(c.base());
    let address = u128::from(c.address());
    let perms = u128::from(c.perms());
    let flag = u128::from(c.flag());
    let otype = u128::from(c.otype());
    [word, tag, base, c.top(), address, perms, flag, otype]
}

/// Whether two values are one, call by call.
pub(crate) fn agree<A: CapRep, B: CapRep>(one: A, other: B) -> bool {
    said(one) == said(other)
}

/// Whether they still are with this address.
pub(crate) fn agree_at<A: CapRep, B: CapRep>(one: A, other: B, address: u64) -> bool {
    agree(one.set_address(address), other.set_address(address))
}

/// Whether they still are with the bounds of so many bytes.
pub(crate) fn agree_over<A: CapRep, B: CapRep>(one: A, other: B, length: u64) -> bool {
    let (one, one_exact) = one.set_bounds(length);
    let (other, other_exact) = other.set_bounds(length);
    agree(one, other) && one_exact == other_exact
}

/// Whether they still are with this address and with the one below it.
fn agree_around<A: CapRep, B: CapRep>(one: A, other: B, end: u64) -> bool {
    agree_at(one, other, end) && agree_at(one, other, end.wrapping_sub(1))
}

/// Whether they still are at the ends of the window and of the bounds, and beside them.
fn agree_at_ends<A: CapRep, B: CapRep>(one: A, other: B) -> bool {
    let e = u32::from(parts(other.word()).e.min(49));
    let step = 1u64 << e << 11;
    let base = other.base();
    let start = (base >> e >> 11 << e << 11).wrapping_sub(step);
    let past = start.wrapping_add(step << 3);
    let top = (other.top() & u128::from(u64::MAX)) as u64;
    agree_around(one, other, start)
        && agree_around(one, other, past)
        && agree_around(one, other, base)
        && agree_around(one, other, top)
}

/// Whether they still are with the bounds of so many bytes, of one fewer and of one more.
fn agree_over_around<A: CapRep, B: CapRep>(one: A, other: B, length: u64) -> bool {
    agree_over(one, other, length)
        && agree_over(one, other, length.wrapping_sub(1))
        && agree_over(one, other, length.wrapping_add(1))
}

/// Whether they still are over the lengths at which rounding changes: about 1023 and 512 granules of `2^(e+3)` bytes.
fn agree_over_limits<A: CapRep, B: CapRep>(one: A, other: B, e: u32) -> bool
    requires { e ≤ 50 }
{
    let granule = 8u64 << e;
    let most = granule.wrapping_mul(1023);
    agree_over_around(one, other, most)
        && agree_over_around(one, other, most.wrapping_sub(granule))
        && agree_over_around(one, other, most.wrapping_add(granule))
        && agree_over_around(one, other, granule << 9)
}

/// Whether two forms of a word agree in all of this.
fn forms_agree<A: CapRep, B: CapRep>(one: A, other: B, length: u64, e: u32) -> bool
    requires { e ≤ 50 }
{
    agree(one, other)
        && agree_at_ends(one, other)
        && agree_over(one, other, length)
        && agree_over_limits(one, other, e)
        && agree(one.clear_tag(), other.clear_tag())
}

/// A word's high half and its address, a length and an exponent, which counts as 50 at most: whether both forms of the word, tagged if it
/// may be, agree in every field, with the addresses at the ends of its window and its bounds, with bounds of that length and of those at
/// which rounding changes at the exponent, and without the tag.
pub(crate) fn drawn(words: &mut Words) -> bool {
    let c = pair_of(cap_word(words), true);
    let length = words.hex();
    let e = u32::from(words.small()).min(50);
    forms_agree(c.record, c.word, length, e)
}
