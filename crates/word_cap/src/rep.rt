//! What a word and a tag stand for.

use crate::decoding::{bounds_hold, bounds_of};
use crate::rounding::encoding_of;
use crate::set_bounds::{may_bound, word_with};
use crate::window::keeps_tag;
use crate::word_cap::WordCap;
use cap_bounds::CapRep;
use cap_format::CapWord;

#[tactic(auto, using(crate::specs::ValueLaws::value_laws))]
impl CapRep for WordCap {
    ghost use Rattle.word_cap.specs.WordCap.{word_value, word_sound};

    ghost value = { word_value };

    #[inline(always)]
    fn from_word(word: CapWord, tag: bool) -> Self {
        WordCap {
            word: CapWord::from_logical(word.logical()),
            tag,
        }
    }

    #[inline(always)]
    fn word(self) -> CapWord {
        self.word
    }

    #[inline(always)]
    fn tag(self) -> bool {
        self.tag
    }

    #[inline(always)]
    fn address(self) -> u64 {
        self.word.address()
    }

    #[inline(always)]
    fn base(self) -> u64 {
        bounds_of(self.word).base
    }

    #[inline(always)]
    fn top(self) -> u128 {
        bounds_of(self.word).top
    }

    // a call, so that the checks that ask it stay small enough to be inlined themselves
    #[inline(never)]
    fn holds(self, address: u64, size: u64) -> bool {
        bounds_hold(self.word, address, size)
    }

    #[inline(always)]
    fn perms(self) -> u16 {
        self.word.perms()
    }

    #[inline(always)]
    fn flag(self) -> bool {
        self.word.flag()
    }

    #[inline(always)]
    fn otype(self) -> u32 {
        self.word.otype()
    }

    #[inline]
    fn set_address(self, address: u64) -> Self {
        WordCap {
            word: self.word.with_address(address),
            tag: keeps_tag(self, address),
        }
    }

    #[inline]
    fn set_bounds(self, length: u64) -> (Self, bool) {
        let encoding = encoding_of(self.word.address(), length);
        let set = WordCap {
            word: word_with(self.word, encoding),
            tag: may_bound(self, length),
        };
        (set, encoding.exact)
    }

    #[inline(always)]
    fn clear_tag(self) -> Self {
        WordCap {
            word: self.word,
            tag: false,
        }
    }

    ghost valid = { word_sound };
}
