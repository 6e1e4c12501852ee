//! Whether an address leaves a word's bounds as they are.

ghost use Rattle.std.specs.Prelude.{◌≡◌, ◌↔◌, IsTrue};
ghost use Rattle.cap_format.specs.Word.{with_address_of};
ghost use Rattle.cap_bounds.specs.Record.{IsWordWellFormed};
ghost use Rattle.cap_bounds.specs.CapValue.{value_of};
ghost use Rattle.cap_bounds.specs.SetAddress.{KeepsBounds, at_address};

use crate::decoding::{base_at, window};
use crate::mantissas::mantissas_of;
use crate::word_cap::WordCap;
use base::otype;
use cap_format::CapWord;

/// Whether a word's bounds stay with this address in place of its own: where it lies in the window of the old one.
///
/// All addresses in the bounds do: those less than the length past the base. An address in the same 2048 bytes as the old one
/// does too, since it is in the same eighth of a window at every exponent. Only for another are windows compared: their numbers go
/// round at `2^(50 - e)`, and with an exponent of 50 or more there is one window.
#[inline(always)]
pub fn keeps_bounds(word: CapWord, address: u64) -> bool
    ensures { IsTrue result ↔ KeepsBounds word address }
{
    if (word.address() ^ address) < 2048 {
        return true;
    }
    let mantissas = mantissas_of(word);
    let (e, b) = (mantissas.exponent, mantissas.base);
    let past = address.wrapping_sub(base_at(e, b, word.address()));
    if past >> e < mantissas.length {
        return true;
    }
    (window(e, b, word.address()) ^ window(e, b, address)) << 14 << e == 0
}

/// Whether the word with this address in place of its own may be tagged: the value is an unsealed capability whose bounds stay.
#[inline(always)]
pub(crate) fn keeps_tag(c: WordCap, address: u64) -> bool
    ensures value { at_address (value_of c.word c.tag) address ≡ value_of (with_address_of c.word address) result }
    ensures well_formed { IsTrue result → IsWordWellFormed (with_address_of c.word address) }
{
    if !c.tag {
        return false;
    }
    if c.word.otype() != otype::UNSEALED {
        return false;
    }
    keeps_bounds(c.word, address)
}
