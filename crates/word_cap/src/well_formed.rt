//! Whether a word may be tagged, from its fields alone.

ghost use Rattle.std.specs.Prelude.{◌≡◌, ◌+◌, ◌*◌, ◌%◌, ◌^◌, ◌<◌, ◌↔◌, IsTrue, nat_eq, nat_le};
ghost use Rattle.base.specs.Bits.{field};
ghost use Rattle.cap_format.specs.Word.{t_field_of, b_field_of};
ghost use Rattle.cap_bounds.specs.Mantissa.{exponent_of};
ghost use Rattle.cap_bounds.specs.Record.{IsWordWellFormed};

use crate::decoding::base_at;
use crate::mantissas::mantissas_of;
use cap_format::CapWord;

/// Whether the two reserved bits of a word are clear.
#[inline(always)]
fn reserved_are_clear(word: CapWord) -> bool
    ensures value { result ≡ nat_eq (field word 110 2) 0 }
    ensures range { word < 2 ^ 128 }
{
    word.logical() >> 110 & 3 == 0
}

/// Whether so many bytes past a base end in the address space.
#[inline(always)]
fn ends_in_space(base: u64, length: u64) -> bool
    ensures { result ≡ nat_le (base + length) (2 ^ 64) }
{
    u128::from(base) + u128::from(length) <= 1 << 64
}

/// What the six bits of an internal exponent say: 0 to 63.
#[inline(always)]
fn written_exponent(word: CapWord) -> u16
    ensures { result ≡ t_field_of word % 8 * 8 + b_field_of word % 8 }
{
    (word.t_field() & 7) << 3 | word.b_field() & 7
}

/// Whether a word of exponent 51 or 52 may be tagged: its six bits say no more than 52, and its mantissas end in the address space.
///
/// There its base and its top are the mantissas themselves, which no address moves. Its own function, since hardly a word needs it.
#[inline(never)]
fn wide_is_well_formed(word: CapWord) -> bool
    requires exponent { 50 < exponent_of word }
    requires range { word < 2 ^ 128 }
    requires reserved { field word 110 2 ≡ 0 }
    ensures { IsTrue result ↔ IsWordWellFormed word }
{
    if written_exponent(word) > 52 {
        return false;
    }
    let mantissas = mantissas_of(word);
    (mantissas.base + mantissas.length) << mantissas.exponent - 51 <= 8192
}

/// Whether a word may be tagged: its bounds are a capability's, and it is the canonical encoding of what it decodes to.
///
/// Up to an exponent of 50 the mantissas give bounds that are encoded by the very same fields: the base in its window, and a length
/// that takes just the exponent. What is left to ask is that the reserved bits are clear and that the top is in the address space.
pub fn is_well_formed(word: CapWord) -> bool
    ensures { IsTrue result ↔ IsWordWellFormed word }
{
    if !reserved_are_clear(word) {
        return false;
    }
    let mantissas = mantissas_of(word);
    if mantissas.exponent > 50 {
        return wide_is_well_formed(word);
    }
    let base = base_at(mantissas.exponent, mantissas.base, word.address());
    ends_in_space(base, mantissas.length << mantissas.exponent)
}
