//! The exponent and the mantissas of any word, by shifts and masks.

ghost use Rattle.std.specs.Prelude.{◌≡◌, ◌+◌, ◌^◌, ◌<◌, ◌≤◌};
ghost use Rattle.cap_bounds.specs.Mantissa.{exponent_of, base_mantissa, length_mantissa};

use cap_format::CapWord;

/// What a word says of its bounds.
#[derive(Clone, Copy)]
pub(crate) struct Mantissas {
    /// E, at most 52.
    pub(crate) exponent: u32,
    /// B, 14 bits.
    pub(crate) base: u64,
    /// L, the length's mantissa, below `2^13`.
    pub(crate) length: u64,
}

/// The exponent and the mantissas of a word.
///
/// The two kinds of words are apart, so that all that follows is short for words without an exponent.
#[inline(always)]
#[tactic(auto, unfolding(cap_bounds::specs::Mantissa::exponent_of, cap_bounds::specs::Mantissa::base_mantissa))]
pub(crate) fn mantissas_of(word: CapWord) -> Mantissas
    ensures exponent { result.exponent ≡ exponent_of word }
    ensures base { result.base ≡ base_mantissa word }
    ensures length { result.length ≡ length_mantissa word }
    ensures exponent_range { result.exponent ≤ 52 }
    ensures base_range { result.base < 2 ^ 14 }
    ensures length_range { result.length < 2 ^ 13 }
{
    let b = u64::from(word.b_field());
    let t = u64::from(word.t_field());
    if word.ie() {
        let exponent = (t & 7) << 3 | b & 7;
        let base = b >> 3 << 3;
        Mantissas {
            exponent: exponent.min(52) as u32,
            base,
            length: ((t >> 3 << 3).wrapping_sub(base) & 0xfff) + 4096,
        }
    } else {
        Mantissas {
            exponent: 0,
            base: b,
            length: t.wrapping_sub(b) & 0xfff,
        }
    }
}
