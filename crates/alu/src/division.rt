//! Signed division as the manual has it: total, with its own answers for a zero divisor and an overflow.

ghost use Rattle.std.specs.Prelude.{◌≡◌};
ghost use Rattle.alu.specs.Integer.{quotient, quotient_word, remainder, remainder_word};

use crate::readings::{bits_of, bits_of_word, low, low_signed, widened};

/// The quotient of the signed readings.
#[tactic(auto, unfolding(crate::specs::Integer::quotient))]
pub(crate) fn quotient(a: u64, b: u64) -> u64
    ensures { result ≡ quotient a b }
{
    if b == 0 {
        u64::MAX
    } else if a == 1 << 63 && b == u64::MAX {
        a
    } else {
        bits_of(a.cast_signed() / b.cast_signed())
    }
}

/// The remainder of the signed readings.
#[tactic(auto, unfolding(crate::specs::Integer::remainder))]
pub(crate) fn remainder(a: u64, b: u64) -> u64
    ensures { result ≡ remainder a b }
{
    if b == 0 {
        a
    } else if a == 1 << 63 && b == u64::MAX {
        0
    } else {
        bits_of(a.cast_signed() % b.cast_signed())
    }
}

/// The quotient of the low 32 bits' signed readings.
#[tactic(auto, unfolding(crate::specs::Integer::quotient_word))]
pub(crate) fn quotient_word(a: u64, b: u64) -> u64
    ensures { result ≡ quotient_word a b }
{
    if low(b) == 0 {
        u64::MAX
    } else if low(a) == 1 << 31 && low(b) == u32::MAX {
        widened(low(a))
    } else {
        bits_of_word(low_signed(a) / low_signed(b))
    }
}

/// The remainder of the low 32 bits' signed readings.
#[tactic(auto, unfolding(crate::specs::Integer::remainder_word))]
pub(crate) fn remainder_word(a: u64, b: u64) -> u64
    ensures { result ≡ remainder_word a b }
{
    if low(b) == 0 {
        widened(low(a))
    } else if low(a) == 1 << 31 && low(b) == u32::MAX {
        0
    } else {
        bits_of_word(low_signed(a) % low_signed(b))
    }
}
