//! The numbers that an operand can be.
ghost use Rattle.std.specs.Prelude.{◌≡◌};
ghost use Rattle.asm_lines.specs.Ranges as spec;

use asm_names::Slot;

/// The least and the greatest number that an operand can be.
#[derive(Clone, Copy)]
pub struct Range {
    pub least: i128,
    pub most: i128,
}

/// What all numbers lie between.
pub(crate) const EVERY_NUMBER: Range = Range {
    least: -0x8000_0000_0000_0000,
    most: 0xffff_ffff_ffff_ffff,
};

/// The signed numbers of 12 bits.
pub(crate) const SIGNED: Range = Range {
    least: -2048,
    most: 2047,
};

/// The most that bits 31 to 12 of an immediate hold, and the greatest numbers of a register and of a control and status register.
pub(crate) const MOST_UPPER: u64 = 0xf_ffff;

pub(crate) const MOST_REGISTER: u64 = 31;

pub(crate) const MOST_CSR: u64 = 4095;

pub(crate) const fn natural(most: u64) -> Range
    ensures { result ≡ spec.natural most }
{
    Range {
        least: 0,
        most: most as i128,
    }
}

/// The most that so many bits hold; a number has at most 64.
pub(crate) fn most_of(bits: u32) -> u64
    ensures { result ≡ spec.most_of bits }
{
    if bits < 64 { (1 << bits) - 1 } else { u64::MAX }
}

/// The range of a row's operand; of one that is no number, that of all numbers.
pub(crate) fn slot_range(slot: Slot) -> Range
    ensures { result ≡ spec.slot_range slot }
{
    match slot {
        Slot::Signed | Slot::Address(_) => SIGNED,
        Slot::Unsigned(bits) => natural(most_of(bits)),
        Slot::Upper => natural(MOST_UPPER),
        Slot::Small | Slot::Special => natural(MOST_REGISTER),
        Slot::Csr => natural(MOST_CSR),
        _ => EVERY_NUMBER,
    }
}
