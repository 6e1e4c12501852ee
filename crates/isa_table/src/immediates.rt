//! The immediates of a word's formats (unprivileged manual, Immediate Encoding Variants).

ghost use Rattle.std.specs.Prelude.{◌≡◌, ◌^◌, ◌<◌};
ghost use Rattle.isa_rows.specs.Insn.{sign_extended, immediate_at};
ghost use Rattle.isa_rows.specs.declared.formats.Format.TheVariants as format;

use crate::fields::field;

/// The 12 bits of the I form.
#[inline]
pub(crate) fn immediate(word: u32) -> u64
    ensures { result ≡ immediate_at format.Immediate word }
{
    sign_extended_12(field(word, 20, 12))
}

/// The 12 bits of the S form.
#[inline]
pub(crate) fn store_immediate(word: u32) -> u64
    ensures { result ≡ immediate_at format.Store word }
{
    sign_extended_12((field(word, 25, 7) << 5) + field(word, 7, 5))
}

/// The 13 bits of the B form, of which the lowest is 0.
#[inline]
pub(crate) fn branch_offset(word: u32) -> u64
    ensures { result ≡ immediate_at format.Branch word }
{
    let high = (field(word, 31, 1) << 12) + (field(word, 7, 1) << 11);
    let low = (field(word, 25, 6) << 5) + (field(word, 8, 4) << 1);
    sign_extended_13(high + low)
}

/// The 32 bits of the U form, of which the low 12 are 0.
#[inline]
pub(crate) fn upper_immediate(word: u32) -> u64
    ensures { result ≡ immediate_at format.Upper word }
{
    sign_extended_32(field(word, 12, 20) << 12)
}

/// The 21 bits of the J form, of which the lowest is 0.
#[inline]
pub(crate) fn jump_offset(word: u32) -> u64
    ensures { result ≡ immediate_at format.Jump word }
{
    let high = (field(word, 31, 1) << 20) + (field(word, 12, 8) << 12);
    let low = (field(word, 20, 1) << 11) + (field(word, 21, 10) << 1);
    sign_extended_21(high + low)
}

#[tactic(auto, unfolding(isa_rows::specs::Insn::sign_extended))]
#[inline]
fn sign_extended_12(n: u32) -> u64
    requires { n < 2 ^ 12 }
    ensures { result ≡ sign_extended 12 n }
{
    let n = u64::from(n);
    if n < 0x800 {
        n
    } else {
        n + 0xffff_ffff_ffff_f000
    }
}

#[tactic(auto, unfolding(isa_rows::specs::Insn::sign_extended))]
#[inline]
fn sign_extended_13(n: u32) -> u64
    requires { n < 2 ^ 13 }
    ensures { result ≡ sign_extended 13 n }
{
    let n = u64::from(n);
    if n < 0x1000 {
        n
    } else {
        n + 0xffff_ffff_ffff_e000
    }
}

#[tactic(auto, unfolding(isa_rows::specs::Insn::sign_extended))]
#[inline]
fn sign_extended_21(n: u32) -> u64
    requires { n < 2 ^ 21 }
    ensures { result ≡ sign_extended 21 n }
{
    let n = u64::from(n);
    if n < 0x10_0000 {
        n
    } else {
        n + 0xffff_ffff_ffe0_0000
    }
}

#[tactic(auto, unfolding(isa_rows::specs::Insn::sign_extended))]
#[inline]
fn sign_extended_32(n: u32) -> u64
    ensures { result ≡ sign_extended 32 n }
{
    let n = u64::from(n);
    if n < 0x8000_0000 {
        n
    } else {
        n + 0xffff_ffff_0000_0000
    }
}
