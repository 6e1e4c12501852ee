//! The canonical word of a record, and its window.

ghost use Rattle.std.specs.Prelude.{◌≡◌, ◌+◌, ◌*◌, ◌^◌, ◌<◌, ◌≤◌, ◌-◌};
ghost use Rattle.base.specs.Bits.{bit};
ghost use Rattle.cap_bounds.specs.Record.{has_exponent, exponent_for, alignment_for, is_in_window, encoded_b, encoded_t, encoded_at};
ghost use Rattle.cap_bounds.specs.Record.{encoded, record_with};

use crate::capability::Capability;
use crate::decode::power;
use cap_format::CapWord;

/// The least exponent at which a length below 2^65 has a mantissa of 13 bits.
pub(crate) fn exponent(length: u128) -> u32
    requires { length < 2 ^ 65 }
    ensures value { result ≡ exponent_for length }
    ensures range { result ≤ 52 }
{
    let mut e = 0;
    while e < 52 && length >= power(e + 13) {
        e += 1;
    }
    e
}

/// What the bounds of a capability of this length are multiples of.
#[tactic(auto, unfolding(crate::specs::Record::alignment_for, crate::specs::Record::has_exponent))]
pub(crate) fn alignment(length: u128) -> u128
    requires { length < 2 ^ 65 }
    ensures value { result ≡ alignment_for length }
    ensures positive { 1 ≤ result }
{
    if length < 4096 {
        1
    } else {
        power(exponent(length) + 3)
    }
}

/// Whether an address lies in the window of a base at an exponent.
#[tactic(auto, unfolding(crate::specs::Record::is_in_window))]
pub(crate) fn in_window(e: u32, base: u64, address: u64) -> bool
    requires { e ≤ 52 }
    ensures { result ≡ is_in_window e base address }
{
    if e >= 50 {
        return true;
    }
    let step = power(e + 11);
    let rounded = u128::from(base) / step * step;
    (u128::from(address) + power(64) + step - rounded) % power(64) < 8 * step
}

/// Whether a capability's bounds stay with this address.
pub(crate) fn window_holds(c: Capability, address: u64) -> bool
    ensures { result ≡ is_in_window (exponent_for (c.top - c.base)) c.base address }
{
    in_window(exponent(c.top - u128::from(c.base)), c.base, address)
}

/// The base's mantissa as it stands in the word.
fn b_field(base: u64, e: u32, ie: bool) -> u128
    requires { e ≤ 52 }
    ensures value { result ≡ encoded_b base e ie }
    ensures range { result < 2 ^ 14 }
{
    let mantissa = u128::from(base) / power(e) % 16384;
    if ie {
        mantissa / 8 * 8 + u128::from(e % 8)
    } else {
        mantissa
    }
}

/// The top's mantissa as it stands in the word.
fn t_field(top: u128, e: u32, ie: bool) -> u128
    requires { e ≤ 52 }
    ensures value { result ≡ encoded_t top e ie }
    ensures range { result < 2 ^ 12 }
{
    let mantissa = top / power(e) % 4096;
    if ie {
        mantissa / 8 * 8 + u128::from(e / 8)
    } else {
        mantissa
    }
}

/// Permissions, flag and object type as they stand in the word.
pub(crate) fn fields(perms: u16, flag: bool, otype: u32) -> u128
    requires { otype < 2 ^ 18 }
    ensures value { result ≡ perms * 2 ^ 112 + bit flag * 2 ^ 109 + otype * 2 ^ 91 }
    ensures range { result < 2 ^ 128 - 2 ^ 111 }
{
    (u128::from(perms) << 112) + (u128::from(flag) << 109) + (u128::from(otype) << 91)
}

/// The mantissas of these bounds at an exponent, internal or not, as they stand in the word.
pub(crate) fn bounds(base: u64, top: u128, e: u32, ie: bool) -> u128
    requires { e ≤ 52 }
    ensures value { result ≡ bit ie * 2 ^ 90 + encoded_t top e ie * 2 ^ 78 + encoded_b base e ie * 2 ^ 64 }
    ensures range { result ≤ 2 ^ 91 - 2 ^ 64 }
{
    (u128::from(ie) << 90) + (t_field(top, e, ie) << 78) + (b_field(base, e, ie) << 64)
}

/// The canonical word of a capability.
#[tactic(auto, unfolding(crate::specs::Record::encoded, crate::specs::Record::encoded_at, crate::specs::Record::has_exponent))]
pub(crate) fn word(c: Capability) -> CapWord
    ensures { result ≡ encoded (record_with c.base c.top c.address c.perms c.flag c.otype) }
{
    let length = c.top - u128::from(c.base);
    let bounds = bounds(c.base, c.top, exponent(length), length >= 4096);
    CapWord::from_logical(fields(c.perms, c.flag, c.otype) + bounds + u128::from(c.address))
}
