//! The numbers that rows tell of capabilities.

ghost use Rattle.std.specs.Prelude.{◌≡◌};
ghost use Rattle.base.specs.Bits.{bit};
ghost use Rattle.cap_bounds.specs.CapValue as value;
ghost use Rattle.cap_rights.specs.Perms.{hardware_view};
ghost use Rattle.cap_insns.specs.CapabilityRows as spec;

use cap_bounds::{CapRep, granule};
use cap_format::CapWord;
use cap_rights::Perms;

/// An integer in a register: the null capability with that address.
#[inline]
pub fn integer<C: CapRep>(number: u64) -> C
    ensures { C.value result ≡ value.integer number }
{
    C::from_word(CapWord::NULL.with_address(number), false)
}

/// A truth value in a register: 1 or 0.
#[inline]
pub(crate) fn truth<C: CapRep>(is: bool) -> C
    ensures { C.value result ≡ value.integer (bit is) }
{
    integer(u64::from(is))
}

/// The permissions: hardware permissions at bits 0 to 11, user permissions at bits 15 to 18.
pub(crate) fn hardware_perms<C: CapRep>(c: C) -> u64
    ensures { result ≡ hardware_view (value.value_perms (C.value c)) }
{
    Perms { bits: c.perms() }.hardware()
}

/// The bytes from base to top, modulo `2^65` and at most `2^64 - 1`.
#[tactic(auto, unfolding(crate::specs::CapabilityRows::length_of))]
pub(crate) fn length<C: CapRep>(c: C) -> u64
    ensures { result ≡ spec.length_of (C.value c) }
{
    let bytes = (c.top() + (1 << 65) - u128::from(c.base())) % (1 << 65);
    u64::try_from(bytes).unwrap_or(u64::MAX)
}

/// A length rounded up to what a capability with an aligned base can have, modulo `2^64` (CRRL).
#[tactic(auto, unfolding(crate::specs::CapabilityRows::representable_length))]
pub fn representable_length(length: u64) -> u64
    ensures { result ≡ spec.representable_length length }
{
    let granule = granule(length);
    let granules = (u128::from(length) + granule - 1) / granule;
    (granules * granule % (1 << 64)) as u64
}

/// The mask that aligns a base for a capability of this length (CRAM).
#[tactic(auto, unfolding(crate::specs::CapabilityRows::alignment_mask))]
pub fn alignment_mask(length: u64) -> u64
    ensures { result ≡ spec.alignment_mask length }
{
    ((1 << 64) - granule(length)) as u64
}
