//! The steps that derivations are made of: one field replaced, and the tag kept or lost.

ghost use Rattle.std.specs.Prelude.{◌≡◌, ◌<◌};
ghost use Rattle.cap_bounds.specs.CapValue.{is_sealed};
ghost use Rattle.cap_rights.specs.Opened.{with_type};
ghost use Rattle.cap_rights.specs.Derivations.{tagged_if, with_perms, with_flag, address_in_bounds};

use crate::otype::OType;
use cap_bounds::CapRep;

/// The value, or its bits without the tag where it may not be had.
#[inline]
pub(crate) fn tagged_if<C: CapRep>(may: bool, c: C) -> C
    ensures { C.value result ≡ tagged_if may (C.value c) }
{
    if may { c } else { c.clear_tag() }
}

/// The value with this type, and its tag as it is.
#[inline]
pub(crate) fn with_type<C: CapRep>(c: C, otype: OType) -> C
    ensures { C.value result ≡ with_type (C.value c) otype }
{
    C::from_word(c.word().with_otype(otype.number()), c.tag())
}

/// The value with these permissions, and its tag as it is.
#[inline]
pub(crate) fn with_perms<C: CapRep>(c: C, perms: u16) -> C
    ensures { C.value result ≡ with_perms (C.value c) perms }
{
    C::from_word(c.word().with_perms(perms), c.tag())
}

/// The value with this flag, and its tag as it is.
#[inline]
pub(crate) fn with_flag<C: CapRep>(c: C, flag: bool) -> C
    ensures { C.value result ≡ with_flag (C.value c) flag }
{
    C::from_word(c.word().with_flag(flag), c.tag())
}

/// Whether a value, tagged or not, has another type than what is unsealed.
#[inline]
pub fn is_sealed<C: CapRep>(c: C) -> bool
    ensures { result ≡ is_sealed (C.value c) }
{
    c.otype() != OType::UNSEALED.number()
}

/// Whether an address is one of the value's bounds.
#[inline]
pub fn address_in_bounds<C: CapRep>(c: C, address: u64) -> bool
    ensures { result ≡ address_in_bounds (C.value c) address }
{
    c.base() <= address && u128::from(address) < c.top()
}
