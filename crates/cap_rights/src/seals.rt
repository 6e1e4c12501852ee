ghost use Rattle.std.specs.Prelude.{◌≡◌};
ghost use Rattle.cap_rights.specs.Derivations as spec;

use crate::fields::{address_in_bounds, is_sealed, tagged_if, with_perms, with_type};
use crate::otype::OType;
use crate::permission::{Permission, permits};
use base::otype;
use cap_bounds::CapRep;

/// The greatest address that names a type to seal with.
const GREATEST_SEALING_TYPE: u64 = otype::FIRST_RESERVED as u64 - 1;

/// All permissions but Global.
const ALL_BUT_GLOBAL: u16 = 0xfffe;

/// Whether an authority may seal a value with the type that its address names.
#[inline]
#[tactic(auto, unfolding(crate::specs::Derivations::may_seal))]
fn may_seal<C: CapRep>(c: C, authority: C) -> bool
    ensures { result ≡ spec.may_seal (C.value c) (C.value authority) }
{
    c.tag()
        && authority.tag()
        && !is_sealed(c)
        && !is_sealed(authority)
        && permits(authority, Permission::Seal)
        && address_in_bounds(authority, authority.address())
        && authority.address() <= GREATEST_SEALING_TYPE
}

/// The value sealed with the type that the authority's address names by its low 18 bits.
///
/// It loses the tag unless both are tagged and unsealed, and the authority has Seal and its address is at most `0x3FFFB` and in
/// its bounds.
#[inline]
#[tactic(auto, unfolding(crate::specs::Derivations::seal))]
pub fn seal<C: CapRep>(c: C, authority: C) -> C
    ensures { C.value result ≡ spec.seal (C.value c) (C.value authority) }
{
    tagged_if(
        may_seal(c, authority),
        with_type(c, OType::named_by(authority.address())),
    )
}

/// Whether an authority may unseal a value.
#[inline]
#[tactic(auto, unfolding(crate::specs::Derivations::may_unseal))]
fn may_unseal<C: CapRep>(c: C, authority: C) -> bool
    ensures { result ≡ spec.may_unseal (C.value c) (C.value authority) }
{
    c.tag()
        && authority.tag()
        && u64::from(c.otype()) <= GREATEST_SEALING_TYPE
        && !is_sealed(authority)
        && permits(authority, Permission::Unseal)
        && address_in_bounds(authority, authority.address())
        && authority.address() == u64::from(c.otype())
}

/// The value's permissions, Global only if the authority has it too.
#[inline]
#[tactic(auto, unfolding(crate::specs::Derivations::unsealed_perms))]
fn unsealed_perms<C: CapRep>(c: C, authority: C) -> u16
    ensures { result ≡ spec.unsealed_perms (C.value c) (C.value authority) }
{
    if permits(authority, Permission::Global) {
        c.perms()
    } else {
        c.perms() & ALL_BUT_GLOBAL
    }
}

/// The value unsealed, with Global only if the authority has it too.
///
/// It loses the tag unless both are tagged, the value's type isn't reserved, and the authority is unsealed and has Unseal and its
/// address is in its bounds and the value's type.
#[inline]
#[tactic(auto, unfolding(crate::specs::Derivations::unseal))]
pub fn unseal<C: CapRep>(c: C, authority: C) -> C
    ensures { C.value result ≡ spec.unseal (C.value c) (C.value authority) }
{
    let opened = with_type(with_perms(c, unsealed_perms(c, authority)), OType::UNSEALED);
    tagged_if(may_unseal(c, authority), opened)
}

/// The value sealed as a sentry, an entry that a jump unseals.
///
/// It loses the tag unless it is tagged, unsealed and has Execute.
#[inline]
#[tactic(auto, unfolding(crate::specs::Derivations::seal_entry))]
pub fn seal_entry<C: CapRep>(c: C) -> C
    ensures { C.value result ≡ spec.seal_entry (C.value c) }
{
    let may = c.tag() && !is_sealed(c) && permits(c, Permission::Execute);
    tagged_if(may, with_type(c, OType::SENTRY))
}
