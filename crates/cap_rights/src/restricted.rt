ghost use Rattle.std.specs.Prelude.{◌≡◌};
ghost use Rattle.cap_rights.specs.Derivations as spec;

use crate::fields::{is_sealed, tagged_if, with_flag, with_perms};
use crate::perms::Perms;
use cap_bounds::CapRep;

/// The value with those of its permissions that the mask has too.
///
/// A sealed value answers the same fields without the tag.
#[inline]
#[tactic(auto, unfolding(crate::specs::Derivations::and_perms))]
pub fn and_perms<C: CapRep>(c: C, mask: Perms) -> C
    ensures { C.value result ≡ spec.and_perms (C.value c) mask.bits }
{
    tagged_if(!is_sealed(c), with_perms(c, c.perms() & mask.bits()))
}

/// The value with this flag.
///
/// A sealed value answers the same fields without the tag.
#[inline]
#[tactic(auto, unfolding(crate::specs::Derivations::set_flags))]
pub fn set_flags<C: CapRep>(c: C, flag: bool) -> C
    ensures { C.value result ≡ spec.set_flags (C.value c) flag }
{
    tagged_if(!is_sealed(c), with_flag(c, flag))
}
