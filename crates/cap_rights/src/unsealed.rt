ghost use Rattle.std.specs.Prelude.{◌≡◌};
ghost use Rattle.cap_rights.specs.Opened as spec;

use base::otype;
use cap_bounds::CapRep;

/// The value unsealed, with its tag as it is: what becomes of a sentry that is jumped to, and of a pair that is invoked.
#[inline]
pub fn opened<C: CapRep>(c: C) -> C
    ensures { C.value result ≡ spec.opened (C.value c) }
{
    C::from_word(c.word().with_otype(otype::UNSEALED), c.tag())
}
