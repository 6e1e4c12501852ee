//! Which key opens a sealed capability.
ghost use Rattle.std.specs.Prelude.{◌↔◌, IsTrue};
ghost use Rattle.doors.specs.Closed.{IsPair, IsOpenedBy};

use base::otype;
use cap_bounds::CapRep;
use cap_checks::check_invoke;
use cap_rights::{Permission, is_sealed, opens_type, permits};

/// Whether CInvoke accepts the two as code and data. The registers that hold them are named by a fault alone, so any two serve.
fn is_pair<C: CapRep>(code: C, datum: C) -> bool
    ensures { IsTrue result ↔ IsPair (C.value code) (C.value datum) }
{
    check_invoke(code, 0, datum, 0).is_ok()
}

/// Whether a sealed jump may open a capability for code that holds it and the key: any key a sentry, one of a pair the other, and a key
/// that seals with its type what has CInvoke.
pub fn opens<C: CapRep>(cap: C, key: C) -> bool
    ensures { IsTrue result ↔ IsOpenedBy (C.value cap) (C.value key) }
{
    cap.otype() == otype::SENTRY
        || is_pair(cap, key)
        || is_pair(key, cap)
        || (is_sealed(cap) && permits(cap, Permission::CInvoke) && opens_type(key, cap.otype()))
}
