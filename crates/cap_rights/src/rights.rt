ghost use Rattle.std.specs.Prelude.{IsTrue, ◌↔◌};
ghost use Rattle.cap_bounds.specs.CapValue.{is_tagged};
ghost use Rattle.cap_rights.specs.Rights.{IsInRightsOf};

use crate::compared::{equal_exact, subset};
use crate::fields::is_sealed;
use cap_bounds::CapRep;

/// Whether a capability is within the rights of another: of an unsealed one if its bounds and permissions lie within that one's, of a
/// sealed one if it is that one.
#[inline]
pub fn within_rights<C: CapRep>(c: C, outer: C) -> bool
    requires tagged { IsTrue (is_tagged (C.value c)) }
    requires outer_tagged { IsTrue (is_tagged (C.value outer)) }
    ensures { IsTrue result ↔ IsInRightsOf (C.value c) (C.value outer) }
{
    if is_sealed(outer) {
        equal_exact(c, outer)
    } else {
        subset(outer, c)
    }
}
