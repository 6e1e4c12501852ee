//! What a capability opens by itself (UCAM-CL-TR-987, capability permissions).

ghost use Rattle.std.specs.Prelude.{◌≡◌, ◌↔◌, IsTrue};
ghost use Rattle.cap_rights.specs.Opens.{allows, opens_store, opens_system};
ghost use Rattle.cap_rights.specs.Rights.{OpensStore, OpensSystem, OpensType};

use crate::fields::{address_in_bounds, is_sealed};
use crate::permission::{Permission, permits};
use cap_bounds::CapRep;

/// Whether a capability is unsealed and has a permission.
#[inline]
pub fn allows<C: CapRep>(c: C, permission: Permission) -> bool
    ensures { result ≡ allows permission (C.value c) }
{
    !is_sealed(c) && permits(c, permission)
}

/// Whether a byte may be stored at an address through it.
pub fn opens_store<C: CapRep>(c: C, address: u64) -> bool
    ensures test { result ≡ opens_store address (C.value c) }
    ensures opens { IsTrue result ↔ OpensStore (C.value c) address }
{
    allows(c, Permission::Store) && address_in_bounds(c, address)
}

/// Whether code that jumps there may use the system registers.
pub fn opens_system<C: CapRep>(c: C) -> bool
    ensures test { result ≡ opens_system (C.value c) }
    ensures opens { IsTrue result ↔ OpensSystem (C.value c) }
{
    allows(c, Permission::Execute) && permits(c, Permission::AccessSystemRegisters)
}

/// Whether values may be sealed with an object type through it.
pub fn opens_type<C: CapRep>(c: C, otype: u32) -> bool
    ensures { IsTrue result ↔ OpensType (C.value c) otype }
{
    allows(c, Permission::Seal) && address_in_bounds(c, u64::from(otype))
}
