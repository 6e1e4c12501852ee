//! Which capabilities open what is loaded with its tag.
ghost use Rattle.std.specs.Prelude.{◌↔◌, IsTrue};
ghost use Rattle.reached.specs.Reached.{OpensCapabilities};

use cap_bounds::CapRep;
use cap_rights::{Permission, allows, permits};

/// Whether capabilities may be loaded through it.
pub fn opens_capabilities<C: CapRep>(c: C) -> bool
    ensures { IsTrue result ↔ OpensCapabilities (C.value c) }
{
    allows(c, Permission::Load) && permits(c, Permission::LoadCapability)
}
