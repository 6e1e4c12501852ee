ghost use Rattle.std.specs.Prelude.{◌≡◌};
ghost use Rattle.cap_rights.specs.Permission as spec;

use cap_bounds::CapRep;

/// A hardware permission; its number is its bit in `perms()`.
#[derive(Clone, Copy, Debug, PartialEq, Eq)]
pub enum Permission {
    /// It may be stored anywhere that capabilities may be.
    Global = 0,
    /// Instructions may be fetched.
    Execute = 1,
    /// Data may be loaded.
    Load = 2,
    /// Data may be stored.
    Store = 3,
    /// A loaded capability keeps its tag.
    LoadCapability = 4,
    /// A capability may be stored.
    StoreCapability = 5,
    /// A capability that is not Global may be stored.
    StoreLocalCapability = 6,
    /// It seals with the types in its bounds.
    Seal = 7,
    /// It may be one of a pair that is invoked.
    CInvoke = 8,
    /// It unseals the types in its bounds.
    Unseal = 9,
    /// Code that it fetches may use system registers.
    AccessSystemRegisters = 10,
    /// No row asks for it.
    SetCid = 11,
}

/// Whether a capability's bits, tagged or not, have the permission.
#[inline]
#[tactic(auto, unfolding(crate::specs::Permission::permits))]
pub fn permits<C: CapRep>(c: C, permission: Permission) -> bool
    ensures { result ≡ spec.permits (C.value c) permission }
{
    (c.perms() >> permission as u32) & 1 == 1
}
