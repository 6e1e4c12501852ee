//! What may be asked of a member.
ghost use Rattle.std.specs.Prelude.{◌≡◌, ◌↔◌, IsTrue};
ghost use Rattle.reach.specs.Opens.{Permits, Allows, OpensSome, StoresLocals, KeepsSome, OpensUnsealing};
ghost use Rattle.reach.specs.Opens.{IsSealedAs};
ghost use Rattle.reach.specs.Questions.{Answers, has_granule};

use crate::right::Right;
use cap_bounds::CapRep;
use cap_rights::{
    OType, Permission, address_in_bounds, allows as allows_permission, is_sealed, opens_system,
    opens_type, permits,
};

/// What is asked of a member.
#[derive(Clone, Copy)]
pub(crate) enum Question {
    /// Whether it opens one of so many bytes from an address to a right.
    Opens(Right, u64, u64),
    /// Whether what is lent without Global may be kept through it in a granule with one of so many bytes from an address.
    Keeps(u64, u64),
    /// Whether it opens the system registers.
    System,
    /// Whether values may be sealed with the type through it.
    Seals(OType),
    /// Whether values with the type may be unsealed through it.
    Unseals(OType),
    /// Whether it is sealed with the type.
    IsSealed(OType),
}

/// Whether a capability has the permissions of a right.
fn permits_right<C: CapRep>(c: C, right: Right) -> bool
    ensures { IsTrue result ↔ Permits right (C.value c) }
{
    match right {
        Right::Store => permits(c, Permission::Store),
        Right::Load => permits(c, Permission::Load),
        Right::Execute => permits(c, Permission::Execute),
        Right::Capabilities => {
            permits(c, Permission::Load) && permits(c, Permission::LoadCapability)
        }
        Right::Keep => {
            permits(c, Permission::Store)
                && permits(c, Permission::StoreCapability)
                && permits(c, Permission::StoreLocalCapability)
        }
        Right::Seal => permits(c, Permission::Seal),
        Right::Unseal => permits(c, Permission::Unseal),
    }
}

/// Whether a capability is unsealed and has the permissions of a right.
pub(crate) fn allows<C: CapRep>(c: C, right: Right) -> bool
    ensures { IsTrue result ↔ Allows right (C.value c) }
{
    !is_sealed(c) && permits_right(c, right)
}

/// Whether it opens one of the `length` bytes from an address to a right.
fn opens_some<C: CapRep>(c: C, right: Right, address: u64, length: u64) -> bool
    ensures { IsTrue result ↔ OpensSome right (C.value c) address length }
{
    let low = c.base().max(address);
    let high = c.top().min(u128::from(address) + u128::from(length));
    allows(c, right) && u128::from(low) < high
}

/// Whether capabilities without Global may be stored through it.
pub fn stores_locals<C: CapRep>(c: C) -> bool
    ensures { IsTrue result ↔ StoresLocals (C.value c) }
{
    allows_permission(c, Permission::Store)
        && permits(c, Permission::StoreCapability)
        && permits(c, Permission::StoreLocalCapability)
}

/// Whether a granule of 16 bytes with one of the `length` bytes from an address lies wholly in the bounds.
pub fn has_granule<C: CapRep>(c: C, address: u64, length: u64) -> bool
    ensures { result ≡ has_granule (C.value c) address length }
{
    let from = (u128::from(c.base()) + 15) / 16 * 16;
    let granule = from.max(u128::from(address / 16 * 16));
    let end = u128::from(address) + u128::from(length);
    length > 0 && (granule + 16 <= c.top() && granule < end)
}

/// Whether what is lent may be kept through it in a granule with one of the `length` bytes from an address.
fn keeps_some<C: CapRep>(c: C, address: u64, length: u64) -> bool
    ensures { IsTrue result ↔ KeepsSome (C.value c) address length }
{
    let fits = has_granule(c, address, length);
    stores_locals(c) && fits
}

/// Whether values with the type may be unsealed through it.
fn opens_unsealing<C: CapRep>(c: C, otype: OType) -> bool
    ensures { IsTrue result ↔ OpensUnsealing (C.value c) otype }
{
    allows_permission(c, Permission::Unseal) && address_in_bounds(c, u64::from(otype.number()))
}

/// Whether it is sealed with the type.
fn is_sealed_as<C: CapRep>(c: C, otype: OType) -> bool
    ensures { IsTrue result ↔ IsSealedAs (C.value c) otype }
{
    is_sealed(c) && c.otype() == otype.number()
}

/// The answer of a capability.
pub(crate) fn answers<C: CapRep>(c: C, question: &Question) -> bool
    ensures { IsTrue result ↔ Answers question.now (C.value c) }
{
    match *question {
        Question::Opens(right, address, length) => opens_some(c, right, address, length),
        Question::Keeps(address, length) => keeps_some(c, address, length),
        Question::System => opens_system(c),
        Question::Seals(otype) => opens_type(c, otype.number()),
        Question::Unseals(otype) => opens_unsealing(c, otype),
        Question::IsSealed(otype) => is_sealed_as(c, otype),
    }
}
