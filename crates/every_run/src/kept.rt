//! What any code can't change.
ghost use Rattle.std.specs.Prelude.{ℕ, ◌+◌, ◌<◌, ◌≤◌, Contains, IsTrue, IsFalse};
ghost use Rattle.reached.specs.Links.{values};
ghost use Rattle.doors.specs.Sets.{IsWritableBy};
ghost use Rattle.cap_rights.specs.Rights.{OpensStore};
ghost use Rattle.every_run.specs.Handled.{IsKept};
ghost use Rattle.every_run.specs.Stands.{AreKnown, IsKnownData};

use crate::ranges::touches;
use cap_bounds::CapRep;
use cap_rights::{Permission, allows};
use hart::Hart;
use reach::Range;
use reached::Member;

/// Whether one of `size` bytes from an address may be stored through a capability.
fn may_store_some<C: CapRep>(c: C, address: u64, size: u64) -> bool
    ensures { IsFalse result → (a : ℕ) → address ≤ a → a < address + size → OpensStore (C.value c) a → ⊥ }
{
    let end = u128::from(address) + u128::from(size);
    allows(c, Permission::Store) && u128::from(c.base()) < end && u128::from(address) < c.top()
}

/// Whether a member may store one of `size` bytes from an address.
fn may_be_stored<C: CapRep>(members: &[Member<C>], address: u64, size: u64) -> bool
    ensures { IsFalse result → (a : ℕ) → address ≤ a → a < address + size
        → IsWritableBy (Contains (values C.value members.now)) a → ⊥ }
{
    for member in members {
        if may_store_some(member.cap, address, size) {
            return true;
        }
    }
    false
}

/// Whether so many bytes from an address are what they were before any code ran, whatever that is.
pub(crate) fn are_kept<C: CapRep>(
    members: &[Member<C>],
    any: &[Range],
    address: u64,
    size: u64,
) -> bool
    ensures { IsTrue result → AreKnown (IsKept (values C.value members.now) any.now) address size }
{
    !touches(any, address, size) && !may_be_stored(members, address, size)
}

/// Whether they are data in RAM, too.
pub(crate) fn is_kept_data<C: CapRep>(
    hart: &Hart<C>,
    members: &[Member<C>],
    any: &[Range],
    address: u64,
    size: u64,
) -> bool
    ensures { IsTrue result → IsKnownData (IsKept (values C.value members.now) any.now) hart.now.memory address size }
{
    hart.memory().is_in_ram(address, size) && are_kept(members, any, address, size)
}
