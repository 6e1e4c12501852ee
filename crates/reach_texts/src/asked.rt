//! What may be asked of the code that runs from here on.
ghost use Rattle.std.specs.Prelude.{◌≡◌, ◌+◌, ◌<◌, IfSome, length, max, min, nat_lt};
ghost use Rattle.cap_bounds.specs.CapValue.{value_base, value_top};
ghost use Rattle.reached.specs.Order.{seen_members};
ghost use Rattle.reach_texts.specs.Asked.{first_that, is_sealed_as, keeps, lets, may_seal_as, opens, stores_locals};

use cap_bounds::CapRep;
use cap_rights::{OType, Permission, address_in_bounds, allows, is_sealed, opens_system, permits};
use reach::{HALT, May, TIMER_COMPARE, TRANSMIT, has_granule};
use reached::Member;

/// Whether one of the `count` bytes from an address on lies in the bounds.
fn meets<C: CapRep>(cap: C, address: u64, count: u64) -> bool
    ensures { result ≡ nat_lt (max (value_base (C.value cap)) address) (min (value_top (C.value cap)) (address + count)) }
{
    let low = cap.base().max(address);
    let high = cap.top().min(u128::from(address) + u128::from(count));
    u128::from(low) < high
}

/// Whether a capability opens one of the `count` bytes from an address on to a permission.
fn opens<C: CapRep>(cap: C, permission: Permission, address: u64, count: u64) -> bool
    ensures { result ≡ opens permission address count (C.value cap) }
{
    allows(cap, permission) && meets(cap, address, count)
}

/// Whether capabilities without Global may be stored through a capability.
fn stores_locals<C: CapRep>(cap: C) -> bool
    ensures { result ≡ stores_locals (C.value cap) }
{
    allows(cap, Permission::Store)
        && (permits(cap, Permission::StoreCapability)
            && permits(cap, Permission::StoreLocalCapability))
}

/// Whether what is lent may be kept through a capability in a granule with one of the `count` bytes from an address on.
fn keeps<C: CapRep>(cap: C, address: u64, count: u64) -> bool
    ensures { result ≡ keeps address count (C.value cap) }
{
    stores_locals(cap) && has_granule(cap, address, count)
}

/// Whether a capability is sealed with a type.
fn is_sealed_as<C: CapRep>(cap: C, otype: u64) -> bool
    ensures { result ≡ is_sealed_as otype (C.value cap) }
{
    is_sealed(cap) && u64::from(cap.otype()) == otype
}

/// Whether values may be sealed with a type through a capability; of sentries code makes its own.
fn may_seal_as<C: CapRep>(cap: C, otype: u64) -> bool
    ensures { result ≡ may_seal_as otype (C.value cap) }
{
    if is_sealed(cap) {
        return false;
    }
    if otype == u64::from(OType::SENTRY.number()) {
        permits(cap, Permission::Execute)
    } else {
        permits(cap, Permission::Seal) && address_in_bounds(cap, otype)
    }
}

/// Whether a capability lets code do what is asked.
fn lets<C: CapRep>(cap: C, may: May) -> bool
    ensures { result ≡ lets may (C.value cap) }
{
    match may {
        May::Store { address, count } => opens(cap, Permission::Store, address, count),
        May::Load { address, count } => opens(cap, Permission::Load, address, count),
        May::Execute { address, count } => opens(cap, Permission::Execute, address, count),
        May::Learn { address, count } => {
            opens(cap, Permission::Load, address, count)
                || opens(cap, Permission::Execute, address, count)
        }
        May::Keep { address, count } => keeps(cap, address, count),
        May::Send => opens(cap, Permission::Store, TRANSMIT, 1),
        May::Halt => opens(cap, Permission::Store, HALT, 1),
        May::System => opens_system(cap),
        May::Timer => opens(cap, Permission::Store, TIMER_COMPARE, 1),
        May::Hold(otype) => is_sealed_as(cap, otype) || may_seal_as(cap, otype),
    }
}

/// The number of the first member that lets code do what is asked, or `None` where none does.
pub fn first_that<C: CapRep>(members: &[Member<C>], may: May) -> Option<usize>
    ensures first { result ≡ first_that may (seen_members C.value members.now) }
    ensures inside { IfSome result (λ k. k < length members.now) }
{
    members.iter().position(|member| lets(member.cap, may))
}
