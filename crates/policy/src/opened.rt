//! What a reach opens that rules speak of.
ghost use Rattle.std.specs.Prelude.{◌≡◌, ◌||◌, IfOk, nat_lt};
ghost use Rattle.std.specs.List.{list_any};
ghost use Rattle.base.specs.declared.otype.TheConstants.{FIRST_RESERVED};
ghost use Rattle.devices.specs.Devices.{halt, timer_compare, transmit};
ghost use Rattle.reached.specs.Links.{values};
ghost use Rattle.reach.specs.declared.right.Right.TheVariants.{Seal, Unseal};
ghost use Rattle.cap_rights.specs.Opens.{opens_store, opens_system};
ghost use Rattle.policy.specs.Opened.{opens_types};

use base::otype;
use cap_bounds::CapRep;
use reach::{Range, Reach, Right};
use std::alloc::{AllocError, Global};

/// Whether a reach opens the transmit register.
pub fn may_send<C: CapRep>(reach: &Reach<C>) -> bool
    ensures { result ≡ list_any (opens_store transmit) (values C.value reach.now) }
{
    reach.may_send().is_some()
}

/// Whether it opens the halt register.
pub fn may_halt<C: CapRep>(reach: &Reach<C>) -> bool
    ensures { result ≡ list_any (opens_store halt) (values C.value reach.now) }
{
    reach.may_halt().is_some()
}

/// Whether it opens mtimecmp.
pub fn may_set_timer<C: CapRep>(reach: &Reach<C>) -> bool
    ensures { result ≡ list_any (opens_store timer_compare) (values C.value reach.now) }
{
    reach.may_set_timer().is_some()
}

/// Whether it opens the system registers.
pub fn may_use_system<C: CapRep>(reach: &Reach<C>) -> bool
    ensures { result ≡ list_any opens_system (values C.value reach.now) }
{
    reach.opens_system().is_some()
}

/// Whether some of these types is not reserved.
fn has_free(types: &[Range]) -> bool
    ensures { result ≡ list_any (λ r. nat_lt r.from FIRST_RESERVED) types.now }
{
    types
        .iter()
        .any(|range| range.from < u64::from(otype::FIRST_RESERVED))
}

/// Whether it opens object types that are not reserved, to seal or to unseal. `AllocError` is out of memory.
pub fn may_seal<C: CapRep>(alloc: Global, reach: &Reach<C>) -> Result<bool, AllocError>
    ensures { IfOk result (λ yes. yes ≡ (opens_types Seal (values C.value reach.now) || opens_types Unseal (values C.value reach.now))) }
{
    let seals = reach.ranges(alloc, Right::Seal)?;
    let unseals = reach.ranges(alloc, Right::Unseal)?;
    Ok(has_free(&seals) || has_free(&unseals))
}
