//! Derivations that no other room has.

ghost use Rattle.std.specs.Prelude.{◌≡◌};
ghost use Rattle.cap_insns.specs.CapabilityRows as spec;

use cap_bounds::CapRep;

/// The value with the bounds of `length` bytes from its address, without the tag where rounding changes the request.
#[tactic(auto, unfolding(crate::specs::CapabilityRows::with_exact_bounds))]
pub(crate) fn with_exact_bounds<C: CapRep>(c: C, length: u64) -> C
    ensures { C.value result ≡ spec.with_exact_bounds (C.value c) length }
{
    let (bounded, exact) = c.set_bounds(length);
    if exact { bounded } else { bounded.clear_tag() }
}

/// What a subset is tested against: register 0 stands for the default data capability.
#[tactic(auto, unfolding(crate::specs::CapabilityRows::outer_of))]
pub(crate) fn outer<C: CapRep>(rs1: u8, cs1: C, ddc: C) -> C
    ensures { C.value result ≡ spec.outer_of rs1 (C.value cs1) (C.value ddc) }
{
    if rs1 == 0 { ddc } else { cs1 }
}
