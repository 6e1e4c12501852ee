//! The first member that breaks a rule.
ghost use Rattle.std.specs.Prelude.{◌≡◌, ◌↔◌, ◌⊎◌, not, ℕ, true, List, Contains, MatchOption, option_map, IfNone, IfSome, IsTrue};
ghost use Rattle.std.specs.List.{HoldsAt, list_any};
ghost use Rattle.reached.specs.Links.{values};
ghost use Rattle.reach.specs.First.{IsFirst, HoldsOfNone};
ghost use Rattle.policy.specs.Terms.{terms};
ghost use Rattle.policy.specs.Tests as spec;
ghost use Rattle.policy.specs.Rule.{OpensOutside, OpensDevice, KeepsOutside, EntersOutside, OpensSealing, IsSealedBeyond};
ghost use Rattle.policy.specs.Rule.{Breaks, IsFirstBan, BreaksRule};

use crate::cover::{covers, holds};
use crate::entries::{entry, is_enterable};
use crate::rule::{Ban, Rule};
use base::{otype, ram};
use cap_bounds::CapRep;
use cap_rights::{Permission, address_in_bounds, allows, opens_store, opens_system};
use devices::RECEIVE;
use reach::{CONTROL, HALT, Range, Reach, STATUS, TIMER, TIMER_COMPARE, TRANSMIT, stores_locals};

/// Whether it lets code use a byte of RAM that lies in none of the ranges.
fn opens_outside<C: CapRep>(c: C, permission: Permission, ranges: &[Range]) -> bool
    ensures { IsTrue result ↔ OpensOutside permission ranges.now (C.value c) }
{
    let from = c.base().max(ram::BASE);
    allows(c, permission) && !covers(ranges, u128::from(from), c.top())
}

/// Whether an address lies in none of the ranges.
fn is_left_out(ranges: &[Range], address: u64) -> bool
    ensures { result ≡ not (spec.is_in_one ranges.now address) }
{
    !holds(ranges, u128::from(address))
}

/// Whether an address lies in its bounds, and in none of the ranges.
fn has_outside<C: CapRep>(c: C, address: u64, ranges: &[Range]) -> bool
    ensures { result ≡ spec.has_outside ranges.now (C.value c) address }
{
    address_in_bounds(c, address) && is_left_out(ranges, address)
}

/// Whether where a device register begins lies in its bounds, and in none of the ranges.
fn has_device_outside<C: CapRep>(c: C, ranges: &[Range]) -> bool
    ensures { result ≡ list_any (spec.has_outside ranges.now (C.value c)) spec.registers }
{
    has_outside(c, HALT, ranges)
        || has_outside(c, TIMER, ranges)
        || has_outside(c, TRANSMIT, ranges)
        || has_outside(c, RECEIVE, ranges)
        || has_outside(c, STATUS, ranges)
        || has_outside(c, CONTROL, ranges)
        || has_outside(c, TIMER_COMPARE, ranges)
}

/// Whether it lets code use a device register that begins in none of the ranges, as a test.
fn is_device_open<C: CapRep>(c: C, permission: Permission, ranges: &[Range]) -> bool
    ensures { result ≡ spec.opens_device permission ranges.now (C.value c) }
{
    allows(c, permission) && has_device_outside(c, ranges)
}

/// Whether it lets code use a device register that begins in none of the ranges.
fn opens_device<C: CapRep>(c: C, permission: Permission, ranges: &[Range]) -> bool
    ensures { IsTrue result ↔ OpensDevice permission ranges.now (C.value c) }
{
    is_device_open(c, permission, ranges)
}

/// Whether it lets code use a byte of RAM or a device register that lies in none of the ranges.
fn uses_outside<C: CapRep>(c: C, permission: Permission, ranges: &[Range]) -> bool
    ensures { IsTrue result ↔ (OpensOutside permission ranges.now (C.value c) ⊎ OpensDevice permission ranges.now (C.value c)) }
{
    opens_outside(c, permission, ranges) || opens_device(c, permission, ranges)
}

/// Whether what is lent may be kept through it in a granule of RAM with a byte that lies in none of the ranges.
fn keeps_outside<C: CapRep>(c: C, ranges: &[Range]) -> bool
    ensures { IsTrue result ↔ KeepsOutside ranges.now (C.value c) }
{
    let from = (u128::from(c.base().max(ram::BASE)) + 15) / 16 * 16;
    let to = c.top() / 16 * 16;
    stores_locals(c) && !covers(ranges, from, to)
}

/// Whether a jump through its seal leads to an instruction that begins in none of these ranges, as a test.
fn leads_outside<C: CapRep>(c: C, enter: &[Range], execute: &[Range]) -> bool
    ensures { result ≡ spec.enters_outside enter.now execute.now (C.value c) }
{
    let entry = entry(c);
    is_enterable(c) && (is_left_out(enter, entry) && is_left_out(execute, entry))
}

/// Whether a jump through its seal leads to an instruction that begins in none of the ranges that may be entered and in none for fetches.
fn enters_outside<C: CapRep>(c: C, enter: &[Range], execute: &[Range]) -> bool
    ensures { IsTrue result ↔ EntersOutside enter.now execute.now (C.value c) }
{
    leads_outside(c, enter, execute)
}

/// Whether values may be sealed or unsealed through it.
fn opens_sealing<C: CapRep>(c: C) -> bool
    ensures { IsTrue result ↔ OpensSealing (C.value c) }
{
    let base = c.base();
    (allows(c, Permission::Seal) || allows(c, Permission::Unseal))
        && base < u64::from(otype::FIRST_RESERVED)
        && u128::from(base) < c.top()
}

/// Whether it is sealed with an object type that is not reserved and not one of these.
fn is_sealed_beyond<C: CapRep>(c: C, types: &[u64]) -> bool
    ensures { IsTrue result ↔ IsSealedBeyond types.now (C.value c) }
{
    c.otype() < otype::FIRST_RESERVED && !types.contains(&u64::from(c.otype()))
}

/// Whether it is so, where not any object type may be.
fn breaks_types<C: CapRep>(c: C, types: &Option<Vec<u64>>) -> bool
    ensures { IsTrue result ↔ MatchOption (option_map (λ types. types.items) types.now) ⊥ (λ types. IsSealedBeyond types (C.value c)) }
{
    match types {
        Some(types) => is_sealed_beyond(c, types),
        None => false,
    }
}

/// Whether a capability breaks a part of the rule.
pub fn breaks<C: CapRep>(c: C, rule: &Rule, ban: Ban) -> bool
    ensures { IsTrue result ↔ Breaks (terms rule.now) ban (C.value c) }
{
    match ban {
        Ban::Store => uses_outside(c, Permission::Store, &rule.store),
        Ban::Load => uses_outside(c, Permission::Load, &rule.load),
        Ban::Execute => opens_outside(c, Permission::Execute, &rule.execute),
        Ban::Keep => keeps_outside(c, &rule.keep),
        Ban::Enter => enters_outside(c, &rule.enter, &rule.execute),
        Ban::Transmit => !rule.transmit && opens_store(c, TRANSMIT),
        Ban::Halt => !rule.halt && opens_store(c, HALT),
        Ban::Timer => !rule.timer && opens_store(c, TIMER_COMPARE),
        Ban::System => !rule.system && opens_system(c),
        Ban::Seal => !rule.seal && opens_sealing(c),
        Ban::Types => breaks_types(c, &rule.types),
    }
}

/// The parts of a rule, in their order.
const BANS: [Ban; 11] = [
    Ban::Store,
    Ban::Load,
    Ban::Execute,
    Ban::Keep,
    Ban::Enter,
    Ban::Transmit,
    Ban::Halt,
    Ban::Timer,
    Ban::System,
    Ban::Seal,
    Ban::Types,
];

/// The first part of the rule that a capability breaks.
fn first_ban<C: CapRep>(c: C, rule: &Rule) -> Option<Ban>
    ensures some { IfSome result (IsFirstBan (terms rule.now) (C.value c)) }
    ensures none { IfNone result (BreaksRule (terms rule.now) (C.value c) → ⊥) }
{
    for ban in BANS {
        if breaks(c, rule, ban) {
            return Some(ban);
        }
    }
    None
}

/// Whether a capability breaks the rule.
pub(crate) fn breaks_rule<C: CapRep>(c: C, rule: &Rule) -> bool
    ensures { IsTrue result ↔ BreaksRule (terms rule.now) (C.value c) }
{
    first_ban(c, rule).is_some()
}

/// The first member that breaks the rule, and the first part of it that it breaks; `None` where no member breaks it.
pub fn first_breach<C: CapRep>(reach: &Reach<C>, rule: &Rule) -> Option<(usize, Ban)>
    ensures some { IfSome result (λ found. IsFirst (BreaksRule (terms rule.now)) (values C.value reach.now) found.0) }
    ensures ban { IfSome result (λ found. HoldsAt (λ v. IsFirstBan (terms rule.now) v found.1) (values C.value reach.now) found.0) }
    ensures none { IfNone result (HoldsOfNone (BreaksRule (terms rule.now)) (values C.value reach.now)) }
{
    for (place, member) in reach.members().iter().enumerate() {
        if let Some(ban) = first_ban(member.cap, rule) {
            return Some((place, ban));
        }
    }
    None
}
