//! Whether what code can come to hold encloses it, and keeps the rules.
ghost use Rattle.std.specs.Prelude.{◌≡◌, ◌↔◌, ◌+◌, ◌<◌, ◌≤◌, ℕ, true, IfNone, IfOk, OnOk, IsTrue};
ghost use Rattle.tagged_memory.specs.Memory.{has_tag};
ghost use Rattle.reached.specs.Links.{values};
ghost use Rattle.reach.specs.Ranges.{IsIn};
ghost use Rattle.policy.specs.Terms.{terms_of};
ghost use Rattle.every_run.specs.Known.{IsOutside};
ghost use Rattle.every_run.specs.Lasting.{AlwaysHoldFrom};
ghost use Rattle.doors.specs.Roots.{roots_of};
ghost use Rattle.every_run.specs.Members.{AreHarmless, AreTagsKnown, HoldAll, KeepEach, MaySeal};
ghost use Rattle.every_run.specs.Opens.{IsHolds};

use crate::breach::check_breaches;
use crate::handler::handle;
use crate::laws::{enclosed_states_keep_rules, handled_traps_keep_rules};
use crate::members::{all_held, all_roots};
use crate::step::pc_of;
use crate::verdict::{Unshown, Verdict};
use cap_bounds::CapRep;
use cap_rights::{Permission, allows, opens_system};
use doors::roots;
use hart::Hart;
use policy::Rule;
use reach::Range;
use reached::Member;
use std::alloc::{AllocError, Global};
use tagged_memory::Memory;

/// Whether values may be sealed or unsealed through a capability, with any object type.
fn may_seal<C: CapRep>(c: C) -> bool
    ensures { IsTrue result ↔ MaySeal (C.value c) }
{
    (allows(c, Permission::Seal) || allows(c, Permission::Unseal)) && u128::from(c.base()) < c.top()
}

/// That no member opens the system registers, seals or unseals.
fn check_harmless<C: CapRep>(members: &[Member<C>]) -> Result<(), Unshown>
    ensures { OnOk result (AreHarmless (values C.value members.now)) }
{
    for member in members {
        let place = member.place;
        if opens_system(member.cap) {
            return Err(Unshown::OpensSystem { place });
        }
        if may_seal(member.cap) {
            return Err(Unshown::MaySeal { place });
        }
    }
    Ok(())
}

/// A tagged granule with a byte in a range.
fn tagged_in(memory: &Memory, range: &Range) -> Option<u64>
    ensures { IfNone result ((granule a : ℕ) → has_tag memory.now granule ≡ true → granule ≤ a → a < granule + 16
        → IsIn range.now a → ⊥) }
{
    memory.is_sound();
    let from = range.from.saturating_sub(15);
    let to = range.to.min(u128::from(u64::MAX)) as u64;
    memory.tagged(from, to).next()
}

/// That no granule with a byte in one of the ranges is tagged.
fn check_tags(memory: &Memory, any: &[Range]) -> Result<(), Unshown>
    ensures { OnOk result (AreTagsKnown (IsOutside any.now) memory.now) }
{
    for range in any {
        if let Some(address) = tagged_in(memory, range) {
            return Err(Unshown::TaggedCode { address });
        }
    }
    Ok(())
}

/// That the members enclose code whose bytes may be any in the ranges, and keep the rules.
fn check_members<C: CapRep>(
    memory: &Memory,
    any: &[Range],
    rules: &[Rule],
    members: &[Member<C>],
) -> Result<(), Unshown>
    ensures tags { OnOk result (AreTagsKnown (IsOutside any.now) memory.now) }
    ensures harmless { OnOk result (AreHarmless (values C.value members.now)) }
    ensures keep { OnOk result (KeepEach (terms_of rules.now) (values C.value members.now)) }
{
    check_tags(memory, any)?;
    check_harmless(members)?;
    check_breaches(members, rules)
}

/// The verdict where any code begins to run, after so many steps, and a trap leads to any code.
pub(crate) fn enclosed<C: CapRep>(
    alloc: Global,
    hart: &Hart<C>,
    any: &[Range],
    rules: &[Rule],
    steps: u64,
) -> Result<Verdict, AllocError>
    ensures { IfOk result (λ v. IsHolds v → AlwaysHoldFrom (IsOutside any.now) (terms_of rules.now) hart.now) }
{
    enclosed_states_keep_rules();
    hart.is_state();
    let begin = all_roots(alloc, hart)?;
    let Some(held) = all_held(alloc, hart, &begin)? else {
        return Ok(Verdict::Unshown(Unshown::ManyDoors));
    };
    let members = held.len();
    match check_members(hart.memory(), any, rules, &held) {
        Ok(()) => Ok(Verdict::Holds { steps, members }),
        Err(why) => Ok(Verdict::Unshown(why)),
    }
}

/// What the code of a trap comes to, where any code that the members bound is entered again: how many steps it takes.
fn guarded_by<C: CapRep>(
    hart: &mut Hart<C>,
    any: &[Range],
    rules: &[Rule],
    members: &[Member<C>],
    most: u64,
) -> Result<u64, Unshown>
    ensures { OnOk result (HoldAll (values C.value members.now) (roots_of hart.old) hart.old.memory
        → AlwaysHoldFrom (IsOutside any.now) (terms_of rules.now) hart.old) }
{
    handled_traps_keep_rules();
    hart.is_state();
    if hart.halted().is_some() {
        return Err(Unshown::Halted { pc: pc_of(hart) });
    }
    check_members(hart.memory(), any, rules, members)?;
    handle(hart, members, any, rules, most)
}

/// The verdict where any code begins to run, after so many steps, and a trap enters the image's own code: that is done for at most `most`
/// steps.
pub(crate) fn guarded<C: CapRep>(
    alloc: Global,
    hart: &mut Hart<C>,
    any: &[Range],
    rules: &[Rule],
    steps: u64,
    most: u64,
) -> Result<Verdict, AllocError>
    ensures { IfOk result (λ v. IsHolds v → AlwaysHoldFrom (IsOutside any.now) (terms_of rules.now) hart.old) }
{
    let begin = roots(alloc, hart)?;
    let Some(held) = all_held(alloc, hart, &begin)? else {
        return Ok(Verdict::Unshown(Unshown::ManyDoors));
    };
    let members = held.len();
    match guarded_by(hart, any, rules, &held, most) {
        Ok(more) => Ok(Verdict::Holds {
            steps: steps.saturating_add(more),
            members,
        }),
        Err(why) => Ok(Verdict::Unshown(why)),
    }
}
