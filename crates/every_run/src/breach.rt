//! Whether capabilities break rules.
ghost use Rattle.std.specs.Prelude.{IfNone, OnOk};
ghost use Rattle.reached.specs.Links.{values};
ghost use Rattle.reach.specs.First.{HoldsOfNone};
ghost use Rattle.policy.specs.Rule.{BreaksRule};
ghost use Rattle.policy.specs.Terms.{terms, terms_of};
ghost use Rattle.every_run.specs.Members.{KeepEach};

use crate::verdict::Unshown;
use cap_bounds::CapRep;
use policy::{Ban, Rule, breaks};
use reached::{Member, Place};

/// The parts of a rule, in their order.
const BANS: [Ban; 11] = [
    Ban::Store,
    Ban::Load,
    Ban::Execute,
    Ban::Keep,
    Ban::Enter,
    Ban::Transmit,
    Ban::Halt,
    Ban::Timer,
    Ban::System,
    Ban::Seal,
    Ban::Types,
];

/// The first part of the rule that a capability breaks.
fn first_ban<C: CapRep>(c: C, rule: &Rule) -> Option<Ban>
    ensures { IfNone result (BreaksRule (terms rule.now) (C.value c) → ⊥) }
{
    for ban in BANS {
        if breaks(c, rule, ban) {
            return Some(ban);
        }
    }
    None
}

/// The first member that breaks the rule, and the first part of it that it breaks.
fn first_breach<C: CapRep>(members: &[Member<C>], rule: &Rule) -> Option<(Place, Ban)>
    ensures { IfNone result (HoldsOfNone (BreaksRule (terms rule.now)) (values C.value members.now)) }
{
    for member in members {
        if let Some(ban) = first_ban(member.cap, rule) {
            return Some((member.place, ban));
        }
    }
    None
}

/// That no member breaks one of the rules.
pub(crate) fn check_breaches<C: CapRep>(
    members: &[Member<C>],
    rules: &[Rule],
) -> Result<(), Unshown>
    ensures { OnOk result (KeepEach (terms_of rules.now) (values C.value members.now)) }
{
    for (rule, terms) in rules.iter().enumerate() {
        if let Some((place, ban)) = first_breach(members, terms) {
            return Err(Unshown::Breaks { rule, ban, place });
        }
    }
    Ok(())
}
