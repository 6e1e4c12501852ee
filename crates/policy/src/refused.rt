//! The first rule that applies and that a member breaks.
ghost use Rattle.std.specs.Prelude.{Contains, IfNone, IfSome};
ghost use Rattle.reached.specs.Links.{values};
ghost use Rattle.reach.specs.First.{HoldsOfNone};
ghost use Rattle.policy.specs.Terms.{Terms, terms_of};
ghost use Rattle.policy.specs.Rule.{BreaksRule};
ghost use Rattle.policy.specs.Watch.{Applies, IsFirstRefused};

use crate::about::applies;
use crate::breach::first_breach;
use crate::rule::{Ban, Rule};
use cap_bounds::CapRep;
use reach::Reach;

/// Why a run was refused its next event.
#[derive(Clone, Copy, Debug, PartialEq, Eq)]
pub struct Refused {
    /// The place of the rule that is broken.
    pub rule: usize,
    /// The number of the reachable capability that breaks it, as the reach of the state numbers them.
    pub member: usize,
    /// The part of the rule that it breaks.
    pub ban: Ban,
}

/// The first rule that applies to what is fetched at an address and that a member breaks, with the member and the part.
pub(crate) fn first_refused<C: CapRep>(
    reach: &Reach<C>,
    rules: &[Rule],
    at: Option<u64>,
) -> Option<Refused>
    ensures some { IfSome result (IsFirstRefused (terms_of rules.now) at (values C.value reach.now)) }
    ensures none { IfNone result ((rule : Terms) → Contains (terms_of rules.now) rule → Applies rule at
        → HoldsOfNone (BreaksRule rule) (values C.value reach.now)) }
{
    for (place, rule) in rules.iter().enumerate() {
        if !applies(rule, at) {
            continue;
        }
        if let Some((member, ban)) = first_breach(reach, rule) {
            return Some(Refused {
                rule: place,
                member,
                ban,
            });
        }
    }
    None
}
