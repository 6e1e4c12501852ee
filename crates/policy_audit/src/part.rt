//! Parts of rules: whether a capability breaks one, and whether it was found to be broken.
ghost use Rattle.std.specs.Prelude.{◌≡◌, ◌↔◌, ◌<◌, IfSome, length};
ghost use Rattle.policy.specs.Rule.{place_of};
ghost use Rattle.reached.specs.Links.{values};
ghost use Rattle.policy.specs.Terms.{terms};
ghost use Rattle.policy.specs.Tests as tests;
ghost use Rattle.policy_audit.specs.Found as spec;

use crate::finding::Finding;
use cap_bounds::CapRep;
use policy::{Ban, Rule};
use reached::Member;

/// The parts of a rule, in their order.
pub(crate) const PARTS: [Ban; 11] = [
    Ban::Store,
    Ban::Load,
    Ban::Execute,
    Ban::Keep,
    Ban::Enter,
    Ban::Transmit,
    Ban::Halt,
    Ban::Timer,
    Ban::System,
    Ban::Seal,
    Ban::Types,
];

/// The place of a part in that order.
fn place_of(ban: Ban) -> u8
    ensures { result ≡ place_of ban }
{
    match ban {
        Ban::Store => 0,
        Ban::Load => 1,
        Ban::Execute => 2,
        Ban::Keep => 3,
        Ban::Enter => 4,
        Ban::Transmit => 5,
        Ban::Halt => 6,
        Ban::Timer => 7,
        Ban::System => 8,
        Ban::Seal => 9,
        Ban::Types => 10,
    }
}

/// Whether a part of a rule was found to be broken.
pub(crate) fn is_found(seen: &[Finding], rule: usize, ban: Ban) -> bool
    ensures { result ≡ spec.is_found seen.now rule ban }
{
    seen.iter().any(|finding| finding.rule == rule && place_of(finding.ban) == place_of(ban))
}

/// Whether a rule applies to what is fetched at an address, if anything is.
pub(crate) fn applies(rule: &Rule, at: Option<u64>) -> bool
    ensures { result ≡ tests.applies (terms rule.now) at }
{
    policy::applies(rule, at)
}

/// Whether a capability breaks a part of the rule.
fn breaks<C: CapRep>(cap: C, rule: &Rule, ban: Ban) -> bool
    ensures { result ≡ tests.breaks (terms rule.now) ban (C.value cap) }
{
    policy::breaks(cap, rule, ban)
}

/// The first member that breaks a part of the rule.
pub(crate) fn first_breaking<C: CapRep>(
    members: &[Member<C>],
    rule: &Rule,
    ban: Ban,
) -> Option<usize>
    ensures first { result ≡ spec.first_from (tests.breaks (terms rule.now) ban) 0 (values C.value members.now) }
    ensures inside { IfSome result (λ k. k < length members.now) }
{
    let mut number = 0;
    while number < members.len() {
        if breaks(members[number].cap, rule, ban) {
            return Some(number);
        }
        number += 1;
    }
    None
}
