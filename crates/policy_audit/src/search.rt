//! What is found in a reach that was not found before.
ghost use Rattle.std.specs.Prelude.{◌≡◌, ◌<◌, ◌++◌, [], List, All, IfOk, IsTrue, OnOk, length};
ghost use Rattle.std.specs.List.{flat_map};
ghost use Rattle.cap_bounds.specs.CapValue.{CapValue};
ghost use Rattle.reached.specs.Links.{values};
ghost use Rattle.policy.specs.Terms.{terms, terms_of};
ghost use Rattle.policy_audit.specs.Found.{are_found, found_from, found_of, found_part, parts};

use crate::finding::Finding;
use crate::part::{PARTS, applies, first_breaking, is_found};
use cap_bounds::CapRep;
use policy::{Ban, Rule};
use reached::Member;
use std::alloc::AllocError;

/// Adds what is found of a part of a rule.
#[tactic(auto, unfolding(crate::specs::Found::found_part))]
fn add_part<C: CapRep>(
    found: &mut Vec<Finding>,
    members: &[Member<C>],
    seen: &[Finding],
    place: usize,
    rule: &Rule,
    ban: Ban,
) -> Result<(), AllocError>
    ensures { OnOk result (found.new.items
        ≡ found.old.items ++ found_part seen.now (values C.value members.now) place (terms rule.now) ban) }
{
    if is_found(seen, place, ban) {
        return Ok(());
    }
    match first_breaking(members, rule, ban) {
        Some(member) => {
            found.push(Finding {
                rule: place,
                ban,
                member,
            })?;
            Ok(())
        }
        None => Ok(()),
    }
}

/// Adds what is found of the parts of a rule.
fn add_parts<C: CapRep>(
    found: &mut Vec<Finding>,
    members: &[Member<C>],
    seen: &[Finding],
    place: usize,
    rule: &Rule,
) -> Result<(), AllocError>
    ensures { OnOk result (found.new.items
        ≡ found.old.items ++ flat_map (found_part seen.now (values C.value members.now) place (terms rule.now)) parts) }
{
    for ban in PARTS {
        add_part(found, members, seen, place, rule, ban)?;
    }
    Ok(())
}

/// Adds what is found of a rule, if it applies to what is fetched at an address.
#[tactic(auto, unfolding(crate::specs::Found::found_of))]
fn add_rule<C: CapRep>(
    found: &mut Vec<Finding>,
    members: &[Member<C>],
    seen: &[Finding],
    at: Option<u64>,
    place: usize,
    rule: &Rule,
) -> Result<(), AllocError>
    ensures { OnOk result (found.new.items
        ≡ found.old.items ++ found_of seen.now (values C.value members.now) at place (terms rule.now)) }
{
    if applies(rule, at) {
        add_parts(found, members, seen, place, rule)
    } else {
        Ok(())
    }
}

/// Adds what is found of rules.
pub(crate) fn add_found<C: CapRep>(
    found: &mut Vec<Finding>,
    members: &[Member<C>],
    seen: &[Finding],
    at: Option<u64>,
    rules: &[Rule],
) -> Result<(), AllocError>
    ensures { OnOk result (found.new.items
        ≡ found.old.items ++ found_from seen.now (values C.value members.now) at 0 (terms_of rules.now)) }
{
    let mut place = 0;
    while place < rules.len() {
        add_rule(found, members, seen, at, place, &rules[place])?;
        place += 1;
    }
    Ok(())
}

/// Whether each part of a rule was found to be broken.
fn is_all_found(seen: &[Finding], place: usize) -> bool
    ensures { result ≡ are_found seen.now place parts }
{
    PARTS.iter().all(|ban| is_found(seen, place, *ban))
}

/// Whether each part was of each rule that applies to what is fetched at an address: then nothing is found, whatever is reachable.
pub(crate) fn finds_none(seen: &[Finding], at: Option<u64>, rules: &[Rule]) -> bool
    ensures { IsTrue result → (vs : List CapValue) → found_from seen.now vs at 0 (terms_of rules.now) ≡ [] }
{
    let mut place = 0;
    while place < rules.len() {
        if applies(&rules[place], at) && !is_all_found(seen, place) {
            return false;
        }
        place += 1;
    }
    true
}
