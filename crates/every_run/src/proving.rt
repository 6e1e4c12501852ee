//! A policy that holds in every run.
ghost use Rattle.std.specs.Prelude.{IfNone, IfOk};
ghost use Rattle.policy.specs.Terms.{terms_of};
ghost use Rattle.always.specs.Kept.{LendsNothing};
ghost use Rattle.every_run.specs.Known.{IsOutside};
ghost use Rattle.every_run.specs.Lasting.{AlwaysHoldFrom};
ghost use Rattle.every_run.specs.Opens.{EveryRunKeepsTo, IsHolds};

use crate::enclosure::{enclosed, guarded};
use crate::handler::enters_own_code;
use crate::step::pc_of;
use crate::verdict::{Unshown, Verdict};
use crate::walk::walk;
use cap_bounds::CapRep;
use hart::Hart;
use policy::Rule;
use reach::Range;
use std::alloc::{AllocError, Global};

/// The place of the first rule that allows what the caller of its code could reach.
fn first_lending(rules: &[Rule]) -> Option<usize>
    ensures { IfNone result (LendsNothing (terms_of rules.now)) }
{
    for (place, rule) in rules.iter().enumerate() {
        if rule.or_caller {
            return Some(place);
        }
    }
    None
}

/// The verdict where any code begins to run, after so many steps: a trap leads to any code, or else to the image's own.
fn entered<C: CapRep>(
    alloc: Global,
    hart: &mut Hart<C>,
    any: &[Range],
    rules: &[Rule],
    steps: u64,
    most: u64,
) -> Result<Verdict, AllocError>
    ensures { IfOk result (λ v. IsHolds v → AlwaysHoldFrom (IsOutside any.now) (terms_of rules.now) hart.old) }
{
    let verdict = enclosed(alloc, hart, any, rules, steps)?;
    if verdict.holds() || !enters_own_code(hart, any) {
        return Ok(verdict);
    }
    guarded(alloc, hart, any, rules, steps, most)
}

/// Whether each run from a hart's state keeps to each rule, over any steps, ticks and bytes, whatever bytes lie in the ranges of any
/// code; so does each run of an image, where the hart is one that `Hart::new` opened. The image's own code is done for at most `most`
/// steps up to any code, and where a trap enters it for so many again; the hart is left there.
///
/// `Holds` is a theorem about the machine and this state. `Unshown` says why it was not shown, and no more.
///
/// `AllocError` is out of memory.
pub fn prove<C: CapRep>(
    alloc: Global,
    hart: &mut Hart<C>,
    any: &[Range],
    rules: &[Rule],
    most: u64,
) -> Result<Verdict, AllocError>
    ensures holds { IfOk result (λ v. IsHolds v → EveryRunKeepsTo (terms_of rules.now) any.now hart.old) }
{
    if let Some(rule) = first_lending(rules) {
        return Ok(Verdict::Unshown(Unshown::Lends { rule }));
    }
    if hart.halted().is_some() {
        return Ok(Verdict::Unshown(Unshown::Halted { pc: pc_of(hart) }));
    }
    match walk(hart, any, rules, most) {
        Ok(steps) => entered(alloc, hart, any, rules, steps, most),
        Err(why) => Ok(Verdict::Unshown(why)),
    }
}
