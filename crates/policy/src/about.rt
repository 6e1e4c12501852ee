//! Whether rules are about the code at an address, and whether they apply to what is fetched.
ghost use Rattle.std.specs.Prelude.{◌≡◌, ◌↔◌, IsTrue};
ghost use Rattle.policy.specs.Terms.{terms};
ghost use Rattle.policy.specs.Watch.{Applies, IsAbout, fetched_at};
ghost use Rattle.policy.specs.Known.{Applied, IsLasting};

use crate::cover::holds;
use crate::rule::Rule;
use cap_bounds::CapRep;
use hart::Hart;

/// Whether a rule is about the code at an address.
pub(crate) fn is_about(rule: &Rule, pc: u64) -> bool
    ensures { IsTrue result ↔ IsAbout (terms rule.now) pc }
{
    holds(&rule.code, u128::from(pc))
}

/// The address that the next instruction can be fetched from, if it can: `None` where PCC fails a check of the fetch or RAM has no word
/// there, so that no code runs.
pub fn fetched_at<C: CapRep>(hart: &Hart<C>) -> Option<u64>
    ensures { result ≡ fetched_at hart.now }
{
    match hart.fetch() {
        Ok(_) => Some(hart.scrs().pcc().address()),
        Err(_) => None,
    }
}

/// Whether a rule applies to what is fetched at an address, if anything is.
pub fn applies(rule: &Rule, at: Option<u64>) -> bool
    ensures { IsTrue result ↔ Applies (terms rule.now) at }
{
    match at {
        Some(pc) => is_about(rule, pc),
        None => false,
    }
}

/// Whether a rule that holds goes on holding over plain events: not if new seals may break it.
pub(crate) fn is_lasting(rule: &Rule) -> bool
    ensures { IsTrue result ↔ IsLasting (terms rule.now) }
{
    !rule.seal || rule.types.is_none()
}

/// Whether it does, and applies to what was fetched at an address that is known.
pub(crate) fn applied(rule: &Rule, known: Option<u64>) -> bool
    ensures { IsTrue result ↔ Applied known (terms rule.now) }
{
    is_lasting(rule) && applies(rule, known)
}
