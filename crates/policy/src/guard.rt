//! What keeps other rules out of the way of code that a rule guards.
ghost use Rattle.std.specs.Prelude.{◌≡◌, ℕ, ◌<◌, true, false, length, slice_index_or, Contains, IfSome, IsTrue};
ghost use Rattle.std.specs.List.{HoldsAt};
ghost use Rattle.steps.specs.State.{State};
ghost use Rattle.policy.specs.Terms.{Terms, terms, terms_of};
ghost use Rattle.policy.specs.Watch.{HoldEach, fetched_at};
ghost use Rattle.policy.specs.Known.{Applied, OutOfReach, Spares, Stands, StaysAway};

use crate::about::applied;
use crate::certificate::take_all;
use crate::cover::share_none;
use crate::rule::Rule;

/// What a watcher knows of a state without a search.
#[derive(Clone, Copy, Debug, PartialEq, Eq)]
pub(crate) enum Standing {
    /// Nothing: a rule that applies may be broken.
    Open,
    /// Each rule that applies holds.
    Certain,
    /// Each of them does, and one of them is a guard: as long as each step is plain, it keeps code from the other rules' code.
    Guarded,
}

/// A lasting rule that applies to what is fetched at an address.
fn guard_at<'r>(rules: &'r [Rule], at: Option<u64>) -> Option<&'r Rule>
    ensures there { IfSome result (λ rule. Contains (terms_of rules.now) (terms rule.now)) }
    ensures applied { IfSome result (λ rule. Applied at (terms rule.now)) }
{
    for rule in rules {
        if applied(rule, at) {
            return Some(rule);
        }
    }
    None
}

/// Whether a rule applies to what is fetched at an address too, and is lasting, or is about no code that may be fetched under the guard.
fn stays_away(rule: &Rule, at: Option<u64>, guard: &Rule) -> bool
    ensures { IsTrue result → StaysAway at (terms guard.now) (terms rule.now) }
{
    applied(rule, at) || share_none(&rule.code, &guard.execute)
}

/// Whether each rule is so.
fn each_stays_away(rules: &[Rule], at: Option<u64>, guard: &Rule) -> bool
    ensures { IsTrue result → (rule : Terms) → Contains (terms_of rules.now) rule → StaysAway at (terms guard.now) rule }
{
    for rule in rules {
        if !stays_away(rule, at, guard) {
            return false;
        }
    }
    true
}

/// Where a watcher stands, if each rule holds that applies to what is fetched at an address.
pub(crate) fn standing_at(rules: &[Rule], at: Option<u64>) -> Standing
    ensures { (s : State) → HoldEach (terms_of rules.now) s → at ≡ fetched_at s → Stands result (terms_of rules.now) at s }
{
    let Some(guard) = guard_at(rules, at) else {
        return Standing::Certain;
    };
    if each_stays_away(rules, at, guard) {
        Standing::Guarded
    } else {
        Standing::Certain
    }
}

/// Whether a rule applies to what is fetched at an address too, and is lasting, or lets code load nothing that may be stored to under the
/// guard.
fn is_out_of_reach(rule: &Rule, at: Option<u64>, guard: &Rule) -> bool
    ensures { IsTrue result → OutOfReach at (terms guard.now) (terms rule.now) }
{
    applied(rule, at) || share_none(&rule.load, &guard.store)
}

/// Takes the certificates of the rules that are not so.
fn keep_out_of_reach(certified: &mut [bool], rules: &[Rule], at: Option<u64>, guard: &Rule)
    requires { length certified.old ≡ length rules.now }
    ensures { (k : ℕ) → k < length (terms_of rules.now) → slice_index_or certified.new k false ≡ true
        → (slice_index_or certified.old k false ≡ true) × HoldsAt (OutOfReach at (terms guard.now)) (terms_of rules.now) k }
{
    for (place, rule) in rules.iter().enumerate() {
        certified[place] = certified[place] && is_out_of_reach(rule, at, guard);
    }
}

/// Takes the certificates that plain steps may break from an address on, where a rule guards the code.
pub(crate) fn keep_spared(certified: &mut [bool], rules: &[Rule], at: Option<u64>)
    requires { length certified.old ≡ length rules.now }
    ensures { Spares (terms_of rules.now) at certified.old certified.new }
{
    match guard_at(rules, at) {
        Some(guard) => keep_out_of_reach(certified, rules, at, guard),
        None => take_all(certified, true),
    }
}
