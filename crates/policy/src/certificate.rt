//! Certificates: what lies where a rule lets code load keeps the rule, so that a look at the registers shows whether it holds.
ghost use Rattle.std.specs.Prelude.{◌≡◌, ◌↔◌, ℕ, ◌<◌, ◌≤◌, true, false, length, slice_index_or, IsTrue};
ghost use Rattle.cap_bounds.specs.CapValue.{CapValue, is_tagged};
ghost use Rattle.tagged_memory.specs.Memory.{has_tag};
ghost use Rattle.registers.specs.Registers.{register};
ghost use Rattle.steps.specs.Applying.{meant};
ghost use Rattle.steps.specs.IsState.{IsState};
ghost use Rattle.steps.specs.State.{HoldsCapabilities};
ghost use Rattle.authority.specs.Reachable.{IsHeldAt};
ghost use Rattle.reach.specs.Ranges.{IsIn, IsInOne};
ghost use Rattle.policy.specs.Terms.{terms, terms_of};
ghost use Rattle.policy.specs.Rule.{BreaksRule};
ghost use Rattle.policy.specs.Watch.{Holds};
ghost use Rattle.policy.specs.Known.{IsCertified, RootsKeep, SpecialsKeep, KeepsCertificate, KeepsThose};
ghost use Rattle.steps.specs.declared.effect.Effect.TheVariants as effect;

use crate::breach::breaks_rule;
use crate::cover::holds;
use crate::rule::Rule;
use cap_bounds::CapRep;
use hart::Hart;
use reach::Range;
use steps::{Effect, StoreCapability};
use tagged_memory::Memory;

/// Whether a value keeps a rule: what has no tag does.
fn keeps<C: CapRep>(value: C, rule: &Rule) -> bool
    ensures { IsTrue result → is_tagged (C.value value) ≡ true → BreaksRule (terms rule.now) (C.value value) → ⊥ }
{
    !value.tag() || !breaks_rule(value, rule)
}

/// Whether what the granule at an address holds keeps it.
fn granule_keeps<C: CapRep>(memory: &Memory, address: u64, rule: &Rule) -> bool
    requires capabilities { HoldsCapabilities memory.now }
    requires tagged { has_tag memory.now address ≡ true }
    ensures { IsTrue result → (v : CapValue) → IsHeldAt memory.now address v → BreaksRule (terms rule.now) v → ⊥ }
{
    memory.is_sound();
    let (word, tag) = memory.load_cap(address);
    !breaks_rule(C::from_word(word, tag), rule)
}

/// Whether what the tagged granules hold keeps it that begin in a range.
fn range_keeps<C: CapRep>(memory: &Memory, range: &Range, rule: &Rule) -> bool
    requires { HoldsCapabilities memory.now }
    ensures { IsTrue result → (granule : ℕ) (v : CapValue) → IsIn range.now granule → IsHeldAt memory.now granule v
        → BreaksRule (terms rule.now) v → ⊥ }
{
    memory.is_sound();
    let end = range.to.min(u128::from(u64::MAX)) as u64;
    for address in memory.tagged(range.from, end) {
        if !granule_keeps::<C>(memory, address, rule) {
            return false;
        }
    }
    true
}

/// Whether a rule has its certificate over a memory.
fn certifies<C: CapRep>(memory: &Memory, rule: &Rule) -> bool
    requires { HoldsCapabilities memory.now }
    ensures { IsTrue result → IsCertified (terms rule.now) memory.now }
{
    for range in &rule.load {
        if !range_keeps::<C>(memory, range, rule) {
            return false;
        }
    }
    true
}

/// Whether the general registers keep a rule.
fn registers_keep<C: CapRep>(hart: &Hart<C>, rule: &Rule) -> bool
    ensures { IsTrue result → (n : ℕ) → n < 32 → is_tagged (register hart.now.registers n) ≡ true
        → BreaksRule (terms rule.now) (register hart.now.registers n) → ⊥ }
{
    for n in 0..32u8 {
        if !keeps(hart.reg(n), rule) {
            return false;
        }
    }
    true
}

/// Whether the general registers, PCC and DDC keep it.
fn roots_keep<C: CapRep>(hart: &Hart<C>, rule: &Rule) -> bool
    ensures { IsTrue result → RootsKeep (terms rule.now) hart.now }
{
    let scrs = hart.scrs();
    keeps(scrs.pcc(), rule) && keeps(scrs.ddc(), rule) && registers_keep(hart, rule)
}

/// Whether the special registers keep it, if it lets code use them.
fn specials_keep<C: CapRep>(hart: &Hart<C>, rule: &Rule) -> bool
    ensures { IsTrue result → SpecialsKeep (terms rule.now) hart.now }
{
    let scrs = hart.scrs();
    !rule.system
        || keeps(scrs.mtcc(), rule)
            && keeps(scrs.mtdc(), rule)
            && keeps(scrs.mscratchc(), rule)
            && keeps(scrs.mepcc(), rule)
}

/// Whether what code begins with keeps it: all those registers.
fn start_keeps<C: CapRep>(hart: &Hart<C>, rule: &Rule) -> bool
    ensures roots { IsTrue result → RootsKeep (terms rule.now) hart.now }
    ensures specials { IsTrue result → SpecialsKeep (terms rule.now) hart.now }
{
    roots_keep(hart, rule) && specials_keep(hart, rule)
}

/// Whether a rule has a certificate, perhaps already.
fn has_certificate<C: CapRep>(hart: &Hart<C>, rule: &Rule, certified: bool) -> bool
    ensures { (certified ≡ true → IsCertified (terms rule.now) hart.now.memory) → IsTrue result
        → IsCertified (terms rule.now) hart.now.memory }
{
    certified || certifies::<C>(hart.memory(), rule)
}

/// Whether a rule holds by a certificate, which it may have already.
pub(crate) fn is_certain<C: CapRep>(hart: &Hart<C>, rule: &Rule, certified: bool) -> bool
    ensures certified { (certified ≡ true → IsCertified (terms rule.now) hart.now.memory) → IsTrue result
        → IsCertified (terms rule.now) hart.now.memory }
    ensures holds { (certified ≡ true → IsCertified (terms rule.now) hart.now.memory) → IsTrue result → Holds (terms rule.now) hart.now }
{
    hart.is_state();
    start_keeps(hart, rule) && has_certificate(hart, rule, certified)
}

/// Whether a store of a capability keeps the certificate of a rule.
fn store_keeps<C: CapRep>(store: &StoreCapability<C>, rule: &Rule) -> bool
    ensures { IsTrue result → KeepsCertificate (meant C.value (effect.StoreCapability store.now)) (terms rule.now) }
{
    keeps(store.value, rule) || !holds(&rule.load, u128::from(store.address))
}

/// Takes the certificates that a store of a capability doesn't keep.
fn take_certificates<C: CapRep>(certified: &mut [bool], store: &StoreCapability<C>, rules: &[Rule])
    requires { length certified.old ≡ length rules.now }
    ensures { KeepsThose (terms_of rules.now) certified.old certified.new (meant C.value (effect.StoreCapability store.now)) }
{
    for (place, rule) in rules.iter().enumerate() {
        certified[place] = certified[place] && store_keeps(store, rule);
    }
}

/// Takes every certificate, where the rules changed.
pub(crate) fn take_all(certified: &mut [bool], changed: bool)
    ensures { (k : ℕ) → slice_index_or certified.new k false ≡ true
        → (changed ≡ false) × (slice_index_or certified.old k false ≡ true) }
{
    if changed {
        certified.fill(false);
    }
}

/// Takes the certificates that an effect doesn't keep.
pub(crate) fn keep_certificates<C: CapRep>(
    certified: &mut [bool],
    effect: &Effect<C>,
    rules: &[Rule],
)
    requires { length certified.old ≡ length rules.now }
    ensures { KeepsThose (terms_of rules.now) certified.old certified.new (meant C.value effect.now) }
{
    match effect {
        Effect::StoreCapability(store) => take_certificates(certified, store, rules),
        _ => (),
    }
}
