//! Watchers: they tell which rule that applies refuses the next event, and remember what saves a search.
ghost use Rattle.std.specs.Prelude.{◌≡◌, ◌&&◌, not, if◌then◌else◌, ℕ, ◌<◌, ◌≤◌, ◌⊎◌, None, replicate, length, Contains};
ghost use Rattle.std.specs.Prelude.{IfNone, IfOk, IfSome, IsTrue, OnOk, OnErr};
ghost use Rattle.steps.specs.Applying.{IsPlanned};
ghost use Rattle.steps.specs.declared.event.Event.TheVariants.{Step};
ghost use Rattle.steps.specs.Event.{after, sent};
ghost use Rattle.steps.specs.State.{State};
ghost use Rattle.steps.specs.Steps.{GoesBy};
ghost use Rattle.machine.specs.Run.{run_after};
ghost use Rattle.policy.specs.Terms.{Terms, terms_of};
ghost use Rattle.policy.specs.Watch.{Applies, Holds, HoldEach, IsRefused, fetched_at};
ghost use Rattle.policy.specs.Lending.{in_force_after};
ghost use Rattle.policy.specs.Known.{Applied, AreCertified, IsWhole, Knows, Remembers, is_guarded, rules_of, said_to};
ghost use Rattle.policy.specs.declared.guard.Standing.TheVariants.{Guarded};

use crate::about::{applied, applies, fetched_at};
use crate::certificate::{is_certain, keep_certificates, take_all};
use crate::guard::{Standing, keep_spared, standing_at};
use crate::in_force::InForce;
use crate::plain::is_plain_step;
use crate::refused::{Refused, first_refused};
use crate::rule::Rule;
use cap_bounds::CapRep;
use hart::Hart;
use machine::{Event, Machine, Planned};
use reach::Reach;
use std::alloc::{AllocError, Global};

/// Watches a machine by rules: it tells before an event which rule that applies refuses it.
///
/// After each step it looks at the state that the machine came to. All that is reachable is searched only for a rule that is new: that did
/// not apply before the last event too, or may have been broken by it, and for which no certificate speaks. A certificate says that the
/// capabilities which lie where the rule lets code load all keep the rule; then a look at the registers is enough. The steps of the watched
/// code keep it, and a store that doesn't takes it away.
#[derive(Debug, Drop)]
pub struct Watcher<'r> {
    /// What it watches by.
    force: InForce<'r>,
    /// An address: the lasting rules that apply to what is fetched there hold.
    known: Option<u64>,
    /// Which rules have certificates.
    certified: Vec<bool>,
    /// What its last look found.
    standing: Standing,
}

/// Whether each rule that applies to what is fetched at an address applied at the known one too, or holds by a certificate. Marks the
/// certificates that it finds.
fn each_is_certain<C: CapRep>(
    hart: &Hart<C>,
    rules: &[Rule],
    at: Option<u64>,
    known: Option<u64>,
    certified: &mut [bool],
) -> bool
    requires { length certified.old ≡ length rules.now }
    ensures certified { AreCertified (terms_of rules.now) certified.old hart.now.memory
        → AreCertified (terms_of rules.now) certified.new hart.now.memory }
    ensures holds { AreCertified (terms_of rules.now) certified.old hart.now.memory → IsTrue result → (rule : Terms)
        → Contains (terms_of rules.now) rule → Applies rule at → Applied known rule ⊎ Holds rule hart.now }
{
    for (place, rule) in rules.iter().enumerate() {
        if !applies(rule, at) || applied(rule, known) {
            continue;
        }
        if !is_certain(hart, rule, certified[place]) {
            return false;
        }
        certified[place] = true;
    }
    true
}

/// What a step fetched from, where the rules before it are known to hold after it: it was plain, and none other is in force now.
fn known_at(at: Option<u64>, plain: bool, changed: bool) -> Option<u64>
    ensures { result ≡ (if plain && not changed then at else None) }
{
    if plain && !changed { at } else { None }
}

impl<'r> Watcher<'r> {
    /// A watcher by some rules that remembers nothing yet, so that it is true of every state. `AllocError` is out of memory, which
    /// comes only where there are rules.
    pub fn new(alloc: Global, rules: &'r [Rule]) -> Result<Self, AllocError>
        ensures said { IfOk result (λ w. said_to w ≡ terms_of rules.now) }
        ensures rules { IfOk result (λ w. rules_of w ≡ terms_of rules.now) }
        ensures remembers { IfOk result (λ w. (s : State) → Remembers w s) }
        ensures whole { IfOk result IsWhole }
        ensures room { OnErr result (1 ≤ length rules.now) }
    {
        let force = InForce::new(alloc, rules)?;
        let mut certified = Vec::new(alloc);
        certified.resize(rules.len(), false)?;
        Ok(Watcher {
            force,
            known: None,
            certified,
            standing: Standing::Open,
        })
    }

    /// Looks at the state that a machine came to: whether it is known without a search that each rule that applies holds, and whether one
    /// of them guards the code.
    pub fn look<C: CapRep>(&mut self, machine: &Machine<C>)
        requires whole { IsWhole self.old }
        ensures knows { Remembers self.old machine.now → Knows self.new machine.now }
        ensures rules { rules_of self.new ≡ rules_of self.old }
        ensures said { said_to self.new ≡ said_to self.old }
        ensures whole { IsWhole self.new }
    {
        let hart = machine.hart();
        let at = fetched_at(hart);
        let rules = self.force.rules();
        if !each_is_certain(hart, rules, at, self.known, &mut self.certified) {
            self.standing = Standing::Open;
            return;
        }
        self.standing = standing_at(rules, at);
        self.known = at;
    }

    /// Whether one does: then steps may go at once, as long as each is plain.
    pub fn is_guarded(&self) -> bool
        ensures { result ≡ is_guarded self.now.standing }
    {
        matches!(self.standing, Standing::Guarded)
    }

    /// Which rule refuses the next event, with the first reachable capability that breaks it and the part of the rule that it breaks;
    /// `None` where each rule that applies holds. `AllocError`: there is no memory for a search of what is reachable, which is made only
    /// where there are rules.
    pub fn refusal<C: CapRep>(
        &self,
        alloc: Global,
        machine: &Machine<C>,
    ) -> Result<Option<Refused>, AllocError>
        requires whole { IsWhole self.now }
        ensures refused { IfOk result (λ r. IfSome r (λ x. IsRefused (rules_of self.now) x machine.now)) }
        ensures holds { Knows self.now machine.now → IfOk result (λ r. IfNone r (HoldEach (rules_of self.now) machine.now)) }
        ensures room { OnErr result (1 ≤ length (said_to self.now)) }
    {
        match self.standing {
            Standing::Open => {}
            Standing::Certain | Standing::Guarded => return Ok(None),
        }
        let rules = self.force.rules();
        if rules.is_empty() {
            return Ok(None);
        }
        let hart = machine.hart();
        let reach = Reach::of(alloc, hart)?;
        Ok(first_refused(&reach, rules, fetched_at(hart)))
    }

    /// Notes the next step, which was planned and before which each rule that applies holds: what is in force after it, and what stays
    /// known. A look follows the step. `AllocError`: there is no memory for what the caller of a rule's code can reach, which is asked only
    /// where there are rules.
    pub fn note<C: CapRep>(
        &mut self,
        alloc: Global,
        machine: &Machine<C>,
        planned: &Planned<C>,
    ) -> Result<(), AllocError>
        requires planned { IsPlanned C.value planned.now.effect machine.now }
        requires whole { IsWhole self.old }
        ensures rules { OnOk result (rules_of self.new ≡ in_force_after (said_to self.old) (rules_of self.old) Step machine.now) }
        ensures remembers { Remembers self.old machine.now → HoldEach (rules_of self.old) machine.now
            → OnOk result (Remembers self.new (after Step machine.now)) }
        ensures room { OnErr result (1 ≤ length (said_to self.old)) }
        ensures said { said_to self.new ≡ said_to self.old }
        ensures whole { IsWhole self.new }
    {
        let at = fetched_at(machine.hart());
        let changed = self.force.pass(alloc, machine, Event::Step)?;
        take_all(&mut self.certified, changed);
        keep_certificates(&mut self.certified, &planned.effect, self.force.rules());
        self.known = known_at(at, is_plain_step(machine, planned), changed);
        Ok(())
    }

    /// Looks at the state that a machine came to by steps at once, each of them plain, while a rule guarded the code.
    pub fn passed<C: CapRep>(&mut self, machine: &Machine<C>)
        requires whole { IsWhole self.old }
        ensures knows { (s : State) (n : ℕ) → Knows self.old s → self.old.standing ≡ Guarded → machine.now ≡ run_after (replicate n Step) s
            → ((k : ℕ) → k < n → GoesBy None (run_after (replicate k Step) s)) → Knows self.new machine.now }
        ensures rules { rules_of self.new ≡ rules_of self.old }
        ensures said { said_to self.new ≡ said_to self.old }
        ensures whole { IsWhole self.new }
    {
        keep_spared(&mut self.certified, self.force.rules(), self.known);
        self.look(machine);
    }

    /// Meets an event, before which each rule that applies holds, and answers the byte that is sent. `AllocError`: there is no memory
    /// for what the caller of a rule's code can reach, which is asked only where there are rules; then nothing is changed.
    pub fn meet<C: CapRep>(
        &mut self,
        alloc: Global,
        machine: &mut Machine<C>,
        event: Event,
    ) -> Result<Option<u8>, AllocError>
        requires whole { IsWhole self.old }
        requires knows { Knows self.old machine.old }
        requires holds { HoldEach (rules_of self.old) machine.old }
        ensures state { OnOk result (machine.new ≡ after event machine.old) }
        ensures byte { IfOk result (λ byte. byte ≡ sent event machine.old) }
        ensures rules { OnOk result (rules_of self.new ≡ in_force_after (said_to self.old) (rules_of self.old) event machine.old) }
        ensures same { OnErr result (machine.new ≡ machine.old) }
        ensures room { OnErr result (1 ≤ length (said_to self.old)) }
        ensures said { said_to self.new ≡ said_to self.old }
        ensures whole { IsWhole self.new }
        ensures knows { OnOk result (Knows self.new machine.new) }
    {
        match event {
            Event::Step => {
                let planned = machine.next();
                self.note(alloc, machine, &planned)?;
                let out = machine.apply(planned);
                self.look(machine);
                Ok(out.byte)
            }
            Event::Tick | Event::Byte(_) => {
                let out = machine.event(event);
                // The rules go on holding, also where a search found that they do.
                self.standing = Standing::Certain;
                Ok(out.byte)
            }
        }
    }
}
