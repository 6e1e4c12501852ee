//! Which rules are in force: as they are said, and where they allow what their caller could reach, with that.
ghost use Rattle.std.specs.Prelude.{◌≡◌, ◌≤◌, ◌++◌, false, true, length, option_map, IfNone, IfOk, IfSome, OnOk, OnErr};
ghost use Rattle.std.specs.Prelude.{if◌then◌else◌, ◌&&◌, ◌||◌};
ghost use Rattle.std.specs.List.{list_any};
ghost use Rattle.steps.specs.Applying.{meant};
ghost use Rattle.steps.specs.State.{pc_of};
ghost use Rattle.reached.specs.Links.{values};
ghost use Rattle.reach.specs.Ranges.{ranges_of};
ghost use Rattle.reach.specs.declared.right.Right.TheVariants as right;
ghost use Rattle.policy.specs.Terms.{terms, terms_of};
ghost use Rattle.policy.specs.Tests as spec;
ghost use Rattle.policy.specs.Opened.{entered_by, types_with};
ghost use Rattle.policy.specs.Lending.{door_of, each_after, in_force_after, is_call, lent, next_door, terms_after};
ghost use Rattle.steps.specs.declared.event.Event.TheVariants.{Step};
ghost use Rattle.policy.specs.Known.{IsPaired, forced_by, held_by, said_by};

use crate::about;
use crate::entries::entered_by;
use crate::opened::{may_halt, may_seal, may_send, may_set_timer, may_use_system};
use crate::rule::Rule;
use crate::types::types_of;
use cap_bounds::CapRep;
use machine::{Event, Machine};
use reach::{Range, Reach, Right};
use std::alloc::{AllocError, Global};
use steps::Effect;

// ---- calls

/// Where an effect jumps through a seal.
#[tactic(auto, unfolding(crate::specs::Lending::door_of))]
fn door_of<C: CapRep>(effect: &Effect<C>) -> Option<u64>
    ensures { result ≡ door_of (meant C.value effect.now) }
{
    match effect {
        Effect::Enter(enter) if enter.sealed => Some(enter.target),
        _ => None,
    }
}

/// Where the next step does.
#[tactic(auto, unfolding(crate::specs::Lending::next_door))]
fn next_door<C: CapRep>(machine: &Machine<C>) -> Option<u64>
    ensures { result ≡ next_door machine.now }
{
    if machine.halted().is_some() {
        return None;
    }
    let planned = machine.next();
    door_of(&planned.effect)
}

/// Whether a rule is about the code at an address.
fn is_about(rule: &Rule, pc: u64) -> bool
    ensures { result ≡ spec.is_about (terms rule.now) pc }
{
    about::is_about(rule, pc)
}

/// Whether a jump from an address calls the code of a rule.
fn is_call(rule: &Rule, pc: u64, door: Option<u64>) -> bool
    ensures { result ≡ is_call (terms rule.now) pc door }
{
    match door {
        Some(door) => is_about(rule, door) && !is_about(rule, pc),
        None => false,
    }
}

/// Whether it calls the code of one that allows what its caller could reach.
fn calls_one(rules: &[Rule], pc: u64, door: Option<u64>) -> bool
    ensures { result ≡ list_any (λ rule. rule.or_caller && is_call (terms rule) pc door) rules.now }
{
    rules
        .iter()
        .any(|rule| rule.or_caller && is_call(rule, pc, door))
}

/// Whether one of the rules allows what its caller could reach.
fn lends_some(rules: &[Rule]) -> bool
    ensures { result ≡ list_any (λ rule. rule.or_caller) rules.now }
{
    rules.iter().any(|rule| rule.or_caller)
}

// ---- rules

/// Ranges with those that a reach opens to a right.
fn with_open<C: CapRep>(
    alloc: Global,
    ranges: &[Range],
    reach: &Reach<C>,
    right: Right,
) -> Result<Vec<Range>, AllocError>
    ensures { IfOk result (λ all. all.items ≡ ranges.now ++ ranges_of right (values C.value reach.now)) }
{
    let open = reach.ranges(alloc, right)?;
    let mut all = copy_of(alloc, ranges)?;
    all.extend_from_slice(&open)?;
    Ok(all)
}

/// Ranges with where jumps through the seals of a reach lead.
fn with_entered<C: CapRep>(
    alloc: Global,
    ranges: &[Range],
    reach: &Reach<C>,
) -> Result<Vec<Range>, AllocError>
    ensures { IfOk result (λ all. all.items ≡ ranges.now ++ entered_by (values C.value reach.now)) }
{
    let entered = entered_by(alloc, reach.members())?;
    let mut all = copy_of(alloc, ranges)?;
    all.extend_from_slice(&entered)?;
    Ok(all)
}

/// Ranges once more.
fn copy_of(alloc: Global, ranges: &[Range]) -> Result<Vec<Range>, AllocError>
    ensures { IfOk result (λ copy. copy.items ≡ ranges.now) }
{
    Vec::from_slice(alloc, ranges)
}

/// Object types with others.
fn with_types(
    alloc: Global,
    types: &Option<Vec<u64>>,
    more: &[u64],
) -> Result<Option<Vec<u64>>, AllocError>
    ensures { IfOk result (λ all. option_map (λ types. types.items) all
        ≡ option_map (λ types. types ++ more.now) (option_map (λ types. types.items) types.now)) }
{
    match types {
        Some(types) => {
            let mut all = Vec::from_slice(alloc, types)?;
            all.extend_from_slice(more)?;
            Ok(Some(all))
        }
        None => Ok(None),
    }
}

/// Whether one of two is so.
fn either(a: bool, b: bool) -> bool
    ensures { result ≡ (a || b) }
{
    a || b
}

/// A rule with all that a reach opens.
#[tactic(auto, unfolding(crate::specs::Lending::lent))]
fn lent<C: CapRep>(alloc: Global, rule: &Rule, reach: &Reach<C>) -> Result<Rule, AllocError>
    ensures { IfOk result (λ r. terms r ≡ lent (terms rule.now) (values C.value reach.now)) }
{
    let types = types_of(alloc, reach.members())?;
    let seal = may_seal(alloc, reach)?;
    Ok(Rule {
        code: copy_of(alloc, &rule.code)?,
        store: with_open(alloc, &rule.store, reach, Right::Store)?,
        load: with_open(alloc, &rule.load, reach, Right::Load)?,
        execute: with_open(alloc, &rule.execute, reach, Right::Execute)?,
        keep: with_open(alloc, &rule.keep, reach, Right::Keep)?,
        enter: with_entered(alloc, &rule.enter, reach)?,
        transmit: either(rule.transmit, may_send(reach)),
        halt: either(rule.halt, may_halt(reach)),
        timer: either(rule.timer, may_set_timer(reach)),
        system: either(rule.system, may_use_system(reach)),
        seal: either(rule.seal, seal),
        types: with_types(alloc, &rule.types, &types)?,
        or_caller: rule.or_caller,
    })
}

/// A rule once more.
fn copy(alloc: Global, rule: &Rule) -> Result<Rule, AllocError>
    ensures { IfOk result (λ r. terms r ≡ terms rule.now) }
{
    Ok(Rule {
        code: copy_of(alloc, &rule.code)?,
        store: copy_of(alloc, &rule.store)?,
        load: copy_of(alloc, &rule.load)?,
        execute: copy_of(alloc, &rule.execute)?,
        keep: copy_of(alloc, &rule.keep)?,
        enter: copy_of(alloc, &rule.enter)?,
        transmit: rule.transmit,
        halt: rule.halt,
        timer: rule.timer,
        system: rule.system,
        seal: rule.seal,
        types: with_types(alloc, &rule.types, &[])?,
        or_caller: rule.or_caller,
    })
}

/// Rules once more.
fn copies(alloc: Global, rules: &[Rule]) -> Result<Vec<Rule>, AllocError>
    ensures copies { IfOk result (λ copies. terms_of copies.items ≡ terms_of rules.now) }
    ensures room { OnErr result (1 ≤ length rules.now) }
{
    let mut copies = Vec::new(alloc);
    for rule in rules {
        copies.push(copy(alloc, rule)?)?;
    }
    Ok(copies)
}

// ---- what is in force after a step

/// The rule in force after a step from an address where so much is reachable, by where it jumps through a seal.
fn rule_after<C: CapRep>(
    alloc: Global,
    reach: &Reach<C>,
    pc: u64,
    door: Option<u64>,
    said: &Rule,
    now: &Rule,
) -> Result<Rule, AllocError>
    ensures { IfOk result (λ rule. terms rule ≡ terms_after (values C.value reach.now) pc door (terms said.now) (terms now.now)) }
{
    if said.or_caller && is_call(said, pc, door) {
        lent(alloc, said, reach)
    } else {
        copy(alloc, now)
    }
}

/// The same of each rule.
fn each_after<C: CapRep>(
    alloc: Global,
    reach: &Reach<C>,
    pc: u64,
    door: Option<u64>,
    said: &[Rule],
    now: &[Rule],
) -> Result<Vec<Rule>, AllocError>
    ensures { IfOk result (λ rules. terms_of rules.items
        ≡ each_after (values C.value reach.now) pc door (terms_of said.now) (terms_of now.now)) }
{
    let mut rules = Vec::new(alloc);
    let mut place = 0;
    while place < said.len() && place < now.len() {
        rules.push(rule_after(alloc, reach, pc, door, &said[place], &now[place])?)?;
        place += 1;
    }
    Ok(rules)
}

/// The rules in force after the next step, if it calls the code of one that allows what its caller could reach.
fn step_after<C: CapRep>(
    alloc: Global,
    machine: &Machine<C>,
    said: &[Rule],
    now: &[Rule],
) -> Result<Option<Vec<Rule>>, AllocError>
    requires { length said.now ≡ length now.now }
    ensures some { IfOk result (λ r. IfSome r (λ rules. terms_of rules.items
        ≡ in_force_after (terms_of said.now) (terms_of now.now) Step machine.now)) }
    ensures none { IfOk result (λ r. IfNone r (in_force_after (terms_of said.now) (terms_of now.now) Step machine.now
        ≡ terms_of now.now)) }
    ensures room { OnErr result (1 ≤ length said.now) }
{
    if !lends_some(said) {
        return Ok(None);
    }
    let hart = machine.hart();
    let pc = hart.scrs().pcc().address();
    let door = next_door(machine);
    if !calls_one(said, pc, door) {
        return Ok(None);
    }
    let reach = Reach::of(alloc, hart)?;
    let rules = each_after(alloc, &reach, pc, door, said, now)?;
    Ok(Some(rules))
}

/// Rules as they are said, and as they are in force: those that allow what the caller of their code could reach, with that.
#[derive(Debug, Drop)]
pub struct InForce<'r> {
    /// As they are said.
    said: &'r [Rule],
    /// As they are in force.
    rules: Vec<Rule>,
}

impl<'r> InForce<'r> {
    /// Rules that nobody has called the code of. `AllocError` is out of memory, which comes only where there are rules.
    pub fn new(alloc: Global, said: &'r [Rule]) -> Result<Self, AllocError>
        ensures said { IfOk result (λ force. said_by force ≡ terms_of said.now) }
        ensures rules { IfOk result (λ force. forced_by force ≡ terms_of said.now) }
        ensures paired { IfOk result IsPaired }
        ensures room { OnErr result (1 ≤ length said.now) }
    {
        let rules = copies(alloc, said)?;
        Ok(InForce { said, rules })
    }

    /// The rules in force, in the order in which they are said.
    pub fn rules(&self) -> &[Rule]
        ensures { result.now ≡ held_by self.now }
    {
        &self.rules
    }

    /// Takes what is in force after an event, which the machine meets next, and says whether it may be other than before. `AllocError`:
    /// there is no memory for what is reachable, which is asked only where there are rules; then nothing is changed.
    pub fn pass<C: CapRep>(
        &mut self,
        alloc: Global,
        machine: &Machine<C>,
        event: Event,
    ) -> Result<bool, AllocError>
        requires paired { IsPaired self.old }
        ensures rules { OnOk result (forced_by self.new ≡ in_force_after (said_by self.old) (forced_by self.old) event machine.now) }
        ensures unchanged { IfOk result (λ changed. changed ≡ false → forced_by self.new ≡ forced_by self.old) }
        ensures same { OnErr result (forced_by self.new ≡ forced_by self.old) }
        ensures said { said_by self.new ≡ said_by self.old }
        ensures paired { IsPaired self.new }
        ensures room { OnErr result (1 ≤ length (said_by self.old)) }
    {
        if !matches!(event, Event::Step) {
            return Ok(false);
        }
        match step_after(alloc, machine, self.said, &self.rules)? {
            Some(rules) => {
                self.rules = rules;
                Ok(true)
            }
            None => Ok(false),
        }
    }
}
