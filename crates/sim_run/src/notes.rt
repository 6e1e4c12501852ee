//! What is known of the traps of a run, step by step.

ghost use Rattle.std.specs.Prelude.{◌≡◌, ◌≤◌, ◌<◌, ◌-◌, ◌==◌, ◌++◌, ℕ, List, [], Option, None, Some, IfOk, IfSome, OnOk, codes, false};
ghost use Rattle.std.specs.Prelude.{if◌then◌else◌, string_bytes};
ghost use Rattle.steps.specs.Applying.{meant, IsPlanned};
ghost use Rattle.steps.specs.State.{State};
ghost use Rattle.steps.specs.Step.{step_effect, step_fetched};
ghost use Rattle.steps.specs.declared.effect.Effect.TheVariants.{Trap};
ghost use Rattle.schedules.specs.Schedule.{is_halted};
ghost use Rattle.symbols.specs.Symbols.{Symbol};
ghost use Rattle.sim_run.specs.Unhandled.{after_step, gone_on, is_at, is_return, is_same_level, last_of, level_left, level_of, opened};
ghost use Rattle.sim_run.specs.Unhandled.{no_traps, unfetched_in, Open, Trapped, Traps};
ghost use Rattle.sim_run.specs.Watched.{trap_in, AreFew, HasFields, HasLines, IsLast, IsOpen, IsTold};

use crate::ending::{append_since, append_trap_words, pc};
use base::{Fault, scr};
use cap_bounds::CapRep;
use hart::Planned;
use machine::Machine;
use std::alloc::{AllocError, Global};
use steps::{Effect, Fetched};
use symbols::Symbols;
use texts::Piece::Text;
use texts::append;

/// The level at which code runs under a PCC: its bounds and permissions.
#[derive(Clone, Copy, Debug, PartialEq, Eq)]
pub(crate) struct Level {
    base: u64,
    top: u128,
    perms: u16,
}

impl Level {
    /// That of code under this PCC.
    fn of<C: CapRep>(pcc: C) -> Level
        ensures { result ≡ level_of (C.value pcc) }
    {
        Level {
            base: pcc.base(),
            top: pcc.top(),
            perms: pcc.perms(),
        }
    }

    /// Whether it is this one.
    fn is_same(self, other: Level) -> bool
        ensures { result ≡ is_same_level self other }
    {
        self.base == other.base && self.top == other.top && self.perms == other.perms
    }
}

/// The first trap that is open.
#[derive(Clone, Copy, Debug, PartialEq, Eq)]
pub(crate) struct First {
    /// The number of its step.
    pub number: u64,
    /// How many later ones are open too.
    pub inner: u64,
    /// The level that it left.
    pub level: Option<Level>,
    /// What it left in mcause and mtval.
    pub fault: Fault,
    /// Where it was taken.
    pub pc: u64,
}

/// The first trap since the last step that was none.
#[derive(Clone, Copy, Debug, PartialEq, Eq)]
pub(crate) struct Last {
    /// The number of its step.
    pub number: u64,
    /// How many later steps were traps of the fetch.
    pub unfetched: u64,
    /// What it left in mcause and mtval.
    pub fault: Fault,
    /// Where it was taken.
    pub pc: u64,
}

/// What is known of the traps that are left.
#[derive(Drop)]
pub(crate) struct Notes {
    /// The first that is open.
    pub first: Option<First>,
    /// What is told of it.
    pub first_words: String,
    /// The last, where the last step was one.
    pub last: Option<Last>,
    /// What is told of it.
    pub last_words: String,
}

/// The fault of a step that traps.
pub(crate) fn trap_in<C: CapRep>(planned: &Planned<C>) -> Option<Fault>
    ensures { result ≡ trap_in (meant C.value planned.now.effect) }
{
    match planned.effect {
        Effect::Trap(fault) => Some(fault),
        _ => None,
    }
}

/// Whether a step returns from a trap.
fn is_return<C: CapRep>(planned: &Planned<C>) -> bool
    ensures { result ≡ is_return (meant C.value planned.now.effect) }
{
    match planned.effect {
        Effect::Return { .. } => true,
        _ => false,
    }
}

/// 1 where the fetch faults, else 0.
fn unfetched_in(fetched: Fetched) -> u64
    ensures value { result ≡ unfetched_in fetched }
    ensures few { result ≤ 1 }
{
    match fetched {
        Fetched::Fault => 1,
        Fetched::Interrupt | Fetched::Word(..) => 0,
    }
}

/// The level that a trap of the next step leaves, where the trap's entry has another.
#[tactic(auto, unfolding(special_regs::specs::Scrs::scr_value))]
pub(crate) fn level_left<C: CapRep>(machine: &Machine<C>) -> Option<Level>
    ensures { result ≡ level_left machine.now }
{
    let level = Level::of(machine.scr(scr::PCC));
    if Level::of(machine.scr(scr::MTCC)).is_same(level) {
        None
    } else {
        Some(level)
    }
}

/// Whether the next step is at a level.
#[tactic(auto, unfolding(special_regs::specs::Scrs::scr_value))]
fn is_at<C: CapRep>(level: Option<Level>, machine: &Machine<C>) -> bool
    ensures { result ≡ is_at level machine.now }
{
    match level {
        Some(level) => level.is_same(Level::of(machine.scr(scr::PCC))),
        None => false,
    }
}

/// The first trap that is open after the next step, which is planned and is no trap.
pub(crate) fn gone_on<C: CapRep>(
    machine: &Machine<C>,
    planned: &Planned<C>,
    first: Option<First>,
) -> Option<First>
    requires planned { IsPlanned C.value planned.now.effect machine.now }
    ensures told { (symbols : List Symbol) (words : List ℕ) (found : Option Open) → IsOpen symbols first words found
        → IsOpen symbols result words (gone_on machine.now found) }
    ensures few { (number : ℕ) → IfSome first (λ one. one.inner ≤ number) → IfSome result (λ one. one.inner ≤ number) }
{
    match first {
        None => None,
        Some(one) => {
            if is_at(one.level, machine) {
                return None;
            }
            if !is_return(planned) {
                return Some(one);
            }
            if one.inner == 0 {
                return None;
            }
            Some(First {
                number: one.number,
                inner: one.inner - 1,
                level: one.level,
                fault: one.fault,
                pc: one.pc,
            })
        }
    }
}

/// The first trap that is open after that of the next step, which has this number and fetches so. What is told of it is `words`.
fn opened<C: CapRep>(
    symbols: &Symbols,
    machine: &Machine<C>,
    number: u64,
    fetched: Fetched,
    fault: Fault,
    first: Option<First>,
    words: &mut String,
) -> Result<First, AllocError>
    requires few { IfSome first (λ one. one.inner < number) }
    requires running { is_halted machine.now ≡ false }
    requires fetched { fetched ≡ step_fetched machine.now }
    requires traps { step_effect machine.now ≡ Trap fault }
    ensures told { IfOk result (λ one. (found : Option Open) → IsOpen symbols.now first (string_bytes words.old) found
        → IsOpen symbols.now (Some one) (string_bytes words.new) (Some (opened number machine.now found))) }
    ensures few { IfOk result (λ one. one.inner ≤ number) }
{
    match first {
        Some(one) => Ok(First {
            number: one.number,
            inner: one.inner + 1,
            level: one.level,
            fault: one.fault,
            pc: one.pc,
        }),
        None => {
            words.clear();
            append_trap_words(words, symbols, machine, number, fetched, fault)?;
            Ok(First {
                number,
                inner: 0,
                level: level_left(machine),
                fault,
                pc: pc(machine),
            })
        }
    }
}

/// The last trap after that of the next step, which has this number and fetches so. What is told of it is `words`.
fn last_of<C: CapRep>(
    symbols: &Symbols,
    machine: &Machine<C>,
    number: u64,
    fetched: Fetched,
    fault: Fault,
    last: Option<Last>,
    words: &mut String,
) -> Result<Last, AllocError>
    requires few { IfSome last (λ one. one.unfetched < number) }
    requires running { is_halted machine.now ≡ false }
    requires fetched { fetched ≡ step_fetched machine.now }
    requires traps { step_effect machine.now ≡ Trap fault }
    ensures told { IfOk result (λ one. (found : Option Trapped) → IsLast symbols.now last (string_bytes words.old) found
        → IsLast symbols.now (Some one) (string_bytes words.new) (Some (last_of number machine.now found))) }
    ensures few { IfOk result (λ one. one.unfetched ≤ number) }
{
    match last {
        Some(one) => Ok(Last {
            number: one.number,
            unfetched: one.unfetched + unfetched_in(fetched),
            fault: one.fault,
            pc: one.pc,
        }),
        None => {
            words.clear();
            append_trap_words(words, symbols, machine, number, fetched, fault)?;
            Ok(Last {
                number,
                unfetched: 0,
                fault,
                pc: pc(machine),
            })
        }
    }
}

/// Appends the words of the first trap to a text.
fn append_first(text: &mut String, words: &str) -> Result<(), AllocError>
    ensures { OnOk result (string_bytes text.new ≡ string_bytes text.old ++ (codes "; first trap: " ++ words.now)) }
{
    append(text, &[Text("; first trap: "), Text(words)])
}

/// Appends the words of the last trap to a text, if it isn't the first.
fn append_later(text: &mut String, words: &str, first: u64, last: u64) -> Result<(), AllocError>
    ensures { OnOk result (string_bytes text.new
        ≡ string_bytes text.old ++ (if first == last then [] else codes "  last trap: " ++ words.now)) }
{
    if first == last {
        return Ok(());
    }
    append(text, &[Text("  last trap: "), Text(words)])
}

impl Notes {
    /// Of no trap.
    pub(crate) fn new(alloc: Global) -> Notes
        ensures told { (symbols : List Symbol) → IsTold symbols result no_traps }
        ensures few { (number : ℕ) → AreFew number result }
    {
        Notes {
            first: None,
            first_words: String::new(alloc),
            last: None,
            last_words: String::new(alloc),
        }
    }

    /// Looks at the step of this number, which is planned.
    pub(crate) fn look<C: CapRep>(
        &mut self,
        symbols: &Symbols,
        machine: &Machine<C>,
        planned: &Planned<C>,
        number: u64,
    ) -> Result<(), AllocError>
        requires planned { IsPlanned C.value planned.now.effect machine.now }
        requires fetched { planned.now.fetched ≡ step_fetched machine.now }
        requires some { 0 < number }
        requires few { AreFew (number - 1) self.old }
        requires running { is_halted machine.now ≡ false }
        ensures told { OnOk result ((left : Traps) → IsTold symbols.now self.old left
            → IsTold symbols.now self.new (after_step number machine.now left)) }
        ensures few { OnOk result (AreFew number self.new) }
    {
        match trap_in(planned) {
            Some(fault) => {
                let fetched = planned.fetched;
                let words = &mut self.first_words;
                let first = opened(symbols, machine, number, fetched, fault, self.first, words)?;
                let words = &mut self.last_words;
                let last = last_of(symbols, machine, number, fetched, fault, self.last, words)?;
                self.first = Some(first);
                self.last = Some(last);
            }
            None => {
                self.first = gone_on(machine, planned, self.first);
                self.last = None;
            }
        }
        Ok(())
    }

    /// The first and the last trap of a run that ended with a trap.
    pub(crate) fn taken(&self) -> Option<(First, Last)>
        ensures { (symbols : List Symbol) (left : Traps) → IsTold symbols self.now left → HasFields result left }
    {
        match (self.first, self.last) {
            (Some(first), Some(last)) => Some((first, last)),
            _ => None,
        }
    }

    /// The lines of a run that ended with a trap.
    pub(crate) fn lines(&self, alloc: Global) -> Result<Option<String>, AllocError>
        ensures { IfOk result (λ lines. (symbols : List Symbol) (left : Traps) (s : State) → IsTold symbols self.now left
            → HasLines symbols lines left s) }
    {
        match (self.first, self.last) {
            (Some(first), Some(last)) => {
                let mut text = String::new(alloc);
                append_first(&mut text, &self.first_words)?;
                append_later(&mut text, &self.last_words, first.number, last.number)?;
                append_since(&mut text, last.unfetched)?;
                Ok(Some(text))
            }
            _ => Ok(None),
        }
    }
}
