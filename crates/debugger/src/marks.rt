//! Stops as a command takes them: with what stood, when it began, where they watch for a change.
ghost use Rattle.std.specs.Prelude.{◌≡◌, ◌≤◌, ◌<◌, ◌++◌, ℕ, IfOk, IfSome, IsTrue, None, OnOk, false};
ghost use Rattle.cap_bounds.specs.CapValue.{CapValue};
ghost use Rattle.steps.specs.Applying.{IsPlanned};
ghost use Rattle.steps.specs.State.{State, pc_of};
ghost use Rattle.steps.specs.Steps.{GoesBy};
ghost use Rattle.steps.specs.Outcome.{is_trap, outcome_of};
ghost use Rattle.steps.specs.Applying.{meant};
ghost use Rattle.origins.specs.Places.{IsThere};
ghost use Rattle.debugger.specs.Marked.{seen, seen_mark};
ghost use Rattle.debugger.specs.Stops as spec;

use crate::stepping::pc;
use base::is_scr;
use cap_bounds::CapRep;
use cap_rights::equal_exact;
use debug_commands::{Stop, Watched};
use machine::{Machine, Planned};
use origins::{Place, held};
use std::alloc::{AllocError, Global};
use steps::Effect;
use tagged_memory::Memory;

/// A stop as a command takes it.
#[derive(Drop)]
pub(crate) enum Mark<C> {
    /// Before a step at which PCC's address is this one.
    At(u64),
    /// Before a step that would trap.
    Trap,
    /// Where a place holds another value.
    OtherValue(Place, C),
    /// Where other bytes stand from an address on.
    OtherBytes(u64, Vec<u8>),
}

/// Whether there is such a register, or a granule of RAM begins there.
fn is_there<C: CapRep>(machine: &Machine<C>, place: Place) -> bool
    ensures value { result ≡ spec.is_there place machine.now }
    ensures there { IsTrue result → IsThere place machine.now }
{
    match place {
        Place::Register(n) => n < 32,
        Place::Special(n) => is_scr(n),
        Place::Granule(address) => address % 16 == 0 && machine.memory().holds_granule(address),
    }
}

/// Appends a mark of a place, with what it holds.
fn mark_place<C: CapRep>(
    marks: &mut Vec<Mark<C>>,
    machine: &Machine<C>,
    place: Place,
) -> Result<(), AllocError>
    ensures { OnOk result (seen C.value marks.new.items
        ≡ seen C.value marks.old.items ++ spec.mark_of machine.now (Stop.Changed (Watched.Held place))) }
{
    if !is_there(machine, place) {
        return Ok(());
    }
    marks.push(Mark::OtherValue(place, held(machine, place)))?;
    Ok(())
}

/// Appends a mark of so many bytes from an address, with those that stand there.
#[tactic(auto, unfolding(tagged_memory::specs::Memory::fill_fault))]
fn mark_bytes<C: CapRep>(
    marks: &mut Vec<Mark<C>>,
    alloc: Global,
    machine: &Machine<C>,
    address: u64,
    count: u64,
) -> Result<(), AllocError>
    ensures { OnOk result (seen C.value marks.new.items
        ≡ seen C.value marks.old.items ++ spec.mark_of machine.now (Stop.Changed (Watched.Bytes address count))) }
{
    let Ok(bytes) = machine.memory().bytes(address, count) else {
        return Ok(());
    };
    let mut kept = Vec::new(alloc);
    kept.extend_from_slice(bytes)?;
    marks.push(Mark::OtherBytes(address, kept))?;
    Ok(())
}

/// Appends the mark of a stop.
fn mark_stop<C: CapRep>(
    marks: &mut Vec<Mark<C>>,
    alloc: Global,
    machine: &Machine<C>,
    stop: Stop,
) -> Result<(), AllocError>
    ensures { OnOk result (seen C.value marks.new.items ≡ seen C.value marks.old.items ++ spec.mark_of machine.now stop) }
{
    match stop {
        Stop::Address(address) => marks.push(Mark::At(address))?,
        Stop::Trap => marks.push(Mark::Trap)?,
        Stop::Changed(Watched::Held(place)) => mark_place(marks, machine, place)?,
        Stop::Changed(Watched::Bytes { address, count }) => {
            mark_bytes(marks, alloc, machine, address, count)?;
        }
    }
    Ok(())
}

/// Appends the marks of stops.
fn mark_all<C: CapRep>(
    marks: &mut Vec<Mark<C>>,
    alloc: Global,
    machine: &Machine<C>,
    stops: &[Stop],
) -> Result<(), AllocError>
    ensures { OnOk result (seen C.value marks.new.items ≡ seen C.value marks.old.items ++ spec.marks_of machine.now stops.now) }
{
    match stops {
        [] => Ok(()),
        [first, rest @ ..] => {
            mark_stop(marks, alloc, machine, *first)?;
            mark_all(marks, alloc, machine, rest)
        }
    }
}

/// The marks of stops, where a command begins at a machine.
pub(crate) fn marks_of<C: CapRep>(
    alloc: Global,
    machine: &Machine<C>,
    stops: &[Stop],
) -> Result<Vec<Mark<C>>, AllocError>
    ensures { IfOk result (λ marks. seen C.value marks.items ≡ spec.marks_of machine.now stops.now) }
{
    let mut marks = Vec::new(alloc);
    mark_all(&mut marks, alloc, machine, stops)?;
    Ok(marks)
}

/// Whether an effect is a trap.
#[tactic(auto, unfolding(steps::specs::Outcome::outcome_of))]
fn is_trap_effect<C: CapRep>(effect: &Effect<C>) -> bool
    ensures { result ≡ is_trap (outcome_of (meant C.value effect.now)) }
{
    matches!(effect, Effect::Trap(_))
}

/// Whether a place holds another value.
fn holds_other<C: CapRep>(machine: &Machine<C>, place: Place, value: C) -> bool
    ensures { result ≡ spec.is_stop (spec.other_value place (C.value value)) machine.now }
{
    is_there(machine, place) && !equal_exact(value, held(machine, place))
}

/// Whether other bytes stand from an address on.
#[tactic(auto, unfolding(tagged_memory::specs::Memory::fill_fault))]
fn has_other_bytes<C: CapRep>(machine: &Machine<C>, address: u64, bytes: &[u8]) -> bool
    ensures { result ≡ spec.is_stop (spec.other_bytes address bytes.now) machine.now }
{
    match machine.memory().bytes(address, bytes.len() as u64) {
        Ok(now) => bytes != now,
        Err(_) => false,
    }
}

/// Whether a machine that isn't halted, and whose next step was planned, is where a mark says that steps stop.
#[tactic(auto, unfolding(steps::specs::Outcome::step_outcome))]
fn is_stop<C: CapRep>(machine: &Machine<C>, mark: &Mark<C>, planned: &Planned<C>) -> bool
    requires planned { IsPlanned C.value planned.now.effect machine.now }
    requires running { machine.now.devices.halted ≡ None }
    ensures { result ≡ spec.is_stop (seen_mark C.value mark.now) machine.now }
{
    match mark {
        Mark::At(address) => pc(machine) == *address,
        Mark::Trap => is_trap_effect(&planned.effect),
        Mark::OtherValue(place, value) => holds_other(machine, *place, *value),
        Mark::OtherBytes(address, bytes) => has_other_bytes(machine, *address, bytes),
    }
}

/// Whether it is at one of some marks.
pub(crate) fn is_any_stop<C: CapRep>(
    machine: &Machine<C>,
    marks: &[Mark<C>],
    planned: &Planned<C>,
) -> bool
    requires planned { IsPlanned C.value planned.now.effect machine.now }
    requires running { machine.now.devices.halted ≡ None }
    ensures { result ≡ spec.is_any_stop (seen C.value marks.now) machine.now }
{
    match marks {
        [] => false,
        [first, rest @ ..] => {
            is_stop(machine, first, planned) || is_any_stop(machine, rest, planned)
        }
    }
}

/// Addresses from the one on and below the other.
#[derive(Clone, Copy)]
pub(crate) struct Window {
    pub low: u64,
    pub high: u64,
}

/// The part of a window on PCC's side of an address.
fn beside(window: Window, pc: u64, address: u64) -> Window
    ensures low { window.low ≤ result.low }
    ensures high { result.high ≤ window.high }
    ensures beside { (a : ℕ) → result.low ≤ a → a < result.high → a ≡ address → ⊥ }
{
    if address < pc {
        Window {
            low: window.low.max(address + 1),
            high: window.high,
        }
    } else {
        Window {
            low: window.low,
            high: window.high.min(address),
        }
    }
}

/// Addresses around PCC's where steps that trap nowhere go by all marks: none where a mark watches for a change.
pub(crate) fn window_at<C>(marks: &[Mark<C>], pc: u64) -> Option<Window>
    ensures { IfSome result (λ w. (value : C → CapValue) (s : State) → w.low ≤ pc_of s → pc_of s < w.high → GoesBy None s
        → spec.is_any_stop (seen value marks.now) s ≡ false) }
{
    match marks {
        [] => Some(Window {
            low: 0,
            high: u64::MAX,
        }),
        [Mark::At(address), rest @ ..] => Some(beside(window_at(rest, pc)?, pc, *address)),
        [Mark::Trap, rest @ ..] => window_at(rest, pc),
        [Mark::OtherValue(..) | Mark::OtherBytes(..), ..] => None,
    }
}
