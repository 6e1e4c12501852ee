//! The trap of a run that nothing handled.

ghost use Rattle.std.proofs.Common.{◌∙◌};
ghost use Rattle.std.specs.Prelude.{◌≡◌, ◌==◌, ℕ, true, List, [], ◌∷◌, None, IfOk, false, refl, ⊤};
ghost use Rattle.special_regs.specs.Traps.{entry_address};
ghost use Rattle.hart.specs.Opening.{opening};
ghost use Rattle.steps.specs.State.{State};
ghost use Rattle.steps.specs.declared.event.Event.{Event};
ghost use Rattle.steps.specs.declared.event.Event.TheVariants.{Step};
ghost use Rattle.machine.specs.Run.{run_after};
ghost use Rattle.schedules.specs.Schedule.{is_halted, scheduled, IsRunnable};
ghost use Rattle.sim_run.specs.Unhandled.{trap_left};
ghost use Rattle.sim_run.specs.Watched.{counted_pace, watching_pace, AreFew, Counted, HasFields, HasLines, IsTold, Tells};
ghost use Rattle.sim_run.specs.WatchedLaws.{counted_more, counted_none, tells_more, tells_none};

use crate::ending::{mcause, mtvec, pc};
use crate::notes::{First, Last, Notes};
use cap_bounds::CapRep;
use hart::Planned;
use image::Image;
use machine::Machine;
use schedules::{How, Pace, Schedule, Speed, Walking, Watch, walk_whole};
use std::alloc::{AllocError, Global};
use symbols::Symbols;

/// A watch that remembers the traps that are left. It stops before a step whose number has more than 64 bits.
#[derive(Drop)]
struct Unhandled<'a> {
    symbols: &'a Symbols,
    /// How many steps were done, the one that it was asked before among them.
    number: u64,
    /// What is known of the traps.
    notes: Notes,
}

/// Where steps are done at once: they are no traps.
fn counted_pace(number: u64) -> Pace
    ensures { result ≡ counted_pace number }
{
    if number < u64::MAX {
        Pace {
            speed: Speed::Short(None),
            most: u64::MAX - number,
        }
    } else {
        Pace::of(Speed::Each)
    }
}

/// Where steps are done at once: no trap is open, so that none is handled by them.
fn watching_pace(first: Option<First>, number: u64) -> Pace
    ensures { result ≡ watching_pace first number }
{
    match first {
        None => counted_pace(number),
        Some(_) => Pace::of(Speed::Each),
    }
}

impl<C: CapRep> Watch<Machine<C>> for Unhandled<'_> {
    type Fault = AllocError;

    ghost Saw = { λ events s a b. (b.symbols.now ≡ a.symbols.now) × Counted a.number b.number events
        × Tells (IsTold a.symbols.now a.notes) (IsTold a.symbols.now b.notes) a.number events s };

    ghost Lost = { λ _ _ _ _ _. ⊥ };

    ghost Barred = { λ _ _ _ _ _. ⊤ };

    ghost Asked = { λ s a b. (b.symbols.now ≡ a.symbols.now) × Counted a.number b.number (Step ∷ [])
        × Tells (IsTold a.symbols.now a.notes) (IsTold a.symbols.now b.notes) a.number (Step ∷ []) s };

    ghost IsReady = { λ w. AreFew w.number w.notes };

    ghost pace_of = { λ w. watching_pace w.notes.first w.number };

    ghost stops_at = { λ w _. w.number == 18446744073709551615 };

    ghost starts = { λ s w. (refl, counted_none w.number, tells_none (IsTold w.symbols.now w.notes) w.number s) };

    ghost goes_on = { λ xs ys s u v w first later. (
      later.0 ∙ first.0,
      counted_more xs ys u.number v.number w.number first.1 later.1,
      tells_more xs ys s u.symbols.now v.symbols.now u.number v.number (λ t. IsTold t u.notes) (λ t. IsTold t v.notes)
          (λ t. IsTold t w.notes) first.0 first.1 first.2 later.2,
    ) };

    ghost fails_later = { λ fault xs ys s u v w first later. later };

    ghost bars_later = { λ fault xs ys s u v w first later. tt };

    fn pace(&self) -> Pace {
        watching_pace(self.notes.first, self.number)
    }

    fn stops(&self, _machine: &Machine<C>, _planned: &Planned<C>) -> bool {
        self.number == u64::MAX
    }

    fn came(&mut self, _machine: &Machine<C>) {}

    fn passed(
        &mut self,
        _machine: &Machine<C>,
        steps: u64,
        _sent: Option<u8>,
    ) -> Result<(), AllocError> {
        self.number = self.number.saturating_add(steps);
        self.notes.last = None;
        Ok(())
    }

    fn before(&mut self, machine: &Machine<C>, planned: &Planned<C>) -> Result<(), AllocError> {
        if self.number == u64::MAX {
            return Ok(());
        }
        self.number += 1;
        self.notes.look(self.symbols, machine, planned, self.number)
    }

    fn after(&mut self, _machine: &Machine<C>, _sent: Option<u8>) -> Result<(), AllocError> {
        Ok(())
    }
}

/// Runs a machine on a schedule, and answers what is then known of its traps.
fn watch<C: CapRep>(
    alloc: Global,
    symbols: &Symbols,
    machine: &mut Machine<C>,
    schedule: Schedule,
    input: &[u8],
) -> Result<Notes, AllocError>
    requires range { IsRunnable schedule }
    requires running { is_halted machine.old ≡ false }
    ensures { IfOk result (λ notes. IsTold symbols.now notes (trap_left (scheduled schedule input.now machine.old) machine.old)) }
{
    let notes = Notes::new(alloc);
    let mut watch = Unhandled {
        symbols,
        number: 0,
        notes,
    };
    let Walking { how, steps: _ } = walk_whole(machine, schedule, input, &mut watch);
    match how {
        How::Done | How::Halted => Ok(watch.notes),
        // A schedule has fewer steps than have a number of 64 bits.
        How::Stopped => unreachable!(),
        How::Failed(_) => unreachable!(),
        How::Barred(fault) => Err(fault),
    }
}

/// Whether a trap with this mcause may have led to an address: mtvec's base, or the interrupt's place after it.
fn is_entry(address: u64, mtvec: u64, mcause: u64) -> bool
    ensures { (mtval : ℕ) → address ≡ entry_address (record { mcause = mcause; mtval = mtval }) mtvec → result ≡ true }
{
    let base = mtvec / 4 * 4;
    address == base || address == base.wrapping_add(mcause.wrapping_mul(4))
}

/// Whether the last step may have been a trap: PCC is at a trap's entry.
fn may_be_trapped<C: CapRep>(machine: &Machine<C>) -> bool
    ensures { result ≡ false → (events : List Event) (s : State) → machine.now ≡ run_after events s → (trap_left events s).last ≡ None }
{
    is_entry(pc(machine), mtvec(machine), mcause(machine))
}

/// The first and the last trap that are left by a run of an image on a schedule, which ended with this machine; none if its last step was
/// no trap. The run is done again only where that may have been one.
pub(crate) fn traps_taken<C: CapRep>(
    alloc: Global,
    symbols: &Symbols,
    image: &Image,
    schedule: Schedule,
    input: &[u8],
    machine: &Machine<C>,
) -> Result<Option<(First, Last)>, AllocError>
    requires range { IsRunnable schedule }
    requires ended { machine.now ≡ run_after (scheduled schedule input.now (opening image.now)) (opening image.now) }
    ensures { IfOk result (λ taken. HasFields taken (trap_left (scheduled schedule input.now (opening image.now)) (opening image.now))) }
{
    if !may_be_trapped(machine) {
        return Ok(None);
    }
    match Machine::<C>::new(alloc, image) {
        Ok(mut again) => Ok(watch(alloc, symbols, &mut again, schedule, input)?.taken()),
        Err(_) => Err(AllocError),
    }
}

/// The lines of the traps that are left by a run of an image on a schedule, which ended with this machine; none if its last step was no
/// trap. The run is done again only where that may have been one.
pub(crate) fn trap_left<C: CapRep>(
    alloc: Global,
    symbols: &Symbols,
    image: &Image,
    schedule: Schedule,
    input: &[u8],
    machine: &Machine<C>,
) -> Result<Option<String>, AllocError>
    requires range { IsRunnable schedule }
    requires ended { machine.now ≡ run_after (scheduled schedule input.now (opening image.now)) (opening image.now) }
    ensures { IfOk result (λ lines. (s : State)
        → HasLines symbols.now lines (trap_left (scheduled schedule input.now (opening image.now)) (opening image.now)) s) }
{
    if !may_be_trapped(machine) {
        return Ok(None);
    }
    match Machine::<C>::new(alloc, image) {
        Ok(mut again) => watch(alloc, symbols, &mut again, schedule, input)?.lines(alloc),
        Err(_) => Err(AllocError),
    }
}
