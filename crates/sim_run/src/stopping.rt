//! A run that ends before a step that traps, to show why.

ghost use Rattle.std.proofs.Common.{◌∙◌};
ghost use Rattle.std.specs.Prelude.{◌≡◌, ℕ, Some, IfOk, IfSome, false, is_err, is_some, string_bytes, ⊤, refl, [], ◌∷◌};
ghost use Rattle.special_regs.specs.Scrs.{IsAligned};
ghost use Rattle.steps.specs.Applying.{IsPlanned};
ghost use Rattle.steps.specs.Event.{after};
ghost use Rattle.steps.specs.State.{State};
ghost use Rattle.steps.specs.Step.{fetch, step_effect};
ghost use Rattle.steps.specs.declared.effect.Effect.TheVariants.{Trap};
ghost use Rattle.steps.specs.declared.event.Event.TheVariants.{Step};
ghost use Rattle.schedules.specs.Schedule.{events_before, is_halted, scheduled, IsPlaceOf, IsRunnable};
ghost use Rattle.sim_run.specs.Stopping.{events_met, is_asked, is_stop, is_violation, stop_met, stopped_lines};
ghost use Rattle.sim_run.specs.Stopped.{stop_pace, IsOnly, Searched};
ghost use Rattle.sim_run.specs.StoppedLaws.{searched_more, searched_none};
ghost use Rattle.sim_run.specs.Unhandled.{after_step, Traps};
ghost use Rattle.sim_run.specs.declared.stopping.StopAt.TheVariants.{Double};

use crate::ending::pc;
use crate::notes::{First, gone_on, level_left, trap_in};
use base::{Cause, Fault, Size};
use cap_bounds::CapRep;
use cap_checks::check_fetch;
use explain::{put_standing, put_why};
use hart::Planned;
use machine::Machine;
use schedules::{How, Pace, Progress, Schedule, Speed, Walking, Watch, walk_told};
use special_regs::enter_trap;
use std::alloc::{AllocError, Global};
use std::convert::Infallible;
use symbols::Symbols;
use tagged_memory::Memory;
use texts::Piece::Text;
use texts::append;

/// Which trap a run ends before.
#[derive(Clone, Copy, Debug, PartialEq, Eq)]
pub enum StopAt {
    /// One whose entry can't be fetched, so that nothing can handle it.
    Unfetched,
    /// A CHERI exception, or an access fault of a fetch, a load or a store, whether or not it is handled.
    Violation,
    /// One that comes while another is open: before the MRET that returns from it.
    Double,
}

/// Whether a cause is a CHERI exception or an access fault.
fn is_violation(mcause: u64) -> bool
    ensures { result ≡ is_violation mcause }
{
    mcause == Cause::Cheri.number()
        || mcause == Cause::FetchAccess.number()
        || mcause == Cause::LoadAccess.number()
        || mcause == Cause::StoreAccess.number()
}

/// Whether an instruction can't be fetched through this PCC.
fn is_unfetched<C: CapRep>(pcc: C, memory: &Memory) -> bool
    requires { IsAligned (C.value pcc) }
    ensures { (s : State) → result ≡ is_err (fetch (record s { scrs = record s.scrs { pcc = C.value pcc }; memory = memory.now })) }
{
    match check_fetch(pcc) {
        Ok(address) => match memory.read(address, Size::Word) {
            Ok(_) => false,
            Err(_) => true,
        },
        Err(_) => true,
    }
}

/// Whether the entry of a trap by this fault, which the next step is, can't be fetched.
fn is_entry_unfetched<C: CapRep>(machine: &Machine<C>, fault: Fault) -> bool
    requires running { is_halted machine.now ≡ false }
    requires traps { step_effect machine.now ≡ Trap fault }
    ensures { result ≡ is_err (fetch (after Step machine.now)) }
{
    let hart = machine.hart();
    let mut scrs = hart.scrs().copied();
    let mut csrs = *hart.csrs();
    enter_trap(&mut scrs, &mut csrs, fault);
    is_unfetched(scrs.pcc(), hart.memory())
}

/// Whether the trap by this fault, which the next step is, is one to stop before.
fn is_asked<C: CapRep>(machine: &Machine<C>, at: StopAt, is_open: bool, fault: Fault) -> bool
    requires running { is_halted machine.now ≡ false }
    requires traps { step_effect machine.now ≡ Trap fault }
    ensures { result ≡ is_asked at is_open (after Step machine.now) }
{
    match at {
        StopAt::Unfetched => is_entry_unfetched(machine, fault),
        StopAt::Violation => is_violation(fault.mcause),
        StopAt::Double => is_open,
    }
}

/// Whether the next step of a machine that isn't halted, which was planned, is a trap to stop before, where a trap is open or none is.
pub fn stops_before<C: CapRep>(
    machine: &Machine<C>,
    planned: &Planned<C>,
    at: StopAt,
    is_open: bool,
) -> bool
    requires planned { IsPlanned C.value planned.now.effect machine.now }
    requires running { is_halted machine.now ≡ false }
    ensures { result ≡ is_stop at is_open machine.now }
{
    match trap_in(planned) {
        Some(fault) => is_asked(machine, at, is_open, fault),
        None => false,
    }
}

/// The only trap that is open after the next step, which was planned and isn't a second one.
fn open_after<C: CapRep>(
    machine: &Machine<C>,
    planned: &Planned<C>,
    only: Option<First>,
) -> Option<First>
    requires planned { IsPlanned C.value planned.now.effect machine.now }
    requires running { is_halted machine.now ≡ false }
    ensures { (number : ℕ) (left : Traps) → is_stop Double (is_some only) machine.now ≡ false → IsOnly only left.first
        → IsOnly result (after_step number machine.now left).first }
{
    match trap_in(planned) {
        Some(fault) => Some(First {
            number: 0,
            inner: 0,
            level: level_left(machine),
            fault,
            pc: pc(machine),
        }),
        None => gone_on(machine, planned, only),
    }
}

/// A watch that stops before the first step that is such a trap.
#[derive(Drop)]
struct Stop {
    /// Which trap.
    at: StopAt,
    /// The trap that is open, where a second one is looked for. Its number isn't asked.
    only: Option<First>,
}

impl<C: CapRep> Watch<Machine<C>> for Stop {
    type Fault = Infallible;

    ghost Saw = { λ events s a b. (b.at ≡ a.at) × Searched a.at a.only b.only events s };

    ghost Lost = { λ _ _ _ _ _. ⊥ };

    ghost Barred = { λ _ _ _ _ _. ⊥ };

    ghost Asked = { λ s a b. (b.at ≡ a.at) × Searched a.at a.only b.only (Step ∷ []) s };

    ghost IsReady = { λ _. ⊤ };

    ghost pace_of = { λ w. stop_pace w.only };

    ghost stops_at = { λ w s. is_stop w.at (is_some w.only) s };

    ghost starts = { λ s w. (refl, searched_none w.at w.only s) };

    ghost goes_on = { λ xs ys s u v w first later. (
      later.0 ∙ first.0,
      searched_more xs ys s u.at v.at u.only v.only w.only first.0 first.1 later.1,
    ) };

    ghost fails_later = { λ fault xs ys s u v w first later. later };

    ghost bars_later = { λ fault xs ys s u v w first later. later };

    fn pace(&self) -> Pace {
        match self.only {
            None => Pace::of(Speed::Short(None)),
            Some(_) => Pace::of(Speed::Each),
        }
    }

    fn stops(&self, machine: &Machine<C>, planned: &Planned<C>) -> bool {
        stops_before(machine, planned, self.at, self.only.is_some())
    }

    fn came(&mut self, _machine: &Machine<C>) {}

    fn passed(
        &mut self,
        _machine: &Machine<C>,
        _steps: u64,
        _sent: Option<u8>,
    ) -> Result<(), Infallible> {
        Ok(())
    }

    fn before(&mut self, machine: &Machine<C>, planned: &Planned<C>) -> Result<(), Infallible> {
        match self.at {
            StopAt::Double => self.only = open_after(machine, planned, self.only),
            _ => {}
        }
        Ok(())
    }

    fn after(&mut self, _machine: &Machine<C>, _sent: Option<u8>) -> Result<(), Infallible> {
        Ok(())
    }
}

/// The number of the first step of a machine's run on a schedule, counted from 1, that is a trap to stop before; none where there is none.
/// The machine is run up to it, at once over plain steps, and what it sends is forgotten; `progress` is told from time to time how many
/// steps were done. It takes no memory.
pub fn find_stop<C: CapRep, P: Progress>(
    machine: &mut Machine<C>,
    at: StopAt,
    schedule: Schedule,
    input: &[u8],
    progress: &mut P,
) -> Option<u64>
    requires range { IsRunnable schedule }
    requires running { is_halted machine.old ≡ false }
    ensures number { result ≡ stop_met (Some at) (scheduled schedule input.now machine.old) machine.old }
    ensures events { events_before result schedule input.now machine.old
        ≡ events_met (Some at) (scheduled schedule input.now machine.old) machine.old }
    ensures place { IfSome result (IsPlaceOf schedule) }
{
    let mut stop = Stop { at, only: None };
    let Walking { how, steps } = walk_told(machine, schedule, input, &mut stop, progress);
    match how {
        How::Done | How::Halted => None,
        How::Stopped => Some(steps + 1),
        How::Failed(never) | How::Barred(never) => match never {},
    }
}

/// The lines for standard error that say where a run ended before a step that traps: how many steps were done, where PCC is, and what
/// the next step will do, and why. After an address stands its label.
///
/// # Errors
///
/// Out of memory.
#[tactic(auto, unfolding(crate::specs::Stopping::stopped_lines))]
pub fn stopped_lines<C: CapRep>(
    alloc: Global,
    symbols: &Symbols,
    machine: &Machine<C>,
    steps: u64,
) -> Result<String, AllocError>
    ensures { IfOk result (λ text. string_bytes text ≡ stopped_lines symbols.now steps machine.now) }
{
    let mut text = String::new(alloc);
    put_standing(&mut text, symbols, machine.hart(), steps)?;
    append(&mut text, &[Text("\n")])?;
    put_why(&mut text, symbols, machine.hart())?;
    Ok(text)
}
