//! Where the steps of a run were fetched.

ghost use Rattle.std.proofs.Common.{◌∙◌};
ghost use Rattle.std.specs.Prelude.{◌≡◌, ◌≤◌, ◌<◌, ◌+◌, ◌-◌, ◌^◌, ◌==◌, ℕ, List, [], ◌∷◌, Some, IfOk, IfSome, OnOk, false, length, refl};
ghost use Rattle.std.specs.Prelude.{string_bytes, ⊤};
ghost use Rattle.steps.specs.declared.event.Event.TheVariants.{Step};
ghost use Rattle.schedules.specs.Schedule.{events_before, is_halted, scheduled, IsPlaceOf, IsRunnable};
ghost use Rattle.schedules.specs.declared.pace.Pace.{Pace};
ghost use Rattle.schedules.specs.declared.pace.Speed.TheVariants.{Each};
ghost use Rattle.sim_run.specs.Counts.{CountsMore, CountsTo};
ghost use Rattle.sim_run.specs.CountLaws.{counts_more, counts_none};
ghost use Rattle.sim_run.specs.Profile.{IsProfile, IsSound, count_at, count_of, fetches};
ghost use Rattle.sim_run.specs.Watched.{Counted};
ghost use Rattle.sim_run.specs.WatchedLaws.{counted_more, counted_none};

use crate::ending::pc;
use crate::tally::{Tally, count_step, profile_of};
use cap_bounds::CapRep;
use hart::Planned;
use machine::Machine;
use schedules::{How, Pace, Progress, Schedule, Speed, Walking, Watch, walk_told};
use std::alloc::{AllocError, Global};
use symbols::Symbols;

/// A watch that counts where the steps are fetched. It stops before a step whose number has more than 64 bits.
#[derive(Drop)]
struct Fetches<'a> {
    symbols: &'a Symbols,
    tally: Tally,
    /// How many steps were counted.
    number: u64,
}

/// Counts the next step of a machine at the place where it is fetched.
fn count_next<C: CapRep>(
    symbols: &Symbols,
    machine: &Machine<C>,
    tally: &mut Tally,
) -> Result<(), AllocError>
    requires room { CountsTo (2 ^ 64 - 2) tally.old }
    ensures more { OnOk result (CountsMore symbols.now (fetches (Step ∷ []) machine.now) tally.old tally.new) }
    ensures most { (number : ℕ) → CountsTo number tally.old → OnOk result (CountsTo (number + 1) tally.new) }
{
    count_step(symbols, tally, pc(machine))
}

impl<C: CapRep> Watch<Machine<C>> for Fetches<'_> {
    type Fault = AllocError;

    ghost Saw = { λ events s a b. (b.symbols.now ≡ a.symbols.now) × Counted a.number b.number events
        × CountsMore a.symbols.now (fetches events s) a.tally b.tally };

    ghost Lost = { λ _ _ _ _ _. ⊥ };

    ghost Barred = { λ _ _ _ _ _. ⊤ };

    ghost Asked = { λ s a b. (b.symbols.now ≡ a.symbols.now) × Counted a.number b.number (Step ∷ [])
        × CountsMore a.symbols.now (fetches (Step ∷ []) s) a.tally b.tally };

    ghost IsReady = { λ w. CountsTo w.number w.tally };

    ghost pace_of = { λ _. record { speed = Each; most = 18446744073709551615 } };

    ghost stops_at = { λ w _. w.number == 18446744073709551615 };

    ghost starts = { λ s w. (refl, counted_none w.number, counts_none w.symbols.now w.tally) };

    ghost goes_on = { λ xs ys s u v w first later. (
      later.0 ∙ first.0,
      counted_more xs ys u.number v.number w.number first.1 later.1,
      counts_more xs ys s u.symbols.now v.symbols.now u.tally v.tally w.tally first.0 first.2 later.2,
    ) };

    ghost fails_later = { λ fault xs ys s u v w first later. later };

    ghost bars_later = { λ fault xs ys s u v w first later. tt };

    fn pace(&self) -> Pace {
        Pace::of(Speed::Each)
    }

    fn stops(&self, _machine: &Machine<C>, _planned: &Planned<C>) -> bool {
        self.number == u64::MAX
    }

    fn came(&mut self, _machine: &Machine<C>) {}

    fn passed(
        &mut self,
        _machine: &Machine<C>,
        _steps: u64,
        _sent: Option<u8>,
    ) -> Result<(), AllocError> {
        Ok(())
    }

    fn before(&mut self, machine: &Machine<C>, _planned: &Planned<C>) -> Result<(), AllocError> {
        if self.number == u64::MAX {
            return Ok(());
        }
        count_next(self.symbols, machine, &mut self.tally)?;
        self.number += 1;
        Ok(())
    }

    fn after(&mut self, _machine: &Machine<C>, _sent: Option<u8>) -> Result<(), AllocError> {
        Ok(())
    }
}

/// Runs a machine on a schedule, and answers the profile of its steps.
fn profile<C: CapRep, P: Progress>(
    alloc: Global,
    symbols: &Symbols,
    machine: &mut Machine<C>,
    schedule: Schedule,
    input: &[u8],
    progress: &mut P,
) -> Result<String, AllocError>
    requires range { IsRunnable schedule }
    requires running { is_halted machine.old ≡ false }
    ensures { IfOk result (λ text. IsProfile symbols.now (fetches (scheduled schedule input.now machine.old) machine.old)
        (string_bytes text)) }
{
    let mut watch = Fetches {
        symbols,
        tally: Tally::new(alloc),
        number: 0,
    };
    let Walking { how, steps } = walk_told(machine, schedule, input, &mut watch, progress);
    match how {
        How::Done | How::Halted => profile_of(alloc, symbols, steps, &watch.tally),
        // A schedule has fewer steps than have a number of 64 bits.
        How::Stopped => unreachable!(),
        How::Failed(_) => unreachable!(),
        How::Barred(fault) => Err(fault),
    }
}

/// The profile of the steps that a run of a machine does, which is run as by `run_before`: how many were fetched at each label, or in each
/// 4 KiB where no label is near, most first, and how many all are. What the machine sends is forgotten, and `progress` is told from time to
/// time how many steps were done. A step takes memory only where it is the first at its place.
///
/// # Errors
///
/// Out of memory.
pub fn profile_before<C: CapRep, P: Progress>(
    alloc: Global,
    symbols: &Symbols,
    machine: &mut Machine<C>,
    schedule: Schedule,
    input: &[u8],
    stop: Option<u64>,
    progress: &mut P,
) -> Result<String, AllocError>
    requires range { IsRunnable schedule }
    requires place { IfSome stop (IsPlaceOf schedule) }
    requires running { is_halted machine.old ≡ false }
    ensures { IfOk result (λ text. IsProfile symbols.now (fetches (events_before stop schedule input.now machine.old) machine.old)
        (string_bytes text)) }
{
    match stop {
        None => profile(alloc, symbols, machine, schedule, input, progress),
        // Before that step comes a byte at most, which is no step.
        Some(number) => {
            let first = schedule.first(number - 1);
            profile(alloc, symbols, machine, first, input, progress)
        }
    }
}
