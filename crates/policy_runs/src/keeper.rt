//! The watch of a run by rules.

ghost use Rattle.std.specs.Prelude.{false, [], ◌∷◌};
ghost use Rattle.steps.specs.declared.event.Event.TheVariants.{Step};
ghost use Rattle.policy.specs.Known.{IsWhole, Knows, Remembers, is_guarded};
ghost use Rattle.policy_runs.specs.Kept.{Kept, IsBarred, pace_at};
ghost use Rattle.policy_runs.specs.KeptLaws.{barred_later, kept_more, kept_none};

use cap_bounds::CapRep;
use machine::{Machine, Planned};
use policy::{Refused, Watcher};
use schedules::{Pace, Speed, Watch};
use std::alloc::Global;

/// Why a step is not done.
#[derive(Clone, Copy, Debug)]
pub(crate) enum Bar {
    /// A rule that applies is broken before it.
    Broken(Refused),
    /// There is no memory to find out whether one is, or what is in force after it.
    Memory,
}

/// A watch that bars the first step before which a rule is broken.
#[derive(Drop)]
pub(crate) struct Keeper<'r> {
    pub alloc: Global,
    pub watcher: Watcher<'r>,
}

impl<C: CapRep> Watch<Machine<C>> for Keeper<'_> {
    type Fault = Bar;

    ghost Saw = { λ events s v w. Kept Knows events s v.watcher w.watcher };

    ghost Lost = { λ _ _ _ _ _. ⊥ };

    ghost Barred = { λ bar events s v w. IsBarred bar events s v.watcher };

    ghost Asked = { λ s v w. Kept Remembers (Step ∷ []) s v.watcher w.watcher };

    ghost IsReady = { λ w. IsWhole w.watcher };

    ghost pace_of = { λ w. pace_at (is_guarded w.watcher.standing) };

    ghost stops_at = { λ _ _. false };

    ghost starts = { λ s w. kept_none s w.watcher };

    ghost goes_on = { λ xs ys s u v w first later. kept_more xs ys s u.watcher v.watcher first w.watcher later };

    ghost fails_later = { λ bar xs ys s u v w first later. later };

    ghost bars_later = { λ bar xs ys s u v w first later. barred_later xs ys s u.watcher v.watcher first bar later };

    fn pace(&self) -> Pace {
        if self.watcher.is_guarded() {
            Pace::of(Speed::Short(None))
        } else {
            Pace::of(Speed::Each)
        }
    }

    fn stops(&self, _machine: &Machine<C>, _planned: &Planned<C>) -> bool {
        false
    }

    fn came(&mut self, machine: &Machine<C>) {
        machine.hart();
    }

    fn passed(&mut self, machine: &Machine<C>, _steps: u64, _sent: Option<u8>) -> Result<(), Bar> {
        self.watcher.passed(machine);
        Ok(())
    }

    fn before(&mut self, machine: &Machine<C>, planned: &Planned<C>) -> Result<(), Bar> {
        match self.watcher.refusal(self.alloc, machine) {
            Ok(None) => {}
            Ok(Some(refused)) => return Err(Bar::Broken(refused)),
            Err(_) => return Err(Bar::Memory),
        }
        match self.watcher.note(self.alloc, machine, planned) {
            Ok(()) => Ok(()),
            Err(_) => Err(Bar::Memory),
        }
    }

    fn after(&mut self, machine: &Machine<C>, _sent: Option<u8>) -> Result<(), Bar> {
        self.watcher.look(machine);
        Ok(())
    }
}
