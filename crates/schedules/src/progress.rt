//! Walks that tell how far they came.

ghost use Rattle.std.proofs.Common.{◌∙◌};
ghost use Rattle.std.specs.Prelude.{◌≡◌, ◌≤◌, false, refl};
ghost use Rattle.schedules.specs.Pace.{slower};
ghost use Rattle.schedules.specs.Schedule.{is_halted, IsRunnable};
ghost use Rattle.schedules.specs.Whole.{Whole};
ghost use Rattle.schedules.specs.declared.pace.Speed.TheVariants.{Any};

use crate::pace::{Pace, Speed};
use crate::schedule::Schedule;
use crate::walking::{Walking, walk_whole};
use crate::watch::Watch;
use cap_bounds::CapRep;
use hart::Planned;
use machine::Machine;

/// The most steps at once of a machine whose steps are counted: progress is told at most once in so many.
pub const STRIDE: u64 = 1_000_000;

/// Whoever waits for a walk to end.
pub trait Progress {
    /// So many steps of it were done.
    fn tell(&mut self, steps: u64);
}

/// Nobody waits.
#[derive(Clone, Copy, Debug, Drop)]
pub struct Nobody;

impl Progress for Nobody {
    fn tell(&mut self, _steps: u64) {}
}

/// How many steps of a walk were done, and how many of them are still to be told.
#[derive(Drop)]
pub struct Count<'a, P> {
    progress: &'a mut P,
    done: u64,
    untold: u64,
}

impl<'a, P: Progress> Count<'a, P> {
    /// No step was done yet.
    pub fn new(progress: &'a mut P) -> Self {
        Count {
            progress,
            done: 0,
            untold: 0,
        }
    }

    /// Counts steps that were done, and tells of all where it is time to.
    pub fn pass(&mut self, steps: u64) {
        self.done = self.done.saturating_add(steps);
        self.untold = self.untold.saturating_add(steps);
        if self.untold >= STRIDE {
            self.untold = 0;
            self.progress.tell(self.done);
        }
    }
}

/// A watch, and a count of the steps that it is told of.
#[derive(Drop)]
struct Counted<'v, 'p, V, P> {
    watch: &'v mut V,
    count: Count<'p, P>,
}

impl<C: CapRep, V: Watch<Machine<C>>, P: Progress> Watch<Machine<C>> for Counted<'_, '_, V, P> {
    type Fault = V::Fault;

    ghost Saw = { λ events s v w. (w.watch.ghost_name ≡ v.watch.ghost_name) × V.Saw events s v.watch.now w.watch.now };

    ghost Lost = { λ fault events s v w. (w.watch.ghost_name ≡ v.watch.ghost_name) × V.Lost fault events s v.watch.now w.watch.now };

    ghost Barred = { λ fault events s v w. (w.watch.ghost_name ≡ v.watch.ghost_name) × V.Barred fault events s v.watch.now w.watch.now };

    ghost Asked = { λ s v w. (w.watch.ghost_name ≡ v.watch.ghost_name) × V.Asked s v.watch.now w.watch.now };

    ghost IsReady = { λ w. V.IsReady w.watch.now };

    ghost pace_of = { λ w. slower (V.pace_of w.watch.now) (record { speed = Any; most = 1000000 }) };

    ghost stops_at = { λ w s. V.stops_at w.watch.now s };

    ghost starts = { λ s w. (refl, V.starts s w.watch.now) };

    ghost goes_on = { λ xs ys s u v w first later. (
      later.0 ∙ first.0,
      V.goes_on xs ys s u.watch.now v.watch.now w.watch.now first.1 later.1,
    ) };

    ghost fails_later = { λ fault xs ys s u v w first later. (
      later.0 ∙ first.0,
      V.fails_later fault xs ys s u.watch.now v.watch.now w.watch.now first.1 later.1,
    ) };

    ghost bars_later = { λ fault xs ys s u v w first later. (
      later.0 ∙ first.0,
      V.bars_later fault xs ys s u.watch.now v.watch.now w.watch.now first.1 later.1,
    ) };

    fn pace(&self) -> Pace {
        self.watch.pace().slower(Pace {
            speed: Speed::Any,
            most: STRIDE,
        })
    }

    fn stops(&self, machine: &Machine<C>, planned: &Planned<C>) -> bool {
        self.watch.stops(machine, planned)
    }

    fn came(&mut self, machine: &Machine<C>) {
        self.watch.came(machine);
    }

    fn passed(
        &mut self,
        machine: &Machine<C>,
        steps: u64,
        sent: Option<u8>,
    ) -> Result<(), V::Fault> {
        self.count.pass(steps);
        self.watch.passed(machine, steps, sent)
    }

    fn before(&mut self, machine: &Machine<C>, planned: &Planned<C>) -> Result<(), V::Fault> {
        self.watch.before(machine, planned)
    }

    fn after(&mut self, machine: &Machine<C>, sent: Option<u8>) -> Result<(), V::Fault> {
        self.count.pass(1);
        self.watch.after(machine, sent)
    }
}

/// Walks a machine over a whole schedule as `walk_whole` does, and tells `progress` from time to time how many steps were done.
pub fn walk_told<C: CapRep, V: Watch<Machine<C>>, P: Progress>(
    machine: &mut Machine<C>,
    schedule: Schedule,
    input: &[u8],
    watch: &mut V,
    progress: &mut P,
) -> Walking<V::Fault>
    requires range { IsRunnable schedule }
    requires running { is_halted machine.old ≡ false }
    requires ready { V.IsReady watch.old }
    ensures whole { Whole V.Saw V.Lost V.Barred V.stops_at schedule input.now result.how result.steps machine.old machine.new watch.old
        watch.new }
    ensures few { result.steps ≤ schedule.steps }
{
    let mut counted = Counted {
        watch,
        count: Count::new(progress),
    };
    walk_whole(machine, schedule, input, &mut counted)
}
