//! Two watches together are a watch.

ghost use Rattle.std.specs.Prelude.{◌≡◌, ◌||◌};
ghost use Rattle.schedules.specs.Both.{BarredBoth, LostBoth};
ghost use Rattle.schedules.specs.BothLaws.{both_barred, both_lost};
ghost use Rattle.schedules.specs.Pace.{slower};

use crate::pace::Pace;
use crate::watch::Watch;
use cap_bounds::CapRep;
use hart::Planned;
use machine::Machine;

/// The one or the other.
#[derive(Clone, Copy, Debug, PartialEq, Eq)]
pub enum Either<F, G> {
    /// Of the first.
    First(F),
    /// Of the second.
    Second(G),
}

/// Two watches that are told of the same walk, the first of them first. The machine goes as fast as both let it.
#[derive(Drop)]
pub struct Both<A, B> {
    /// The first.
    pub first: A,
    /// The second.
    pub second: B,
}

impl<C: CapRep, A: Watch<Machine<C>>, B: Watch<Machine<C>>> Watch<Machine<C>> for Both<A, B> {
    type Fault = Either<A::Fault, B::Fault>;

    ghost Saw = { λ events s v w. A.Saw events s v.first w.first × B.Saw events s v.second w.second };

    ghost Lost = { λ fault events s v w. LostBoth A.Saw A.Lost B.Saw B.Lost B.Asked fault events s v.first w.first v.second w.second };

    ghost Barred = { λ fault events s v w.
        BarredBoth A.Saw A.Barred A.Asked B.Saw B.Barred fault events s v.first w.first v.second w.second };

    ghost Asked = { λ s v w. A.Asked s v.first w.first × B.Asked s v.second w.second };

    ghost IsReady = { λ w. A.IsReady w.first × B.IsReady w.second };

    ghost pace_of = { λ w. slower (A.pace_of w.first) (B.pace_of w.second) };

    ghost stops_at = { λ w s. A.stops_at w.first s || B.stops_at w.second s };

    ghost starts = { λ s w. (A.starts s w.first, B.starts s w.second) };

    ghost goes_on = { λ xs ys s u v w first later. (
      A.goes_on xs ys s u.first v.first w.first first.0 later.0,
      B.goes_on xs ys s u.second v.second w.second first.1 later.1,
    ) };

    ghost fails_later = { λ fault xs ys s u v w first later. both_lost A.Saw A.Lost A.Barred A.Asked B.Saw B.Lost B.Barred B.Asked A.goes_on
        A.fails_later A.bars_later B.goes_on B.fails_later B.bars_later xs ys s u.first v.first w.first u.second v.second w.second first.0
        first.1 fault later };

    ghost bars_later = { λ fault xs ys s u v w first later. both_barred A.Saw A.Lost A.Barred A.Asked B.Saw B.Lost B.Barred B.Asked
        A.goes_on
        A.fails_later A.bars_later B.goes_on B.fails_later B.bars_later xs ys s u.first v.first w.first u.second v.second w.second first.0
        first.1 fault later };

    fn pace(&self) -> Pace {
        self.first.pace().slower(self.second.pace())
    }

    fn stops(&self, machine: &Machine<C>, planned: &Planned<C>) -> bool {
        self.first.stops(machine, planned) || self.second.stops(machine, planned)
    }

    fn came(&mut self, machine: &Machine<C>) {
        self.first.came(machine);
        self.second.came(machine);
    }

    fn passed(
        &mut self,
        machine: &Machine<C>,
        steps: u64,
        sent: Option<u8>,
    ) -> Result<(), Either<A::Fault, B::Fault>> {
        match self.first.passed(machine, steps, sent) {
            Ok(()) => {}
            Err(fault) => return Err(Either::First(fault)),
        }
        match self.second.passed(machine, steps, sent) {
            Ok(()) => Ok(()),
            Err(fault) => Err(Either::Second(fault)),
        }
    }

    fn before(
        &mut self,
        machine: &Machine<C>,
        planned: &Planned<C>,
    ) -> Result<(), Either<A::Fault, B::Fault>> {
        match self.first.before(machine, planned) {
            Ok(()) => {}
            Err(fault) => return Err(Either::First(fault)),
        }
        match self.second.before(machine, planned) {
            Ok(()) => Ok(()),
            Err(fault) => Err(Either::Second(fault)),
        }
    }

    fn after(
        &mut self,
        machine: &Machine<C>,
        sent: Option<u8>,
    ) -> Result<(), Either<A::Fault, B::Fault>> {
        match self.first.after(machine, sent) {
            Ok(()) => {}
            Err(fault) => return Err(Either::First(fault)),
        }
        match self.second.after(machine, sent) {
            Ok(()) => Ok(()),
            Err(fault) => Err(Either::Second(fault)),
        }
    }
}
