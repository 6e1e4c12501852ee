//! A machine that is walked over a schedule: the one loop over its steps, with the bytes before them and the ticks after them.

ghost use Rattle.std.specs.Prelude.{◌≡◌, ◌≤◌, ◌<◌, ◌+◌, ◌-◌, ◌++◌, [], true, false, replicate, option_to_list};
ghost use Rattle.steps.specs.declared.event.Event.TheVariants.{Step};
ghost use Rattle.machine.specs.Run.{run_after, run_sent};
ghost use Rattle.steps.specs.State.{State};
ghost use Rattle.schedules.specs.Schedule.{is_halted, AreAlone, IsRunnable};
ghost use Rattle.schedules.specs.declared.pace.How.TheVariants.{Done};
ghost use Rattle.schedules.specs.Whole.{Whole};
ghost use Rattle.schedules.specs.Pace.{GoBy, most_of};
ghost use Rattle.schedules.specs.Walk.{coming, rest, ticking, AreRunning, IsBeforeStep, Ends, EndsBlock, EndsSteps, EndsTurn};
ghost use Rattle.schedules.specs.Walk.{Met, StaysReady, Walked, WentBy};

use crate::pace::{How, Speed};
use crate::position::Position;
use crate::schedule::Schedule;
use crate::watch::Watch;
use cap_bounds::CapRep;
use machine::{Event, Machine};

/// How many steps were done, and how they ended.
struct Went<F> {
    steps: u64,
    how: How<F>,
}

/// Asks a watch before the next step, does it, and tells the watch of it.
fn step<C: CapRep, V: Watch<Machine<C>>>(machine: &mut Machine<C>, watch: &mut V) -> Went<V::Fault>
    requires running { is_halted machine.old ≡ false }
    requires ready { V.IsReady watch.old }
    ensures few { result.steps ≤ 1 }
    ensures went { WentBy V.Saw V.Lost V.Barred result.how result.steps machine.old machine.new watch.old watch.new }
    ensures ready { StaysReady V.IsReady result.how watch.new }
    ensures ends { EndsTurn V.stops_at result.how result.steps machine.new watch.new }
{
    let planned = machine.next();
    if watch.stops(machine, &planned) {
        return Went {
            steps: 0,
            how: How::Stopped,
        };
    }
    match watch.before(machine, &planned) {
        Ok(()) => {}
        Err(fault) => {
            return Went {
                steps: 0,
                how: How::Barred(fault),
            };
        }
    }
    let out = machine.apply(planned);
    match watch.after(machine, out.byte) {
        Ok(()) => Went {
            steps: 1,
            how: How::Done,
        },
        Err(fault) => Went {
            steps: 1,
            how: How::Failed(fault),
        },
    }
}

/// Tells a watch of steps that went at once.
fn tell<C: CapRep, V: Watch<Machine<C>>>(
    machine: &Machine<C>,
    steps: u64,
    sent: Option<u8>,
    watch: &mut V,
) -> Went<V::Fault>
    requires some { 1 ≤ steps }
    requires few { steps ≤ most_of (V.pace_of watch.old) }
    requires ready { V.IsReady watch.old }
    ensures steps { result.steps ≡ steps }
    ensures told { (s : State) → machine.now ≡ run_after (replicate steps Step) s → run_sent (replicate steps Step) s ≡ option_to_list sent
        → run_sent (replicate (steps - 1) Step) s ≡ [] → GoBy (V.pace_of watch.old).speed steps s → AreRunning steps s
        → WentBy V.Saw V.Lost V.Barred result.how steps s machine.now watch.old watch.new }
    ensures ready { StaysReady V.IsReady result.how watch.new }
    ensures ends { EndsTurn V.stops_at result.how result.steps machine.now watch.new }
{
    match watch.passed(machine, steps, sent) {
        Ok(()) => Went {
            steps,
            how: How::Done,
        },
        Err(fault) => Went {
            steps,
            how: How::Failed(fault),
        },
    }
}

/// Does a step at least, and so many at most, as fast as a watch lets it.
fn turn<C: CapRep, V: Watch<Machine<C>>>(
    machine: &mut Machine<C>,
    most: u64,
    watch: &mut V,
) -> Went<V::Fault>
    requires some { 1 ≤ most }
    requires running { is_halted machine.old ≡ false }
    requires ready { V.IsReady watch.old }
    ensures few { result.steps ≤ most }
    ensures went { WentBy V.Saw V.Lost V.Barred result.how result.steps machine.old machine.new watch.old watch.new }
    ensures ready { StaysReady V.IsReady result.how watch.new }
    ensures ends { EndsTurn V.stops_at result.how result.steps machine.new watch.new }
{
    let pace = watch.pace();
    let most = most.min(pace.most());
    match pace.speed {
        Speed::Each => step(machine, watch),
        Speed::Short(stop) => {
            let steps = machine.advance_short_of(stop, most);
            if steps == 0 {
                return step(machine, watch);
            }
            tell(machine, steps, None, watch)
        }
        Speed::Any => {
            let met = machine.advance(most);
            tell(machine, met.steps, met.byte, watch)
        }
    }
}

/// Does so many steps, unless the machine is halted or the watch ends them.
fn go<C: CapRep, V: Watch<Machine<C>>>(
    machine: &mut Machine<C>,
    count: u64,
    watch: &mut V,
) -> Went<V::Fault>
    requires running { is_halted machine.old ≡ false }
    requires ready { V.IsReady watch.old }
    ensures few { result.steps ≤ count }
    ensures went { WentBy V.Saw V.Lost V.Barred result.how result.steps machine.old machine.new watch.old watch.new }
    ensures ready { StaysReady V.IsReady result.how watch.new }
    ensures ends { EndsSteps V.stops_at count result.how result.steps machine.new watch.new }
{
    let mut done = 0;
    while done < count {
        let Went { steps, how } = turn(machine, count - done, watch);
        done += steps;
        match how {
            How::Done => {}
            how => return Went { steps: done, how },
        }
        if machine.halted().is_some() {
            return Went {
                steps: done,
                how: How::Halted,
            };
        }
    }
    Went {
        steps: done,
        how: How::Done,
    }
}

/// Gives the byte before the next step, if one comes and has not come yet.
fn bring<C: CapRep, V: Watch<Machine<C>>>(
    machine: &mut Machine<C>,
    schedule: Schedule,
    input: &[u8],
    position: Position,
    watch: &mut V,
)
    requires gap { 1 ≤ schedule.gap }
    requires more { position.done < schedule.steps }
    requires ready { V.IsReady watch.old }
    ensures met { Met V.Saw V.Lost V.Barred Done (coming schedule input.now position.brought (position.done + 1)) machine.old machine.new
        watch.old watch.new }
    ensures halted { is_halted machine.new ≡ is_halted machine.old }
    ensures ready { V.IsReady watch.new }
{
    if position.brought {
        return;
    }
    if let Some(byte) = schedule.byte_before(input, position.done + 1) {
        machine.event(Event::Byte(byte));
        watch.came(machine);
    }
}

/// Gives the tick that is due, if one is.
fn pay<C: CapRep, V: Watch<Machine<C>>>(machine: &mut Machine<C>, due: bool, watch: &mut V)
    requires ready { V.IsReady watch.old }
    ensures met { Met V.Saw V.Lost V.Barred Done (ticking due) machine.old machine.new watch.old watch.new }
    ensures halted { is_halted machine.new ≡ is_halted machine.old }
    ensures ready { V.IsReady watch.new }
{
    if due {
        machine.event(Event::Tick);
        watch.came(machine);
    }
}

/// Where a walk stands after so many of the steps up to the next byte or tick.
fn stand(schedule: Schedule, input: &[u8], position: Position, count: u64, steps: u64) -> Position
    requires few { steps ≤ count }
    requires some { 1 ≤ count }
    requires all { position.done + count ≤ schedule.steps }
    requires alone { AreAlone schedule input.now position.done count }
    requires owed { position.owed ≡ false }
    ensures rest { rest schedule input.now position
        ≡ coming schedule input.now position.brought (position.done + 1) ++ (replicate steps Step ++ rest schedule input.now result) }
    ensures done { result.done ≡ position.done + steps }
    ensures next { steps < count → IsBeforeStep schedule result }
{
    let done = position.done + steps;
    if steps < count {
        Position {
            done,
            brought: true,
            owed: false,
        }
    } else {
        Position {
            done,
            brought: false,
            owed: schedule.is_tick_after(done),
        }
    }
}

/// Does the steps up to the next byte or tick, with the byte before them and the tick after them.
fn meet<C: CapRep, V: Watch<Machine<C>>>(
    machine: &mut Machine<C>,
    schedule: Schedule,
    input: &[u8],
    position: &mut Position,
    watch: &mut V,
) -> How<V::Fault>
    requires range { IsRunnable schedule }
    requires more { position.old.done < schedule.steps }
    requires owed { position.old.owed ≡ false }
    requires running { is_halted machine.old ≡ false }
    requires ready { V.IsReady watch.old }
    ensures walked { Walked V.Saw V.Lost V.Barred schedule input.now result position.old position.new machine.old machine.new watch.old
        watch.new }
    ensures ends { EndsBlock V.stops_at schedule result position.old position.new machine.new watch.new }
    ensures done { position.new.done ≤ schedule.steps }
    ensures ready { StaysReady V.IsReady result watch.new }
{
    bring(machine, schedule, input, *position, watch);
    let count = schedule.steps_alone(input, position.done);
    let Went { steps, how } = go(machine, count, watch);
    *position = stand(schedule, input, *position, count, steps);
    match how {
        How::Done => {
            pay(machine, position.owed, watch);
            position.owed = false;
            How::Done
        }
        how => how,
    }
}

/// Walks a machine on from a position where no tick is owed.
fn walk_on<C: CapRep, V: Watch<Machine<C>>>(
    machine: &mut Machine<C>,
    schedule: Schedule,
    input: &[u8],
    position: &mut Position,
    watch: &mut V,
) -> How<V::Fault>
    requires range { IsRunnable schedule }
    requires done { position.old.done ≤ schedule.steps }
    requires owed { position.old.owed ≡ false }
    requires running { is_halted machine.old ≡ false }
    requires ready { V.IsReady watch.old }
    ensures walked { Walked V.Saw V.Lost V.Barred schedule input.now result position.old position.new machine.old machine.new watch.old
        watch.new }
    ensures ends { Ends V.stops_at schedule input.now result position.new machine.new watch.new }
    ensures done { position.new.done ≤ schedule.steps }
    ensures ready { StaysReady V.IsReady result watch.new }
{
    while position.done < schedule.steps {
        match meet(machine, schedule, input, position, watch) {
            How::Done => {}
            how => return how,
        }
    }
    How::Done
}

/// Walks a machine over a schedule, with the bytes of an input, from a position on: as fast as the watch lets it, which is told of each
/// event. Answers how it ended.
pub fn walk<C: CapRep, V: Watch<Machine<C>>>(
    machine: &mut Machine<C>,
    schedule: Schedule,
    input: &[u8],
    position: &mut Position,
    watch: &mut V,
) -> How<V::Fault>
    requires range { IsRunnable schedule }
    requires done { position.old.done ≤ schedule.steps }
    requires running { is_halted machine.old ≡ false }
    requires ready { V.IsReady watch.old }
    ensures walked { Walked V.Saw V.Lost V.Barred schedule input.now result position.old position.new machine.old machine.new watch.old
        watch.new }
    ensures ends { Ends V.stops_at schedule input.now result position.new machine.new watch.new }
    ensures done { position.new.done ≤ schedule.steps }
    ensures ready { StaysReady V.IsReady result watch.new }
{
    pay(machine, position.owed, watch);
    position.owed = false;
    walk_on(machine, schedule, input, position, watch)
}

/// What a walk over a whole schedule came to.
pub struct Walking<F> {
    /// How it ended.
    pub how: How<F>,
    /// How many steps were done.
    pub steps: u64,
}

/// Walks a machine over a whole schedule.
pub fn walk_whole<C: CapRep, V: Watch<Machine<C>>>(
    machine: &mut Machine<C>,
    schedule: Schedule,
    input: &[u8],
    watch: &mut V,
) -> Walking<V::Fault>
    requires range { IsRunnable schedule }
    requires running { is_halted machine.old ≡ false }
    requires ready { V.IsReady watch.old }
    ensures whole { Whole V.Saw V.Lost V.Barred V.stops_at schedule input.now result.how result.steps machine.old machine.new watch.old
        watch.new }
    ensures few { result.steps ≤ schedule.steps }
{
    let mut position = Position {
        done: 0,
        brought: false,
        owed: false,
    };
    let how = walk(machine, schedule, input, &mut position, watch);
    Walking {
        how,
        steps: position.done,
    }
}
