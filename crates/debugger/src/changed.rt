//! Steps while a place holds what it holds.
ghost use Rattle.std.specs.Prelude.{◌≡◌, ◌+◌, ◌≤◌, ◌&&◌, ◌++◌, not, false, length, vec_len, vec_capacity};
ghost use Rattle.machine.specs.Run.{run_after, run_sent};
ghost use Rattle.origins.specs.Places.{IsThere, held as held_at};
ghost use Rattle.past.specs.Position.{at, next_event, next_position, position_after};
ghost use Rattle.past.specs.Replay.{is_over};
ghost use Rattle.debugger.specs.Stepping.{holds, holds_on, is_done, steps_holding};

use cap_bounds::CapRep;
use cap_rights::equal_exact;
use machine::{Event, Machine, emit};
use origins::{Place, held};
use past::Replay;

/// Whether all steps of a schedule, if there is one, were given.
fn is_over(replay: &Option<Replay>) -> bool
    ensures { result ≡ is_over replay.now }
{
    match replay {
        Some(replay) => replay.is_over(),
        None => false,
    }
}

/// The next event of a session's steps. From here on it counts as given.
fn next_event(replay: &mut Option<Replay>, owed: &mut bool) -> Event
    requires { (is_over replay.old && not owed.old) ≡ false }
    ensures event { result ≡ next_event (at replay.old owed.old) }
    ensures position { at replay.new owed.new ≡ next_position (at replay.old owed.old) }
{
    if *owed {
        *owed = false;
        return Event::Tick;
    }
    let Some(replay) = replay else {
        return Event::Step;
    };
    match replay.take_byte() {
        Some(byte) => Event::Byte(byte),
        None => {
            *owed = replay.count_step();
            Event::Step
        }
    }
}

/// Whether nothing is given any more.
fn is_done<C: CapRep>(machine: &Machine<C>, replay: &Option<Replay>, owed: bool) -> bool
    ensures { result ≡ is_done (at replay.now owed) machine.now }
{
    machine.halted().is_some() || (is_over(replay) && !owed)
}

/// Whether a place holds a value.
fn holds<C: CapRep>(machine: &Machine<C>, place: Place, value: C) -> bool
    requires { IsThere place machine.now }
    ensures { result ≡ holds place (C.value value) machine.now }
{
    equal_exact(value, held(machine, place))
}

/// Whether one more event is given: some are left to give, the steps aren't at their end, and the place holds the value.
fn goes_on<C: CapRep>(
    machine: &Machine<C>,
    replay: &Option<Replay>,
    owed: bool,
    place: Place,
    value: C,
    left: u64,
) -> bool
    requires { IsThere place machine.now }
    ensures { result ≡ holds_on place (C.value value) left (at replay.now owed) machine.now }
{
    left > 0 && !is_done(machine, replay, owed) && holds(machine, place, value)
}

/// Gives events of a session's steps, so many at most, while a place holds what it holds, appends what is sent to the other bytes, for
/// which there is room, and answers how many events there were.
pub(crate) fn steps_holding<C: CapRep>(
    machine: &mut Machine<C>,
    replay: &mut Option<Replay>,
    owed: &mut bool,
    place: Place,
    most: u64,
    sent: &mut Vec<u8>,
) -> u64
    requires there { IsThere place machine.old }
    requires room { vec_len sent.old + most ≤ vec_capacity sent.old }
    ensures state { machine.new
        ≡ run_after (steps_holding place (held_at place machine.old) most (at replay.old owed.old) machine.old) machine.old }
    ensures bytes { sent.new.items ≡ sent.old.items
        ++ run_sent (steps_holding place (held_at place machine.old) most (at replay.old owed.old) machine.old) machine.old }
    ensures position { at replay.new owed.new
        ≡ position_after (length (steps_holding place (held_at place machine.old) most (at replay.old owed.old) machine.old))
        (at replay.old owed.old) }
    ensures count { result ≡ length (steps_holding place (held_at place machine.old) most (at replay.old owed.old) machine.old) }
    ensures few { result ≤ most }
    ensures len { vec_len sent.new ≤ vec_len sent.old + most }
{
    let value = held(machine, place);
    let mut left = most;
    while goes_on(machine, replay, *owed, place, value, left) {
        let event = next_event(replay, owed);
        let out = machine.event(event);
        emit(sent, out.byte);
        left -= 1;
    }
    most - left
}
