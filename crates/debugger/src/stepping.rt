//! Steps up to where they stop.
ghost use Rattle.std.specs.Prelude.{◌≡◌, ◌+◌, ◌-◌, ◌*◌, ◌%◌, ◌<◌, ◌≤◌, ◌++◌, length, option_map, option_to_list, vec_len, vec_capacity};
ghost use Rattle.std.specs.Prelude.{[], ◌∷◌, ◌&&◌, not, if◌then◌else◌, true, false, IfSome, IfNone, OnSome, None, Some};
ghost use Rattle.special_regs.specs.Scrs.{scr_value};
ghost use Rattle.steps.specs.declared.event.Event.TheVariants.{Step, Tick};
ghost use Rattle.steps.specs.Event.{sent as sent_at};
ghost use Rattle.steps.specs.State.{pc_of};
ghost use Rattle.steps.specs.Applying.{IsPlanned};
ghost use Rattle.machine.specs.Run.{run_after, run_sent};
ghost use Rattle.schedules.specs.Schedule.{is_halted};
ghost use Rattle.sim_run.specs.Stopping.{is_stop as is_trap_met};
ghost use Rattle.sim_run.specs.declared.stopping.StopAt.TheVariants.{Unfetched};
ghost use Rattle.debugger.specs.Reply.{said_after};
ghost use Rattle.debugger.specs.Marked.{ends_at, seen};
ghost use Rattle.debugger.specs.Stepping.{is_at_end, step_events};
ghost use Rattle.debugger.specs.Stops.{is_any_stop, is_end};
ghost use Rattle.past.specs.Replay.{byte_events, is_over, replayed, step_done};
ghost use Rattle.debugger.specs.Stepping.{steps_while as steps_while_of};
ghost use Rattle.debugger.specs.Lines.{goes_on};

use crate::marks::{Mark, is_any_stop, window_at};
use cap_bounds::CapRep;
use debug_commands::Events;
use machine::{Event, Machine, Planned};
use past::Replay;
use schedules::{Count, Progress, STRIDE};
use sim_run::{StopAt, stops_before};

/// The number of PCC.
const PCC: u8 = 0;

/// PCC's address.
#[tactic(auto, unfolding(special_regs::specs::Scrs::scr_value))]
pub(crate) fn pc<C: CapRep>(machine: &Machine<C>) -> u64
    ensures value { result ≡ pc_of machine.now }
    ensures aligned { result % 4 ≡ 0 }
{
    machine.scr(PCC).address()
}

/// Whether a machine that isn't halted, and whose next step was planned, is where steps end: at one of some stops, or, where it says so,
/// before a trap whose entry can't be fetched.
fn is_end<C: CapRep>(
    machine: &Machine<C>,
    marks: &[Mark<C>],
    unfetched: bool,
    planned: &Planned<C>,
) -> bool
    requires planned { IsPlanned C.value planned.now.effect machine.now }
    requires running { machine.now.devices.halted ≡ None }
    ensures { result ≡ is_end (ends_at C.value marks.now unfetched) machine.now }
{
    is_any_stop(machine, marks, planned)
        || (unfetched && stops_before(machine, planned, StopAt::Unfetched, false))
}

/// Whether the next step is a trap whose entry can't be fetched, and no stop holds there.
fn is_before_unfetched<C: CapRep>(machine: &Machine<C>, marks: &[Mark<C>]) -> bool
    ensures { result ≡ (is_trap_met Unfetched false machine.now && not (is_any_stop (seen C.value marks.now) machine.now)) }
{
    if machine.halted().is_some() {
        return false;
    }
    let planned = machine.next();
    stops_before(machine, &planned, StopAt::Unfetched, false)
        && !is_any_stop(machine, marks, &planned)
}

/// What a command says after its events, beside the line that tells of them.
pub(crate) fn said_after<C: CapRep>(
    machine: &Machine<C>,
    marks: &[Mark<C>],
    events: Events,
) -> &'static str
    ensures text { result.now ≡ said_after events (seen C.value marks.now) machine.now }
    ensures bound { length result.now ≤ 50 }
{
    match events {
        Events::Go { .. } => {
            if is_before_unfetched(machine, marks) {
                "before a trap whose entry can't be fetched\n"
            } else {
                ""
            }
        }
        _ => "",
    }
}

/// Appends the byte that a step sent, if it sent one, to the others, for which there is room, and answers how many that are.
fn keep_sent(sent: &mut Vec<u8>, byte: Option<u8>) -> u64
    requires { vec_len sent.old < vec_capacity sent.old }
    ensures items { sent.new.items ≡ sent.old.items ++ option_to_list byte }
    ensures count { result ≡ length (option_to_list byte) }
    ensures bound { result ≤ 1 }
    ensures len { vec_len sent.new ≡ vec_len sent.old + result }
    ensures room { vec_capacity sent.old ≤ vec_capacity sent.new }
{
    match byte {
        Some(byte) => {
            sent.push(byte).unwrap();
            1
        }
        None => 0,
    }
}

/// The next step that is given without a schedule, planned: there is one while fewer steps were given and bytes sent than the most, the
/// machine isn't halted, and it isn't where steps end.
fn next_given<C: CapRep>(
    machine: &Machine<C>,
    marks: &[Mark<C>],
    unfetched: bool,
    left: u64,
    room: u64,
) -> Option<Planned<C>>
    ensures planned { IfSome result (λ planned. IsPlanned C.value planned.effect machine.now) }
    ensures given { OnSome result (goes_on (ends_at C.value marks.now unfetched) left room machine.now ≡ true) }
    ensures stopped { IfNone result (goes_on (ends_at C.value marks.now unfetched) left room machine.now ≡ false) }
    ensures few { OnSome result (0 < left) }
    ensures some { OnSome result (0 < room) }
{
    if left == 0 || room == 0 || machine.halted().is_some() {
        return None;
    }
    let planned = machine.next();
    if is_end(machine, marks, unfetched, &planned) {
        return None;
    }
    Some(planned)
}

/// Gives steps of one run while they don't end, at most so many, and answers how many there were. They send nothing.
fn run_towards<C: CapRep>(
    machine: &mut Machine<C>,
    marks: &[Mark<C>],
    unfetched: bool,
    most: u64,
    room: u64,
) -> u64
    ensures few { result ≤ most }
    ensures state { run_after (steps_while_of (ends_at C.value marks.now unfetched) (ends_at C.value marks.now unfetched)
        None (most - result) room machine.new) machine.new
        ≡ run_after (steps_while_of (ends_at C.value marks.now unfetched) (ends_at C.value marks.now unfetched)
        None most room machine.old) machine.old }
    ensures bytes { run_sent (steps_while_of (ends_at C.value marks.now unfetched) (ends_at C.value marks.now unfetched)
        None (most - result) room machine.new) machine.new
        ≡ run_sent (steps_while_of (ends_at C.value marks.now unfetched) (ends_at C.value marks.now unfetched)
        None most room machine.old) machine.old }
    ensures count { result + length (steps_while_of (ends_at C.value marks.now unfetched) (ends_at C.value marks.now unfetched)
        None (most - result) room machine.new)
        ≡ length (steps_while_of (ends_at C.value marks.now unfetched) (ends_at C.value marks.now unfetched) None most room machine.old) }
{
    if room == 0 {
        return 0;
    }
    match window_at(marks, pc(machine)) {
        Some(window) => machine.advance_between(window.low, window.high, most.min(STRIDE)),
        None => 0,
    }
}

/// Gives steps without a schedule until the machine is where they end or is halted, at most so many, and at most so many that send a
/// byte. Counts them, and answers how many there were. Before the first of them they end elsewhere than later: at the first stops alone.
fn steps_until<C: CapRep, P: Progress>(
    machine: &mut Machine<C>,
    first: &[Mark<C>],
    later: &[Mark<C>],
    unfetched: bool,
    most: u64,
    most_sent: u64,
    sent: &mut Vec<u8>,
    counted: &mut Count<'_, P>,
) -> u64
    requires { vec_len sent.old + most_sent ≤ vec_capacity sent.old }
    ensures state { machine.new
        ≡ run_after (steps_while_of (ends_at C.value first.now false)
        (ends_at C.value later.now unfetched) None most most_sent machine.old) machine.old }
    ensures bytes { sent.new.items
        ≡ sent.old.items ++ run_sent (steps_while_of (ends_at C.value first.now false) (ends_at C.value later.now unfetched)
        None most most_sent machine.old) machine.old }
    ensures count { result ≡ length (steps_while_of (ends_at C.value first.now false)
        (ends_at C.value later.now unfetched) None most most_sent machine.old) }
    ensures len { vec_len sent.new ≤ vec_len sent.old + most_sent }
{
    let mut marks = first;
    let mut ends_unfetched = false;
    let mut left = most;
    let mut room = most_sent;
    while let Some(planned) = next_given(machine, marks, ends_unfetched, left, room) {
        let out = machine.apply(planned);
        room -= keep_sent(sent, out.byte);
        marks = later;
        ends_unfetched = unfetched;
        left -= 1;
        let fast = run_towards(machine, later, unfetched, left, room);
        counted.pass(1 + fast);
        left -= fast;
    }
    most - left
}

/// Gives the byte before the next step of a schedule, if one is due, and answers how many events that are.
fn bring<C: CapRep>(machine: &mut Machine<C>, replay: &mut Replay) -> u64
    requires { is_over (Some replay.old) ≡ false }
    ensures state { machine.new ≡ run_after (byte_events (Some replay.old)) machine.old }
    ensures replay { replay.new ≡ replayed (byte_events (Some replay.old)) replay.old }
    ensures more { is_over (Some replay.new) ≡ false }
    ensures halted { machine.new.devices.halted ≡ machine.old.devices.halted }
    ensures count { result ≡ length (byte_events (Some replay.old)) }
    ensures bound { result ≤ 1 }
{
    match replay.take_byte() {
        Some(byte) => {
            machine.event(Event::Byte(byte));
            1
        }
        None => 0,
    }
}

/// Whether a tick that is due comes: not after the halt.
fn comes<C: CapRep>(machine: &Machine<C>, due: bool) -> bool
    ensures { result ≡ (due && not (is_halted machine.now)) }
{
    due && machine.halted().is_none()
}

/// Gives a tick, if one comes, and answers how many events that are.
pub(crate) fn pass<C: CapRep>(machine: &mut Machine<C>, ticks: bool) -> u64
    ensures state { machine.new ≡ run_after (if ticks then Tick ∷ [] else []) machine.old }
    ensures count { result ≡ length (if ticks then Tick ∷ [] else []) }
    ensures bound { result ≤ 1 }
{
    if ticks {
        machine.event(Event::Tick);
        return 1;
    }
    0
}

/// Whether no more is given.
fn is_at_end<C: CapRep>(machine: &Machine<C>, replay: &Replay, room: u64) -> bool
    ensures { result ≡ is_at_end (Some replay.now) room machine.now }
{
    replay.is_over() || room == 0 || machine.halted().is_some()
}

/// What a step on a schedule came to.
#[derive(Clone, Copy)]
struct Turn {
    /// The step, and the tick after it if one was due: how many events.
    events: u64,
    /// How many bytes were sent.
    sent: u64,
}

/// Gives the next step of a schedule, which was planned, and the tick after it, if one is due and the machine isn't halted.
fn give_step<C: CapRep>(
    machine: &mut Machine<C>,
    replay: &mut Replay,
    planned: Planned<C>,
    sent: &mut Vec<u8>,
) -> Turn
    requires planned { IsPlanned C.value planned.effect machine.old }
    requires more { is_over (Some replay.old) ≡ false }
    requires room { vec_len sent.old < vec_capacity sent.old }
    ensures state { machine.new ≡ run_after (step_events (Some replay.old) machine.old) machine.old }
    ensures replay { replay.new ≡ step_done replay.old }
    ensures bytes { sent.new.items ≡ sent.old.items ++ option_to_list (sent_at Step machine.old) }
    ensures count { result.events ≡ length (step_events (Some replay.old) machine.old) }
    ensures few { result.events ≤ 2 }
    ensures sent { result.sent ≡ length (option_to_list (sent_at Step machine.old)) }
    ensures one { result.sent ≤ 1 }
    ensures len { vec_len sent.new ≡ vec_len sent.old + result.sent }
    ensures capacity { vec_capacity sent.old ≤ vec_capacity sent.new }
{
    let out = machine.apply(planned);
    let sent = keep_sent(sent, out.byte);
    let due = replay.count_step();
    let ticks = comes(machine, due);
    let events = 1 + pass(machine, ticks);
    Turn { events, sent }
}

/// The same as `steps_until` on a schedule: each step with the byte before it and the tick after it. Answers how many events there were.
pub(crate) fn steps_replayed<C: CapRep, P: Progress>(
    machine: &mut Machine<C>,
    replay: &mut Replay,
    first: &[Mark<C>],
    later: &[Mark<C>],
    unfetched: bool,
    most: u64,
    most_sent: u64,
    sent: &mut Vec<u8>,
    counted: &mut Count<'_, P>,
) -> u64
    requires room { vec_len sent.old + most_sent ≤ vec_capacity sent.old }
    requires few { most ≤ 1000000000000 }
    ensures state { machine.new ≡ run_after (steps_while_of (ends_at C.value first.now false) (ends_at C.value later.now unfetched)
        (Some replay.old) most most_sent machine.old) machine.old }
    ensures bytes { sent.new.items
        ≡ sent.old.items ++ run_sent (steps_while_of (ends_at C.value first.now false) (ends_at C.value later.now unfetched)
        (Some replay.old) most most_sent machine.old) machine.old }
    ensures replay { replay.new ≡ replayed (steps_while_of (ends_at C.value first.now false) (ends_at C.value later.now unfetched)
        (Some replay.old) most most_sent machine.old) replay.old }
    ensures count { result
        ≡ length (steps_while_of (ends_at C.value first.now false) (ends_at C.value later.now unfetched)
        (Some replay.old) most most_sent machine.old) }
    ensures len { vec_len sent.new ≤ vec_len sent.old + most_sent }
{
    let mut marks = first;
    let mut ends_unfetched = false;
    let mut left = most;
    let mut room = most_sent;
    let mut count = 0;
    while left > 0 && !is_at_end(machine, replay, room) {
        count += bring(machine, replay);
        let planned = machine.next();
        if is_end(machine, marks, ends_unfetched, &planned) {
            return count;
        }
        let met = give_step(machine, replay, planned, sent);
        count += met.events;
        room -= met.sent;
        counted.pass(1);
        marks = later;
        ends_unfetched = unfetched;
        left -= 1;
    }
    count
}

/// The same with the schedule of a session, if there is one, or without.
pub(crate) fn steps_while<C: CapRep, P: Progress>(
    machine: &mut Machine<C>,
    replay: &mut Option<Replay>,
    first: &[Mark<C>],
    later: &[Mark<C>],
    unfetched: bool,
    most: u64,
    most_sent: u64,
    sent: &mut Vec<u8>,
    counted: &mut Count<'_, P>,
) -> u64
    requires room { vec_len sent.old + most_sent ≤ vec_capacity sent.old }
    requires few { most ≤ 1000000000000 }
    ensures state { machine.new
        ≡ run_after (steps_while_of (ends_at C.value first.now false) (ends_at C.value later.now unfetched)
        replay.old most most_sent machine.old) machine.old }
    ensures bytes { sent.new.items
        ≡ sent.old.items ++ run_sent (steps_while_of (ends_at C.value first.now false) (ends_at C.value later.now unfetched)
        replay.old most most_sent machine.old) machine.old }
    ensures replay { replay.new
        ≡ option_map (replayed (steps_while_of (ends_at C.value first.now false) (ends_at C.value later.now unfetched)
        replay.old most most_sent machine.old))
        replay.old }
    ensures count { result ≡ length (steps_while_of (ends_at C.value first.now false)
        (ends_at C.value later.now unfetched) replay.old most most_sent machine.old) }
    ensures len { vec_len sent.new ≤ vec_len sent.old + most_sent }
{
    match replay {
        Some(replay) => steps_replayed(
            machine, replay, first, later, unfetched, most, most_sent, sent, counted,
        ),
        None => steps_until(
            machine, first, later, unfetched, most, most_sent, sent, counted,
        ),
    }
}
