//! The events that a command gives, and the line that tells of them.
ghost use Rattle.std.specs.Prelude.{◌≡◌, ◌+◌, ◌-◌, ◌*◌, ◌^◌, ◌<◌, ◌≤◌, ◌++◌, IfOk, IfErr, IfSome, OnOk, OnErr, replicate, length};
ghost use Rattle.std.specs.Prelude.{vec_len, false};
ghost use Rattle.std.specs.Prelude.{string_bytes, string_len, string_capacity, option_map, vec_capacity};
ghost use Rattle.std.specs.List.{flat_map};
ghost use Rattle.steps.specs.declared.event.Event.TheVariants.{Step};
ghost use Rattle.machine.specs.Run.{run_after, run_sent};
ghost use Rattle.arrayvec.specs.ArrayString.{array_string_len};
ghost use Rattle.texts.specs.Hex.{hex_of};
ghost use Rattle.debugger.specs.Marked.{seen};
ghost use Rattle.debugger.specs.Reply.{after_events, events_line, given, given_at, given_of, given_on, marks_for, own_steps};
ghost use Rattle.debugger.specs.Reply.{owed_after, replay_after};
ghost use Rattle.debugger.specs.Reply.{with_tick};
ghost use Rattle.debugger.specs.Reply.{said_after, shown_end, shown_sent, standing};
ghost use Rattle.debugger.specs.Stepping.{counted_steps, most_sent};
ghost use Rattle.past.specs.Replay.{replayed};
ghost use Rattle.debugger.specs.Keeping.{HasBegun, IsChangeThere, begun_past, kept_last};
ghost use Rattle.debugger.specs.Lines.{given_part, most_of};
ghost use Rattle.past.specs.Given.{count_of, count_of_one};
ghost use Rattle.debug_commands.specs.Limits.{AreWithinLimits};

use crate::changed::steps_holding;
use crate::marks::{Mark, marks_of};
use crate::stepping::{pass, pc, said_after, steps_replayed, steps_while};
use crate::timeline::Timeline;
use arrayvec::ArrayString;
use cap_bounds::CapRep;
use debug_commands::{DebugFault, Events, Stop};
use machine::{Event, Machine, emit};
use past::{Given, Past, Replay};
use schedules::{Count, Progress};
use std::alloc::{AllocError, Global};
use symbols::{Symbols, labelled};
use texts::Piece::{Decimal, Hexadecimal, Text};
use texts::{append, text};

/// The bytes that a line of events has at most, besides two for each byte that was sent.
const LINE_ROOM: usize = 720;

/// Gives an event so many times, and appends what is sent to the other bytes, for which there is room.
fn repeat<C: CapRep>(machine: &mut Machine<C>, event: Event, times: u64, sent: &mut Vec<u8>)
    requires { vec_len sent.old + times ≤ vec_capacity sent.old }
    ensures state { machine.new ≡ run_after (replicate times event) machine.old }
    ensures bytes { sent.new.items ≡ sent.old.items ++ run_sent (replicate times event) machine.old }
    ensures len { vec_len sent.new ≤ vec_len sent.old + times }
{
    let mut left = times;
    while left > 0 {
        let out = machine.event(event);
        emit(sent, out.byte);
        left -= 1;
    }
}

/// Gives so many steps, and appends what they send to the other bytes, for which there is room.
fn steps<C: CapRep>(machine: &mut Machine<C>, times: u64, sent: &mut Vec<u8>)
    requires { vec_len sent.old + times ≤ vec_capacity sent.old }
    ensures state { machine.new ≡ run_after (replicate times Step) machine.old }
    ensures bytes { sent.new.items ≡ sent.old.items ++ run_sent (replicate times Step) machine.old }
    ensures len { vec_len sent.new ≤ vec_len sent.old + times }
{
    let mut left = times;
    while left > 0 {
        let met = machine.advance(left);
        emit(sent, met.byte);
        left -= met.steps;
    }
}

/// The most bytes that so many steps up to a stop send.
#[tactic(auto, unfolding(crate::specs::Stepping::most_sent))]
fn most_sent(steps: u64) -> u64
    ensures value { result ≡ most_sent steps }
    ensures bound { result ≤ 1000000 }
{
    steps.min(1_000_000)
}

/// The most bytes that a command's events send.
fn most_bytes(events: Events) -> u64
    requires { AreWithinLimits events }
    ensures value { result ≡ most_of events }
    ensures bound { result ≤ 1000000 }
{
    match events {
        Events::Steps(n) | Events::Ticks(n) => n,
        Events::Until { most, .. } | Events::Go { most } => most_sent(most),
        Events::Changed { most, .. } => most,
        Events::Byte(_) => 1,
    }
}

/// Gives so many steps, with the schedule of a session, if there is one, or without, and answers how many events there were.
fn give_steps<C: CapRep, P: Progress>(
    machine: &mut Machine<C>,
    replay: &mut Option<Replay>,
    times: u64,
    sent: &mut Vec<u8>,
    counted: &mut Count<'_, P>,
) -> u64
    requires room { vec_len sent.old + times ≤ vec_capacity sent.old }
    requires few { times ≤ 1000000 }
    ensures state { machine.new ≡ run_after (counted_steps replay.old times machine.old) machine.old }
    ensures bytes { sent.new.items ≡ sent.old.items ++ run_sent (counted_steps replay.old times machine.old) machine.old }
    ensures replay { replay.new ≡ option_map (replayed (counted_steps replay.old times machine.old)) replay.old }
    ensures count { result ≡ length (counted_steps replay.old times machine.old) }
    ensures len { vec_len sent.new ≤ vec_len sent.old + times }
{
    let none: [Mark<C>; 0] = [];
    match replay {
        Some(replay) => steps_replayed(
            machine, replay, &none, &none, false, times, times, sent, counted,
        ),
        None => {
            steps(machine, times, sent);
            times
        }
    }
}

/// What a command's stops watch as it stands when the command begins.
fn marks_for<C: CapRep>(
    alloc: Global,
    machine: &Machine<C>,
    stops: &[Stop],
    events: Events,
) -> Result<Vec<Mark<C>>, AllocError>
    ensures { IfOk result (λ marks. seen C.value marks.items ≡ marks_for events stops.now machine.now) }
{
    match events {
        Events::Until { stop, .. } => marks_of(alloc, machine, &[stop]),
        Events::Go { .. } => marks_of(alloc, machine, stops),
        _ => Ok(Vec::new(alloc)),
    }
}

/// Gives steps of a command with the schedule of a session, if there is one, or without, appends what is sent to the other bytes, and
/// answers how many events there were.
#[tactic(auto, unfolding(crate::specs::Reply::own_steps))]
fn give_own<C: CapRep, P: Progress>(
    machine: &mut Machine<C>,
    replay: &mut Option<Replay>,
    marks: &[Mark<C>],
    events: Events,
    sent: &mut Vec<u8>,
    counted: &mut Count<'_, P>,
) -> u64
    requires room { vec_len sent.old + most_of events ≤ vec_capacity sent.old }
    requires limits { AreWithinLimits events }
    ensures state { machine.new ≡ run_after (own_steps events replay.old (seen C.value marks.now) machine.old) machine.old }
    ensures bytes { sent.new.items
        ≡ sent.old.items ++ run_sent (own_steps events replay.old (seen C.value marks.now) machine.old) machine.old }
    ensures replay { replay.new ≡ option_map (replayed (own_steps events replay.old (seen C.value marks.now) machine.old)) replay.old }
    ensures count { result ≡ length (own_steps events replay.old (seen C.value marks.now) machine.old) }
    ensures few { result ≤ 4000000000000 }
    ensures len { vec_len sent.new ≤ vec_len sent.old + most_of events }
{
    match events {
        Events::Steps(n) => give_steps(machine, replay, n, sent, counted),
        Events::Until { most, .. } => {
            let room = most_sent(most);
            steps_while(
                machine, replay, marks, marks, false, most, room, sent, counted,
            )
        }
        Events::Go { most } => {
            let none: [Mark<C>; 0] = [];
            let room = most_sent(most);
            steps_while(
                machine, replay, &none, marks, true, most, room, sent, counted,
            )
        }
        Events::Ticks(_) => 0,
        Events::Byte(_) => 0,
        Events::Changed { .. } => 0,
    }
}

/// Gives the tick that is to come yet, if one is, and then steps of a command, appends what they send to the other bytes, and answers how
/// many events there were. After them no tick is to come.
fn give_paid<C: CapRep, P: Progress>(
    machine: &mut Machine<C>,
    replay: &mut Option<Replay>,
    owed: &mut bool,
    marks: &[Mark<C>],
    events: Events,
    sent: &mut Vec<u8>,
    counted: &mut Count<'_, P>,
) -> u64
    requires room { vec_len sent.old + most_of events ≤ vec_capacity sent.old }
    requires limits { AreWithinLimits events }
    ensures state { machine.new ≡ run_after (with_tick events replay.old owed.old (seen C.value marks.now) machine.old) machine.old }
    ensures bytes { sent.new.items
        ≡ sent.old.items ++ run_sent (with_tick events replay.old owed.old (seen C.value marks.now) machine.old) machine.old }
    ensures replay { replay.new
        ≡ option_map (replayed (with_tick events replay.old owed.old (seen C.value marks.now) machine.old)) replay.old }
    ensures owed { owed.new ≡ false }
    ensures count { result ≡ length (with_tick events replay.old owed.old (seen C.value marks.now) machine.old) }
    ensures few { result ≤ 4000000000001 }
    ensures len { vec_len sent.new ≤ vec_len sent.old + most_of events }
{
    let ticks = pass(machine, *owed);
    *owed = false;
    ticks + give_own(machine, replay, marks, events, sent, counted)
}

/// What a past keeps of so many events of a command.
fn given_of(events: Events, count: u64) -> Given
    ensures { result ≡ given_of events count }
{
    match events {
        Events::Ticks(_) => Given::Ticks(count),
        Events::Byte(byte) => Given::Byte(byte),
        Events::Steps(_) | Events::Until { .. } | Events::Changed { .. } | Events::Go { .. } => {
            Given::Steps(count)
        }
    }
}

/// Gives the events of a command, appends what is sent to the other bytes, and answers how many there were: the timeline without its past.
#[tactic(auto, unfolding(crate::specs::Reply::given, crate::specs::Reply::replay_after, crate::specs::Reply::owed_after))]
fn give<C: CapRep, P: Progress>(
    machine: &mut Machine<C>,
    replay: &mut Option<Replay>,
    owed: &mut bool,
    marks: &[Mark<C>],
    events: Events,
    sent: &mut Vec<u8>,
    counted: &mut Count<'_, P>,
) -> u64
    requires room { vec_len sent.old + most_of events ≤ vec_capacity sent.old }
    requires limits { AreWithinLimits events }
    requires there { IsChangeThere events machine.old }
    ensures state { machine.new ≡ run_after (given events replay.old owed.old (seen C.value marks.now) machine.old) machine.old }
    ensures bytes { sent.new.items
        ≡ sent.old.items ++ run_sent (given events replay.old owed.old (seen C.value marks.now) machine.old) machine.old }
    ensures replay { replay.new ≡ replay_after events (given events replay.old owed.old (seen C.value marks.now) machine.old) replay.old }
    ensures owed { owed.new
        ≡ owed_after events (given events replay.old owed.old (seen C.value marks.now) machine.old) replay.old owed.old machine.old }
    ensures count { result ≡ length (given events replay.old owed.old (seen C.value marks.now) machine.old) }
    ensures few { result ≤ 4000000000001 }
    ensures len { vec_len sent.new ≤ vec_len sent.old + most_of events }
{
    match events {
        Events::Ticks(n) => {
            repeat(machine, Event::Tick, n, sent);
            n
        }
        Events::Byte(byte) => {
            repeat(machine, Event::Byte(byte), 1, sent);
            1
        }
        Events::Changed { place, most } => {
            let count = steps_holding(machine, replay, owed, place, most, sent);
            *owed = *owed && machine.halted().is_none();
            count
        }
        _ => give_paid(machine, replay, owed, marks, events, sent, counted),
    }
}

/// The most events that a past keeps before one more command: far more than a session is ever given.
const MOST_KEPT: u64 = 1 << 63;

/// Makes room for one more command in a past, which counts as one without events.
fn begin(past: &mut Option<Past>) -> Result<(), AllocError>
    ensures past { OnOk result (past.new ≡ option_map begun_past past.old) }
    ensures few { OnOk result (IfSome past.old (λ p. count_of p.given ≤ 2 ^ 63)) }
    ensures same { OnErr result (past.new ≡ past.old) }
{
    let Some(past) = past else {
        return Ok(());
    };
    if past.count() > MOST_KEPT {
        return Err(AllocError);
    }
    past.push(Given::Steps(0))
}

/// Keeps what the command gave.
fn keep(past: &mut Option<Past>, given: Given)
    requires begun { HasBegun past.old }
    requires few { count_of_one given ≤ 4000000000001 }
    ensures { past.new ≡ option_map (kept_last given) past.old }
{
    if let Some(past) = past {
        past.set_last(given);
    }
}

/// Gives the events of a command to a timeline, appends what is sent to the other bytes, for which there is room, and answers how many
/// there were. Where there is no memory in its past nothing is given.
fn give_all<C: CapRep, P: Progress>(
    timeline: &mut Timeline<C>,
    marks: &[Mark<C>],
    events: Events,
    sent: &mut Vec<u8>,
    counted: &mut Count<'_, P>,
) -> Result<u64, AllocError>
    requires room { vec_len sent.old + most_of events ≤ vec_capacity sent.old }
    requires limits { AreWithinLimits events }
    requires there { IsChangeThere events timeline.old.machine }
    ensures state { OnOk result (timeline.new ≡ after_events events (given_at events (seen C.value marks.now) timeline.old) timeline.old) }
    ensures bytes { OnOk result (sent.new.items
        ≡ sent.old.items ++ run_sent (given_at events (seen C.value marks.now) timeline.old) timeline.old.machine) }
    ensures count { IfOk result (λ count. count ≡ length (given_at events (seen C.value marks.now) timeline.old)) }
    ensures len { OnOk result (vec_len sent.new ≤ vec_len sent.old + most_of events) }
    ensures same { OnErr result (timeline.new ≡ timeline.old) }
{
    begin(&mut timeline.past)?;
    let count = give(
        &mut timeline.machine,
        &mut timeline.replay,
        &mut timeline.owed,
        marks,
        events,
        sent,
        counted,
    );
    keep(&mut timeline.past, given_of(events, count));
    Ok(count)
}

/// Appends bytes, two digits each, to a text.
fn append_pairs(text: &mut String, bytes: &[u8]) -> Result<(), AllocError>
    ensures bytes { OnOk result (string_bytes text.new ≡ string_bytes text.old ++ flat_map (hex_of 2) bytes.now) }
    ensures len { OnOk result (string_len text.new ≤ string_len text.old + 2 * length bytes.now) }
    ensures capacity { string_capacity text.old ≤ string_capacity text.new }
    ensures full { OnErr result (string_capacity text.old < string_len text.old + 2 * length bytes.now) }
{
    for byte in bytes {
        append(text, &[Hexadecimal(2, u128::from(*byte))])?;
    }
    Ok(())
}

/// Appends the bytes that were sent to a text, or `-` where there are none.
fn append_sent(text: &mut String, bytes: &[u8]) -> Result<(), AllocError>
    ensures bytes { OnOk result (string_bytes text.new ≡ string_bytes text.old ++ shown_sent bytes.now) }
    ensures len { OnOk result (string_len text.new ≤ string_len text.old + 2 * length bytes.now + 1) }
    ensures capacity { string_capacity text.old ≤ string_capacity text.new }
    ensures full { OnErr result (string_capacity text.old < string_len text.old + 2 * length bytes.now + 1) }
{
    match bytes {
        [] => append(text, &[Text("-")]),
        [_, ..] => append_pairs(text, bytes),
    }
}

/// How a machine stands.
fn end_text(halted: Option<u64>) -> ArrayString<27>
    ensures text { result.bytes ≡ shown_end halted }
    ensures within { array_string_len result ≤ 27 }
{
    match halted {
        Some(number) => text(&[Text("halted "), Decimal(number)]),
        None => text(&[Text("running")]),
    }
}

/// Where a machine stands, with the line of a source there, where it is known, as a line ends.
#[tactic(auto, unfolding(crate::specs::Reply::standing))]
pub(crate) fn place_text<C: CapRep>(symbols: &Symbols, machine: &Machine<C>) -> ArrayString<568>
    ensures text { result.bytes ≡ standing symbols.now machine.now }
    ensures within { array_string_len result ≤ 568 }
{
    let place = labelled(Some(symbols), pc(machine));
    let end = end_text(machine.halted());
    let source = symbols.source_of(pc(machine));
    text(&[
        Text(" pc "),
        Text(place.as_str()),
        Text(" "),
        Text(end.as_str()),
        Text(source.as_str()),
        Text("\n"),
    ])
}

/// Appends what is said after a line to a text.
fn append_said(text: &mut String, said: &str) -> Result<(), AllocError>
    ensures bytes { OnOk result (string_bytes text.new ≡ string_bytes text.old ++ said.now) }
    ensures full { OnErr result (string_capacity text.old < string_len text.old + length said.now) }
{
    append(text, &[Text(said)])
}

/// Appends the line that tells of so many events and of what they sent to a text, and what is said after it.
fn append_events<C: CapRep>(
    text: &mut String,
    symbols: &Symbols,
    machine: &Machine<C>,
    count: u64,
    sent: &[u8],
    said: &str,
) -> Result<(), AllocError>
    requires { length said.now ≤ 50 }
    ensures bytes { OnOk result (string_bytes text.new
        ≡ string_bytes text.old ++ (given_part count sent.now ++ standing symbols.now machine.now ++ said.now)) }
    ensures full { OnErr result (string_capacity text.old < string_len text.old + 2 * length sent.now + 720) }
{
    let place = place_text(symbols, machine);
    append(text, &[Text("events "), Decimal(count), Text(" out ")])?;
    append_sent(text, sent)?;
    append(text, &[Text(place.as_str())])?;
    append_said(text, said)
}

/// Gives the events of a command, where it is known what the command's stops watch.
fn told_at<C: CapRep, P: Progress>(
    alloc: Global,
    timeline: &mut Timeline<C>,
    symbols: &Symbols,
    marks: &[Mark<C>],
    events: Events,
    counted: &mut Count<'_, P>,
) -> Result<String, DebugFault>
    requires limits { AreWithinLimits events }
    requires there { IsChangeThere events timeline.old.machine }
    ensures text { IfOk result (λ text. string_bytes text
        ≡ events_line symbols.now (given_at events (seen C.value marks.now) timeline.old) timeline.old.machine
        ++ said_after events (seen C.value marks.now)
        (run_after (given_at events (seen C.value marks.now) timeline.old) timeline.old.machine)) }
    ensures state { OnOk result (timeline.new ≡ after_events events (given_at events (seen C.value marks.now) timeline.old) timeline.old) }
    ensures err { IfErr result (λ fault. fault ≡ DebugFault.B4) }
    ensures same { OnErr result (timeline.new ≡ timeline.old) }
{
    let most = most_bytes(events) as usize;
    let mut sent = Vec::with_capacity(alloc, most)?;
    let mut text = String::with_capacity(alloc, 2 * most + LINE_ROOM)?;
    let count = give_all(timeline, marks, events, &mut sent, counted)?;
    let said = said_after(&timeline.machine, marks, events);
    match append_events(&mut text, symbols, &timeline.machine, count, &sent, said) {
        Ok(()) => Ok(text),
        Err(_) => unreachable!(),
    }
}

/// Gives the events of a command, and answers the line that tells of them and what is said after it.
///
/// The line's room, and that in the past, is made before the first event: B4 says that there is no memory for it, and then no event is
/// given.
pub(crate) fn told_events<C: CapRep, P: Progress>(
    alloc: Global,
    timeline: &mut Timeline<C>,
    symbols: &Symbols,
    stops: &[Stop],
    events: Events,
    counted: &mut Count<'_, P>,
) -> Result<String, DebugFault>
    requires limits { AreWithinLimits events }
    requires there { IsChangeThere events timeline.old.machine }
    ensures text { IfOk result (λ text. string_bytes text
        ≡ events_line symbols.now (given_on events stops.now timeline.old) timeline.old.machine
        ++ said_after events (marks_for events stops.now timeline.old.machine)
        (run_after (given_on events stops.now timeline.old) timeline.old.machine)) }
    ensures state { OnOk result (timeline.new ≡ after_events events (given_on events stops.now timeline.old) timeline.old) }
    ensures err { IfErr result (λ fault. fault ≡ DebugFault.B4) }
    ensures same { OnErr result (timeline.new ≡ timeline.old) }
{
    let marks = marks_for(alloc, &timeline.machine, stops, events)?;
    told_at(alloc, timeline, symbols, &marks, events, counted)
}
