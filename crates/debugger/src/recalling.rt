//! Commands that go back, and that show what came before.
ghost use Rattle.std.specs.Prelude.{◌≡◌, ◌⊎◌, ◌≤◌, ◌++◌, false, true, None, Some, IfOk, IfErr, OnOk, OnErr, option_copied, string_bytes};
ghost use Rattle.debug_commands.specs.declared.command.Back.TheVariants.{By};
ghost use Rattle.debug_commands.specs.declared.command.Command.TheVariants.{Back, Recalls};
ghost use Rattle.debug_commands.specs.Limits.{IsRecalledWithinLimits};
ghost use Rattle.debugger.specs.Keeping.{IsAnchored, IsRecalledThere, timeline};
ghost use Rattle.debugger.specs.Reply.{back_line, is_beyond, is_beyond_past, is_outside, recalled as recalled_text};
ghost use Rattle.debugger.specs.Reply.{distance_in, events_back, lacks_stop, recalled_in, taken_back};
ghost use Rattle.debugger.specs.SessionState.{HasItsPast};
ghost use Rattle.past.specs.Given.{count_of};

use crate::last_stop::since_stop;
use crate::marks::marks_of;
use crate::run::place_text;
use crate::timeline::Timeline;
use cap_bounds::CapRep;
use debug_commands::{Back as Distance, Command, DebugFault, Recall, Stop};
use machine::Machine;
use origin_texts::{put_calls, put_lost, put_origin};
use past::{Anchor, Past, Replay};
use schedules::{Count, Progress};
use std::alloc::{AllocError, Global};
use symbols::Symbols;
use texts::Piece::{Decimal, Text};
use texts::append;
use word_cap::WordCap;

/// The most events that a search goes through.
const MOST_SEARCHED: u64 = 100_000_000;

/// Whether a past has fewer events than are to be taken back, or more than a search goes through.
fn is_beyond_past(past: &Past, command: Command) -> bool
    ensures { result ≡ is_beyond_past command past.now }
{
    match command {
        Command::Back(Distance::By(events)) => past.count() < events,
        Command::Back(Distance::ToStop)
        | Command::Recalls(Recall::Origin(_) | Recall::Lost(_) | Recall::Calls) => {
            past.count() > MOST_SEARCHED
        }
        _ => false,
    }
}

/// Whether a session was given too few events for a command, or too many, or has no past that it needs.
pub(crate) fn is_beyond<C: CapRep>(timeline: &Timeline<C>, command: Command) -> bool
    ensures { result ≡ is_beyond command timeline.now.past }
{
    match &timeline.past {
        Some(past) => is_beyond_past(past, command),
        None => matches!(command, Command::Back(_) | Command::Recalls(_)),
    }
}

/// Appends what is shown of a past.
#[tactic(auto, unfolding(crate::specs::Reply::recalled))]
fn append_recalled<P: Progress>(
    text: &mut String,
    alloc: Global,
    symbols: &Symbols,
    past: &Past,
    replay: Option<&Replay>,
    recall: Recall,
    counted: &mut Count<'_, P>,
) -> Result<(), AllocError>
    requires { IsRecalledThere recall past.now }
    ensures { OnOk result (string_bytes text.new
        ≡ string_bytes text.old ++ recalled_text symbols.now recall past.now (option_copied replay.entry)) }
{
    match recall {
        Recall::Ago => append(text, &[Text("events "), Decimal(past.count()), Text("\n")]),
        Recall::Origin(place) => put_origin(text, alloc, symbols, past, replay, place, counted),
        Recall::Lost(place) => put_lost(text, alloc, symbols, past, replay, place, counted),
        Recall::Calls => put_calls(text, alloc, symbols, past, replay, counted),
    }
}

/// The text of what is shown of a session's past, or B4.
pub(crate) fn recalled<P: Progress>(
    alloc: Global,
    timeline: &Timeline<WordCap>,
    symbols: &Symbols,
    recall: Recall,
    counted: &mut Count<'_, P>,
) -> Result<String, DebugFault>
    requires limits { IsRecalledWithinLimits recall }
    requires inside { is_outside (Recalls recall) timeline.now.machine ≡ false }
    ensures text { IfOk result (λ text. string_bytes text ≡ recalled_in symbols.now recall timeline.now.past timeline.now.replay) }
    ensures err { IfErr result (λ fault. fault ≡ DebugFault.B4) }
{
    let mut text = String::new(alloc);
    if let Some(past) = &timeline.past {
        append_recalled(
            &mut text,
            alloc,
            symbols,
            past,
            timeline.replay.as_ref(),
            recall,
            counted,
        )?;
    }
    Ok(text)
}

/// Takes the parts of a timeline back to where they stood before the last events, and appends the line that tells of it. Where there is no
/// memory nothing is taken back.
fn take_back(
    text: &mut String,
    alloc: Global,
    symbols: &Symbols,
    machine: &mut Machine<WordCap>,
    replay: &mut Option<Replay>,
    owed: &mut bool,
    past: &mut Past,
    anchor: &mut Option<Anchor<WordCap>>,
    events: u64,
) -> Result<(), AllocError>
    requires few { events ≤ count_of past.old.given }
    requires anchor { IsAnchored anchor.old (Some past.old) replay.old }
    ensures text { OnOk result (string_bytes text.new ≡ string_bytes text.old ++ back_line symbols.now events machine.new) }
    ensures state { OnOk result (timeline machine.new replay.new owed.new (Some past.new)
        ≡ taken_back events (timeline machine.old replay.old owed.old (Some past.old))) }
    ensures stands { OnOk result (HasItsPast (timeline machine.new replay.new owed.new (Some past.new))) }
    ensures same { OnErr result (timeline machine.new replay.new owed.new (Some past.new)
        ≡ timeline machine.old replay.old owed.old (Some past.old)) }
    ensures anchor { IsAnchored anchor.new (Some past.new) replay.new }
{
    let left = past.count() - events;
    let Ok((then, player)) = past.machine_by(alloc, replay.as_ref(), left, anchor) else {
        return Err(AllocError);
    };
    let place = place_text(symbols, &then);
    append(
        text,
        &[
            Text("events -"),
            Decimal(events),
            Text(" out -"),
            Text(place.as_str()),
        ],
    )?;
    let (done, brought, is_owed) = (player.done(), player.brought(), player.owed());
    if let Some(replay) = replay {
        replay.stand_at(done, brought);
    }
    *owed = is_owed && then.halted().is_none();
    past.keep(left);
    *machine = then;
    Ok(())
}

/// The room of the line that tells of events taken back, which is made first, lest an anchor take it.
const BACK_ROOM: usize = 640;

/// Takes back so many events, and answers the line that tells of it: B4 where there is no memory, and then nothing is taken back.
fn told_back_by(
    alloc: Global,
    timeline: &mut Timeline<WordCap>,
    symbols: &Symbols,
    events: u64,
) -> Result<String, DebugFault>
    requires { is_beyond (Back (By events)) timeline.old.past ≡ false }
    ensures text { IfOk result (λ text. string_bytes text ≡ back_line symbols.now events (taken_back events timeline.old).machine) }
    ensures state { OnOk result (timeline.new ≡ taken_back events timeline.old) }
    ensures err { IfErr result (λ fault. fault ≡ DebugFault.B4) }
    ensures same { OnErr result (timeline.new ≡ timeline.old) }
{
    let mut text = String::with_capacity(alloc, BACK_ROOM)?;
    let Some(past) = &mut timeline.past else {
        return Err(DebugFault::B4);
    };
    take_back(
        &mut text,
        alloc,
        symbols,
        &mut timeline.machine,
        &mut timeline.replay,
        &mut timeline.owed,
        past,
        &mut timeline.anchor,
        events,
    )?;
    Ok(text)
}

/// How many events a command takes back: B2 where it goes to a stop and none holds at a place before, B4 where there is no memory.
fn distance_in<P: Progress>(
    alloc: Global,
    timeline: &Timeline<WordCap>,
    stops: &[Stop],
    distance: Distance,
    counted: &mut Count<'_, P>,
) -> Result<u64, DebugFault>
    requires { is_beyond (Back distance) timeline.now.past ≡ false }
    ensures ok { IfOk result (λ n. distance_in distance stops.now timeline.now ≡ Some n) }
    ensures few { IfOk result (λ n. is_beyond (Back (By n)) timeline.now.past ≡ false) }
    ensures err { IfErr result (λ fault. (fault ≡ DebugFault.B4)
        ⊎ ((fault ≡ DebugFault.B2) × (distance_in distance stops.now timeline.now ≡ None))) }
{
    match distance {
        Distance::By(events) => Ok(events),
        Distance::ToStop => {
            let marks = marks_of(alloc, &timeline.machine, stops)?;
            since_stop(
                alloc,
                &timeline.past,
                timeline.replay.as_ref(),
                &marks,
                counted,
            )
        }
    }
}

/// Takes back the last events, and answers the line that tells of it: B2 where they go back to a stop and none holds at a place before, B4
/// where there is no memory. Then nothing is taken back.
pub(crate) fn told_back<P: Progress>(
    alloc: Global,
    timeline: &mut Timeline<WordCap>,
    symbols: &Symbols,
    stops: &[Stop],
    distance: Distance,
    counted: &mut Count<'_, P>,
) -> Result<String, DebugFault>
    requires { is_beyond (Back distance) timeline.old.past ≡ false }
    ensures text { IfOk result (λ text. string_bytes text ≡ back_line symbols.now (events_back distance stops.now timeline.old)
        (taken_back (events_back distance stops.now timeline.old) timeline.old).machine) }
    ensures state { OnOk result (timeline.new ≡ taken_back (events_back distance stops.now timeline.old) timeline.old) }
    ensures stop { OnOk result (lacks_stop (Back distance) stops.now timeline.old ≡ false) }
    ensures err { IfErr result (λ fault. (fault ≡ DebugFault.B4)
        ⊎ ((fault ≡ DebugFault.B2) × (lacks_stop (Back distance) stops.now timeline.old ≡ true))) }
    ensures same { OnErr result (timeline.new ≡ timeline.old) }
{
    let events = distance_in(alloc, timeline, stops, distance, counted)?;
    told_back_by(alloc, timeline, symbols, events)
}
