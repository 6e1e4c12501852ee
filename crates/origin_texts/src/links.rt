//! The links of a session's past, window by window, and what is told of them.
ghost use Rattle.std.specs.Prelude.{◌≡◌, ◌≤◌, ℕ, List, OnOk, IfOk, map, option_copied, string_bytes};
ghost use Rattle.hart.specs.Opening.{opening};
ghost use Rattle.origins.specs.Places.{IsThere};
ghost use Rattle.origin_texts.specs.Held.{AreMet, IsStretch, newest_first};
ghost use Rattle.origin_texts.specs.Log.{AreLinks, Follows};
ghost use Rattle.origin_texts.specs.Origin.{history, told};
ghost use Rattle.origin_texts.specs.Stretches.{Told};
ghost use Rattle.past.specs.Given.{count_of};

use crate::chain::{Followed, follow};
use crate::log::{Link, log_of};
use crate::states::opening_machine;
use crate::stretch::Stretch;
use crate::told::{Telling, Told as ToldLink, tell};
use origins::Place;
use past::{Past, Replay};
use schedules::{Count, Progress};
use std::alloc::{AllocError, Global};
use symbols::Symbols;

/// The fewest and the most events of a window.
const NARROWEST: u64 = 131_072;

const WIDEST: u64 = 1_048_576;

/// How many events a window of a past has. Each is reached from the opening state, so that a long past has wide ones; each has a log.
pub(crate) fn window_of(events: u64) -> u64
    ensures { 1 ≤ result }
{
    (events / 16).clamp(NARROWEST, WIDEST)
}

/// The links of a window of events, and the place that is followed before it.
pub(crate) fn links_of<P: Progress>(
    alloc: Global,
    past: &Past,
    replay: Option<&Replay>,
    place: Place,
    from: u64,
    to: u64,
    counted: &mut Count<'_, P>,
) -> Result<Followed, AllocError>
    requires there { IsThere place (opening past.now.image) }
    requires order { from ≤ to }
    requires few { to ≤ count_of past.now.given }
    ensures { IfOk result (λ f. Follows (history past.now (option_copied replay.entry)) from to place f.links.items f.next) }
{
    let log = log_of(alloc, past, replay, from, to, counted)?;
    follow(alloc, &log, place, to)
}

/// What is told of links, the oldest first.
pub(crate) fn tell_links(
    telling: Telling,
    alloc: Global,
    symbols: &Symbols,
    past: &Past,
    replay: Option<&Replay>,
    mut links: Vec<Link>,
) -> Result<Vec<ToldLink>, AllocError>
    requires { (events : ℕ) × AreLinks (history past.now (option_copied replay)) events links.items }
    ensures { IfOk result (λ all. newest_first all.items
        ≡ map (told symbols.now past.now (option_copied replay.entry) telling) links.items) }
{
    // read, since its range is known
    let _count = past.count();
    let mut machine = opening_machine(alloc, past)?;
    let mut events = past.events(replay);
    let mut met = 0;
    let mut all = Vec::new(alloc);
    while let Some(link) = links.pop() {
        events.give(&mut machine, link.found.before - met);
        machine.hart();
        all.push(tell(telling, alloc, symbols, &mut machine, link)?)?;
        events.next_event();
        met = link.found.before + 1;
    }
    Ok(all)
}

/// Meets links of which this is told, the oldest first.
pub(crate) fn put_told(
    text: &mut String,
    stretch: &mut Stretch,
    told: Vec<ToldLink>,
) -> Result<(), AllocError>
    ensures { OnOk result ((first : List Told) → IsStretch stretch.old first
        → AreMet (string_bytes text.old) (string_bytes text.new) stretch.new first (newest_first told.items)) }
{
    let mut left = told;
    while let Some(newest) = left.pop() {
        stretch.meet(text, newest)?;
    }
    Ok(())
}
