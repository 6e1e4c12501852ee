//! Where a value came from.
ghost use Rattle.std.specs.Prelude.{◌≡◌, ◌++◌, ◌≤◌, [], ℕ, List, Some, OnOk, IfOk, IfSome, option_copied, string_bytes};
ghost use Rattle.hart.specs.Opening.{opening};
ghost use Rattle.origins.specs.Places.{IsThere};
ghost use Rattle.origin_texts.specs.Origin as spec;
ghost use Rattle.origin_texts.specs.Chain.{no_links};
ghost use Rattle.origin_texts.specs.Held.{IsStretch};
ghost use Rattle.origin_texts.specs.Log.{chain_from};
ghost use Rattle.origin_texts.specs.Origin.{history, opening_line};
ghost use Rattle.origin_texts.specs.Put.{IsPut};
ghost use Rattle.past.specs.Given.{count_of};

use crate::chain::Followed;
use crate::link::append_opening;
use crate::links::{links_of, put_told, tell_links, window_of};
use crate::states::opening_machine;
use crate::stretch::Stretch;
use crate::told::Telling;
use origins::Place;
use past::{Past, Replay};
use schedules::{Count, Progress};
use std::alloc::{AllocError, Global};
use symbols::Symbols;

/// Meets the links of a window of events, and answers the place that is followed before it.
fn put_window<P: Progress>(
    text: &mut String,
    stretch: &mut Stretch,
    alloc: Global,
    symbols: &Symbols,
    past: &Past,
    replay: Option<&Replay>,
    place: Place,
    from: u64,
    to: u64,
    counted: &mut Count<'_, P>,
) -> Result<Option<Place>, AllocError>
    requires there { IsThere place (opening past.now.image) }
    requires order { from ≤ to }
    requires few { to ≤ count_of past.now.given }
    ensures there { IfOk result (λ next. IfSome next (λ p. IsThere p (opening past.now.image))) }
    ensures text { IfOk result (λ next. (whole : List ℕ)
        → IsPut symbols.now past.now (option_copied replay.entry) (string_bytes text.old) stretch.old
        (chain_from (history past.now (option_copied replay.entry)) (Some place) to) whole
        → IsPut symbols.now past.now (option_copied replay.entry) (string_bytes text.new) stretch.new
        (chain_from (history past.now (option_copied replay.entry)) next from) whole) }
{
    let Followed { links, next } = links_of(alloc, past, replay, place, from, to, counted)?;
    let told = tell_links(Telling::OfLinks, alloc, symbols, past, replay, links)?;
    put_told(text, stretch, told)?;
    Ok(next)
}

/// Meets all links, window by window from the last on, and answers the place of the opening state that they lead down to.
fn put_links<P: Progress>(
    text: &mut String,
    stretch: &mut Stretch,
    alloc: Global,
    symbols: &Symbols,
    past: &Past,
    replay: Option<&Replay>,
    place: Place,
    counted: &mut Count<'_, P>,
) -> Result<Option<Place>, AllocError>
    requires there { IsThere place (opening past.now.image) }
    ensures there { IfOk result (λ next. IfSome next (λ p. IsThere p (opening past.now.image))) }
    ensures text { IfOk result (λ next. IsStretch stretch.old []
        → IsPut symbols.now past.now (option_copied replay.entry) (string_bytes text.new) stretch.new (no_links next)
        (string_bytes text.old ++ spec.origin_text symbols.now past.now (option_copied replay.entry) place)) }
{
    let mut place = place;
    let mut left = past.count();
    let window = window_of(left);
    while left > 0 {
        let to = left;
        left = to.saturating_sub(window);
        let Some(from) = put_window(
            text, stretch, alloc, symbols, past, replay, place, left, to, counted,
        )?
        else {
            return Ok(None);
        };
        place = from;
    }
    Ok(Some(place))
}

/// Appends what the opening state has at the place that links lead down to.
fn put_opening(
    text: &mut String,
    alloc: Global,
    symbols: &Symbols,
    past: &Past,
    next: Option<Place>,
) -> Result<(), AllocError>
    requires { IfSome next (λ p. IsThere p (opening past.now.image)) }
    ensures { OnOk result (string_bytes text.new ≡ string_bytes text.old ++ opening_line symbols.now past.now next) }
{
    match next {
        Some(place) => append_opening(text, symbols, &opening_machine(alloc, past)?, place),
        None => Ok(()),
    }
}

/// Appends how what a place holds came to be: the last event that wrote it, and so on with its source, down to the opening state of the
/// image or to a number. Each is one line; of more than three one after the other that are told alike the newest and the oldest have
/// theirs, and one line counts those between.
///
/// The events are gone over once, in windows from the last on, which `counted` counts.
///
/// # Errors
///
/// Out of memory.
pub fn put_origin<P: Progress>(
    text: &mut String,
    alloc: Global,
    symbols: &Symbols,
    past: &Past,
    replay: Option<&Replay>,
    place: Place,
    counted: &mut Count<'_, P>,
) -> Result<(), AllocError>
    requires { IsThere place (opening past.now.image) }
    ensures { OnOk result (string_bytes text.new
        ≡ string_bytes text.old ++ spec.origin_text symbols.now past.now (option_copied replay.entry) place) }
{
    let mut stretch = Stretch::new(alloc);
    let next = put_links(
        text,
        &mut stretch,
        alloc,
        symbols,
        past,
        replay,
        place,
        counted,
    )?;
    stretch.put(text)?;
    put_opening(text, alloc, symbols, past, next)
}
