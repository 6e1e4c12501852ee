//! Where the tag of what stands at a place went.
ghost use Rattle.std.specs.Prelude.{◌≡◌, ◌++◌, ◌+◌, ◌<◌, ◌≤◌, [], ℕ, List, IfOk, IfSome, OnOk, Some, map, option_copied, option_map};
ghost use Rattle.std.specs.Prelude.{if◌then◌else◌, length, string_bytes, take};
ghost use Rattle.hart.specs.Opening.{opening};
ghost use Rattle.origins.specs.Places.{IsHolder, IsThere};
ghost use Rattle.origins.specs.Search as search;
ghost use Rattle.origin_texts.specs.Log.{AreLinks};
ghost use Rattle.origin_texts.specs.Lost as spec;
ghost use Rattle.origin_texts.specs.Down.{AreSteps, IsDown, IsEnd, IsEnding, IsLoss, LostIn, as_end, as_loss};
ghost use Rattle.origin_texts.specs.Origin.{before, history, loss_text};
ghost use Rattle.past.specs.Given.{count_of};

use crate::chain::Followed;
use crate::copied::{Copy, append_copy, copied};
use crate::links::{links_of, put_told, tell_links, window_of};
use crate::log::Link;
use crate::place::place_text;
use crate::states::{last_among, machine_after, opening_machine};
use crate::stretch::Stretch;
use crate::told::{Telling, tell};
use cap_bounds::CapRep;
use machine::Machine;
use origins::{Found, Making, Place, Sought, held};
use past::{Past, Replay};
use schedules::{Count, Progress};
use std::alloc::{AllocError, Global};
use symbols::Symbols;
use texts::Piece::Text;
use texts::append;

/// Whether what a place holds, if there is one, is tagged.
fn is_tagged_at<C: CapRep>(machine: &Machine<C>, place: Option<Place>) -> bool
    requires { IfSome place (λ there. IsThere there machine.now) }
    ensures { result ≡ search.is_tagged_at place machine.now }
{
    match place {
        Some(place) => held(machine, place).tag(),
        None => false,
    }
}

/// So many, or what was found before.
fn nearer(is_found: bool, count: usize, found: Option<usize>) -> Option<usize>
    ensures { result ≡ if is_found then Some count else found }
{
    if is_found { Some(count) } else { found }
}

/// How many links there are down to the first whose source had its tag, if there is one.
fn down_to_tag(
    alloc: Global,
    past: &Past,
    replay: Option<&Replay>,
    links: &[Link],
) -> Result<Option<usize>, AllocError>
    requires { (events : ℕ) × AreLinks (history past.now (option_copied replay)) events links.now }
    ensures down { IfOk result (λ count. option_map (λ n. take n links.now) count
        ≡ spec.down_to_tag past.now (option_copied replay.entry) links.now) }
    ensures few { IfOk result (λ count. IfSome count (λ n. n ≤ length links.now)) }
{
    let mut machine = opening_machine(alloc, past)?;
    let mut events = past.events(replay);
    let mut met = 0;
    let mut down = None;
    let mut left = links.len();
    while left > 0 {
        let link = links[left - 1];
        events.give(&mut machine, link.found.before - met);
        met = link.found.before;
        let was_tagged = is_tagged_at(&machine, link.found.making.source());
        down = nearer(was_tagged, left, down);
        left -= 1;
    }
    Ok(down)
}

/// The links of a chain, and whether the source of the last of them had its tag.
struct Down {
    links: Vec<Link>,
    is_lost: bool,
}

/// The links of what stands at a place, down to the first whose source had its tag.
fn links_down<P: Progress>(
    alloc: Global,
    past: &Past,
    replay: Option<&Replay>,
    place: Place,
    counted: &mut Count<'_, P>,
) -> Result<Down, AllocError>
    requires { IsThere place (opening past.now.image) }
    ensures { IfOk result (λ down. IsDown past.now (option_copied replay.entry) place down.links.items down.is_lost) }
{
    let mut links = Vec::new(alloc);
    let mut place = place;
    let mut left = past.count();
    let window = window_of(left);
    while left > 0 {
        let to = left;
        left = to.saturating_sub(window);
        let Followed { links: more, next } = links_of(
            alloc, past, replay, place, left, to, counted,
        )?;
        if let Some(count) = down_to_tag(alloc, past, replay, &more)? {
            links.extend_from_slice(&more[..count])?;
            return Ok(Down {
                links,
                is_lost: true,
            });
        }
        links.extend_from_slice(&more)?;
        let Some(from) = next else {
            break;
        };
        place = from;
    }
    Ok(Down {
        links,
        is_lost: false,
    })
}

/// Data that was stored into a granule, at the end of links.
#[derive(Drop)]
pub struct DataEnd {
    /// The links above.
    pub above: Vec<Link>,
    /// The granule.
    pub granule: u64,
    /// How many events were before it was stored.
    pub store: u64,
}

/// The granule that a link is of, if data was stored there.
fn granule_of(place: Place, making: Making) -> Option<u64>
    ensures { result ≡ spec.granule_of place making }
{
    match (place, making) {
        (Place::Granule(address), Making::Number) => Some(address),
        _ => None,
    }
}

/// The data at the end of links, if they end in data.
fn data_end(past: &Past, replay: Option<&Replay>, links: Vec<Link>, events: u64) -> Option<DataEnd>
    requires { AreLinks (history past.now (option_copied replay)) events links.items }
    ensures end { option_map as_end result ≡ spec.data_end links.items }
    ensures is { IfSome result (IsEnd past.now (option_copied replay.entry) events) }
{
    let mut above = links;
    let last = above.pop()?;
    let granule = granule_of(last.place, last.found.making)?;
    Some(DataEnd {
        above,
        granule,
        store: last.found.before,
    })
}

/// Appends links with the conditions of their tags; many that are told alike as `origin` tells them.
fn append_losses(
    text: &mut String,
    alloc: Global,
    symbols: &Symbols,
    past: &Past,
    replay: Option<&Replay>,
    links: Vec<Link>,
) -> Result<(), AllocError>
    requires { (events : ℕ) × AreLinks (history past.now (option_copied replay)) events links.items }
    ensures { OnOk result (string_bytes text.new
        ≡ string_bytes text.old ++ spec.loss_lines symbols.now past.now (option_copied replay.entry) links.items) }
{
    let told = tell_links(Telling::OfLosses, alloc, symbols, past, replay, links)?;
    let mut stretch = Stretch::new(alloc);
    put_told(text, &mut stretch, told)?;
    stretch.put(text)
}

/// How the links end at which a tag went.
#[derive(Clone, Copy, Debug)]
pub enum Ending {
    /// No tag went.
    Nowhere,
    /// The source of the last link had its tag.
    AtTag,
    /// The bits of a tagged capability were copied into a granule as double words.
    InCopy(u64, Copy),
    /// The tag of a granule was overwritten.
    InStore(u64, Found),
}

/// Where a tag went: the links down to there, the newest first, and how they end.
#[derive(Drop)]
pub struct Loss {
    /// The links.
    pub links: Vec<Link>,
    /// How they end.
    pub ending: Ending,
}

/// That no tag went.
fn no_loss(alloc: Global) -> Loss
    ensures loss { as_loss result ≡ spec.no_loss }
    ensures items { result.links.items ≡ [] }
    ensures ending { result.ending ≡ Ending.Nowhere }
{
    Loss {
        links: Vec::new(alloc),
        ending: Ending::Nowhere,
    }
}

/// What is known of data that was stored into a granule at an event.
fn data_ending<P: Progress>(
    alloc: Global,
    past: &Past,
    replay: Option<&Replay>,
    granule: u64,
    store: u64,
    counted: &mut Count<'_, P>,
) -> Result<Ending, AllocError>
    requires there { IsThere (Place.Granule granule) (opening past.now.image) }
    requires few { store < count_of past.now.given }
    ensures ending { IfOk result (λ ending. ending ≡ spec.data_ending past.now (option_copied replay.entry) granule store) }
    ensures is { IfOk result (IsEnding past.now (option_copied replay.entry)) }
{
    let _count = past.count();
    if let Some(copy) = copied(alloc, past, replay, granule, store, counted)? {
        return Ok(Ending::InCopy(granule, copy));
    }
    let (lost, place) = (Sought::Lost, Place::Granule(granule));
    let Some(found) = last_among(alloc, past, replay, lost, place, store + 1, counted)? else {
        return Ok(Ending::Nowhere);
    };
    Ok(Ending::InStore(granule, found))
}

/// Where the tag of what stands at a place went.
fn loss_of<P: Progress>(
    alloc: Global,
    past: &Past,
    replay: Option<&Replay>,
    place: Place,
    counted: &mut Count<'_, P>,
) -> Result<Loss, AllocError>
    requires { IsThere place (opening past.now.image) }
    ensures loss { IfOk result (λ loss. as_loss loss
        ≡ spec.loss past.now (option_copied replay.entry) place (count_of past.now.given)) }
    ensures is { IfOk result (IsLoss past.now (option_copied replay.entry)) }
{
    let machine = machine_after(alloc, past, replay, past.count())?;
    if held(&machine, place).tag() {
        return Ok(no_loss(alloc));
    }
    let Down { links, is_lost } = links_down(alloc, past, replay, place, counted)?;
    if is_lost {
        return Ok(Loss {
            links,
            ending: Ending::AtTag,
        });
    }
    let Some(end) = data_end(past, replay, links, past.count()) else {
        return Ok(no_loss(alloc));
    };
    let DataEnd {
        above,
        granule,
        store,
    } = end;
    match data_ending(alloc, past, replay, granule, store, counted)? {
        Ending::Nowhere => Ok(no_loss(alloc)),
        ending => Ok(Loss {
            links: above,
            ending,
        }),
    }
}

/// Appends the line of an event at which the tag of a granule went, with the conditions of the tag.
fn append_store(
    text: &mut String,
    alloc: Global,
    symbols: &Symbols,
    past: &Past,
    replay: Option<&Replay>,
    granule: u64,
    found: Found,
) -> Result<(), AllocError>
    requires there { IsThere (Place.Granule granule) (opening past.now.image) }
    requires lost { LostIn past.now (option_copied replay) granule found }
    ensures { OnOk result (string_bytes text.new ≡ string_bytes text.old ++ loss_text symbols.now (Place.Granule granule) found
        (before past.now (option_copied replay.entry) found)) }
{
    let _count = past.count();
    let mut machine = machine_after(alloc, past, replay, found.before)?;
    let link = Link {
        place: Place::Granule(granule),
        found,
    };
    let told = tell(Telling::OfLosses, alloc, symbols, &mut machine, link)?;
    append(text, &[Text(told.line.as_str())])
}

/// Appends where a tag went.
fn append_loss(
    text: &mut String,
    alloc: Global,
    symbols: &Symbols,
    past: &Past,
    replay: Option<&Replay>,
    place: Place,
    loss: Loss,
) -> Result<(), AllocError>
    requires there { IsHolder place }
    requires is { IsLoss past.now (option_copied replay) loss }
    ensures { OnOk result (string_bytes text.new ≡ string_bytes text.old
        ++ spec.text_of_loss symbols.now past.now (option_copied replay.entry) place (as_loss loss)) }
{
    let _count = past.count();
    let Loss { links, ending } = loss;
    match ending {
        Ending::Nowhere => append_none(text, symbols, place),
        Ending::AtTag => append_losses(text, alloc, symbols, past, replay, links),
        Ending::InCopy(granule, copy) => {
            append_losses(text, alloc, symbols, past, replay, links)?;
            append_copy(text, alloc, symbols, past, replay, granule, copy)
        }
        Ending::InStore(granule, found) => {
            append_losses(text, alloc, symbols, past, replay, links)?;
            append_store(text, alloc, symbols, past, replay, granule, found)
        }
    }
}

/// Appends that no tag was lost at a place.
fn append_none(text: &mut String, symbols: &Symbols, place: Place) -> Result<(), AllocError>
    requires { IsHolder place }
    ensures { OnOk result (string_bytes text.new ≡ string_bytes text.old ++ spec.none_line symbols.now place) }
{
    let name = place_text(symbols, place);
    append(
        text,
        &[Text("no tag was lost at "), Text(name.as_str()), Text("\n")],
    )
}

/// Appends where the tag of what stands at a place went: the links of its chain, the newest first, with the conditions of their tags, down
/// to the first whose source had its tag. Where the chain ends in data that was stored into a granule, either how the bits of a tagged
/// capability were copied there, or the event at which the tag that the granule had went.
///
/// The events are gone over as for `put_origin`, which `counted` counts.
///
/// # Errors
///
/// Out of memory.
#[tactic(auto, unfolding(crate::specs::Lost::lost_text))]
pub fn put_lost<P: Progress>(
    text: &mut String,
    alloc: Global,
    symbols: &Symbols,
    past: &Past,
    replay: Option<&Replay>,
    place: Place,
    counted: &mut Count<'_, P>,
) -> Result<(), AllocError>
    requires { IsThere place (opening past.now.image) }
    ensures { OnOk result (string_bytes text.new
        ≡ string_bytes text.old ++ spec.lost_text symbols.now past.now (option_copied replay.entry) place) }
{
    let loss = loss_of(alloc, past, replay, place, counted)?;
    append_loss(text, alloc, symbols, past, replay, place, loss)
}

/// A step at which a tag went, or that leads down to one.
#[derive(Clone, Copy, Debug)]
pub struct LossStep {
    /// The place that it wrote.
    pub place: Place,
    /// How many events were before it.
    pub before: u64,
    /// The place that its value came from; of a double word that was copied its granule.
    pub source: Option<Place>,
}

/// The step of a link.
fn step_of(link: Link) -> LossStep
    ensures { result ≡ spec.step_of link }
{
    LossStep {
        place: link.place,
        before: link.found.before,
        source: link.found.making.source(),
    }
}

/// The step that stored a double word into a granule, which was loaded from another.
fn copy_step(granule: u64, from: u64, before: u64) -> LossStep
    ensures { result ≡ spec.copy_step granule from before }
{
    LossStep {
        place: Place::Granule(granule),
        before,
        source: Some(Place::Granule(from)),
    }
}

/// Appends the steps at which links end.
fn push_ending(steps: &mut Vec<LossStep>, ending: Ending) -> Result<(), AllocError>
    ensures { OnOk result (steps.new.items ≡ steps.old.items ++ spec.ending_steps ending) }
{
    match ending {
        Ending::Nowhere | Ending::AtTag => {}
        Ending::InCopy(granule, copy) => {
            let from = copy.lower.from;
            steps.push(copy_step(granule, from, copy.lower.stored))?;
            steps.push(copy_step(granule, from, copy.upper.stored))?;
        }
        Ending::InStore(granule, found) => {
            let place = Place::Granule(granule);
            steps.push(step_of(Link { place, found }))?;
        }
    }
    Ok(())
}

/// The steps of links.
fn steps_of(alloc: Global, links: &[Link]) -> Result<Vec<LossStep>, AllocError>
    ensures { IfOk result (λ steps. steps.items ≡ map spec.step_of links.now) }
{
    let mut steps = Vec::new(alloc);
    for link in links {
        steps.push(step_of(*link))?;
    }
    Ok(steps)
}

/// Where the tag of what stands at a place went, as `put_lost` tells it: its steps, the newest first, and of double words that were copied
/// their stores, the lower one first.
///
/// # Errors
///
/// Out of memory.
#[tactic(auto, unfolding(crate::specs::Lost::lost_steps))]
pub fn lost_steps<P: Progress>(
    alloc: Global,
    past: &Past,
    replay: Option<&Replay>,
    place: Place,
    counted: &mut Count<'_, P>,
) -> Result<Vec<LossStep>, AllocError>
    requires { IsThere place (opening past.now.image) }
    ensures steps { IfOk result (λ steps. steps.items ≡ spec.lost_steps past.now (option_copied replay.entry) place) }
    ensures are { IfOk result (λ steps. AreSteps past.now steps.items) }
{
    let Loss { links, ending } = loss_of(alloc, past, replay, place, counted)?;
    let mut steps = steps_of(alloc, &links)?;
    push_ending(&mut steps, ending)?;
    Ok(steps)
}
