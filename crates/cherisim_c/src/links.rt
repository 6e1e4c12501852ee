//! How what a place holds came to be, as links over a past.

ghost use Rattle.std.specs.Prelude.{◌≡◌, ◌++◌, ◌≤◌, ℕ, ◌∷◌, suc, None, IfOk, IfErr, IfSome, length, map, take};
ghost use Rattle.hart.specs.Opening.{opening};
ghost use Rattle.origins.specs.Kept.{AreThere};
ghost use Rattle.origins.specs.Making.{source};
ghost use Rattle.origins.specs.Places.{IsThere};
ghost use Rattle.past.specs.Given.{count_of, state_at};
ghost use Rattle.steps.specs.Event.{after, sent};
ghost use Rattle.steps.specs.declared.event.Event.TheVariants.{Step};
ghost use Rattle.origin_texts.specs.Down.{AreSteps};
ghost use Rattle.origin_texts.specs.Lost.{lost_steps};
ghost use Rattle.cherisim_c.specs.Links.{AreLinksOf, AreLossesOf, c_place, loss_links, opening_link, shown_link, step_link, trail};
ghost use Rattle.cherisim_c.specs.Links.{trail_on, written_link};
ghost use Rattle.cherisim_c.specs.Pasts.{IsPlaceRefusal};

use crate::pasts::past_of;
use crate::running::pc;
use crate::status::NO_MEMORY;
use crate::tellings::place_of_past;
use crate::types::{Linked, Noted, PlaceAsked};
use c_types::outside;
use cap_bounds::CapRep;
use machine::{Event, Machine};
use origin_texts::{LossStep, lost_steps};
use origins::laws::steps_write_what_is_made;
use origins::{Found, Place, Sought, held};
use past::Past;
use schedules::{Count, Nobody};
use std::alloc::{AllocError, Global};
use word_cap::WordCap;

/// A place as C names it.
fn c_place(place: Place) -> PlaceAsked
    ensures { result ≡ c_place place }
{
    match place {
        Place::Register(number) => PlaceAsked {
            number: u64::from(number),
            kind: 0,
        },
        Place::Special(number) => PlaceAsked {
            number: u64::from(number),
            kind: 1,
        },
        Place::Granule(address) => PlaceAsked {
            number: address,
            kind: 2,
        },
    }
}

/// The link of the opening state.
fn opening_link(machine: &Machine<WordCap>, place: Place) -> Linked
    requires { IsThere place machine.now }
    ensures { shown_link result ≡ opening_link place machine.now }
{
    Linked {
        value: outside(held(machine, place)),
        before: 0,
        pc: 0,
        place: c_place(place),
        source: PlaceAsked { number: 0, kind: 0 },
        has_source: false,
        written: false,
    }
}

/// The link of a step, which is the machine's next.
fn step_link(machine: &mut Machine<WordCap>, of: LossStep) -> Linked
    requires { IsThere of.place machine.old }
    ensures { shown_link result ≡ step_link of machine.old }
{
    let address = pc(machine);
    step(machine, of.place);
    Linked {
        value: outside(held(machine, of.place)),
        before: of.before,
        pc: address,
        place: c_place(of.place),
        source: c_place(of.source.unwrap_or(Place::Register(0))),
        has_source: of.source.is_some(),
        written: true,
    }
}

/// The link of an event that was found, which is the machine's next step.
fn written_link(machine: &mut Machine<WordCap>, place: Place, found: Found) -> Linked
    requires { IsThere place machine.old }
    ensures { shown_link result ≡ written_link place found machine.old }
{
    step_link(
        machine,
        LossStep {
            place,
            before: found.before,
            source: found.making.source(),
        },
    )
}

/// Does a step, and answers the byte that it sends; a place that is there stays there.
pub(crate) fn step<C: CapRep>(machine: &mut Machine<C>, place: Place) -> Option<u8>
    requires { IsThere place machine.old }
    ensures state { machine.new ≡ after Step machine.old }
    ensures byte { result ≡ sent Step machine.old }
    ensures there { IsThere place machine.new }
{
    steps_write_what_is_made();
    machine.hart();
    machine.event(Event::Step).byte
}

/// A link, and what is followed after it: its source, over the events before.
#[derive(Clone, Copy)]
struct Met {
    link: Linked,
    next: Option<Place>,
    before: u64,
}

/// The link of an event that was found.
fn meet_found(alloc: Global, past: &Past, place: Place, found: Found) -> Result<Met, AllocError>
    requires there { IsThere place (opening past.now.image) }
    requires sources { AreThere found.making (state_at found.before past.now None) }
    ensures link { IfOk result (λ met. shown_link met.link ≡ written_link place found (state_at found.before past.now None)) }
    ensures next { IfOk result (λ met. met.next ≡ source found.making) }
    ensures before { IfOk result (λ met. met.before ≡ found.before) }
    ensures there { IfOk result (λ met. IfSome met.next (λ from. IsThere from (opening past.now.image))) }
{
    let Ok((mut machine, _)) = past.machine_at::<WordCap>(alloc, None, found.before) else {
        return Err(AllocError);
    };
    let next = found.making.source();
    Ok(Met {
        link: written_link(&mut machine, place, found),
        next,
        before: found.before,
    })
}

/// The link of a place that nothing wrote.
fn meet_none(alloc: Global, past: &Past, place: Place) -> Result<Met, AllocError>
    requires { IsThere place (opening past.now.image) }
    ensures link { IfOk result (λ met. shown_link met.link ≡ opening_link place (opening past.now.image)) }
    ensures next { IfOk result (λ met. met.next ≡ None) }
{
    match past.machine_at::<WordCap>(alloc, None, 0) {
        Ok((machine, _)) => Ok(Met {
            link: opening_link(&machine, place),
            next: None,
            before: 0,
        }),
        Err(_) => Err(AllocError),
    }
}

/// The newest link of a place over the first events.
fn meet(alloc: Global, past: &Past, place: Place, events: u64) -> Result<Met, AllocError>
    requires { IsThere place (opening past.now.image) }
    ensures trail { IfOk result (λ met. (most : ℕ) → trail past.now (suc most) place events
        ≡ shown_link met.link ∷ trail_on (trail past.now most) met.next met.before) }
    ensures there { IfOk result (λ met. IfSome met.next (λ from. IsThere from (opening past.now.image))) }
{
    let mut nobody = Nobody;
    let mut counted = Count::new(&mut nobody);
    match past.last::<WordCap, Nobody>(alloc, None, Sought::Written, place, events, &mut counted) {
        Ok((Some(found), _)) => meet_found(alloc, past, place, found),
        Ok((None, _)) => meet_none(alloc, past, place),
        Err(_) => Err(AllocError),
    }
}

/// The newest links of a place, so many at most.
fn trail_of(
    alloc: Global,
    past: &Past,
    place: Place,
    most: usize,
) -> Result<Vec<Linked>, AllocError>
    requires { IsThere place (opening past.now.image) }
    ensures trail { IfOk result (λ links. map shown_link links.items ≡ trail past.now most place (count_of past.now.given)) }
    ensures few { IfOk result (λ links. length links.items ≤ most) }
{
    let mut links = Vec::new(alloc);
    let mut left = most;
    let mut next = Some(place);
    let mut events = past.count();
    while let Some(place) = next {
        if left == 0 {
            return Ok(links);
        }
        left -= 1;
        let met = meet(alloc, past, place, events)?;
        links.push(met.link)?;
        next = met.next;
        events = met.before;
    }
    Ok(links)
}

/// The newest links of the place that C names, so many at most, or the status.
pub(crate) fn links_of(
    alloc: Global,
    image: &[u8],
    given: &[Noted],
    asked: PlaceAsked,
    most: usize,
) -> Result<Vec<Linked>, u32>
    ensures ok { IfOk result (λ links. AreLinksOf image.now given.now asked most (map shown_link links.items)) }
    ensures few { IfOk result (λ links. length links.items ≤ most) }
    ensures err { IfErr result (IsPlaceRefusal image.now given.now asked) }
{
    let past = past_of(alloc, image, given)?;
    let place = place_of_past(alloc, &past, asked)?;
    match trail_of(alloc, &past, place, most) {
        Ok(links) => Ok(links),
        Err(_) => Err(NO_MEMORY),
    }
}

/// The links of steps of a past.
fn links_of_steps(alloc: Global, past: &Past, steps: &[LossStep]) -> Result<Vec<Linked>, AllocError>
    requires { AreSteps past.now steps.now }
    ensures links { IfOk result (λ links. map shown_link links.items ≡ loss_links past.now steps.now) }
    ensures few { IfOk result (λ links. length links.items ≡ length steps.now) }
{
    let mut links = Vec::new(alloc);
    for step in steps {
        let Ok((mut machine, _)) = past.machine_at::<WordCap>(alloc, None, step.before) else {
            return Err(AllocError);
        };
        links.push(step_link(&mut machine, *step))?;
    }
    Ok(links)
}

/// The steps at which the tag of a place went, or that lead down to one, so many at most.
fn first_losses(
    alloc: Global,
    past: &Past,
    place: Place,
    most: usize,
) -> Result<Vec<LossStep>, AllocError>
    requires { IsThere place (opening past.now.image) }
    ensures steps { IfOk result (λ steps. steps.items ≡ take most (lost_steps past.now None place)) }
    ensures are { IfOk result (λ steps. AreSteps past.now steps.items) }
{
    let mut nobody = Nobody;
    let mut counted = Count::new(&mut nobody);
    let mut steps = lost_steps(alloc, past, None, place, &mut counted)?;
    steps.truncate(most);
    Ok(steps)
}

/// Those steps as links.
fn losses_of_place(
    alloc: Global,
    past: &Past,
    place: Place,
    most: usize,
) -> Result<Vec<Linked>, AllocError>
    requires { IsThere place (opening past.now.image) }
    ensures links { IfOk result (λ links. map shown_link links.items ≡ loss_links past.now (take most (lost_steps past.now None place))) }
    ensures few { IfOk result (λ links. length links.items ≤ most) }
{
    let steps = first_losses(alloc, past, place, most)?;
    links_of_steps(alloc, past, &steps)
}

/// The links of the steps at which the tag of the place that C names went, or that lead down to one, so many at most, or the status.
pub(crate) fn losses_of(
    alloc: Global,
    image: &[u8],
    given: &[Noted],
    asked: PlaceAsked,
    most: usize,
) -> Result<Vec<Linked>, u32>
    ensures ok { IfOk result (λ links. AreLossesOf image.now given.now asked most (map shown_link links.items)) }
    ensures few { IfOk result (λ links. length links.items ≤ most) }
    ensures err { IfErr result (IsPlaceRefusal image.now given.now asked) }
{
    let past = past_of(alloc, image, given)?;
    let place = place_of_past(alloc, &past, asked)?;
    match losses_of_place(alloc, &past, place, most) {
        Ok(links) => Ok(links),
        Err(_) => Err(NO_MEMORY),
    }
}
