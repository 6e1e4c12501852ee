//! Where a value came from, and where a tag went, as texts over a past.

ghost use Rattle.std.specs.Prelude.{◌≡◌, ◌⊎◌, IfOk, IfErr, string_bytes};
ghost use Rattle.hart.specs.Opening.{opening};
ghost use Rattle.origins.specs.Places.{IsThere};
ghost use Rattle.origins.specs.declared.place.Place.{Place as Holder};
ghost use Rattle.cherisim_c.specs.Pasts.{IsPlaceOf, IsPlaceRefusal, IsToldOf, text_of};
ghost use Rattle.cherisim_c.specs.Status.{no_memory, out_of_range};

use crate::pasts::past_of;
use crate::places::place_in;
use crate::status::{NO_MEMORY, RANGE};
use crate::types::{Noted, PlaceAsked};
use origin_texts::{put_lost, put_origin};
use origins::{Place, Sought};
use past::Past;
use schedules::{Count, Nobody};
use std::alloc::{AllocError, Global};
use symbols::Symbols;
use word_cap::WordCap;

/// The text of what is told of a place of a past.
fn text_of(
    alloc: Global,
    symbols: &Symbols,
    past: &Past,
    place: Place,
    sought: Sought,
) -> Result<String, AllocError>
    requires { IsThere place (opening past.now.image) }
    ensures { IfOk result (λ text. string_bytes text ≡ text_of sought symbols.now past.now place) }
{
    let mut text = String::new(alloc);
    let mut nobody = Nobody;
    let mut counted = Count::new(&mut nobody);
    match sought {
        Sought::Written => put_origin(&mut text, alloc, symbols, past, None, place, &mut counted)?,
        Sought::Lost => put_lost(&mut text, alloc, symbols, past, None, place, &mut counted)?,
    }
    Ok(text)
}

/// The place that C names, if a past's machine has it, or the status.
pub(crate) fn place_of_past(alloc: Global, past: &Past, asked: PlaceAsked) -> Result<Place, u32>
    ensures ok { IfOk result (IsPlaceOf asked past.now) }
    ensures err { IfErr result (λ status. (status ≡ no_memory)
        ⊎ ((status ≡ out_of_range) × ((place : Holder) → IsPlaceOf asked past.now place → ⊥))) }
{
    match past.machine_at::<WordCap>(alloc, None, 0) {
        Ok((machine, _)) => match place_in(&machine, asked) {
            Some(place) => Ok(place),
            None => Err(RANGE),
        },
        Err(_) => Err(NO_MEMORY),
    }
}

/// What is told of a place, or the status.
pub(crate) fn told_of(
    alloc: Global,
    symbols: &Symbols,
    image: &[u8],
    given: &[Noted],
    asked: PlaceAsked,
    sought: Sought,
) -> Result<String, u32>
    ensures ok { IfOk result (λ told. IsToldOf sought symbols.now image.now given.now asked (string_bytes told)) }
    ensures err { IfErr result (IsPlaceRefusal image.now given.now asked) }
{
    let past = past_of(alloc, image, given)?;
    let place = place_of_past(alloc, &past, asked)?;
    match text_of(alloc, symbols, &past, place, sought) {
        Ok(told) => Ok(told),
        Err(_) => Err(NO_MEMORY),
    }
}
