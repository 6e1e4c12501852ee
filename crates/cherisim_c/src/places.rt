//! Places, as C names them.

ghost use Rattle.std.specs.Prelude.{◌≡◌, None, Some, IfSome, IfNone, if◌then◌else◌};
ghost use Rattle.base.specs.Registers.{is_scr};
ghost use Rattle.origins.specs.declared.place.Place.{Place as Holder};
ghost use Rattle.origins.specs.Places.{IsHolder, IsThere};
ghost use Rattle.cherisim_c.specs.Pasts.{place_of};

use crate::types::PlaceAsked;
use base::is_scr;
use cap_bounds::CapRep;
use machine::Machine;
use origins::{Place, is_there};

/// The number of a special register, if it is one.
fn special_of(number: u64) -> Option<u8>
    ensures { result ≡ if is_scr number then Some number else None }
{
    if number < 256 && is_scr(number as u8) {
        Some(number as u8)
    } else {
        None
    }
}

/// The place that C names, if it names one.
#[tactic(auto, unfolding(crate::specs::Pasts::place_of))]
fn place_of(asked: PlaceAsked) -> Option<Place>
    ensures value { result ≡ place_of asked }
    ensures holds { IfSome result IsHolder }
{
    let PlaceAsked { number, kind } = asked;
    if kind == 0 && number < 32 {
        Some(Place::Register(number as u8))
    } else if kind == 1 {
        match special_of(number) {
            Some(special) => Some(Place::Special(special)),
            None => None,
        }
    } else if kind == 2 && number % 16 == 0 {
        Some(Place::Granule(number))
    } else {
        None
    }
}

/// The place that C names, if it names one and a machine has it.
pub(crate) fn place_in<C: CapRep>(machine: &Machine<C>, asked: PlaceAsked) -> Option<Place>
    ensures some { IfSome result (λ place. place_of asked ≡ Some place) }
    ensures there { IfSome result (λ place. IsThere place machine.now) }
    ensures none { IfNone result ((place : Holder) → place_of asked ≡ Some place → IsThere place machine.now → ⊥) }
{
    let place = place_of(asked)?;
    if is_there(machine, place) {
        Some(place)
    } else {
        None
    }
}
