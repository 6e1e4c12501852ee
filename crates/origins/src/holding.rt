//! What a place holds, and whether there is such a place.
ghost use Rattle.std.specs.Prelude.{◌≡◌, ◌↔◌, IsTrue};
ghost use Rattle.cap_bounds.specs.CapValue.{IsSound};
ghost use Rattle.origins.specs.Places.{IsHolder};
ghost use Rattle.steps.specs.IsState.{IsState};
ghost use Rattle.origins.specs.Places.{IsThere};
ghost use Rattle.origins.specs.Places as spec;

use crate::place::Place;
use cap_bounds::CapRep;
use machine::Machine;

/// What a granule of RAM holds.
#[tactic(auto, unfolding(tagged_memory::specs::Memory::place_fault))]
fn granule<C: CapRep>(machine: &Machine<C>, address: u64) -> C
    requires { IsThere (Place.Granule address) machine.now }
    ensures value { C.value result ≡ spec.held (Place.Granule address) machine.now }
    ensures sound { IsSound (C.value result) }
{
    let (word, tag) = machine.memory().load_cap(address);
    C::from_word(word, tag)
}

/// What a place holds.
#[tactic(auto, unfolding(crate::specs::Places::held))]
pub fn held<C: CapRep>(machine: &Machine<C>, place: Place) -> C
    requires { IsThere place machine.now }
    ensures value { C.value result ≡ spec.held place machine.now }
    ensures sound { IsSound (C.value result) }
    ensures state { IsState machine.now }
{
    machine.hart();
    match place {
        Place::Register(n) => machine.reg(n),
        Place::Special(n) => machine.scr(n),
        Place::Granule(address) => granule(machine, address),
    }
}

/// Whether there is such a place: a granule must lie in RAM.
pub fn is_there<C: CapRep>(machine: &Machine<C>, place: Place) -> bool
    requires { IsHolder place }
    ensures { IsTrue result ↔ IsThere place machine.now }
{
    match place {
        Place::Granule(address) => machine.memory().holds_granule(address),
        _ => true,
    }
}
