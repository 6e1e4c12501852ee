//! Steps while a place holds what it holds.

ghost use Rattle.std.specs.Prelude.{◌≡◌, ◌⊎◌, ℕ, ◌-◌, ◌<◌, ◌≤◌, None, Some, IfSome, IsTrue, false, option_to_list, replicate};
ghost use Rattle.machine.specs.Run.{run_after, run_sent};
ghost use Rattle.origins.specs.declared.place.Place.{Place as Holder};
ghost use Rattle.origins.specs.Places.{IsThere, held as held_at};
ghost use Rattle.steps.specs.declared.event.Event.TheVariants.{Step};
ghost use Rattle.cherisim_c.specs.Pasts.{place_of};
ghost use Rattle.cherisim_c.specs.Status.{no_machine, out_of_range};
ghost use Rattle.cherisim_c.specs.Stepping.{byte_of, goes_on_holding, holds, may_step};

use crate::handle::Handle;
use crate::links::step;
use crate::places::place_in;
use crate::status::{NO_MACHINE, OK, RANGE};
use crate::stepping::sent_of;
use crate::types::{PlaceAsked, Stepped};
use cap_bounds::CapRep;
use cap_rights::equal_exact;
use machine::{Advance, Machine};
use origins::{Place, held};
use std::alloc::Global;

/// Whether a place holds a value.
fn holds<C: CapRep>(machine: &Machine<C>, place: Place, value: C) -> bool
    requires { IsThere place machine.now }
    ensures { result ≡ holds place (C.value value) machine.now }
{
    equal_exact(value, held(machine, place))
}

/// Whether one more step may be done, where so many are left.
fn may_step<C: CapRep>(machine: &Machine<C>, left: u64, byte: Option<u8>) -> bool
    ensures { result ≡ may_step left byte machine.now }
{
    0 < left && byte.is_none() && machine.halted().is_none()
}

/// Whether one more step is done.
fn goes_on<C: CapRep>(
    machine: &Machine<C>,
    left: u64,
    byte: Option<u8>,
    place: Place,
    value: C,
) -> bool
    requires { IsThere place machine.now }
    ensures { result ≡ goes_on_holding left byte place (C.value value) machine.now }
{
    may_step(machine, left, byte) && holds(machine, place, value)
}

/// Does steps while a place holds what it holds, up to one that sends a byte or halts the machine.
fn step_holding<C: CapRep>(machine: &mut Machine<C>, most: u64, place: Place) -> Advance
    requires { IsThere place machine.old }
    ensures few { result.steps ≤ most }
    ensures state { machine.new ≡ run_after (replicate result.steps Step) machine.old }
    ensures sent { run_sent (replicate result.steps Step) machine.old ≡ option_to_list result.byte }
    ensures held { (k : ℕ) → k < result.steps
        → IsTrue (holds place (held_at place machine.old) (run_after (replicate k Step) machine.old)) }
    ensures over { goes_on_holding (most - result.steps) result.byte place (held_at place machine.old) machine.new ≡ false }
{
    let value = held(machine, place);
    let mut steps = 0;
    let mut byte = None;
    'steps: while goes_on(machine, most - steps, byte, place, value) {
        byte = step(machine, place);
        steps += 1;
    }
    Advance { steps, byte }
}

/// Does steps while a place holds what it holds: up to so many, and up to one that sends a byte or halts the machine.
#[unsafe(no_mangle)]
pub extern "C" fn cherisim_step_while_held(
    alloc: Global,
    machine: &mut Handle,
    most: u64,
    place: &PlaceAsked,
    stepped: &mut Stepped,
) -> u32
    ensures closed { machine.old.machine ≡ None → (result ≡ no_machine) × (machine.new.machine ≡ None) × (stepped.new ≡ stepped.old) }
    ensures range { IfSome machine.old.machine (λ s. 1 ≤ result → (result ≡ out_of_range) × (machine.new.machine ≡ Some s)
        × ((p : Holder) → place_of place.now ≡ Some p → IsThere p s → ⊥)) }
    ensures same { 1 ≤ result → stepped.new ≡ stepped.old }
    ensures few { result ≡ 0 → stepped.new.steps ≤ most }
    ensures state { IfSome machine.old.machine (λ s. result ≡ 0
        → machine.new.machine ≡ Some (run_after (replicate stepped.new.steps Step) s)) }
    ensures sent { IfSome machine.old.machine (λ s. result ≡ 0
        → run_sent (replicate stepped.new.steps Step) s ≡ option_to_list (byte_of stepped.new.sent)) }
    ensures held { IfSome machine.old.machine (λ s. result ≡ 0 → (p : Holder) → place_of place.now ≡ Some p → (k : ℕ)
        → k < stepped.new.steps → IsTrue (holds p (held_at p s) (run_after (replicate k Step) s))) }
    ensures over { IfSome machine.old.machine (λ s. result ≡ 0 → (p : Holder) → place_of place.now ≡ Some p
        → goes_on_holding (most - stepped.new.steps) (byte_of stepped.new.sent) p (held_at p s)
        (run_after (replicate stepped.new.steps Step) s) ≡ false) }
{
    match machine.take(alloc) {
        Some(mut inside) => match place_in(&inside, *place) {
            Some(place) => {
                let did = step_holding(&mut inside, most, place);
                machine.put(inside);
                *stepped = Stepped {
                    steps: did.steps,
                    sent: sent_of(did.byte),
                };
                OK
            }
            None => {
                machine.put(inside);
                RANGE
            }
        },
        None => NO_MACHINE,
    }
}
