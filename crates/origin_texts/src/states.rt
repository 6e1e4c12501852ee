//! The states of a session, and the last events that did something.
//!
//! A session's past is gone through on machines of this crate's own, whatever the session's represents capabilities by: their states are
//! the same.
ghost use Rattle.std.specs.Prelude.{◌≡◌, ◌<◌, IfOk, IfSome, option_copied};
ghost use Rattle.hart.specs.Opening.{opening};
ghost use Rattle.origins.specs.Places.{IsThere};
ghost use Rattle.origin_texts.specs.Origin as spec;
ghost use Rattle.past.specs.Given.{state_at};
ghost use Rattle.past.specs.Giving.{HasSameSize};

use machine::Machine;
use origins::{Found, Place, Sought};
use past::{Past, Replay};
use schedules::{Count, Progress};
use std::alloc::{AllocError, Global};
use word_cap::WordCap;

/// The machine of a session before its first event.
pub(crate) fn opening_machine(alloc: Global, past: &Past) -> Result<Machine<WordCap>, AllocError>
    ensures { IfOk result (λ machine. machine ≡ opening past.now.image) }
{
    match past.machine_at(alloc, None, 0) {
        Ok((machine, _)) => Ok(machine),
        Err(_) => Err(AllocError),
    }
}

/// The machine of a session as it stood after so many of its events.
pub(crate) fn machine_after(
    alloc: Global,
    past: &Past,
    replay: Option<&Replay>,
    events: u64,
) -> Result<Machine<WordCap>, AllocError>
    ensures machine { IfOk result (λ machine. machine ≡ state_at events past.now (option_copied replay.entry)) }
    ensures size { IfOk result (λ machine. HasSameSize (opening past.now.image) machine) }
{
    match past.machine_at(alloc, replay, events) {
        Ok((machine, _)) => Ok(machine),
        Err(_) => Err(AllocError),
    }
}

/// The last of the first events that does what is sought.
pub(crate) fn last_among<P: Progress>(
    alloc: Global,
    past: &Past,
    replay: Option<&Replay>,
    sought: Sought,
    place: Place,
    events: u64,
    counted: &mut Count<'_, P>,
) -> Result<Option<Found>, AllocError>
    requires { IsThere place (opening past.now.image) }
    ensures found { IfOk result (λ found. found ≡ spec.last_among past.now (option_copied replay.entry) sought events place) }
    ensures early { IfOk result (λ found. IfSome found (λ found. found.before < events)) }
{
    let last = past.last::<WordCap, P>(alloc, replay, sought, place, events, counted);
    let Ok((found, _)) = last else {
        return Err(AllocError);
    };
    Ok(found)
}
