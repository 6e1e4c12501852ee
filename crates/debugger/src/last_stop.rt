//! The last place before where a session stands at which one of its stops holds.
ghost use Rattle.std.specs.Prelude.{◌≡◌, ◌⊎◌, ◌<◌, ◌≤◌, ◌^◌, None, Some, IfOk, IfErr, IfSome, length, option_copied};
ghost use Rattle.steps.specs.Event.{after};
ghost use Rattle.past.specs.Given.{count_of};
ghost use Rattle.debugger.specs.LastStop as spec;
ghost use Rattle.debugger.specs.Marked.{seen};
ghost use Rattle.word_cap.specs.WordCap.{word_value};

use crate::marks::{Mark, is_any_stop};
use cap_bounds::CapRep;
use debug_commands::DebugFault;
use machine::{Event, Machine};
use past::{Past, PastEvents, Replay};
use schedules::{Count, Progress};
use std::alloc::{AllocError, Global};
use word_cap::WordCap;

/// Meets an event, and answers whether a stop held before it.
fn meet<C: CapRep>(machine: &mut Machine<C>, marks: &[Mark<C>], event: Event) -> bool
    ensures stop { result ≡ spec.is_stop_before (seen C.value marks.now) event machine.old }
    ensures state { machine.new ≡ after event machine.old }
{
    match event {
        Event::Step if machine.halted().is_none() => {
            let planned = machine.next();
            let holds = is_any_stop(machine, marks, &planned);
            machine.apply(planned);
            holds
        }
        _ => {
            machine.event(event);
            false
        }
    }
}

/// The last place among events at which a stop holds.
fn last_stop<C: CapRep, P: Progress>(
    machine: &mut Machine<C>,
    events: &mut PastEvents,
    marks: &[Mark<C>],
    counted: &mut Count<'_, P>,
) -> Option<u64>
    requires { length events.old < 2 ^ 64 }
    ensures place { result ≡ spec.last_stop (seen C.value marks.now) events.old machine.old (length events.old) }
    ensures before { IfSome result (λ place. place < length events.old) }
{
    let mut place = 0;
    let mut last = None;
    while let Some(event) = events.next_event() {
        if meet(machine, marks, event) {
            last = Some(place);
        }
        counted.pass(1);
        place += 1;
    }
    last
}

/// The last place before where a session stands at which one of its stops holds. Where there is no memory it answers an error.
#[tactic(auto, unfolding(crate::specs::LastStop::stop_before_now))]
fn stop_before_now<P: Progress>(
    alloc: Global,
    past: &Past,
    replay: Option<&Replay>,
    marks: &[Mark<WordCap>],
    counted: &mut Count<'_, P>,
) -> Result<Option<u64>, AllocError>
    ensures place { IfOk result (λ place. place
        ≡ spec.stop_before_now (seen word_value marks.now) (option_copied replay.entry) past.now) }
    ensures before { IfOk result (λ place. IfSome place (λ n. n < count_of past.now.given)) }
{
    if marks.is_empty() {
        return Ok(None);
    }
    if past.count() == 0 {
        return Ok(None);
    }
    let Ok((mut machine, _)) = past.machine_at::<WordCap>(alloc, replay, 0) else {
        return Err(AllocError);
    };
    let mut events = past.events(replay);
    Ok(last_stop(&mut machine, &mut events, marks, counted))
}

/// How many events a session was given since that place: B2 where there is none, B4 where there is no memory.
pub(crate) fn since_stop<P: Progress>(
    alloc: Global,
    past: &Option<Past>,
    replay: Option<&Replay>,
    marks: &[Mark<WordCap>],
    counted: &mut Count<'_, P>,
) -> Result<u64, DebugFault>
    ensures ok { IfOk result (λ n. spec.since_stop (seen word_value marks.now) (option_copied replay.entry) past.now ≡ Some n) }
    ensures few { IfOk result (λ n. IfSome past.now (λ past. n ≤ count_of past.given)) }
    ensures err { IfErr result (λ fault. (fault ≡ DebugFault.B4)
        ⊎ ((fault ≡ DebugFault.B2)
        × (spec.since_stop (seen word_value marks.now) (option_copied replay.entry) past.now ≡ None))) }
{
    let Some(past) = past else {
        return Err(DebugFault::B2);
    };
    match stop_before_now(alloc, past, replay, marks, counted)? {
        Some(place) => Ok(past.count() - place),
        None => Err(DebugFault::B2),
    }
}
