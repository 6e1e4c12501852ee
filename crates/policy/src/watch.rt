//! Runs that are watched: before each event the rules that apply are looked at, unless they are known to hold.
ghost use Rattle.std.specs.Prelude.{◌≡◌, ◌≤◌, ◌++◌, None, length, take, IfOk, IfSome, OnErr};
ghost use Rattle.machine.specs.Run.{run_after, run_sent};
ghost use Rattle.policy.specs.Terms.{terms_of};
ghost use Rattle.policy.specs.Watch.{IsRefused};
ghost use Rattle.policy.specs.Lending.{in_force};
ghost use Rattle.policy.specs.Run.{KeepToEach, StandsMidway};

use crate::fault::PolicyFault;
use crate::refused::Refused;
use crate::rule::Rule;
use crate::watcher::Watcher;
use cap_bounds::CapRep;
use machine::{Event, Machine, emit};
use std::alloc::Global;

/// How far a watched run went.
#[derive(Clone, Copy, Debug, PartialEq, Eq)]
pub struct Watched {
    /// How many events were met.
    pub done: usize,
    /// Why the next one was not, or `None` where all were.
    pub refused: Option<Refused>,
}

/// Meets events in order, up to the first before which a rule that applies is broken, and appends the sent bytes to `out`. A rule applies
/// where an instruction can be fetched, from its code.
///
/// Whatever the code is: no event that is met changes what a rule that applies guards, and what lies outside the rule's ranges for loads
/// and fetches makes no difference at it. A rule is looked at before an event, unless it applied before the last one too, that one was
/// plain, and new seals can't break it: then it still holds. `Watcher` says when a look is a search.
///
/// A rule that allows what its caller could reach is in force with that from the call on.
///
/// Room for one byte an event is made before the first event. `NoMemory`: there is none for that, or for a search of what is reachable;
/// then the machine and `out` stand after the events that were met so far, of which the same is true.
pub fn run_watched<C: CapRep>(
    alloc: Global,
    machine: &mut Machine<C>,
    events: &[Event],
    rules: &[Rule],
    out: &mut Vec<u8>,
) -> Result<Watched, PolicyFault>
    ensures state { IfOk result (λ r. machine.new ≡ run_after (take r.done events.now) machine.old) }
    ensures bytes { IfOk result (λ r. out.new.items ≡ out.old.items ++ run_sent (take r.done events.now) machine.old) }
    ensures some { IfOk result (λ r. r.done ≤ length events.now) }
    ensures whole { IfOk result (λ r. r.refused ≡ None → r.done ≡ length events.now) }
    ensures refused { IfOk result (λ r. IfSome r.refused (λ x.
        IsRefused (in_force (terms_of rules.now) (take r.done events.now) machine.old) x machine.new)) }
    ensures kept { IfOk result (λ r. KeepToEach (terms_of rules.now) events.now r.done machine.old) }
    ensures midway { OnErr result (StandsMidway (terms_of rules.now) events.now machine.old machine.new out.old.items out.new.items) }
{
    out.reserve(events.len())?;
    let mut watcher = Watcher::new(alloc, rules)?;
    watcher.look(machine);
    let mut done = 0;
    for event in events {
        if let Some(refused) = watcher.refusal(alloc, machine)? {
            let refused = Some(refused);
            return Ok(Watched { done, refused });
        }
        let byte = watcher.meet(alloc, machine, *event)?;
        emit(out, byte);
        done += 1;
    }
    let refused = None;
    Ok(Watched { done, refused })
}
