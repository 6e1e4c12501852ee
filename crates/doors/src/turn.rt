//! Turns: runs that go on through sealed jumps, up to the first event that traps or unseals.

ghost use Rattle.std.specs.Prelude.{◌≡◌, ◌≢◌, ℕ, ◌+◌, ◌≤◌, ◌++◌, length, take, drop, vec_len, vec_capacity, IsOk, IfOk, IfErr, OnOk, OnErr};
ghost use Rattle.std.specs.Prelude.{None, Some};
ghost use Rattle.steps.specs.Applying.{meant, IsPlanned};
ghost use Rattle.steps.specs.declared.event.Event.TheVariants.{Step};
ghost use Rattle.steps.specs.Event.{after, outcome, sent};
ghost use Rattle.steps.specs.IsState.{IsState};
ghost use Rattle.steps.specs.Outcome.{outcome_of, step_outcome};
ghost use Rattle.steps.specs.State.{State};
ghost use Rattle.machine.specs.Run.{run_after, run_sent};
ghost use Rattle.machine.specs.Stretch.{EndsBefore};
ghost use Rattle.doors.specs.Doors.{NoNewRightsThroughDoors, NewSealsAllowedThroughDoors, LeavesAloneThroughDoors, IsSilentThroughDoors};
ghost use Rattle.doors.specs.Turn.{turn_why_of, ArePlainOrJumps};
ghost use Rattle.doors.specs.Worlds.{AgreeThroughDoors, IsSameTurn};

use cap_bounds::CapRep;
use machine::{Event, Machine, MachineFault, Out, Planned, Why, emit};
use steps::Effect;

/// How far a turn went.
#[derive(Clone, Copy, Debug, PartialEq, Eq)]
pub struct Turn {
    /// How many events were met.
    pub done: usize,
    /// Why the next one was not, `Trap` or `Unseal`; `None` where all were.
    pub why: Option<Why>,
}

/// Why an effect ends a turn, or `None` where it does not.
#[inline]
#[tactic(auto, unfolding(steps::specs::Outcome::outcome_of))]
fn ends<C: CapRep>(effect: &Effect<C>) -> Option<Why>
    ensures { result ≡ turn_why_of (outcome_of (meant C.value effect.now)) }
{
    match effect {
        Effect::Trap(_) => Some(Why::Trap),
        Effect::Unseal(write) if write.value.tag() => Some(Why::Unseal),
        _ => None,
    }
}

/// The same of a step that was planned. A machine that is halted ignores it.
#[inline]
#[tactic(auto, unfolding(steps::specs::Outcome::step_outcome))]
fn step_ends<C: CapRep>(machine: &Machine<C>, planned: &Planned<C>) -> Option<Why>
    requires { IsPlanned C.value planned.now.effect machine.now }
    ensures { result ≡ turn_why_of (step_outcome machine.now) }
{
    if machine.halted().is_some() {
        return None;
    }
    ends(&planned.effect)
}

/// Does a step unless it would end a turn, and then says why. It is planned once.
#[inline]
fn meet_step<C: CapRep>(machine: &mut Machine<C>) -> Result<Out, Why>
    ensures goes_on { OnOk result (turn_why_of (step_outcome machine.old) ≡ None) }
    ensures state { OnOk result (machine.new ≡ after Step machine.old) }
    ensures byte { IfOk result (λ out. out.byte ≡ sent Step machine.old) }
    ensures why { IfErr result (λ why. turn_why_of (step_outcome machine.old) ≡ Some why) }
    ensures same { OnErr result (machine.new ≡ machine.old) }
    ensures is_state { IsState machine.new }
{
    let planned = machine.next();
    match step_ends(machine, &planned) {
        Some(why) => {
            machine.hart();
            Err(why)
        }
        None => Ok(machine.apply(planned)),
    }
}

/// Meets an event unless it would end a turn, and then says why.
#[inline]
fn meet<C: CapRep>(machine: &mut Machine<C>, event: Event) -> Result<Out, Why>
    ensures goes_on { OnOk result (turn_why_of (outcome event machine.old) ≡ None) }
    ensures state { OnOk result (machine.new ≡ after event machine.old) }
    ensures byte { IfOk result (λ out. out.byte ≡ sent event machine.old) }
    ensures why { IfErr result (λ why. turn_why_of (outcome event machine.old) ≡ Some why) }
    ensures same { OnErr result (machine.new ≡ machine.old) }
    ensures was_state { IsState machine.old }
    ensures is_state { IsState machine.new }
{
    machine.hart();
    match event {
        Event::Step => meet_step(machine),
        Event::Tick | Event::Byte(_) => Ok(machine.event(event)),
    }
}

/// Meets events in order, sealed jumps too, up to the first that would trap or unseal, and appends the sent bytes to `out`.
///
/// After each of the events that are met, what is reachable is within the rights of what was reachable through doors at the start, a
/// seal that is new is a sentry's or one that something so reachable may put on, and what nothing so reachable opens is left alone. Nor
/// is that learned: from every state that agrees in all that is so opened the turn is the same.
///
/// Room for one byte an event is made before the first event. M5: there is no room, and then neither machine nor bytes are changed;
/// where `out` has that room already, nothing is asked for and M5 can't come.
pub fn run_turn<C: CapRep>(
    machine: &mut Machine<C>,
    events: &[Event],
    out: &mut Vec<u8>,
) -> Result<Turn, MachineFault>
    ensures state { IfOk result (λ r. machine.new ≡ run_after (take r.done events.now) machine.old) }
    ensures bytes { IfOk result (λ r. out.new.items ≡ out.old.items ++ run_sent (take r.done events.now) machine.old) }
    ensures some { IfOk result (λ r. r.done ≤ length events.now) }
    ensures plain_or_jumps { IfOk result (λ r. ArePlainOrJumps (take r.done events.now) machine.old) }
    ensures end { IfOk result (λ r. EndsBefore r.why (drop r.done events.now) machine.new) }
    ensures no_jump { IfOk result (λ r. r.why ≢ Some Why.SealedJump) }
    ensures is_state { IsState machine.new }

    ensures no_new_rights { IfOk result (λ r. (k : ℕ) → k ≤ r.done
        → NoNewRightsThroughDoors machine.old (run_after (take k events.now) machine.old)) }
    ensures new_seals { IfOk result (λ r. (k : ℕ) → k ≤ r.done
        → NewSealsAllowedThroughDoors machine.old (run_after (take k events.now) machine.old)) }
    ensures left_alone { IfOk result (λ r. (k : ℕ) → k ≤ r.done
        → LeavesAloneThroughDoors machine.old (run_after (take k events.now) machine.old)) }
    ensures silent { IfOk result (λ r. IsSilentThroughDoors machine.old (run_sent (take r.done events.now) machine.old)) }

    ensures two_worlds { IfOk result (λ r. (t : State) → AgreeThroughDoors machine.old t
        → IsSameTurn events.now r.done r.why machine.old t) }

    ensures fault { IfErr result (λ fault. fault ≡ MachineFault.M5) }
    ensures same_state { OnErr result (machine.new ≡ machine.old) }
    ensures same_bytes { OnErr result (out.new.items ≡ out.old.items) }
    ensures room { vec_len out.old + length events.now ≤ vec_capacity out.old → IsOk result }
{
    if out.reserve(events.len()).is_err() {
        machine.hart();
        return Err(MachineFault::M5);
    }
    let mut done = 0;
    for event in events {
        match meet(machine, *event) {
            Ok(sent) => emit(out, sent.byte),
            Err(why) => {
                let why = Some(why);
                return Ok(Turn { done, why });
            }
        }
        done += 1;
    }
    machine.hart();
    Ok(Turn { done, why: None })
}
