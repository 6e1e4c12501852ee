//! Two worlds over runs in one turn, which go on through sealed jumps. Each function's contract is a law, and its body is empty.

ghost use Rattle.std.specs.Prelude.{◌≡◌, ◌↔◌, ℕ, ◌+◌, false, List, slice_set};
ghost use Rattle.base.specs.Ram.{ram_base};
ghost use Rattle.steps.specs.declared.event.Event.{Event};
ghost use Rattle.steps.specs.Event.{after, outcome};
ghost use Rattle.steps.specs.IsState.{IsState};
ghost use Rattle.steps.specs.Outcome.{is_trap};
ghost use Rattle.steps.specs.State.{State};
ghost use Rattle.authority.specs.Authority.{Not};
ghost use Rattle.authority.specs.Reachable.{IsReachable};
ghost use Rattle.authority.specs.Worlds.{Agree};
ghost use Rattle.doors.specs.Closed.{Bounds};
ghost use Rattle.doors.specs.Doors.{IsReachableThroughDoors};
ghost use Rattle.doors.specs.Turn.{ArePlainOrJumps, IsTurn};
ghost use Rattle.doors.specs.Worlds.{IsReadableBy, AgreeBy, AgreeThroughDoors, IsTwinThroughDoors};

use crate::set::CapSet;

/// Agreement over a set. Over what is reachable it is what *authority* calls agreement. Over a set that bounds the first state it asks no
/// less, so by `agreeing_states_step_alike` each event has the same outcome and sends the same byte in both. After each that is no
/// trap, sealed jumps and unsealings too, the two agree over the set again.
pub fn states_that_agree_over_a_set_step_alike<S: CapSet>()
    ensures reachable { (s t : State) → AgreeBy (IsReachable s) s t ↔ Agree s t }
    ensures agree { (o s t : State) → Bounds (S.has o) s → AgreeBy (S.has o) s t → Agree s t }
    ensures steps { (o s t : State) (e : Event) → IsState s → Bounds (S.has o) s → AgreeBy (S.has o) s t → is_trap (outcome e s) ≡ false
        → AgreeBy (S.has o) (after e s) (after e t) }
{}

/// Two worlds: from every state that agrees with the first in all that what is reachable through doors opens, the events of a run in one
/// turn make a run in one turn, send the same bytes and end in states that agree so again.
pub fn turns_are_the_same_in_both_worlds()
    ensures turn { (events : List Event) (s t : State) → IsTurn events s → AgreeThroughDoors s t → IsState t → IsTurn events t }
    ensures goes_on { (events : List Event) (s t : State) → IsTurn events s → AgreeThroughDoors s t → ArePlainOrJumps events t }
    ensures twin { (events : List Event) (s t : State) → IsTurn events s → AgreeThroughDoors s t → IsTwinThroughDoors events s t }
{}

/// Agreement through doors says nothing of what is hidden: a byte of RAM that nothing reachable through doors reads may be anything in the
/// other state.
pub fn hidden_bytes_may_differ_through_doors()
    ensures { (s : State) (k b : ℕ) → Not (IsReadableBy (IsReachableThroughDoors s) (ram_base + k))
        → AgreeThroughDoors s (record s { memory = record s.memory { bytes = slice_set s.memory.bytes k b } }) }
{}
