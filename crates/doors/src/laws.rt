//! What holds of sets of capabilities that are closed under links and doors, and of every run in one turn, whatever call meets its events.
//! Each function's contract is a law, and its body is empty.

ghost use Rattle.std.specs.Prelude.{◌≡◌, ◌↔◌, ℕ, List, take};
ghost use Rattle.cap_bounds.specs.CapValue.{CapValue};
ghost use Rattle.steps.specs.declared.event.Event.{Event};
ghost use Rattle.steps.specs.Event.{after, outcome};
ghost use Rattle.steps.specs.IsState.{IsState};
ghost use Rattle.steps.specs.Outcome.{Plain, SealedJump};
ghost use Rattle.steps.specs.State.{State};
ghost use Rattle.authority.specs.Authority.{NoNewRights, NewSealsAllowed, LeavesAlone, IsSilent};
ghost use Rattle.authority.specs.Reachable.{IsReachable};
ghost use Rattle.machine.specs.Run.{run_after, run_sent};
ghost use Rattle.doors.specs.Sets.{NoRightsBeyond, NoSealsBeyond, LeavesAloneBeyond, IsSilentBeyond};
ghost use Rattle.doors.specs.Closed.{IsClosed, IsGroundedBy, Bounds, HasDoors};
ghost use Rattle.doors.specs.Doors.{IsReachableThroughDoors, NoNewRightsThroughDoors, NewSealsAllowedThroughDoors};
ghost use Rattle.doors.specs.Doors.{LeavesAloneThroughDoors, IsSilentThroughDoors};
ghost use Rattle.doors.specs.Turn.{IsTurn};

use crate::set::CapSet;

/// Over what is reachable the words over a set say what *authority* says.
pub fn reachable_says_what_authority_says()
    ensures rights { (s later : State) → NoRightsBeyond (IsReachable s) later ↔ NoNewRights s later }
    ensures seals { (s later : State) → NoSealsBeyond (IsReachable s) later ↔ NewSealsAllowed s later }
    ensures left_alone { (s later : State) → LeavesAloneBeyond (IsReachable s) s later ↔ LeavesAlone s later }
    ensures silent { (s : State) (bytes : List ℕ) → IsSilentBeyond (IsReachable s) bytes ↔ IsSilent s bytes }
{}

/// What is reachable is the least set that is closed under links.
pub fn reachable_is_the_least_closed_set<S: CapSet>()
    ensures closed { (s : State) → IsClosed (IsReachable s) s }
    ensures least { (o s : State) → IsClosed (S.has o) s → (v : CapValue) → IsReachable s v → S.has o v }
{}

/// What is reachable through doors is the least set that is closed under links and doors; all that is reachable is in it.
pub fn doors_make_the_least_set_with_doors<S: CapSet>()
    ensures closed { (s : State) → IsClosed (IsReachableThroughDoors s) s }
    ensures doors { (s : State) → HasDoors (IsReachableThroughDoors s) }
    ensures least { (o s : State) → IsClosed (S.has o) s → HasDoors (S.has o) → (v : CapValue) → IsReachableThroughDoors s v → S.has o v }
    ensures wider { (s : State) (v : CapValue) → IsReachable s v → IsReachableThroughDoors s v }
{}

/// Authority over any set that is closed under links. It bounds what is reachable, it bounds what is so after a plain event, and with doors
/// what is so after a sealed jump, and what is reachable through doors.
pub fn closed_sets_bound_authority<S: CapSet>()
    ensures closed { (o s : State) → IsClosed (S.has o) s → Bounds (S.has o) s }
    ensures reach { (o s : State) → Bounds (S.has o) s → (v : CapValue) → IsReachable s v → IsGroundedBy (S.has o) v }
    ensures doors { (o s : State) → Bounds (S.has o) s → HasDoors (S.has o) → (v : CapValue) → IsReachableThroughDoors s v
        → IsGroundedBy (S.has o) v }
    ensures plain { (o s : State) (e : Event) → IsState s → Bounds (S.has o) s → outcome e s ≡ Plain → Bounds (S.has o) (after e s) }
    ensures jump { (o s : State) (e : Event) → IsState s → HasDoors (S.has o) → Bounds (S.has o) s → outcome e s ≡ SealedJump
        → Bounds (S.has o) (after e s) }
{}

/// Over any run in one turn a set with doors that bounds its start bounds its end, and beyond what members open all is left alone and
/// nothing is sent.
pub fn closed_sets_bound_turns<S: CapSet>()
    ensures bounds { (o s : State) (events : List Event) → HasDoors (S.has o) → Bounds (S.has o) s → IsTurn events s
        → Bounds (S.has o) (run_after events s) }
    ensures left_alone { (o s : State) (events : List Event) → HasDoors (S.has o) → Bounds (S.has o) s → IsTurn events s
        → LeavesAloneBeyond (S.has o) s (run_after events s) }
    ensures silent { (o s : State) (events : List Event) → HasDoors (S.has o) → Bounds (S.has o) s → IsTurn events s
        → IsSilentBeyond (S.has o) (run_sent events s) }
{}

/// A run in one turn gives no rights but those of what is reachable through doors at its start, puts on only seals that something so
/// reachable may put on, and leaves alone what nothing so reachable opens. What is reachable through doors doesn't grow. What holds after
/// it holds after each of its events, since its beginnings are runs in one turn.
pub fn turns_keep_authority()
    ensures rights { (events : List Event) (s : State) → IsTurn events s → NoNewRightsThroughDoors s (run_after events s) }
    ensures seals { (events : List Event) (s : State) → IsTurn events s → NewSealsAllowedThroughDoors s (run_after events s) }
    ensures doors { (events : List Event) (s : State) → IsTurn events s → (v : CapValue) → IsReachableThroughDoors (run_after events s) v
        → IsGroundedBy (IsReachableThroughDoors s) v }
    ensures left_alone { (events : List Event) (s : State) → IsTurn events s → LeavesAloneThroughDoors s (run_after events s) }
    ensures silent { (events : List Event) (s : State) → IsTurn events s → IsSilentThroughDoors s (run_sent events s) }
    ensures beginnings { (events : List Event) (s : State) (k : ℕ) → IsTurn events s → IsTurn (take k events) s }
{}
