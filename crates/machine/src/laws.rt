//! What holds of every plain run: of *machine run* over any list of events without a trap, an unsealing or a sealed jump, whatever call
//! meets them. Each function's contract is a law, and its body is empty.

ghost use Rattle.std.specs.Prelude.{◌≡◌, ℕ, List, [], take, true};
ghost use Rattle.cap_bounds.specs.CapValue.{CapValue, is_sealed};
ghost use Rattle.steps.specs.declared.event.Event.{Event};
ghost use Rattle.steps.specs.IsState.{IsState};
ghost use Rattle.steps.specs.State.{State};
ghost use Rattle.authority.specs.Reachable.{IsReachable};
ghost use Rattle.authority.specs.Authority.{NoNewRights, NewSealsAllowed, LeavesAlone, IsSilent};
ghost use Rattle.authority.specs.Worlds.{Agree};
ghost use Rattle.authority.specs.Confined.{IsConfined, IsOfTheTwo, IsSealedAsTheTwo, StaysOutside, LooksTheSame};
ghost use Rattle.machine.specs.Run.{run_after, run_sent};
ghost use Rattle.machine.specs.Stretch.{IsPlainRun, IsTwin};

/// A plain run gives no rights, puts on only seals that are allowed, and leaves alone what it may not change. What holds after it holds
/// after each of its events, since its beginnings are plain runs.
pub fn plain_runs_keep_authority()
    ensures rights { (events : List Event) (s : State) → IsPlainRun events s → NoNewRights s (run_after events s) }
    ensures seals { (events : List Event) (s : State) → IsPlainRun events s → NewSealsAllowed s (run_after events s) }
    ensures left_alone { (events : List Event) (s : State) → IsPlainRun events s → LeavesAlone s (run_after events s) }
    ensures silent { (events : List Event) (s : State) → IsPlainRun events s → IsSilent s (run_sent events s) }
    ensures beginnings { (events : List Event) (s : State) (k : ℕ) → IsPlainRun events s → IsPlainRun (take k events) s }
{}

/// Two worlds: from every state that agrees with the first, the events of a plain run are plain, send the same bytes and end in states
/// that agree.
pub fn plain_runs_are_the_same_in_both_worlds()
    ensures plain { (events : List Event) (s t : State) → IsPlainRun events s → Agree s t → IsState t → IsPlainRun events t }
    ensures twin { (events : List Event) (s t : State) → IsPlainRun events s → Agree s t → IsTwin events s t }
{}

/// Confined code stays confined, whatever its instructions are: over any plain run what it can come to hold is of the rights of PCC or
/// DDC, and sealed it is a sentry; all outside DDC's bounds stays; nothing is sent; and what lies outside PCC's bounds and DDC's can't be
/// told.
pub fn confined_runs_stay_confined()
    ensures rights { (events : List Event) (s : State) → IsPlainRun events s → IsConfined s → (v : CapValue)
        → IsReachable (run_after events s) v → IsOfTheTwo s v }
    ensures seals { (events : List Event) (s : State) → IsPlainRun events s → IsConfined s → (v : CapValue)
        → IsReachable (run_after events s) v → is_sealed v ≡ true → IsSealedAsTheTwo s v }
    ensures stays { (events : List Event) (s : State) → IsPlainRun events s → IsConfined s → StaysOutside s (run_after events s) }
    ensures silent { (events : List Event) (s : State) → IsPlainRun events s → IsConfined s → run_sent events s ≡ [] }
    ensures two_worlds { (events : List Event) (s t : State) → IsPlainRun events s → IsConfined s → LooksTheSame s t → IsTwin events s t }
{}
