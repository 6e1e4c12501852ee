//! What is lent without Global can't be kept: over sets of capabilities, over plain runs, and over runs in one turn. Each function's
//! contract is a law, and its body is empty.

ghost use Rattle.std.specs.Prelude.{◌≡◌, ℕ, ◌⊎◌, List, true};
ghost use Rattle.cap_bounds.specs.CapValue.{CapValue};
ghost use Rattle.cap_rights.specs.Permission.{permits};
ghost use Rattle.cap_rights.specs.declared.permission.Permission.TheVariants.{Global};
ghost use Rattle.tagged_memory.specs.Memory.{Memory};
ghost use Rattle.steps.specs.declared.event.Event.{Event};
ghost use Rattle.steps.specs.Event.{after, outcome};
ghost use Rattle.steps.specs.IsState.{IsState};
ghost use Rattle.steps.specs.Outcome.{Trap};
ghost use Rattle.steps.specs.State.{State};
ghost use Rattle.authority.specs.Authority.{Not};
ghost use Rattle.authority.specs.Lent.{IsGivenBy, KeepsNothingLentBeyond, NoneKeepsAt};
ghost use Rattle.authority.specs.Reachable.{IsReachable, IsHeldAt};
ghost use Rattle.machine.specs.Run.{run_after};
ghost use Rattle.machine.specs.Stretch.{IsPlainRun};
ghost use Rattle.doors.specs.Closed.{Bounds, HasDoors};
ghost use Rattle.doors.specs.Doors.{IsReachableThroughDoors};
ghost use Rattle.doors.specs.Lent.{IsLent, IsIn, IsLeftBehind, IsFoundIn, IsClearedOf};
ghost use Rattle.doors.specs.Sets.{HasSystemBy};
ghost use Rattle.doors.specs.Turn.{IsTurn};

use crate::set::CapSet;

/// Beyond a set that bounds a state nothing that is lent is kept: at any event, whatever it comes to; and if the set has doors, over any
/// run in one turn, and at one more event, whatever it comes to. A granule where no member may keep what is lent holds later what it
/// held, or no tag, or a Global value that was given with Global.
pub fn closed_sets_keep_nothing_lent<S: CapSet>()
    ensures event { (o s : State) (e : Event) → IsState s → Bounds (S.has o) s
        → KeepsNothingLentBeyond (S.has o) s.memory (after e s).memory }
    ensures turn { (o s : State) (events : List Event) → HasDoors (S.has o) → Bounds (S.has o) s → IsTurn events s
        → KeepsNothingLentBeyond (S.has o) s.memory (run_after events s).memory }
    ensures ending { (o s : State) (events : List Event) (e : Event) → HasDoors (S.has o) → Bounds (S.has o) s → IsTurn events s
        → KeepsNothingLentBeyond (S.has o) s.memory (after e (run_after events s)).memory }
    ensures none { (o : State) (m later : Memory) → KeepsNothingLentBeyond (S.has o) m later → (granule : ℕ) (v : CapValue)
        → NoneKeepsAt (S.has o) granule → IsHeldAt later granule v
        → IsHeldAt m granule v ⊎ ((permits v Global ≡ true) × IsGivenBy (S.has o) v) }
{}

/// Over any plain run, and at one more event, whatever it comes to, nothing that is lent is kept beyond what is reachable at the start.
pub fn plain_runs_keep_nothing_lent()
    ensures run { (events : List Event) (s : State) → IsPlainRun events s
        → KeepsNothingLentBeyond (IsReachable s) s.memory (run_after events s).memory }
    ensures ending { (events : List Event) (s : State) (e : Event) → IsPlainRun events s
        → KeepsNothingLentBeyond (IsReachable s) s.memory (after e (run_after events s)).memory }
{}

/// Over any run in one turn, and at one more event, whatever it comes to, nothing that is lent is kept beyond what is reachable through
/// doors at the start.
pub fn turns_keep_nothing_lent()
    ensures run { (events : List Event) (s : State) → IsTurn events s
        → KeepsNothingLentBeyond (IsReachableThroughDoors s) s.memory (run_after events s).memory }
    ensures ending { (events : List Event) (s : State) (e : Event) → IsTurn events s
        → KeepsNothingLentBeyond (IsReachableThroughDoors s) s.memory (after e (run_after events s)).memory }
{}

/// Where a lent value is after a run in one turn, and where it is when a trap ends the turn: in a register, PCC, DDC or MEPCC, where it
/// lay at the start, or in a granule where something that was reachable through doors may keep it.
pub fn lent_values_stay_in_registers()
    ensures turn { (events : List Event) (s : State) → IsTurn events s → Not (HasSystemBy (IsReachableThroughDoors s)) → (v : CapValue)
        → IsLent v → IsIn (run_after events s) v → IsFoundIn (IsReachableThroughDoors s) s (run_after events s) v }
    ensures trap { (events : List Event) (s : State) (e : Event) → IsTurn events s → Not (HasSystemBy (IsReachableThroughDoors s))
        → outcome e (run_after events s) ≡ Trap → (v : CapValue) → IsLent v → IsIn (after e (run_after events s)) v
        → IsFoundIn (IsReachableThroughDoors s) s (after e (run_after events s)) v }
{}

/// What the borrower has of a lent value once the kernel has cleared it away: only where it was left behind is it reachable again. So it
/// is after the event that ended the turn, whatever it came to, and after a return through the caller's own pair, which is a turn.
pub fn cleared_states_reach_what_was_left_behind()
    ensures turn { (events : List Event) (s cleared : State) → IsTurn events s → (v : CapValue) → IsLent v
        → IsClearedOf v (run_after events s) cleared → IsReachable cleared v
        → IsLeftBehind (IsReachableThroughDoors s) s.memory (run_after events s).memory v }
    ensures ending { (events : List Event) (s cleared : State) (e : Event) → IsTurn events s → (v : CapValue) → IsLent v
        → IsClearedOf v (after e (run_after events s)) cleared → IsReachable cleared v
        → IsLeftBehind (IsReachableThroughDoors s) s.memory (after e (run_after events s)).memory v }
{}

/// Nothing that is lent becomes Global: a Global value that is reachable after a plain run, or after a run in one turn, through doors too,
/// is within the rights of one that was reachable at the start with Global. (What sealing and unsealing make of Global is a law of
/// `cap_rights`.)
pub fn nothing_lent_becomes_global()
    ensures plain { (events : List Event) (s : State) → IsPlainRun events s → (v : CapValue) → IsReachable (run_after events s) v
        → permits v Global ≡ true → IsGivenBy (IsReachable s) v }
    ensures turn { (events : List Event) (s : State) → IsTurn events s → (v : CapValue) → IsReachable (run_after events s) v
        → permits v Global ≡ true → IsGivenBy (IsReachableThroughDoors s) v }
    ensures doors { (events : List Event) (s : State) → IsTurn events s → (v : CapValue) → IsReachableThroughDoors (run_after events s) v
        → permits v Global ≡ true → IsGivenBy (IsReachableThroughDoors s) v }
{}
