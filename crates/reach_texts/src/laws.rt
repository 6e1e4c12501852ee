//! What the answer *no* means for every plain run from a state, one without a trap, an unsealing or a sealed jump; and, asked of what is
//! reachable through doors, for every run in one turn, which goes on through sealed jumps.

ghost use Rattle.std.specs.Prelude.{◌≡◌, ℕ, List, [], None};
ghost use Rattle.reach.specs.declared.may.May.TheVariants.{Store, Learn, Keep, Send, Halt, System, Timer};
ghost use Rattle.devices.specs.Devices.{mtimecmp};
ghost use Rattle.steps.specs.declared.event.Event.{Event};
ghost use Rattle.steps.specs.Event.{after};
ghost use Rattle.steps.specs.State.{State};
ghost use Rattle.authority.specs.Authority.{SameScrs, SameCsrs};
ghost use Rattle.authority.specs.Reachable.{IsReachable};
ghost use Rattle.machine.specs.Run.{run_after, run_sent};
ghost use Rattle.machine.specs.Stretch.{ArePlain, IsPlainRun, IsTwin};
ghost use Rattle.doors.specs.Doors.{IsReachableThroughDoors};
ghost use Rattle.doors.specs.Through.{AreReachableThroughDoors};
ghost use Rattle.doors.specs.Turn.{ArePlainOrJumps, IsTurn};
ghost use Rattle.doors.specs.Worlds.{IsTwinThroughDoors};
ghost use Rattle.reach.specs.Differs.{KeepsBytes, KeepsNoLoan, DiffersWithin};
ghost use Rattle.reach.specs.Reach.{AreReachable};
ghost use Rattle.reached.specs.Order.{Found};
ghost use Rattle.reach_texts.specs.Asked.{first_that, values_of};

use doors::laws::turns_keep_authority;
use doors::lent::turns_keep_nothing_lent;
use doors::worlds::turns_are_the_same_in_both_worlds;
use reach::laws::{
    what_no_member_may_keep_is_not_kept, what_no_member_opens_stays,
    what_no_member_reads_is_not_learned,
};

/// Where no member lets code do it, it isn't done over any plain run: bytes of RAM that it may not store, the halt register, the timer
/// and the system registers stay as they are, and nothing is sent.
pub fn what_code_may_not_do_is_not_done()
    ensures store { (events : List Event) (s : State) (xs : List Found) (address size : ℕ) → AreReachable s (values_of xs)
        → IsPlainRun events s → first_that (Store address size) xs ≡ None
        → KeepsBytes s.memory (run_after events s).memory address size }
    ensures send { (events : List Event) (s : State) (xs : List Found) → AreReachable s (values_of xs) → IsPlainRun events s
        → first_that Send xs ≡ None → run_sent events s ≡ [] }
    ensures halt { (events : List Event) (s : State) (xs : List Found) → AreReachable s (values_of xs) → IsPlainRun events s
        → first_that Halt xs ≡ None → (run_after events s).devices.halted ≡ s.devices.halted }
    ensures timer { (events : List Event) (s : State) (xs : List Found) → AreReachable s (values_of xs) → IsPlainRun events s
        → first_that Timer xs ≡ None → mtimecmp (run_after events s).devices ≡ mtimecmp s.devices }
    ensures special { (events : List Event) (s : State) (xs : List Found) → AreReachable s (values_of xs) → IsPlainRun events s
        → first_that System xs ≡ None → SameScrs s.scrs (run_after events s).scrs }
    ensures control_and_status { (events : List Event) (s : State) (xs : List Found) → AreReachable s (values_of xs)
        → IsPlainRun events s → first_that System xs ≡ None → SameCsrs s.csrs (run_after events s).csrs }
{
    what_no_member_opens_stays();
}

/// Of bytes of which no member lets code learn anything nothing is learned: from every state that differs in those bytes alone the same
/// events are plain, send the same, and end in states that agree.
pub fn what_code_may_not_learn_is_not_learned()
    ensures { (events : List Event) (s t : State) (xs : List Found) (address size : ℕ) → AreReachable s (values_of xs)
        → IsPlainRun events s → first_that (Learn address size) xs ≡ None → DiffersWithin s t address size
        → ArePlain events t × IsTwin events s t }
{
    what_no_member_reads_is_not_learned();
}

/// Where no member lets code keep what is lent without Global, it isn't kept over any plain run, nor at the event after it, whatever that
/// comes to.
pub fn what_code_may_not_keep_is_not_kept()
    ensures run { (events : List Event) (s : State) (xs : List Found) (address size : ℕ) → AreReachable s (values_of xs)
        → IsPlainRun events s → first_that (Keep address size) xs ≡ None
        → KeepsNoLoan (IsReachable s) s.memory (run_after events s).memory address size }
    ensures ending { (events : List Event) (s : State) (e : Event) (xs : List Found) (address size : ℕ) → AreReachable s (values_of xs)
        → IsPlainRun events s → first_that (Keep address size) xs ≡ None
        → KeepsNoLoan (IsReachable s) s.memory (after e (run_after events s)).memory address size }
{
    what_no_member_may_keep_is_not_kept();
}

/// The same through doors, for every run in one turn, which goes on through sealed jumps up to the next trap or unsealing: where nothing
/// that is reachable through doors lets code do it, it isn't done.
pub fn what_code_may_not_do_is_not_done_through_doors()
    ensures store { (events : List Event) (s : State) (xs : List Found) (address size : ℕ) → AreReachableThroughDoors s (values_of xs)
        → IsTurn events s → first_that (Store address size) xs ≡ None
        → KeepsBytes s.memory (run_after events s).memory address size }
    ensures send { (events : List Event) (s : State) (xs : List Found) → AreReachableThroughDoors s (values_of xs) → IsTurn events s
        → first_that Send xs ≡ None → run_sent events s ≡ [] }
    ensures halt { (events : List Event) (s : State) (xs : List Found) → AreReachableThroughDoors s (values_of xs) → IsTurn events s
        → first_that Halt xs ≡ None → (run_after events s).devices.halted ≡ s.devices.halted }
    ensures timer { (events : List Event) (s : State) (xs : List Found) → AreReachableThroughDoors s (values_of xs) → IsTurn events s
        → first_that Timer xs ≡ None → mtimecmp (run_after events s).devices ≡ mtimecmp s.devices }
    ensures special { (events : List Event) (s : State) (xs : List Found) → AreReachableThroughDoors s (values_of xs) → IsTurn events s
        → first_that System xs ≡ None → SameScrs s.scrs (run_after events s).scrs }
    ensures control_and_status { (events : List Event) (s : State) (xs : List Found) → AreReachableThroughDoors s (values_of xs)
        → IsTurn events s → first_that System xs ≡ None → SameCsrs s.csrs (run_after events s).csrs }
{
    turns_keep_authority();
}

/// Nor is learned what nothing that is reachable through doors lets code learn: from every state that differs in those bytes alone the
/// same events are plain or sealed jumps, send the same, and end in states that agree.
pub fn what_code_may_not_learn_is_not_learned_through_doors()
    ensures { (events : List Event) (s t : State) (xs : List Found) (address size : ℕ) → AreReachableThroughDoors s (values_of xs)
        → IsTurn events s → first_that (Learn address size) xs ≡ None → DiffersWithin s t address size
        → ArePlainOrJumps events t × IsTwinThroughDoors events s t }
{
    turns_are_the_same_in_both_worlds();
}

/// Nor is kept what nothing that is reachable through doors lets code keep: over any run in one turn, and at the event after it, whatever
/// that comes to.
pub fn what_code_may_not_keep_is_not_kept_through_doors()
    ensures run { (events : List Event) (s : State) (xs : List Found) (address size : ℕ) → AreReachableThroughDoors s (values_of xs)
        → IsTurn events s → first_that (Keep address size) xs ≡ None
        → KeepsNoLoan (IsReachableThroughDoors s) s.memory (run_after events s).memory address size }
    ensures ending { (events : List Event) (s : State) (e : Event) (xs : List Found) (address size : ℕ)
        → AreReachableThroughDoors s (values_of xs) → IsTurn events s → first_that (Keep address size) xs ≡ None
        → KeepsNoLoan (IsReachableThroughDoors s) s.memory (after e (run_after events s)).memory address size }
{
    turns_keep_nothing_lent();
}
