//! What the answers about a state mean for every plain run from it, one without a trap, an unsealing or a sealed jump: each function's
//! contract is a law over the definitions alone, and its body calls the laws that it stands on.

ghost use Rattle.std.specs.Prelude.{◌≡◌, ◌≢◌, ◌↔◌, ◌⊎◌, ℕ, ◌+◌, ◌<◌, ◌≤◌, false, List, []};
ghost use Rattle.base.specs.ObjectType.{sentry_type};
ghost use Rattle.cap_bounds.specs.CapValue.{CapValue, is_tagged, value_otype};
ghost use Rattle.cap_rights.specs.Derivations.{unseal};
ghost use Rattle.cap_rights.specs.Rights.{OpensSystem, OpensGranule, OpensKeeping, OpensStore, OpensByte, OpensType};
ghost use Rattle.tagged_memory.specs.Memory.{has_tag};
ghost use Rattle.devices.specs.Devices.{halt, mtimecmp, timer_compare, timer, transmit, status, control_register};
ghost use Rattle.steps.specs.declared.event.Event.{Event};
ghost use Rattle.steps.specs.Event.{after};
ghost use Rattle.steps.specs.State.{State};
ghost use Rattle.authority.specs.Authority.{IsWritable, HasSystem, SameScrs, SameCsrs};
ghost use Rattle.authority.specs.Reachable.{IsReachable};
ghost use Rattle.authority.specs.Worlds.{IsReadable, Agree};
ghost use Rattle.machine.specs.Run.{run_after, run_sent};
ghost use Rattle.machine.specs.Stretch.{ArePlain, IsPlainRun, IsTwin};
ghost use Rattle.reach.specs.declared.range.Range.{Range};
ghost use Rattle.reach.specs.declared.right.Right.{Right};
ghost use Rattle.reach.specs.declared.right.Right.TheVariants.{Store, Load, Execute, Capabilities, Keep, Seal, Unseal};
ghost use Rattle.reach.specs.Differs.{KeepsBytes, KeepsNoLoan, DiffersWithin};
ghost use Rattle.reach.specs.First.{HoldsOfNone};
ghost use Rattle.reach.specs.Opens.{Opens, OpensSome, KeepsSome, OpensUnsealing, IsSealedAs};
ghost use Rattle.reach.specs.Ranges.{IsInOne, IsOpen, AreApart};
ghost use Rattle.reach.specs.Reach.{AreReachable, IsWithinOne};

use crate::device_answers::{CONTROL, HALT, STATUS, TIMER, TIMER_COMPARE, TRANSMIT};
use doors::lent::plain_runs_keep_nothing_lent;
use machine::laws::{plain_runs_are_the_same_in_both_worlds, plain_runs_keep_authority};

/// The constants of the devices' registers are the places of the map.
pub fn places_of_registers()
    ensures halt { HALT ≡ halt }
    ensures timer_compare { TIMER_COMPARE ≡ timer_compare }
    ensures timer { TIMER ≡ timer }
    ensures transmit { TRANSMIT ≡ transmit }
    ensures status { STATUS ≡ status }
    ensures control { CONTROL ≡ control_register }
{}

/// What a right opens, in the words of cap_rights: stores, bytes that are read, granules whose capabilities are loaded, and object types
/// to seal and to unseal with.
pub fn rights_open_their_bytes()
    ensures store { (c : CapValue) (a : ℕ) → Opens Store c a ↔ OpensStore c a }
    ensures byte { (c : CapValue) (a : ℕ) → OpensByte c a ↔ (Opens Load c a ⊎ Opens Execute c a) }
    ensures granule { (c : CapValue) (g : ℕ) → OpensGranule c g → (a : ℕ) → g ≤ a → a < g + 16 → Opens Capabilities c a }
    ensures keep { (c : CapValue) (g : ℕ) → OpensKeeping c g → (a : ℕ) → g ≤ a → a < g + 16 → Opens Keep c a }
    ensures seal { (c : CapValue) (otype : ℕ) → Opens Seal c otype ↔ OpensType c otype }
    ensures unseal { (c : CapValue) (otype : ℕ) → Opens Unseal c otype ↔ OpensUnsealing c otype }
{}

/// The members' ranges are the state's: an address is writable exactly if a member opens it to stores, and readable exactly if one opens
/// it to loads or fetches.
pub fn members_open_what_is_open()
    ensures writable { (s : State) (vs : List CapValue) → AreReachable s vs → (a : ℕ) → IsOpen Store vs a ↔ IsWritable s a }
    ensures readable { (s : State) (vs : List CapValue) → AreReachable s vs → (a : ℕ)
        → (IsOpen Load vs a ⊎ IsOpen Execute vs a) ↔ IsReadable s a }
{}

/// What no member opens stays as it is over any plain run: bytes and tags of RAM, the devices' registers, the system registers; and
/// nothing is sent where none opens transmit.
pub fn what_no_member_opens_stays()
    ensures bytes { (events : List Event) (s : State) (vs : List CapValue) (address size : ℕ) → AreReachable s vs → IsPlainRun events s
        → HoldsOfNone (λ v. OpensSome Store v address size) vs → KeepsBytes s.memory (run_after events s).memory address size }
    ensures tags { (events : List Event) (s : State) (vs : List CapValue) (granule : ℕ) → AreReachable s vs → IsPlainRun events s
        → HoldsOfNone (λ v. OpensSome Store v granule 16) vs → has_tag (run_after events s).memory granule ≡ has_tag s.memory granule }
    ensures silent { (events : List Event) (s : State) (vs : List CapValue) → AreReachable s vs → IsPlainRun events s
        → HoldsOfNone (λ v. OpensStore v transmit) vs → run_sent events s ≡ [] }
    ensures halt { (events : List Event) (s : State) (vs : List CapValue) → AreReachable s vs → IsPlainRun events s
        → HoldsOfNone (λ v. OpensStore v halt) vs → (run_after events s).devices.halted ≡ s.devices.halted }
    ensures timer { (events : List Event) (s : State) (vs : List CapValue) → AreReachable s vs → IsPlainRun events s
        → HoldsOfNone (λ v. OpensStore v timer_compare) vs → mtimecmp (run_after events s).devices ≡ mtimecmp s.devices }
    ensures control { (events : List Event) (s : State) (vs : List CapValue) → AreReachable s vs → IsPlainRun events s
        → HoldsOfNone (λ v. OpensStore v control_register) vs → (run_after events s).devices.control ≡ s.devices.control }
    ensures special { (events : List Event) (s : State) (vs : List CapValue) → AreReachable s vs → IsPlainRun events s
        → HoldsOfNone OpensSystem vs → SameScrs s.scrs (run_after events s).scrs }
    ensures control_and_status { (events : List Event) (s : State) (vs : List CapValue) → AreReachable s vs → IsPlainRun events s
        → HoldsOfNone OpensSystem vs → SameCsrs s.csrs (run_after events s).csrs }
{
    plain_runs_keep_authority();
}

/// What no member opens to loads or fetches is not learned: from every state that differs in those bytes alone the same events are
/// plain, send the same, and end in states that agree.
pub fn what_no_member_reads_is_not_learned()
    ensures { (events : List Event) (s t : State) (vs : List CapValue) (address size : ℕ) → AreReachable s vs → IsPlainRun events s
        → HoldsOfNone (λ v. OpensSome Load v address size) vs → HoldsOfNone (λ v. OpensSome Execute v address size) vs
        → DiffersWithin s t address size → ArePlain events t × IsTwin events s t }
{
    plain_runs_are_the_same_in_both_worlds();
}

/// Where no member may keep what is lent without Global, it isn't kept over any plain run, nor at the event after it, whatever that comes
/// to.
pub fn what_no_member_may_keep_is_not_kept()
    ensures run { (events : List Event) (s : State) (vs : List CapValue) (address size : ℕ) → AreReachable s vs → IsPlainRun events s
        → HoldsOfNone (λ v. KeepsSome v address size) vs
        → KeepsNoLoan (IsReachable s) s.memory (run_after events s).memory address size }
    ensures ending { (events : List Event) (s : State) (e : Event) (vs : List CapValue) (address size : ℕ) → AreReachable s vs
        → IsPlainRun events s → HoldsOfNone (λ v. KeepsSome v address size) vs
        → KeepsNoLoan (IsReachable s) s.memory (after e (run_after events s)).memory address size }
{
    plain_runs_keep_nothing_lent();
}

/// What is reachable after any plain run is within the rights of a member. With a type that no member is sealed with and none may seal
/// with, nothing is sealed there, but for sentries.
pub fn members_bound_what_comes()
    ensures rights { (events : List Event) (s : State) (vs : List CapValue) → AreReachable s vs → IsPlainRun events s
        → (v : CapValue) → IsReachable (run_after events s) v → IsWithinOne vs v }
    ensures seals { (events : List Event) (s : State) (vs : List CapValue) (otype : ℕ) → AreReachable s vs → IsPlainRun events s
        → HoldsOfNone (λ v. IsSealedAs v otype) vs → HoldsOfNone (λ v. OpensType v otype) vs → otype ≢ sentry_type
        → (v : CapValue) → IsReachable (run_after events s) v → IsSealedAs v otype → ⊥ }
{
    plain_runs_keep_authority();
}

/// After any plain run no reachable capability unseals a value whose type no member may unseal: the result has no tag.
pub fn unsealing_needs_a_member()
    ensures { (events : List Event) (s : State) (vs : List CapValue) (sealed authority : CapValue) → AreReachable s vs
        → IsPlainRun events s → HoldsOfNone (λ v. OpensUnsealing v (value_otype sealed)) vs
        → IsReachable (run_after events s) authority → is_tagged (unseal sealed authority) ≡ false }
{
    plain_runs_keep_authority();
}

/// The ranges that members open are the state's: whatever the order of the members, they are the same list.
pub fn a_state_has_its_ranges()
    ensures { (s : State) (right : Right) (us vs : List CapValue) (xs ys : List Range) → AreReachable s us → AreReachable s vs
        → AreApart xs → AreApart ys → ((a : ℕ) → IsInOne xs a ↔ IsOpen right us a) → ((a : ℕ) → IsInOne ys a ↔ IsOpen right vs a)
        → xs ≡ ys }
{}
