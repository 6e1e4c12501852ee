//! A pair that is invoked.
ghost use Rattle.std.specs.Prelude.{◌≡◌, ℕ, ◌-◌, ◌≤◌, [], slice_index};
ghost use Rattle.base.specs.Ram.{ram_base};
ghost use Rattle.cap_rights.specs.Opened.{opened};
ghost use Rattle.tagged_memory.specs.Memory.{number_at};
ghost use Rattle.steps.specs.declared.event.Event.TheVariants.{Step};
ghost use Rattle.steps.specs.Event.{outcome};
ghost use Rattle.steps.specs.Outcome.{SealedJump};
ghost use Rattle.authority.specs.Authority.{Not};
ghost use Rattle.authority.specs.Reachable.{IsReachable};
ghost use Rattle.machine.specs.Run.{run_after, run_sent};
ghost use Rattle.doors.specs.Closed.{IsOpenedBy};
ghost use Rattle.doors.specs.Doors.{IsReachableThroughDoors, NoNewRightsThroughDoors};
ghost use Rattle.doors.specs.Turn.{IsTurn};
ghost use Rattle.doors.specs.Worlds.{AgreeThroughDoors, IsTwinThroughDoors};
ghost use Rattle.worked.specs.Pair.{caller, caller_with, sealed_code, sealed_data, turn};

use doors::laws::turns_keep_authority;
use doors::worlds::{hidden_bytes_may_differ_through_doors, turns_are_the_same_in_both_worlds};

/// The two of the pair open one another, so what the data opens is reachable through doors, and without doors not. The invocation and the
/// store that is done by the code are a turn: the store is through the data.
pub fn the_pair_is_invoked_in_a_turn()
    ensures code { IsOpenedBy sealed_code sealed_data }
    ensures data { IsOpenedBy sealed_data sealed_code }
    ensures behind { IsReachableThroughDoors caller (opened sealed_data) }
    ensures hidden { Not (IsReachable caller (opened sealed_data)) }
    ensures jump { outcome Step caller ≡ SealedJump }
    ensures turn { IsTurn turn caller }
    ensures stores { number_at (run_after turn caller).memory 0x8000_0300 4 ≡ 0x8000_0200 }
{}

/// What the laws say of it: after the turn nothing is reachable beyond the rights of what was reachable through doors, RAM past the data of
/// the pair is as it was, nothing was sent, and what stands there made no difference.
pub fn a_turn_stays_behind_its_doors()
    ensures rights { NoNewRightsThroughDoors caller (run_after turn caller) }
    ensures stays { (a : ℕ) → 0x8000_0400 ≤ a
        → slice_index (run_after turn caller).memory.bytes (a - ram_base) ≡ slice_index caller.memory.bytes (a - ram_base) }
    ensures silent { run_sent turn caller ≡ [] }
    ensures agree { (k byte : ℕ) → 0x400 ≤ k → AgreeThroughDoors caller (caller_with k byte) }
    ensures twin { (k byte : ℕ) → 0x400 ≤ k → IsTwinThroughDoors turn caller (caller_with k byte) }
{
    the_pair_is_invoked_in_a_turn();
    turns_keep_authority();
    hidden_bytes_may_differ_through_doors();
    turns_are_the_same_in_both_worlds();
}
