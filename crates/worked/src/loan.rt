//! A loan that can't be kept.
ghost use Rattle.std.specs.Prelude.{◌≡◌, ℕ};
ghost use Rattle.steps.specs.declared.event.Event.TheVariants.{Step};
ghost use Rattle.steps.specs.Event.{outcome};
ghost use Rattle.steps.specs.Outcome.{Trap};
ghost use Rattle.registers.specs.Registers.{register};
ghost use Rattle.authority.specs.Authority.{Not};
ghost use Rattle.authority.specs.Lent.{NoneKeepsAt};
ghost use Rattle.authority.specs.Reachable.{IsHeldAt, IsReachable};
ghost use Rattle.machine.specs.Run.{run_after};
ghost use Rattle.doors.specs.Doors.{IsReachableThroughDoors};
ghost use Rattle.doors.specs.Lent.{IsClearedOf, IsLent};
ghost use Rattle.doors.specs.Turn.{IsTurn};
ghost use Rattle.worked.specs.Loan.{borrower, cleared, loan, move, trapped};

use doors::lent::cleared_states_reach_what_was_left_behind;

/// The borrower reaches the loan, and moves it to another register in a turn; the store traps, since nothing that it reaches through
/// doors has Store_Local_Capability. Then the kernel clears registers.
pub fn the_borrower_tries_to_keep_its_loan()
    ensures lent { IsLent loan }
    ensures reached { IsReachable borrower loan }
    ensures turn { IsTurn move borrower }
    ensures moved { register (run_after move borrower).registers 12 ≡ loan }
    ensures trap { outcome Step (run_after move borrower) ≡ Trap }
    ensures cause { trapped.csrs.mtval ≡ 0x176 }
    ensures none_keeps { (granule : ℕ) → NoneKeepsAt (IsReachableThroughDoors borrower) granule }
    ensures none_lay { (granule : ℕ) → Not (IsHeldAt borrower.memory granule loan) }
    ensures cleared { IsClearedOf loan trapped cleared }
{}

/// What the law says of it: the loan isn't reachable again.
pub fn the_loan_is_gone()
    ensures { Not (IsReachable cleared loan) }
{
    the_borrower_tries_to_keep_its_loan();
    cleared_states_reach_what_was_left_behind();
}
