//! The first breach of rules in a run on a schedule.

ghost use Rattle.std.specs.Prelude.{◌≡◌, ◌≤◌, Some, false, length, IfNone, IfOk, IfSome, OnErr};
ghost use Rattle.machine.specs.Run.{run_after};
ghost use Rattle.policy.specs.Terms.{terms_of};
ghost use Rattle.policy.specs.Watch.{IsRefused};
ghost use Rattle.policy.specs.Lending.{in_force};
ghost use Rattle.schedules.specs.Schedule.{is_halted, scheduled, IsRunnable};
ghost use Rattle.schedules.specs.Schedule.{events_before};
ghost use Rattle.schedules.specs.Schedule.{IsPlaceOf};
ghost use Rattle.policy_runs.specs.Keeping.{LeavesMidway, StepsKeepToEach};

use crate::keeper::{Bar, Keeper};
use cap_bounds::CapRep;
use machine::Machine;
use policy::{Refused, Rule, Watcher};
use schedules::{How, Progress, Schedule, Walking, walk_told};
use std::alloc::{AllocError, Global};

/// Where rules stop a run: before which step, and why.
#[derive(Clone, Copy, Debug, PartialEq, Eq)]
pub struct Breach {
    /// The number of the step that is not done, counted from 1.
    pub number: u64,
    /// Which rule is broken, and by what.
    pub refused: Refused,
}

/// The first step of a machine's run on a schedule before which a rule that applies is broken; none where there is none.
///
/// The machine is run up to that step, the byte that comes just before it among what it met, and what it sends is forgotten; `progress` is
/// told from time to time how many steps were done. Before each
/// earlier step every rule that applied held, by the terms in force, and each of those steps kept to it. A run that halts the machine
/// ends there.
///
/// # Errors
///
/// Out of memory for what is known of the rules, before the run, or to find out what is reachable, before a step of it. It comes only where
/// there are rules: without any nothing is asked of the allocator. The machine then stands there, and each step before kept to each rule
/// that applied.
pub fn find_breach<C: CapRep, P: Progress>(
    alloc: Global,
    machine: &mut Machine<C>,
    rules: &[Rule],
    schedule: Schedule,
    input: &[u8],
    progress: &mut P,
) -> Result<Option<Breach>, AllocError>
    requires range { IsRunnable schedule }
    requires running { is_halted machine.old ≡ false }
    ensures none { IfOk result (λ b. IfNone b
        (StepsKeepToEach (terms_of rules.now) (scheduled schedule input.now machine.old) machine.old)) }
    ensures number { IfOk result (λ b. IfSome b (λ x. IsPlaceOf schedule x.number)) }
    ensures state { IfOk result (λ b. IfSome b (λ x.
        machine.new ≡ run_after (events_before (Some x.number) schedule input.now machine.old) machine.old)) }
    ensures refused { IfOk result (λ b. IfSome b (λ x.
        IsRefused (in_force (terms_of rules.now) (events_before (Some x.number) schedule input.now machine.old) machine.old)
        x.refused machine.new)) }
    ensures kept { IfOk result (λ b. IfSome b (λ x.
        StepsKeepToEach (terms_of rules.now) (events_before (Some x.number) schedule input.now machine.old) machine.old)) }
    ensures midway { OnErr result (LeavesMidway (terms_of rules.now) schedule input.now machine.old machine.new) }
    ensures room { OnErr result (1 ≤ length rules.now) }
{
    let mut watcher = Watcher::new(alloc, rules)?;
    watcher.look(machine);
    let mut keeper = Keeper { alloc, watcher };
    let Walking { how, steps } = walk_told(machine, schedule, input, &mut keeper, progress);
    match how {
        How::Done | How::Halted => Ok(None),
        How::Barred(bar) => match bar {
            Bar::Broken(refused) => {
                let number = steps + 1;
                Ok(Some(Breach { number, refused }))
            }
            Bar::Memory => Err(AllocError),
        },
        // Nothing stops that watch.
        How::Stopped => unreachable!(),
        // Memory is taken before a step.
        How::Failed(_) => unreachable!(),
    }
}
