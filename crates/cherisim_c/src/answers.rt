//! Whether the code of a machine may do something, and what *no* says.

ghost use Rattle.std.specs.Prelude.{◌≡◌, ◌⊎◌, ◌≤◌, None, IfSome, IfOk, List, false, true};
ghost use Rattle.doors.specs.Through.{AreReachableThroughDoors};
ghost use Rattle.doors.specs.ThroughOrder.{doors_in, members_through};
ghost use Rattle.doors.specs.Turn.{IsTurn};
ghost use Rattle.machine.specs.Stretch.{IsPlainRun};
ghost use Rattle.reach.specs.declared.may.May.{May as ToDo};
ghost use Rattle.reach.specs.Reach.{AreReachable, members_in};
ghost use Rattle.reach_texts.specs.Asked.{first_that, values_of};
ghost use Rattle.reached.specs.Order.{Found, seen_members};
ghost use Rattle.steps.specs.declared.event.Event.{Event};
ghost use Rattle.steps.specs.State.{State};
ghost use Rattle.word_cap.specs.WordCap.{word_value};
ghost use Rattle.cherisim_c.specs.Questions.{AreReachableUpTo, IsNeverDone, IsNotDone, members_up_to};
ghost use Rattle.cherisim_c.specs.Reaching.{answer_of};
ghost use Rattle.cherisim_c.specs.Status.{no_machine, no_memory};

use crate::handle::Handle;
use crate::reaching::reach_of;
use crate::status::{NO_MACHINE, NO_MEMORY, OK};
use crate::types::Answer;
use doors::{Through, closure_through_doors};
use machine::Machine;
use reach::May;
use reach_texts::first_that;
use reach_texts::laws::{
    what_code_may_not_do_is_not_done, what_code_may_not_do_is_not_done_through_doors,
    what_code_may_not_keep_is_not_kept, what_code_may_not_keep_is_not_kept_through_doors,
    what_code_may_not_learn_is_not_learned, what_code_may_not_learn_is_not_learned_through_doors,
};
use std::alloc::{AllocError, Global};
use word_cap::WordCap;

/// What is reachable through doors in a machine's state.
pub(crate) fn through_of(
    alloc: Global,
    machine: &Machine<WordCap>,
) -> Result<Through<WordCap>, AllocError>
    ensures members { IfOk result (λ found. seen_members word_value found.members.items ≡ members_through machine.now) }
    ensures doors { IfOk result (λ found. found.doors.items ≡ doors_in machine.now) }
    ensures reachable { IfOk result (λ found. AreReachableThroughDoors machine.now (values_of (members_through machine.now))) }
{
    let found = closure_through_doors(alloc, machine.hart())?;
    Ok(found)
}

/// The number of a member, if there is one, as an answer.
fn answer_of(first: Option<usize>) -> Answer
    ensures { result ≡ answer_of first }
{
    match first {
        Some(number) => Answer {
            member: number as u64,
            may: true,
        },
        None => Answer {
            member: 0,
            may: false,
        },
    }
}

/// Whether the code of a machine may do something up to the next trap, unsealing or sealed jump, or through doors up to the next trap or
/// unsealing.
fn asked_up_to(
    alloc: Global,
    machine: &Machine<WordCap>,
    may: May,
    doors: bool,
) -> Result<Answer, AllocError>
    ensures answer { IfOk result (λ answer. answer ≡ answer_of (first_that may (members_up_to doors machine.now))) }
    ensures reachable { IfOk result (λ answer. AreReachableUpTo doors machine.now (values_of (members_up_to doors machine.now))) }
{
    if doors {
        let found = through_of(alloc, machine)?;
        Ok(answer_of(first_that(&found.members, may)))
    } else {
        let reach = reach_of(alloc, machine)?;
        Ok(answer_of(first_that(reach.members(), may)))
    }
}

/// What no member lets code do is not done.
fn what_may_not_be_done_is_not_done()
    ensures stretch { (may : ToDo) (events : List Event) (s : State) (xs : List Found) → AreReachable s (values_of xs)
        → IsPlainRun events s → first_that may xs ≡ None → IsNotDone false may events s }
    ensures turn { (may : ToDo) (events : List Event) (s : State) (xs : List Found) → AreReachableThroughDoors s (values_of xs)
        → IsTurn events s → first_that may xs ≡ None → IsNotDone true may events s }
{
    what_code_may_not_do_is_not_done();
    what_code_may_not_learn_is_not_learned();
    what_code_may_not_keep_is_not_kept();
    what_code_may_not_do_is_not_done_through_doors();
    what_code_may_not_learn_is_not_learned_through_doors();
    what_code_may_not_keep_is_not_kept_through_doors();
}

/// Whether the code of a machine may do something. Where not, it is never done.
fn answered(
    alloc: Global,
    machine: &Machine<WordCap>,
    may: May,
    doors: bool,
) -> Result<Answer, AllocError>
    ensures answer { IfOk result (λ answer. answer ≡ answer_of (first_that may (members_up_to doors machine.now))) }
    ensures law { IfOk result (λ answer. answer.may ≡ false → IsNeverDone doors may machine.now) }
{
    what_may_not_be_done_is_not_done();
    asked_up_to(alloc, machine, may, doors)
}

/// The same of the machine that a handle has.
pub(crate) fn ask_up_to(
    alloc: Global,
    machine: &mut Handle,
    may: May,
    doors: bool,
    answer: &mut Answer,
) -> u32
    ensures state { machine.new.machine ≡ machine.old.machine }
    ensures closed { machine.old.machine ≡ None → result ≡ no_machine }
    ensures ok { IfSome machine.old.machine (λ s. result ≡ 0 → answer.new ≡ answer_of (first_that may (members_up_to doors s))) }
    ensures law { IfSome machine.old.machine (λ s. result ≡ 0 → answer.new.may ≡ false → IsNeverDone doors may s) }
    ensures same { 1 ≤ result → answer.new ≡ answer.old }
    ensures only { IfSome machine.old.machine (λ s. (result ≡ 0) ⊎ (result ≡ no_memory)) }
{
    match machine.take(alloc) {
        Some(held) => {
            let told = answered(alloc, &held, may, doors);
            machine.put(held);
            match told {
                Ok(told) => {
                    *answer = told;
                    OK
                }
                Err(_) => NO_MEMORY,
            }
        }
        None => NO_MACHINE,
    }
}

/// The same up to the next trap, unsealing or sealed jump.
pub(crate) fn ask(alloc: Global, machine: &mut Handle, may: May, answer: &mut Answer) -> u32
    ensures state { machine.new.machine ≡ machine.old.machine }
    ensures closed { machine.old.machine ≡ None → result ≡ no_machine }
    ensures ok { IfSome machine.old.machine (λ s. result ≡ 0 → answer.new ≡ answer_of (first_that may (members_in s))) }
    ensures law { IfSome machine.old.machine (λ s. result ≡ 0 → answer.new.may ≡ false → IsNeverDone false may s) }
    ensures same { 1 ≤ result → answer.new ≡ answer.old }
    ensures only { IfSome machine.old.machine (λ s. (result ≡ 0) ⊎ (result ≡ no_memory)) }
{
    ask_up_to(alloc, machine, may, false, answer)
}
