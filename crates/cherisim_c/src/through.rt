//! What the code that runs from here on can come to hold and do through doors, and questions about it.

ghost use Rattle.std.specs.Prelude.{◌≡◌, ◌⊎◌, ◌≤◌, ◌<◌, None, IfSome, false, length, map, take};
ghost use Rattle.doors.specs.Through.{AreReachableThroughDoors};
ghost use Rattle.doors.specs.ThroughOrder.{doors_in, members_through};
ghost use Rattle.reach_texts.specs.Asked.{first_that, values_of};
ghost use Rattle.cherisim_c.specs.Questions.{IsNeverDone, may_of, members_up_to};
ghost use Rattle.cherisim_c.specs.Reaching.{answer_of, c_door, c_member, shown_member};
ghost use Rattle.cherisim_c.specs.Status.{full, no_machine, no_memory, out_of_range};

use crate::answers::{ask_up_to, through_of};
use crate::handle::Handle;
use crate::reaching::{copy, kind_of, number_of};
use crate::status::{FULL, NO_MACHINE, NO_MEMORY, OK, RANGE};
use crate::types::{Answer, Door, Member, Question};
use doors::Door as Found;
use machine::Machine;
use reach::May;
use std::alloc::Global;
use word_cap::WordCap;

/// Copies what is reachable through doors in a machine's state to where there is room for all of it, and counts its members.
fn copy_reach(
    alloc: Global,
    machine: &Machine<WordCap>,
    members: &mut [Member],
    count: &mut u64,
) -> u32
    ensures memory { result ≡ no_memory → (members.new ≡ members.old) × (count.new ≡ count.old) }
    ensures ok { result ≡ 0 → (count.new ≡ length (members_through machine.now))
        × (map shown_member (take count.new members.new) ≡ map c_member (members_through machine.now)) }
    ensures reachable { result ≡ 0 → AreReachableThroughDoors machine.now (values_of (members_through machine.now)) }
    ensures full { result ≡ full
        → (count.new ≡ length (members_through machine.now)) × (length members.old < count.new) × (members.new ≡ members.old) }
    ensures only { (result ≡ 0) ⊎ ((result ≡ full) ⊎ (result ≡ no_memory)) }
{
    match through_of(alloc, machine) {
        Ok(found) => copy(&found.members, members, count),
        Err(_) => NO_MEMORY,
    }
}

/// Each capability that the code can come to hold up to the next trap or unsealing, through sealed jumps too: so many at the beginning of
/// `members`. What door n leads to was found in register 34 + n. Where there is no room for them all, how many there are.
#[unsafe(no_mangle)]
pub extern "C" fn cherisim_reach_through_doors(
    alloc: Global,
    machine: &mut Handle,
    members: &mut [Member],
    count: &mut u64,
) -> u32
    ensures state { machine.new.machine ≡ machine.old.machine }
    ensures closed { machine.old.machine ≡ None → (result ≡ no_machine) × (members.new ≡ members.old) × (count.new ≡ count.old) }
    ensures memory { result ≡ no_memory → (members.new ≡ members.old) × (count.new ≡ count.old) }
    ensures ok { IfSome machine.old.machine (λ s. result ≡ 0 → (count.new ≡ length (members_through s))
        × (map shown_member (take count.new members.new) ≡ map c_member (members_through s))) }
    ensures reachable { IfSome machine.old.machine (λ s. result ≡ 0
        → AreReachableThroughDoors s (map (λ m. (shown_member m).value) (take count.new members.new))) }
    ensures full { IfSome machine.old.machine (λ s. result ≡ full
        → (count.new ≡ length (members_through s)) × (length members.old < count.new) × (members.new ≡ members.old)) }
    ensures only { IfSome machine.old.machine (λ s. (result ≡ 0) ⊎ ((result ≡ full) ⊎ (result ≡ no_memory))) }
{
    match machine.take(alloc) {
        Some(held) => {
            let status = copy_reach(alloc, &held, members, count);
            machine.put(held);
            status
        }
        None => NO_MACHINE,
    }
}

/// A door as C gets it.
fn door_of(door: &Found) -> Door
    ensures { result ≡ c_door door.now }
{
    Door {
        sealed: number_of(door.sealed),
        key: number_of(door.key),
        sealed_kind: kind_of(door.sealed),
        key_kind: kind_of(door.key),
    }
}

/// Writes doors to the beginning of as many places or more.
fn fill(found: &[Found], doors: &mut [Door])
    requires { length found.now ≤ length doors.old }
    ensures { take (length found.now) doors.new ≡ map c_door found.now }
{
    for (number, door) in found.iter().enumerate() {
        doors[number] = door_of(door);
    }
}

/// Copies doors to where there is room for them all, and counts them.
fn copy_doors(found: &[Found], doors: &mut [Door], count: &mut u64) -> u32
    ensures count { count.new ≡ length found.now }
    ensures only { (result ≡ 0) ⊎ (result ≡ full) }
    ensures ok { result ≡ 0 → take (length found.now) doors.new ≡ map c_door found.now }
    ensures full { result ≡ full → (length doors.old < length found.now) × (doors.new ≡ doors.old) }
{
    *count = found.len() as u64;
    if found.len() <= doors.len() {
        fill(found, doors);
        OK
    } else {
        FULL
    }
}

/// Copies the doors of a machine's state to where there is room for them all, and counts them.
fn copy_found(alloc: Global, machine: &Machine<WordCap>, doors: &mut [Door], count: &mut u64) -> u32
    ensures memory { result ≡ no_memory → (doors.new ≡ doors.old) × (count.new ≡ count.old) }
    ensures ok { result ≡ 0 → (count.new ≡ length (doors_in machine.now)) × (take count.new doors.new ≡ map c_door (doors_in machine.now)) }
    ensures full { result ≡ full
        → (count.new ≡ length (doors_in machine.now)) × (length doors.old < count.new) × (doors.new ≡ doors.old) }
    ensures only { (result ≡ 0) ⊎ ((result ≡ full) ⊎ (result ≡ no_memory)) }
{
    match through_of(alloc, machine) {
        Ok(found) => copy_doors(&found.doors, doors, count),
        Err(_) => NO_MEMORY,
    }
}

/// The doors that the code can come to go through, in the order in which they are opened: so many at the beginning of `doors`. Where there
/// is no room for them all, how many there are.
#[unsafe(no_mangle)]
pub extern "C" fn cherisim_doors(
    alloc: Global,
    machine: &mut Handle,
    doors: &mut [Door],
    count: &mut u64,
) -> u32
    ensures state { machine.new.machine ≡ machine.old.machine }
    ensures closed { machine.old.machine ≡ None → (result ≡ no_machine) × (doors.new ≡ doors.old) × (count.new ≡ count.old) }
    ensures memory { result ≡ no_memory → (doors.new ≡ doors.old) × (count.new ≡ count.old) }
    ensures ok { IfSome machine.old.machine (λ s. result ≡ 0
        → (count.new ≡ length (doors_in s)) × (take count.new doors.new ≡ map c_door (doors_in s))) }
    ensures full { IfSome machine.old.machine (λ s. result ≡ full
        → (count.new ≡ length (doors_in s)) × (length doors.old < count.new) × (doors.new ≡ doors.old)) }
    ensures only { IfSome machine.old.machine (λ s. (result ≡ 0) ⊎ ((result ≡ full) ⊎ (result ≡ no_memory))) }
{
    match machine.take(alloc) {
        Some(held) => {
            let status = copy_found(alloc, &held, doors, count);
            machine.put(held);
            status
        }
        None => NO_MACHINE,
    }
}

/// What a question asks, if its kind is one.
fn may_of(question: &Question) -> Option<May>
    ensures { result ≡ may_of question.now }
{
    let address = question.address;
    let count = question.count;
    let all = [
        May::Store { address, count },
        May::Load { address, count },
        May::Execute { address, count },
        May::Learn { address, count },
        May::Keep { address, count },
        May::Send,
        May::Halt,
        May::System,
        May::Timer,
        May::Hold(u64::from(question.otype)),
    ];
    all.get(question.kind as usize).copied()
}

/// The status where nothing can be asked.
fn refuse(alloc: Global, machine: &mut Handle) -> u32
    ensures state { machine.new.machine ≡ machine.old.machine }
    ensures closed { machine.old.machine ≡ None → result ≡ no_machine }
    ensures range { IfSome machine.old.machine (λ s. result ≡ out_of_range) }
    ensures some { 1 ≤ result }
{
    match machine.take(alloc) {
        Some(held) => {
            machine.put(held);
            RANGE
        }
        None => NO_MACHINE,
    }
}

/// Whether the code may do what is asked, and the first member that lets it. Where none does, it is not done over any run up to where the
/// answer holds.
#[unsafe(no_mangle)]
pub extern "C" fn cherisim_may(
    alloc: Global,
    machine: &mut Handle,
    question: &Question,
    answer: &mut Answer,
) -> u32
    ensures state { machine.new.machine ≡ machine.old.machine }
    ensures closed { machine.old.machine ≡ None → result ≡ no_machine }
    ensures range { IfSome machine.old.machine (λ s. may_of question.now ≡ None → result ≡ out_of_range) }
    ensures ok { IfSome machine.old.machine (λ s. IfSome (may_of question.now) (λ may. result ≡ 0
        → answer.new ≡ answer_of (first_that may (members_up_to question.now.doors s)))) }
    ensures law { IfSome machine.old.machine (λ s. IfSome (may_of question.now) (λ may. result ≡ 0
        → answer.new.may ≡ false → IsNeverDone question.now.doors may s)) }
    ensures same { 1 ≤ result → answer.new ≡ answer.old }
    ensures only { IfSome machine.old.machine (λ s. IfSome (may_of question.now) (λ may. (result ≡ 0) ⊎ (result ≡ no_memory))) }
{
    match may_of(question) {
        Some(may) => ask_up_to(alloc, machine, may, question.doors, answer),
        None => refuse(alloc, machine),
    }
}
