//! What the code that runs from here on can come to hold, and what it may do.

ghost use Rattle.std.specs.Prelude.{◌≡◌, ◌⊎◌, ◌≤◌, ◌<◌, None, IfSome, IfOk, List, [], false, length, map, take};
ghost use Rattle.authority.specs.Authority.{SameScrs, SameCsrs};
ghost use Rattle.reach.specs.declared.may.May.TheVariants.{Store, Load, Execute, Learn, Keep, Send, Halt, System, Timer, Hold};
ghost use Rattle.authority.specs.Reachable.{IsReachable};
ghost use Rattle.devices.specs.Devices.{mtimecmp};
ghost use Rattle.steps.specs.declared.event.Event.{Event};
ghost use Rattle.steps.specs.State.{State};
ghost use Rattle.machine.specs.Run.{run_after, run_sent};
ghost use Rattle.machine.specs.Stretch.{ArePlain, IsPlainRun, IsTwin};
ghost use Rattle.reach.specs.Differs.{KeepsBytes, KeepsNoLoan, DiffersWithin};
ghost use Rattle.reach.specs.Reach.{AreReachable, members_in};
ghost use Rattle.reach_texts.specs.Asked.{first_that, values_of};
ghost use Rattle.reached.specs.Order.{seen_member, seen_members};
ghost use Rattle.word_cap.specs.WordCap.{word_value};
ghost use Rattle.cherisim_c.specs.Reaching.{answer_of, c_member, kind_of, number_of, shown_member};
ghost use Rattle.cherisim_c.specs.Status.{no_machine, no_memory, full};

use crate::answers::ask;
use crate::handle::Handle;
use crate::status::{FULL, NO_MACHINE, NO_MEMORY, OK};
use crate::types::{Answer, Member};
use c_types::outside;
use cap_bounds::CapRep;
use machine::Machine;
use reach::{May, Reach};
use reached::{Member as Found, Place};
use std::alloc::{AllocError, Global};
use word_cap::WordCap;

/// What a place is in, as C gets it.
pub(crate) fn kind_of(place: Place) -> u32
    ensures { result ≡ kind_of place }
{
    match place {
        Place::Root(_) => 0,
        Place::Special(_) => 1,
        Place::Granule(_) => 2,
    }
}

/// The number of a register or the address of a granule.
pub(crate) fn number_of(place: Place) -> u64
    ensures { result ≡ number_of place }
{
    match place {
        Place::Root(number) => number as u64,
        Place::Special(number) => number as u64,
        Place::Granule(address) => address,
    }
}

/// A member as C gets it.
fn member_of<C: CapRep>(found: &Found<C>) -> Member
    ensures { shown_member result ≡ c_member (seen_member C.value found.now) }
{
    Member {
        value: outside(found.cap),
        place: number_of(found.place),
        from: found.from as u64,
        kind: kind_of(found.place),
    }
}

/// Writes members to the beginning of as many places or more.
fn fill<C: CapRep>(found: &[Found<C>], members: &mut [Member])
    requires { length found.now ≤ length members.old }
    ensures { map shown_member (take (length found.now) members.new) ≡ map c_member (seen_members C.value found.now) }
{
    for (number, member) in found.iter().enumerate() {
        members[number] = member_of(member);
    }
}

/// Copies members to where there is room for them all, and counts them.
pub(crate) fn copy<C: CapRep>(found: &[Found<C>], members: &mut [Member], count: &mut u64) -> u32
    ensures count { count.new ≡ length found.now }
    ensures only { (result ≡ 0) ⊎ (result ≡ full) }
    ensures ok { result ≡ 0 → map shown_member (take (length found.now) members.new) ≡ map c_member (seen_members C.value found.now) }
    ensures full { result ≡ full → (length members.old < length found.now) × (members.new ≡ members.old) }
{
    *count = found.len() as u64;
    if found.len() <= members.len() {
        fill(found, members);
        OK
    } else {
        FULL
    }
}

/// The reach of a machine's state.
pub(crate) fn reach_of(
    alloc: Global,
    machine: &Machine<WordCap>,
) -> Result<Reach<WordCap>, AllocError>
    ensures members { IfOk result (λ reach. seen_members word_value reach ≡ members_in machine.now) }
    ensures reachable { IfOk result (λ reach. AreReachable machine.now (values_of (members_in machine.now))) }
{
    let reach = Reach::of(alloc, machine.hart())?;
    Ok(reach)
}

/// Copies the reach of a machine's state to where there is room for all of it, and counts its members.
fn copy_reach(
    alloc: Global,
    machine: &Machine<WordCap>,
    members: &mut [Member],
    count: &mut u64,
) -> u32
    ensures memory { result ≡ no_memory → (members.new ≡ members.old) × (count.new ≡ count.old) }
    ensures ok { result ≡ 0 → (count.new ≡ length (members_in machine.now))
        × (map shown_member (take count.new members.new) ≡ map c_member (members_in machine.now)) }
    ensures reachable { result ≡ 0 → AreReachable machine.now (values_of (members_in machine.now)) }
    ensures full { result ≡ full
        → (count.new ≡ length (members_in machine.now)) × (length members.old < count.new) × (members.new ≡ members.old) }
    ensures only { (result ≡ 0) ⊎ ((result ≡ full) ⊎ (result ≡ no_memory)) }
{
    match reach_of(alloc, machine) {
        Ok(reach) => copy(reach.members(), members, count),
        Err(_) => NO_MEMORY,
    }
}

/// Each capability that the code can come to hold, in the order in which they are found: so many at the beginning of `members`. Where
/// there is no room for them all, how many there are.
#[unsafe(no_mangle)]
pub extern "C" fn cherisim_reach(
    alloc: Global,
    machine: &mut Handle,
    members: &mut [Member],
    count: &mut u64,
) -> u32
    ensures state { machine.new.machine ≡ machine.old.machine }
    ensures closed { machine.old.machine ≡ None → (result ≡ no_machine) × (members.new ≡ members.old) × (count.new ≡ count.old) }
    ensures memory { result ≡ no_memory → (members.new ≡ members.old) × (count.new ≡ count.old) }
    ensures ok { IfSome machine.old.machine (λ s. result ≡ 0 → (count.new ≡ length (members_in s))
        × (map shown_member (take count.new members.new) ≡ map c_member (members_in s))) }
    ensures reachable { IfSome machine.old.machine (λ s. result ≡ 0
        → AreReachable s (map (λ m. (shown_member m).value) (take count.new members.new))) }
    ensures full { IfSome machine.old.machine (λ s. result ≡ full
        → (count.new ≡ length (members_in s)) × (length members.old < count.new) × (members.new ≡ members.old)) }
    ensures only { IfSome machine.old.machine (λ s. (result ≡ 0) ⊎ ((result ≡ full) ⊎ (result ≡ no_memory))) }
{
    match machine.take(alloc) {
        Some(held) => {
            let status = copy_reach(alloc, &held, members, count);
            machine.put(held);
            status
        }
        None => NO_MACHINE,
    }
}

/// Whether the code may store to some of `count` bytes from an address on. Where not, a plain run leaves them as they are.
#[unsafe(no_mangle)]
pub extern "C" fn cherisim_may_store(
    alloc: Global,
    machine: &mut Handle,
    address: u64,
    count: u64,
    answer: &mut Answer,
) -> u32
    ensures state { machine.new.machine ≡ machine.old.machine }
    ensures closed { machine.old.machine ≡ None → result ≡ no_machine }
    ensures ok { IfSome machine.old.machine (λ s. result ≡ 0
        → answer.new ≡ answer_of (first_that (Store address count) (members_in s))) }
    ensures law { IfSome machine.old.machine (λ s. result ≡ 0 → answer.new.may ≡ false → (events : List Event) → IsPlainRun events s
        → KeepsBytes s.memory (run_after events s).memory address count) }
    ensures same { 1 ≤ result → answer.new ≡ answer.old }
    ensures only { IfSome machine.old.machine (λ s. (result ≡ 0) ⊎ (result ≡ no_memory)) }
{
    ask(alloc, machine, May::Store { address, count }, answer)
}

/// Whether the code may load some of `count` bytes from an address on.
#[unsafe(no_mangle)]
pub extern "C" fn cherisim_may_load(
    alloc: Global,
    machine: &mut Handle,
    address: u64,
    count: u64,
    answer: &mut Answer,
) -> u32
    ensures state { machine.new.machine ≡ machine.old.machine }
    ensures closed { machine.old.machine ≡ None → result ≡ no_machine }
    ensures ok { IfSome machine.old.machine (λ s. result ≡ 0
        → answer.new ≡ answer_of (first_that (Load address count) (members_in s))) }
    ensures same { 1 ≤ result → answer.new ≡ answer.old }
    ensures only { IfSome machine.old.machine (λ s. (result ≡ 0) ⊎ (result ≡ no_memory)) }
{
    ask(alloc, machine, May::Load { address, count }, answer)
}

/// Whether the code may execute some of `count` bytes from an address on.
#[unsafe(no_mangle)]
pub extern "C" fn cherisim_may_execute(
    alloc: Global,
    machine: &mut Handle,
    address: u64,
    count: u64,
    answer: &mut Answer,
) -> u32
    ensures state { machine.new.machine ≡ machine.old.machine }
    ensures closed { machine.old.machine ≡ None → result ≡ no_machine }
    ensures ok { IfSome machine.old.machine (λ s. result ≡ 0
        → answer.new ≡ answer_of (first_that (Execute address count) (members_in s))) }
    ensures same { 1 ≤ result → answer.new ≡ answer.old }
    ensures only { IfSome machine.old.machine (λ s. (result ≡ 0) ⊎ (result ≡ no_memory)) }
{
    ask(alloc, machine, May::Execute { address, count }, answer)
}

/// Whether the code may learn anything of `count` bytes from an address on. Where not, a plain run is the same whatever they are.
#[unsafe(no_mangle)]
pub extern "C" fn cherisim_may_learn(
    alloc: Global,
    machine: &mut Handle,
    address: u64,
    count: u64,
    answer: &mut Answer,
) -> u32
    ensures state { machine.new.machine ≡ machine.old.machine }
    ensures closed { machine.old.machine ≡ None → result ≡ no_machine }
    ensures ok { IfSome machine.old.machine (λ s. result ≡ 0
        → answer.new ≡ answer_of (first_that (Learn address count) (members_in s))) }
    ensures law { IfSome machine.old.machine (λ s. result ≡ 0 → answer.new.may ≡ false → (events : List Event) → IsPlainRun events s
        → (t : State) → DiffersWithin s t address count → ArePlain events t × IsTwin events s t) }
    ensures same { 1 ≤ result → answer.new ≡ answer.old }
    ensures only { IfSome machine.old.machine (λ s. (result ≡ 0) ⊎ (result ≡ no_memory)) }
{
    ask(alloc, machine, May::Learn { address, count }, answer)
}

/// Whether the code may keep what is lent without Global in a granule with some of `count` bytes from an address on. Where not, over a
/// plain run none of these granules comes to hold it.
#[unsafe(no_mangle)]
pub extern "C" fn cherisim_may_keep(
    alloc: Global,
    machine: &mut Handle,
    address: u64,
    count: u64,
    answer: &mut Answer,
) -> u32
    ensures state { machine.new.machine ≡ machine.old.machine }
    ensures closed { machine.old.machine ≡ None → result ≡ no_machine }
    ensures ok { IfSome machine.old.machine (λ s. result ≡ 0
        → answer.new ≡ answer_of (first_that (Keep address count) (members_in s))) }
    ensures law { IfSome machine.old.machine (λ s. result ≡ 0 → answer.new.may ≡ false → (events : List Event) → IsPlainRun events s
        → KeepsNoLoan (IsReachable s) s.memory (run_after events s).memory address count) }
    ensures same { 1 ≤ result → answer.new ≡ answer.old }
    ensures only { IfSome machine.old.machine (λ s. (result ≡ 0) ⊎ (result ≡ no_memory)) }
{
    ask(alloc, machine, May::Keep { address, count }, answer)
}

/// Whether the code may send a byte on the console. Where not, a plain run sends nothing.
#[unsafe(no_mangle)]
pub extern "C" fn cherisim_may_send(alloc: Global, machine: &mut Handle, answer: &mut Answer) -> u32
    ensures state { machine.new.machine ≡ machine.old.machine }
    ensures closed { machine.old.machine ≡ None → result ≡ no_machine }
    ensures ok { IfSome machine.old.machine (λ s. result ≡ 0 → answer.new ≡ answer_of (first_that Send (members_in s))) }
    ensures law { IfSome machine.old.machine (λ s. result ≡ 0 → answer.new.may ≡ false → (events : List Event) → IsPlainRun events s
        → run_sent events s ≡ []) }
    ensures same { 1 ≤ result → answer.new ≡ answer.old }
    ensures only { IfSome machine.old.machine (λ s. (result ≡ 0) ⊎ (result ≡ no_memory)) }
{
    ask(alloc, machine, May::Send, answer)
}

/// Whether the code may halt the machine. Where not, a plain run doesn't halt it.
#[unsafe(no_mangle)]
pub extern "C" fn cherisim_may_halt(alloc: Global, machine: &mut Handle, answer: &mut Answer) -> u32
    ensures state { machine.new.machine ≡ machine.old.machine }
    ensures closed { machine.old.machine ≡ None → result ≡ no_machine }
    ensures ok { IfSome machine.old.machine (λ s. result ≡ 0 → answer.new ≡ answer_of (first_that Halt (members_in s))) }
    ensures law { IfSome machine.old.machine (λ s. result ≡ 0 → answer.new.may ≡ false → (events : List Event) → IsPlainRun events s
        → (run_after events s).devices.halted ≡ s.devices.halted) }
    ensures same { 1 ≤ result → answer.new ≡ answer.old }
    ensures only { IfSome machine.old.machine (λ s. (result ≡ 0) ⊎ (result ≡ no_memory)) }
{
    ask(alloc, machine, May::Halt, answer)
}

/// Whether the code may use the system registers. Where not, a plain run keeps them.
#[unsafe(no_mangle)]
pub extern "C" fn cherisim_may_system(
    alloc: Global,
    machine: &mut Handle,
    answer: &mut Answer,
) -> u32
    ensures state { machine.new.machine ≡ machine.old.machine }
    ensures closed { machine.old.machine ≡ None → result ≡ no_machine }
    ensures ok { IfSome machine.old.machine (λ s. result ≡ 0 → answer.new ≡ answer_of (first_that System (members_in s))) }
    ensures law { IfSome machine.old.machine (λ s. result ≡ 0 → answer.new.may ≡ false → (events : List Event) → IsPlainRun events s
        → SameScrs s.scrs (run_after events s).scrs × SameCsrs s.csrs (run_after events s).csrs) }
    ensures same { 1 ≤ result → answer.new ≡ answer.old }
    ensures only { IfSome machine.old.machine (λ s. (result ≡ 0) ⊎ (result ≡ no_memory)) }
{
    ask(alloc, machine, May::System, answer)
}

/// Whether the code may set the timer. Where not, a plain run keeps mtimecmp.
#[unsafe(no_mangle)]
pub extern "C" fn cherisim_may_timer(
    alloc: Global,
    machine: &mut Handle,
    answer: &mut Answer,
) -> u32
    ensures state { machine.new.machine ≡ machine.old.machine }
    ensures closed { machine.old.machine ≡ None → result ≡ no_machine }
    ensures ok { IfSome machine.old.machine (λ s. result ≡ 0 → answer.new ≡ answer_of (first_that Timer (members_in s))) }
    ensures law { IfSome machine.old.machine (λ s. result ≡ 0 → answer.new.may ≡ false → (events : List Event) → IsPlainRun events s
        → mtimecmp (run_after events s).devices ≡ mtimecmp s.devices) }
    ensures same { 1 ≤ result → answer.new ≡ answer.old }
    ensures only { IfSome machine.old.machine (λ s. (result ≡ 0) ⊎ (result ≡ no_memory)) }
{
    ask(alloc, machine, May::Timer, answer)
}

/// Whether the code holds a capability that is sealed with a type, or may seal one with it.
#[unsafe(no_mangle)]
pub extern "C" fn cherisim_may_hold(
    alloc: Global,
    machine: &mut Handle,
    otype: u32,
    answer: &mut Answer,
) -> u32
    ensures state { machine.new.machine ≡ machine.old.machine }
    ensures closed { machine.old.machine ≡ None → result ≡ no_machine }
    ensures ok { IfSome machine.old.machine (λ s. result ≡ 0 → answer.new ≡ answer_of (first_that (Hold otype) (members_in s))) }
    ensures same { 1 ≤ result → answer.new ≡ answer.old }
    ensures only { IfSome machine.old.machine (λ s. (result ≡ 0) ⊎ (result ≡ no_memory)) }
{
    ask(alloc, machine, May::Hold(u64::from(otype)), answer)
}
