//! Runs by a policy: where it stops them.

ghost use Rattle.std.specs.Prelude.{◌≡◌, ◌≤◌, None, IfOk, IfErr, IfSome};
ghost use Rattle.policy.specs.Terms.{terms_of};
ghost use Rattle.schedules.specs.Schedule.{IsRunnable};
ghost use Rattle.cherisim_c.specs.Policies.{c_breach, part_number, IsBreachOf, ShowsStop, Stops};
ghost use Rattle.cherisim_c.specs.Refusals.{schedule_of, IsRefusalOf, IsRefusal};
ghost use Rattle.cherisim_c.specs.Status.{no_machine};

use crate::handle::Handle;
use crate::life::cloned;
use crate::policed::{Texts, asked_of};
use crate::refusal::Refusal;
use crate::status::{NO_MACHINE, OK};
use crate::types::{Breach, Timetable};
use machine::Machine;
use policy::{Ban, Rule};
use policy_runs::{Breach as Found, find_breach};
use schedules::{Nobody, Schedule};
use std::alloc::{AllocError, Global};
use word_cap::WordCap;

/// The first step of a machine's run before which a rule is broken; the machine stays as it is. One that is halted does no step.
fn breach_ahead(
    alloc: Global,
    machine: &Machine<WordCap>,
    rules: &[Rule],
    schedule: Schedule,
    input: &[u8],
) -> Result<Option<Found>, AllocError>
    requires { IsRunnable schedule }
    ensures { IfOk result (Stops (terms_of rules.now) schedule input.now machine.now) }
{
    if machine.halted().is_some() {
        return Ok(None);
    }
    let mut copy = cloned(alloc, machine)?;
    find_breach(alloc, &mut copy, rules, schedule, input, &mut Nobody)
}

/// The number of a part of a rule.
fn part_number(part: Ban) -> u32
    ensures { result ≡ part_number part }
{
    match part {
        Ban::Store => 0,
        Ban::Load => 1,
        Ban::Execute => 2,
        Ban::Transmit => 3,
        Ban::Halt => 4,
        Ban::Timer => 5,
        Ban::System => 6,
        Ban::Seal => 7,
        Ban::Types => 8,
        Ban::Keep => 9,
        Ban::Enter => 10,
    }
}

/// Where a policy stops a run as C gets it, where these are the lines of its rules.
fn breach_of(lines: &[u64], found: Option<Found>) -> Breach
    ensures { result ≡ c_breach lines.now found }
{
    match found {
        Some(stop) => Breach {
            step: stop.number,
            line: lines.get(stop.refused.rule).copied().unwrap_or(0),
            member: stop.refused.member as u64,
            part: part_number(stop.refused.ban),
            found: true,
        },
        None => Breach {
            step: 0,
            line: 0,
            member: 0,
            part: 0,
            found: false,
        },
    }
}

/// Where a policy stops a machine's run.
fn found_by(
    alloc: Global,
    machine: &Machine<WordCap>,
    read: &Texts,
    schedule: Schedule,
    input: &[u8],
) -> Result<Breach, AllocError>
    requires { IsRunnable schedule }
    ensures { IfOk result (ShowsStop read.now.policy schedule input.now machine.now) }
{
    match breach_ahead(alloc, machine, &read.policy.rules, schedule, input) {
        Ok(found) => Ok(breach_of(&read.policy.lines, found)),
        Err(fault) => Err(fault),
    }
}

/// Where the policy of a text stops a machine's run.
fn watched(
    alloc: Global,
    machine: &Machine<WordCap>,
    labels: &[u8],
    text: &[u8],
    timetable: Timetable,
    input: &[u8],
) -> Result<Breach, Refusal>
    ensures ok { IfOk result (IsBreachOf labels.now text.now (schedule_of timetable) input.now machine.now) }
    ensures range { IfOk result (λ _. IsRunnable (schedule_of timetable)) }
    ensures err { IfErr result (IsRefusalOf labels.now text.now timetable) }
{
    let asked = asked_of(alloc, labels, text, timetable)?;
    match found_by(alloc, machine, &asked.texts, asked.schedule, input) {
        Ok(found) => Ok(found),
        Err(_) => Err(Refusal::Memory),
    }
}

/// Where a policy stops a run of the machine from its state on: before which step, by which line, part and capability; or that it doesn't.
/// Where a text is refused, its faulty line is written. The machine stays as it is.
#[unsafe(no_mangle)]
pub extern "C" fn cherisim_watch(
    alloc: Global,
    machine: &mut Handle,
    text: &[u8],
    labels: &[u8],
    timetable: &Timetable,
    input: &[u8],
    breach: &mut Breach,
    line: &mut u64,
) -> u32
    ensures state { machine.new.machine ≡ machine.old.machine }
    ensures closed { machine.old.machine ≡ None → (result ≡ no_machine) × (line.new ≡ line.old) }
    ensures ok { IfSome machine.old.machine (λ s. result ≡ 0
        → IsBreachOf labels.now text.now (schedule_of timetable.now) input.now s breach.new) }
    ensures range { IfSome machine.old.machine (λ s. result ≡ 0 → IsRunnable (schedule_of timetable.now)) }
    ensures refused { IfSome machine.old.machine (λ s. 1 ≤ result
        → IsRefusal (IsRefusalOf labels.now text.now timetable.now) line.new result) }
    ensures same { 1 ≤ result → breach.new ≡ breach.old }
    ensures no_line { result ≡ 0 → line.new ≡ line.old }
{
    match machine.take(alloc) {
        Some(held) => {
            let told = watched(alloc, &held, labels, text, *timetable, input);
            machine.put(held);
            match told {
                Ok(found) => {
                    *breach = found;
                    OK
                }
                Err(refusal) => refusal.report(line),
            }
        }
        None => NO_MACHINE,
    }
}
