//! Runs by a policy: each part of a rule that is broken.

ghost use Rattle.std.specs.Prelude.{◌≡◌, ◌⊎◌, ◌≤◌, ◌<◌, ◌++◌, None, List, ℕ, IfOk, IfErr, IfSome, OnOk, length, take, string_bytes};
ghost use Rattle.policy.specs.Terms.{terms_of};
ghost use Rattle.schedules.specs.Schedule.{IsRunnable};
ghost use Rattle.cherisim_c.specs.Policies.{audit_of, IsAuditOf, TellsOf};
ghost use Rattle.cherisim_c.specs.Refusals.{IsRefusalOf, IsRefusal};
ghost use Rattle.cherisim_c.specs.Status.{full, no_machine};

use crate::asking::copy;
use crate::handle::Handle;
use crate::life::cloned;
use crate::policed::{Texts, asked_of};
use crate::refusal::Refusal;
use crate::status::NO_MACHINE;
use crate::types::Timetable;
use breach_texts::RuleLine;
use machine::Machine;
use policy_audit::{Report, audit_run, rule_lines};
use schedules::Schedule;
use std::alloc::{AllocError, Global};
use word_cap::WordCap;

/// Appends what an audit of a machine's run tells, with these lines of its rules; the machine stays as it is.
fn tell(
    told: &mut String,
    alloc: Global,
    machine: &Machine<WordCap>,
    lines: &[RuleLine<'_>],
    read: &Texts,
    schedule: Schedule,
    input: &[u8],
) -> Result<(), AllocError>
    requires { IsRunnable schedule }
    ensures { OnOk result (string_bytes told.new ≡ string_bytes told.old
        ++ audit_of lines.now read.now.symbols (terms_of read.now.policy.rules.items) schedule input.now machine.now) }
{
    if machine.halted().is_some() {
        return Ok(());
    }
    let mut copy = cloned(alloc, machine)?;
    let report = Report {
        symbols: &read.symbols,
        lines,
        json: false,
    };
    match audit_run(
        told,
        alloc,
        &report,
        &read.policy.rules,
        &mut copy,
        schedule,
        input,
    ) {
        Ok(_) => Ok(()),
        Err(fault) => Err(fault),
    }
}

/// What an audit of a machine's run by the policy of a text tells.
fn told_of(
    alloc: Global,
    machine: &Machine<WordCap>,
    text: &[u8],
    read: &Texts,
    schedule: Schedule,
    input: &[u8],
) -> Result<String, AllocError>
    requires { IsRunnable schedule }
    ensures { IfOk result (λ told. TellsOf text.now read.now schedule input.now machine.now (string_bytes told)) }
{
    let lines = rule_lines(alloc, text, &read.policy.lines)?;
    let mut told = String::new(alloc);
    tell(&mut told, alloc, machine, &lines, read, schedule, input)?;
    Ok(told)
}

/// The same, where the texts and the timetable are read first.
fn audited(
    alloc: Global,
    machine: &Machine<WordCap>,
    labels: &[u8],
    text: &[u8],
    timetable: Timetable,
    input: &[u8],
) -> Result<String, Refusal>
    ensures ok { IfOk result (λ told. IsAuditOf labels.now text.now timetable input.now machine.now (string_bytes told)) }
    ensures err { IfErr result (IsRefusalOf labels.now text.now timetable) }
{
    let asked = asked_of(alloc, labels, text, timetable)?;
    match told_of(alloc, machine, text, &asked.texts, asked.schedule, input) {
        Ok(told) => Ok(told),
        Err(_) => Err(Refusal::Memory),
    }
}

/// What an audit of a run of the machine from its state on by a policy tells: so many bytes at the beginning of `found`. Where it is too
/// short, its length is what it takes. Where a text is refused, its faulty line is written. The machine stays as it is.
#[unsafe(no_mangle)]
pub extern "C" fn cherisim_audit(
    alloc: Global,
    machine: &mut Handle,
    text: &[u8],
    labels: &[u8],
    timetable: &Timetable,
    input: &[u8],
    found: &mut [u8],
    size: &mut u64,
    line: &mut u64,
) -> u32
    ensures state { machine.new.machine ≡ machine.old.machine }
    ensures closed { machine.old.machine ≡ None → (result ≡ no_machine) × (line.new ≡ line.old) }
    ensures same { 1 ≤ result → result < full → (found.new ≡ found.old) × (size.new ≡ size.old) }
    ensures ok { IfSome machine.old.machine (λ s. result ≡ 0
        → IsAuditOf labels.now text.now timetable.now input.now s (take size.new found.new)) }
    ensures few { IfSome machine.old.machine (λ s. result ≡ 0 → size.new ≤ length found.new) }
    ensures full { IfSome machine.old.machine (λ s. result ≡ full → (told : List ℕ)
        × IsAuditOf labels.now text.now timetable.now input.now s told
        × (size.new ≡ length told) × (length found.old < size.new) × (found.new ≡ found.old)) }
    ensures only { IfSome machine.old.machine (λ s. (result ≡ 0) ⊎ ((result ≡ full)
        ⊎ IsRefusal (IsRefusalOf labels.now text.now timetable.now) line.new result)) }
    ensures no_line { (result ≡ 0) ⊎ (result ≡ full) → line.new ≡ line.old }
{
    match machine.take(alloc) {
        Some(held) => {
            let told = audited(alloc, &held, labels, text, *timetable, input);
            machine.put(held);
            match told {
                Ok(told) => copy(told.as_str(), found, size),
                Err(refusal) => refusal.report(line),
            }
        }
        None => NO_MACHINE,
    }
}
