//! What a question by a policy is asked with: labels, a policy, and when a run ends.

ghost use Rattle.std.specs.Prelude.{◌≡◌, ℕ, List, None, Ok, IfOk, IfErr};
ghost use Rattle.policy_text.specs.Policy.{any_code_of, policy_of};
ghost use Rattle.policy_text.specs.Seen.{seen};
ghost use Rattle.schedules.specs.Schedule.{IsRunnable};
ghost use Rattle.symbols.specs.Symbols.{faulty_line, symbols_of};
ghost use Rattle.cherisim_c.specs.Policies.{AreTexts};
ghost use Rattle.cherisim_c.specs.Refusals.{schedule_of, IsLabelsRefusal, IsRefusalOf, IsTextsRefusal};

use crate::refusal::Refusal;
use crate::types::Timetable;
use policy_text::{Policy, PolicyTextFault, read_policy};
use schedules::Schedule;
use std::alloc::Global;
use symbols::{Symbols, SymbolsFault, read_symbols};

/// A policy, and the labels that it may name.
#[derive(Drop)]
pub(crate) struct Texts {
    pub policy: Policy,
    pub symbols: Symbols,
}

/// A question by a policy about a run: its texts, and when the run ends.
#[derive(Drop)]
pub(crate) struct Asked {
    pub texts: Texts,
    pub schedule: Schedule,
}

/// The labels of a table.
pub(crate) fn labels_of(alloc: Global, labels: &[u8]) -> Result<Symbols, Refusal>
    ensures correct { IfOk result (λ _. faulty_line labels.now ≡ None) }
    ensures symbols { IfOk result (λ symbols. symbols ≡ symbols_of labels.now) }
    ensures fault { IfErr result (IsLabelsRefusal labels.now) }
{
    match read_symbols(alloc, labels) {
        Ok(symbols) => Ok(symbols),
        Err(SymbolsFault::Line(line)) => Err(Refusal::Labels(line)),
        Err(SymbolsFault::Memory) => Err(Refusal::Memory),
    }
}

/// The policy of a text.
fn policy_of(alloc: Global, text: &[u8], symbols: &Symbols) -> Result<Policy, Refusal>
    ensures ok { IfOk result (λ policy. policy_of symbols.now text.now ≡ Ok (seen policy)) }
    ensures any { IfOk result (λ policy. policy.any.items ≡ any_code_of symbols.now text.now) }
    ensures fault { IfErr result (λ refusal. (labels : List ℕ) → symbols.now ≡ symbols_of labels
        → IsTextsRefusal labels text.now refusal) }
{
    match read_policy(alloc, text, symbols) {
        Ok(policy) => Ok(policy),
        Err(PolicyTextFault::Line { line, code }) => Err(Refusal::Text(line, code)),
        Err(PolicyTextFault::Memory) => Err(Refusal::Memory),
    }
}

/// The schedule of a timetable, if a machine can run by it.
fn schedule_of(timetable: Timetable) -> Result<Schedule, Refusal>
    ensures ok { IfOk result (λ schedule. (schedule ≡ schedule_of timetable) × IsRunnable schedule) }
    ensures fault { IfErr result (λ refusal. (labels text : List ℕ) → IsRefusalOf labels text timetable refusal) }
{
    let Timetable { steps, gap, tick } = timetable;
    let schedule = Schedule { steps, gap, tick };
    if schedule.is_runnable() {
        Ok(schedule)
    } else {
        Err(Refusal::Schedule)
    }
}

/// What the texts of a question by a policy say.
pub(crate) fn read_labelled(alloc: Global, labels: &[u8], text: &[u8]) -> Result<Texts, Refusal>
    ensures ok { IfOk result (AreTexts labels.now text.now) }
    ensures err { IfErr result (IsTextsRefusal labels.now text.now) }
{
    let symbols = labels_of(alloc, labels)?;
    match policy_of(alloc, text, &symbols) {
        Ok(policy) => Ok(Texts { policy, symbols }),
        Err(refusal) => Err(refusal),
    }
}

/// What a question by a policy about a run asks.
pub(crate) fn asked_of(
    alloc: Global,
    labels: &[u8],
    text: &[u8],
    timetable: Timetable,
) -> Result<Asked, Refusal>
    ensures texts { IfOk result (λ asked. AreTexts labels.now text.now asked.texts) }
    ensures schedule { IfOk result (λ asked. asked.schedule ≡ schedule_of timetable) }
    ensures range { IfOk result (λ asked. IsRunnable asked.schedule) }
    ensures err { IfErr result (IsRefusalOf labels.now text.now timetable) }
{
    let schedule = schedule_of(timetable)?;
    match read_labelled(alloc, labels, text) {
        Ok(texts) => Ok(Asked { texts, schedule }),
        Err(refusal) => Err(refusal),
    }
}
