//! The ranges of code that a run enters.
ghost use Rattle.std.specs.Prelude.{◌≡◌, ◌++◌, false, bytes_eq, option_map, option_to_list, IfOk, OnOk, [], ◌∷◌, ⊤, string_bytes};
ghost use Rattle.std.specs.List.{flat_map, list_any};
ghost use Rattle.steps.specs.declared.event.Event.TheVariants.{Step};
ghost use Rattle.machine.specs.Run.{run_after};
ghost use Rattle.policy.specs.Watch.{values_in};
ghost use Rattle.reach.specs.Ranges.{bounds_of};
ghost use Rattle.schedules.specs.Schedule.{is_halted, scheduled, IsRunnable};
ghost use Rattle.schedules.specs.declared.pace.Pace.{Pace};
ghost use Rattle.schedules.specs.declared.pace.Speed.TheVariants.{Each};
ghost use Rattle.policy_audit.specs.Entries.{adds_entry, entries_text, entry_rule, entry_rules, is_entered, rule_told};
ghost use Rattle.policy_audit.specs.Object.{rule_object};
ghost use Rattle.policy_audit.specs.Recalled.{recalled};
ghost use Rattle.policy_audit.specs.Watched.{Listed};
ghost use Rattle.policy_audit.specs.WatchedLaws.{listed_more, listed_none};

use crate::line::append_rule;
use cap_bounds::CapRep;
use hart::Planned;
use machine::Machine;
use objects::{Item, object_line};
use reach::{Range, Reach};
use schedules::{How, Pace, Schedule, Speed, Walking, Watch, walk_whole};
use std::alloc::{AllocError, Global};
use texts::Piece::Text;
use texts::append;

/// What was entered so far.
#[derive(Drop)]
struct Entries {
    /// PCC's bounds before the last step, if there was one.
    code: Option<Range>,
    /// The rules so far.
    rules: Vec<String>,
}

/// Whether a range of code is entered: it has an address, and is not the one before.
fn is_entered(last: Option<Range>, code: Range) -> bool
    ensures { result ≡ is_entered last code }
{
    if code.to <= u128::from(code.from) {
        return false;
    }
    match last {
        Some(last) => last.from != code.from || last.to != code.to,
        None => true,
    }
}

/// Whether a rule is among others.
fn is_written(rules: &[String], rule: &str) -> bool
    ensures { result ≡ list_any (λ r. bytes_eq (string_bytes r) rule.now) rules.now }
{
    rules.iter().any(|other| other.as_str() == rule)
}

/// PCC's bounds.
fn code_of<C: CapRep>(machine: &Machine<C>) -> Range
    ensures { result ≡ bounds_of machine.now.scrs.pcc }
{
    let pcc = machine.hart().scrs().pcc();
    Range {
        from: pcc.base(),
        to: pcc.top(),
    }
}

/// The rule of the range of code that a machine is in.
fn rule_of<C: CapRep>(
    alloc: Global,
    machine: &Machine<C>,
    code: Range,
) -> Result<String, AllocError>
    ensures { IfOk result (λ rule. string_bytes rule ≡ entry_rule code (values_in machine.now)) }
{
    let reach = Reach::of(alloc, machine.hart())?;
    let mut rule = String::new(alloc);
    append_rule(&mut rule, alloc, code, &reach)?;
    Ok(rule)
}

/// The rule of the range of code that a machine enters, if it enters one and the rule was not written before.
#[tactic(auto, unfolding(crate::specs::Entries::entry_rules))]
fn entered<C: CapRep>(
    alloc: Global,
    entries: &Entries,
    machine: &Machine<C>,
) -> Result<Option<String>, AllocError>
    ensures { IfOk result (λ rule. option_to_list (option_map string_bytes rule) ≡ entry_rules (recalled entries.now) machine.now) }
{
    let code = code_of(machine);
    if !is_entered(entries.code, code) {
        return Ok(None);
    }
    let rule = rule_of(alloc, machine, code)?;
    if is_written(&entries.rules, rule.as_str()) {
        return Ok(None);
    }
    Ok(Some(rule))
}

/// Appends a rule as an object.
fn append_rule_object(text: &mut String, alloc: Global, rule: &str) -> Result<(), AllocError>
    ensures { OnOk result (string_bytes text.new ≡ string_bytes text.old ++ rule_object rule.now) }
{
    let line = object_line(alloc, &[Item::Text("rule", rule)])?;
    append(text, &[Text(line.as_str())])
}

/// Appends the line of a rule, as an object or as a policy has it.
#[tactic(auto, unfolding(crate::specs::Entries::rule_told))]
fn append_line(text: &mut String, alloc: Global, json: bool, rule: &str) -> Result<(), AllocError>
    ensures { OnOk result (string_bytes text.new ≡ string_bytes text.old ++ rule_told json rule.now) }
{
    if json {
        append_rule_object(text, alloc, rule)
    } else {
        append(text, &[Text(rule), Text("\n")])
    }
}

/// Appends the line of the range of code that a machine enters, if it enters one and the line was not written before.
fn tell<C: CapRep>(
    text: &mut String,
    alloc: Global,
    json: bool,
    entries: &mut Entries,
    machine: &Machine<C>,
) -> Result<(), AllocError>
    ensures text { OnOk result (string_bytes text.new
        ≡ string_bytes text.old ++ flat_map (rule_told json) (entry_rules (recalled entries.old) machine.now)) }
    ensures recalled { OnOk result (recalled entries.new ≡ adds_entry (recalled entries.old) machine.now) }
{
    let rule = entered(alloc, entries, machine)?;
    entries.code = Some(code_of(machine));
    if let Some(rule) = rule {
        append_line(text, alloc, json, rule.as_str())?;
        entries.rules.push(rule)?;
    }
    Ok(())
}

/// A watch that appends the line of each range of code that is entered.
#[derive(Drop)]
struct Lister<'a> {
    text: &'a mut String,
    alloc: Global,
    json: bool,
    entries: &'a mut Entries,
}

impl<C: CapRep> Watch<Machine<C>> for Lister<'_> {
    type Fault = AllocError;

    ghost Saw = { λ events s a b. Listed events s a b };

    ghost Lost = { λ _ _ _ _ _. ⊥ };

    ghost Barred = { λ _ _ _ _ _. ⊤ };

    ghost Asked = { λ s a b. Listed (Step ∷ []) s a b };

    ghost IsReady = { λ _. ⊤ };

    ghost pace_of = { λ _. record { speed = Each; most = 18446744073709551615 } };

    ghost stops_at = { λ _ _. false };

    ghost starts = { λ s w. listed_none s w };

    ghost goes_on = { λ xs ys s u v w first later. listed_more xs ys s u v w first later };

    ghost fails_later = { λ fault xs ys s u v w first later. later };

    ghost bars_later = { λ fault xs ys s u v w first later. tt };

    fn pace(&self) -> Pace {
        Pace::of(Speed::Each)
    }

    fn stops(&self, _machine: &Machine<C>, _planned: &Planned<C>) -> bool {
        false
    }

    #[tactic(auto, using(crate::specs::WatchedLaws::listed_none))]
    fn came(&mut self, _machine: &Machine<C>) {}

    fn passed(
        &mut self,
        _machine: &Machine<C>,
        _steps: u64,
        _sent: Option<u8>,
    ) -> Result<(), AllocError> {
        Ok(())
    }

    fn before(&mut self, machine: &Machine<C>, _planned: &Planned<C>) -> Result<(), AllocError> {
        tell(self.text, self.alloc, self.json, self.entries, machine)?;
        Ok(())
    }

    fn after(&mut self, _machine: &Machine<C>, _sent: Option<u8>) -> Result<(), AllocError> {
        Ok(())
    }
}

/// Runs a machine on a schedule, and appends a line for each range of code that it enters, the line of a policy or an object: what the code
/// there could do, by what was reachable. A line that was written before is not written again.
///
/// A range of code is PCC's bounds. It is entered before a step where they are others than before the last step, and before the first
/// one; bounds that hold no address are no range. The lines say what was reachable where a range was entered; later, as after a trap or an
/// unsealing in the same bounds, more may be.
///
/// # Errors
///
/// Out of memory. Then the machine stands in the middle of its run, and the text has the lines so far, or one more.
pub fn entries_run<C: CapRep>(
    text: &mut String,
    alloc: Global,
    json: bool,
    machine: &mut Machine<C>,
    schedule: Schedule,
    input: &[u8],
) -> Result<(), AllocError>
    requires range { IsRunnable schedule }
    requires running { is_halted machine.old ≡ false }
    ensures state { OnOk result (machine.new ≡ run_after (scheduled schedule input.now machine.old) machine.old) }
    ensures text { OnOk result (string_bytes text.new
        ≡ string_bytes text.old ++ entries_text json (scheduled schedule input.now machine.old) machine.old) }
{
    let mut entries = Entries {
        code: None,
        rules: Vec::new(alloc),
    };
    let mut lister = Lister {
        text,
        alloc,
        json,
        entries: &mut entries,
    };
    let Walking { how, steps: _ } = walk_whole(machine, schedule, input, &mut lister);
    match how {
        How::Done | How::Halted => Ok(()),
        // Nothing stops that watch.
        How::Stopped => unreachable!(),
        // Memory is taken before a step.
        How::Failed(_) => unreachable!(),
        How::Barred(fault) => Err(fault),
    }
}
