//! The audit of a run.
ghost use Rattle.std.specs.Prelude.{◌≡◌, ◌++◌, ◌==◌, false, length, IfOk, OnOk, [], ◌∷◌, ⊤, string_bytes};
ghost use Rattle.steps.specs.declared.event.Event.TheVariants.{Step};
ghost use Rattle.machine.specs.Run.{run_after};
ghost use Rattle.schedules.specs.Schedule.{is_halted, scheduled, IsRunnable};
ghost use Rattle.schedules.specs.declared.pace.Pace.{Pace};
ghost use Rattle.schedules.specs.declared.pace.Speed.TheVariants.{Each};
ghost use Rattle.policy.specs.Terms.{terms_of};
ghost use Rattle.policy_audit.specs.Found.{found_at};
ghost use Rattle.policy_audit.specs.Look.{IsWhole, notes_of, rules_of, said_to, seen_by};
ghost use Rattle.policy_audit.specs.Text.{audit_findings, audit_text, says_found};
ghost use Rattle.policy_audit.specs.Watched.{Audited};
ghost use Rattle.policy_audit.specs.WatchedLaws.{audited_more, audited_none};

use crate::audit::Audit;
use crate::finding::Moment;
use crate::findings::append_findings;
use crate::report::Report;
use cap_bounds::CapRep;
use hart::Planned;
use machine::Machine;
use policy::Rule;
use schedules::{How, Pace, Schedule, Speed, Walking, Watch, walk_whole};
use std::alloc::{AllocError, Global};

/// Appends what an audit finds before the machine's next step.
fn tell<C: CapRep>(
    text: &mut String,
    alloc: Global,
    report: &Report<'_>,
    audit: &mut Audit<'_>,
    machine: &Machine<C>,
    number: u64,
) -> Result<(), AllocError>
    ensures text { OnOk result (string_bytes text.new ≡ string_bytes text.old
        ++ says_found report.now.json report.now.symbols.now report.now.lines.now (notes_of audit.old) number machine.now) }
    ensures seen { OnOk result (seen_by audit.new
        ≡ seen_by audit.old ++ found_at (rules_of audit.old) (seen_by audit.old) machine.now) }
    ensures rules { rules_of audit.new ≡ rules_of audit.old }
    ensures said { said_to audit.new ≡ said_to audit.old }
    ensures whole { IsWhole audit.old → IsWhole audit.new }
{
    let at = Moment {
        step: number,
        pc: machine.hart().scrs().pcc().address(),
    };
    match audit.look(alloc, machine)? {
        Some((reach, found)) => append_findings(text, alloc, report, reach.members(), at, &found),
        None => Ok(()),
    }
}

/// A watch that appends what an audit finds before each step. It stops before a step whose number has more than 64 bits.
#[derive(Drop)]
struct Auditor<'a, 'r> {
    text: &'a mut String,
    alloc: Global,
    report: Report<'a>,
    audit: &'a mut Audit<'r>,
    /// How many steps were done.
    steps: u64,
}

impl<C: CapRep> Watch<Machine<C>> for Auditor<'_, '_> {
    type Fault = AllocError;

    ghost Saw = { λ events s a b. Audited events s a b };

    ghost Lost = { λ _ _ _ _ _. ⊥ };

    ghost Barred = { λ _ _ _ _ _. ⊤ };

    ghost Asked = { λ s a b. Audited (Step ∷ []) s a b };

    ghost IsReady = { λ w. IsWhole w.audit.now };

    ghost pace_of = { λ _. record { speed = Each; most = 18446744073709551615 } };

    ghost stops_at = { λ w _. w.steps == 18446744073709551615 };

    ghost starts = { λ s w. audited_none s w };

    ghost goes_on = { λ xs ys s u v w first later. audited_more xs ys s u v w first later };

    ghost fails_later = { λ fault xs ys s u v w first later. later };

    ghost bars_later = { λ fault xs ys s u v w first later. tt };

    fn pace(&self) -> Pace {
        Pace::of(Speed::Each)
    }

    fn stops(&self, _machine: &Machine<C>, _planned: &Planned<C>) -> bool {
        self.steps == u64::MAX
    }

    #[tactic(auto, using(crate::specs::WatchedLaws::audited_none))]
    fn came(&mut self, _machine: &Machine<C>) {}

    fn passed(
        &mut self,
        _machine: &Machine<C>,
        _steps: u64,
        _sent: Option<u8>,
    ) -> Result<(), AllocError> {
        Ok(())
    }

    fn before(&mut self, machine: &Machine<C>, _planned: &Planned<C>) -> Result<(), AllocError> {
        let number = self.steps.saturating_add(1);
        tell(
            self.text,
            self.alloc,
            &self.report,
            self.audit,
            machine,
            number,
        )?;
        self.audit.pass(self.alloc, machine)?;
        self.steps = number;
        Ok(())
    }

    fn after(&mut self, _machine: &Machine<C>, _sent: Option<u8>) -> Result<(), AllocError> {
        Ok(())
    }
}

/// Runs a machine on a schedule, and appends a text or an object for each part of a rule that is broken in the run: before which step that
/// is so for the first time, counted from 1, where PCC stands then, and what breaks the rule. Answers how many there are.
///
/// A rule is broken before a step if it applies and something reachable breaks it, by its terms in force. The machine does each
/// step all the same, and what it sends is forgotten. For a rule without a line the text tells the step alone; its object has no rule.
///
/// # Errors
///
/// Out of memory. Then the machine stands in the middle of its run, and the text may have a part of what was found last.
pub fn audit_run<C: CapRep>(
    text: &mut String,
    alloc: Global,
    report: &Report<'_>,
    rules: &[Rule],
    machine: &mut Machine<C>,
    schedule: Schedule,
    input: &[u8],
) -> Result<usize, AllocError>
    requires range { IsRunnable schedule }
    requires running { is_halted machine.old ≡ false }
    ensures state { OnOk result (machine.new ≡ run_after (scheduled schedule input.now machine.old) machine.old) }
    ensures text { OnOk result (string_bytes text.new ≡ string_bytes text.old
        ++ audit_text report.now.json report.now.symbols.now report.now.lines.now (terms_of rules.now)
        (scheduled schedule input.now machine.old) machine.old) }
    ensures count { IfOk result (λ n. n ≡ length (audit_findings (terms_of rules.now)
        (scheduled schedule input.now machine.old) machine.old)) }
{
    let mut audit = Audit::new(alloc, rules)?;
    let mut auditor = Auditor {
        text,
        alloc,
        report: *report,
        audit: &mut audit,
        steps: 0,
    };
    let Walking { how, steps: _ } = walk_whole(machine, schedule, input, &mut auditor);
    match how {
        How::Done | How::Halted => Ok(audit.count()),
        // A schedule has fewer steps than have a number of 64 bits.
        How::Stopped => unreachable!(),
        // Memory is taken before a step.
        How::Failed(_) => unreachable!(),
        How::Barred(fault) => Err(fault),
    }
}
