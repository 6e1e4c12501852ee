//! What is told of what is found.
ghost use Rattle.std.specs.Prelude.{◌≡◌, ◌<◌, ◌++◌, All, OnOk, length, slice_get, string_bytes};
ghost use Rattle.std.specs.List.{flat_map};
ghost use Rattle.reached.specs.Chain.{AreInOrder};
ghost use Rattle.reached.specs.Order.{seen_members};
ghost use Rattle.policy_audit.specs.Object.{finding_object};
ghost use Rattle.policy_audit.specs.Text.{breach_by, finding_text, finding_told, step_line};

use crate::finding::{Finding, Moment};
use crate::object::finding_object;
use crate::report::Report;
use breach_texts::put_breach;
use cap_bounds::CapRep;
use reached::Member;
use std::alloc::{AllocError, Global};
use symbols::{Symbols, labelled};
use texts::Piece::{Decimal, Text};
use texts::append;

/// Appends before which step something is found, with the label of PCC's address.
fn append_step(text: &mut String, symbols: &Symbols, at: Moment) -> Result<(), AllocError>
    ensures { OnOk result (string_bytes text.new ≡ string_bytes text.old ++ step_line symbols.now at.step at.pc) }
{
    let place = labelled(Some(symbols), at.pc);
    append(
        text,
        &[
            Text("step "),
            Decimal(at.step),
            Text(", pcc "),
            Text(place.as_str()),
            Text("\n"),
        ],
    )
}

/// Appends what breaks a rule, if its line is known.
fn append_by_line<C: CapRep>(
    text: &mut String,
    alloc: Global,
    report: &Report<'_>,
    members: &[Member<C>],
    finding: Finding,
) -> Result<(), AllocError>
    requires inside { finding.member < length members.now }
    requires order { AreInOrder members.now }
    ensures { OnOk result (string_bytes text.new ≡ string_bytes text.old
        ++ breach_by report.now.symbols.now (seen_members C.value members.now) finding (slice_get report.now.lines.now finding.rule)) }
{
    match report.lines.get(finding.rule) {
        Some(line) => put_breach(
            text,
            alloc,
            report.symbols,
            members,
            *line,
            finding.ban,
            finding.member,
        ),
        None => Ok(()),
    }
}

/// Appends a finding as lines: before which step it is found, and what breaks the rule, if its line is known.
#[tactic(auto, unfolding(crate::specs::Text::finding_text))]
fn append_lines<C: CapRep>(
    text: &mut String,
    alloc: Global,
    report: &Report<'_>,
    members: &[Member<C>],
    at: Moment,
    finding: Finding,
) -> Result<(), AllocError>
    requires inside { finding.member < length members.now }
    requires order { AreInOrder members.now }
    ensures { OnOk result (string_bytes text.new ≡ string_bytes text.old ++ finding_text report.now.symbols.now
        (seen_members C.value members.now) report.now.lines.now at.step at.pc finding) }
{
    append_step(text, report.symbols, at)?;
    append_by_line(text, alloc, report, members, finding)
}

/// Appends a finding as an object.
fn append_object<C: CapRep>(
    text: &mut String,
    alloc: Global,
    report: &Report<'_>,
    members: &[Member<C>],
    at: Moment,
    finding: Finding,
) -> Result<(), AllocError>
    requires inside { finding.member < length members.now }
    requires order { AreInOrder members.now }
    ensures { OnOk result (string_bytes text.new ≡ string_bytes text.old ++ finding_object report.now.symbols.now
        (seen_members C.value members.now) report.now.lines.now at.step at.pc finding) }
{
    let line = finding_object(alloc, report, members, at, finding)?;
    append(text, &[Text(line.as_str())])
}

/// Appends a finding.
#[tactic(auto, unfolding(crate::specs::Text::finding_told))]
fn append_finding<C: CapRep>(
    text: &mut String,
    alloc: Global,
    report: &Report<'_>,
    members: &[Member<C>],
    at: Moment,
    finding: Finding,
) -> Result<(), AllocError>
    requires inside { finding.member < length members.now }
    requires order { AreInOrder members.now }
    ensures { OnOk result (string_bytes text.new ≡ string_bytes text.old ++ finding_told report.now.json report.now.symbols.now
        (seen_members C.value members.now) report.now.lines.now at.step at.pc finding) }
{
    if report.json {
        append_object(text, alloc, report, members, at, finding)
    } else {
        append_lines(text, alloc, report, members, at, finding)
    }
}

/// Appends findings.
pub(crate) fn append_findings<C: CapRep>(
    text: &mut String,
    alloc: Global,
    report: &Report<'_>,
    members: &[Member<C>],
    at: Moment,
    found: &[Finding],
) -> Result<(), AllocError>
    requires inside { All (λ f. f.member < length members.now) found.now }
    requires order { AreInOrder members.now }
    ensures { OnOk result (string_bytes text.new ≡ string_bytes text.old ++ flat_map (finding_told report.now.json
        report.now.symbols.now (seen_members C.value members.now) report.now.lines.now at.step at.pc) found.now) }
{
    for finding in found {
        append_finding(text, alloc, report, members, at, *finding)?;
    }
    Ok(())
}
