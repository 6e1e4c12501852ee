//! A finding as an object.
ghost use Rattle.std.specs.Prelude.{◌≡◌, ◌<◌, ◌++◌, length, slice_get, IfOk, None, OnOk, string_bytes};
ghost use Rattle.reached.specs.Chain.{AreInOrder};
ghost use Rattle.reached.specs.Order.{seen_members};
ghost use Rattle.policy_audit.specs.Object.{breach_fields_by, finding_object, step_fields};

use crate::finding::{Finding, Moment};
use crate::report::Report;
use breach_texts::{put_breach_fields, put_broken_fields};
use cap_bounds::CapRep;
use objects::{Item, Writer, begin, finish, put, put_place};
use reached::Member;
use std::alloc::{AllocError, Global};
use symbols::Symbols;

/// Says before which step something is found, and PCC's place there.
#[tactic(auto, unfolding(crate::specs::Object::step_fields), using(objects::specs::ItemLaws::said_two))]
fn put_step(object: &mut Writer, symbols: &Symbols, at: Moment) -> Result<(), AllocError>
    ensures tokens { OnOk result (object.new.tokens ≡ object.old.tokens ++ step_fields symbols.now at.step at.pc) }
    ensures alone { object.new.before ≡ object.old.before }
{
    put(object, &[Item::Number("step", at.step)])?;
    put_place(object, "pcc", symbols, at.pc)
}

/// Says what breaks a rule whose line isn't known.
#[tactic(auto, using(objects::specs::ItemLaws::said_two))]
fn put_unlined<C: CapRep>(
    object: &mut Writer,
    alloc: Global,
    symbols: &Symbols,
    members: &[Member<C>],
    finding: Finding,
) -> Result<(), AllocError>
    requires inside { finding.member < length members.now }
    requires order { AreInOrder members.now }
    ensures tokens { OnOk result (object.new.tokens ≡ object.old.tokens
        ++ breach_fields_by symbols.now (seen_members C.value members.now) finding None) }
    ensures alone { object.new.before ≡ object.old.before }
{
    put(object, &[Item::Null("rule")])?;
    put_broken_fields(object, alloc, symbols, members, finding.ban, finding.member)
}

/// Says what breaks a rule.
fn put_breach_by<C: CapRep>(
    object: &mut Writer,
    alloc: Global,
    report: &Report<'_>,
    members: &[Member<C>],
    finding: Finding,
) -> Result<(), AllocError>
    requires inside { finding.member < length members.now }
    requires order { AreInOrder members.now }
    ensures tokens { OnOk result (object.new.tokens ≡ object.old.tokens ++ breach_fields_by report.now.symbols.now
        (seen_members C.value members.now) finding (slice_get report.now.lines.now finding.rule)) }
    ensures alone { object.new.before ≡ object.old.before }
{
    match report.lines.get(finding.rule) {
        Some(line) => put_breach_fields(
            object,
            alloc,
            report.symbols,
            members,
            *line,
            finding.ban,
            finding.member,
        ),
        None => put_unlined(object, alloc, report.symbols, members, finding),
    }
}

/// The line of a finding's object.
#[tactic(auto, unfolding(crate::specs::Object::finding_object), using(objects::specs::ItemLaws::said_two))]
pub(crate) fn finding_object<C: CapRep>(
    alloc: Global,
    report: &Report<'_>,
    members: &[Member<C>],
    at: Moment,
    finding: Finding,
) -> Result<String, AllocError>
    requires inside { finding.member < length members.now }
    requires order { AreInOrder members.now }
    ensures { IfOk result (λ line. string_bytes line ≡ finding_object report.now.symbols.now
        (seen_members C.value members.now) report.now.lines.now at.step at.pc finding) }
{
    let mut object = begin(alloc)?;
    put_step(&mut object, report.symbols, at)?;
    put_breach_by(&mut object, alloc, report, members, finding)?;
    finish(object)
}
