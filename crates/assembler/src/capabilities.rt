//! Capabilities that a text puts into RAM.
ghost use Rattle.std.specs.Prelude.{◌≡◌, ◌≤◌, ◌<◌, Some, None, if◌then◌else◌, length, nat_lt, option_map, OnOk};
ghost use Rattle.std.specs.List.{position_or_len};
ghost use Rattle.asm_lines.specs.Seen.{seen_statement};
ghost use Rattle.assembler.specs.declared.fault.AsmCode.TheVariants.{A11};
ghost use Rattle.assembler.specs.Values.{value_of, part_of};
ghost use Rattle.assembler.specs.Capabilities.{capability_in, part_value, capability_at, has_inexact_range, entered, with_capability};
ghost use Rattle.assembler.specs.Sound.{IsKnown, ArePartsKnown, IsSmall, HasSmallParts};

use crate::bytes::known;
use crate::checks::part_of;
use crate::fault::AsmCode;
use crate::labels::Labels;
use asm_lines::{Directive, Statement, wrapped};
use image::{CapEntry, is_exact_range};
use std::alloc::AllocError;

/// The operands of `.cap`, if a statement is one.
pub(crate) fn capability_in<'a>(statement: &Statement<'a>) -> Option<&'a [u8]>
    ensures { option_map (λ t. t.now) result ≡ capability_in (seen_statement statement.now) }
{
    let Statement::Data(item) = statement else {
        return None;
    };
    match item.directive {
        Directive::Capability => Some(item.text),
        _ => None,
    }
}

/// The value of an operand that is known.
fn part_value(labels: &Labels, here: u128, operands: &[u8], index: usize) -> u64
    requires { IsKnown (value_of labels.now here (part_of operands.now index)) }
    ensures { result ≡ part_value labels.now here operands.now index }
{
    wrapped(known(labels, here, &part_of(operands, index)))
}

/// A11, where a statement is a capability whose range cannot be exact bounds.
pub(crate) fn exact_fault(labels: &Labels, here: u128, operands: Option<&[u8]>) -> Option<AsmCode>
    requires { ArePartsKnown labels.now here (option_map (λ t. t.now) operands) }
    ensures { result
        ≡ (if has_inexact_range labels.now here (option_map (λ t. t.now) operands.entry) then Some A11 else None) }
{
    let operands = operands?;
    let base = part_value(labels, here, operands, 0);
    let length = part_value(labels, here, operands, 1);
    if is_exact_range(base, length) {
        None
    } else {
        Some(AsmCode::A11)
    }
}

/// The capability of `.cap` at a place, whose values are known and in range.
fn capability_at(labels: &Labels, here: u128, operands: &[u8]) -> CapEntry
    requires known { ArePartsKnown labels.now here (Some operands.now) }
    requires small { IsSmall (capability_at labels.now here operands.now) }
    ensures { result ≡ capability_at labels.now here operands.now }
{
    CapEntry {
        place: here as u64,
        base: part_value(labels, here, operands, 0),
        length: part_value(labels, here, operands, 1),
        perms: part_value(labels, here, operands, 2) as u32,
        flag: part_value(labels, here, operands, 3) as u32,
    }
}

/// The number of capabilities that stand at a place or below it, before the first that stands above.
fn rank(capabilities: &[CapEntry], place: u64) -> usize
    ensures value { result ≡ position_or_len (λ t. nat_lt place t.place) capabilities.now }
    ensures bound { result ≤ length capabilities.now }
{
    let mut rank = 0;
    while rank < capabilities.len() && capabilities[rank].place <= place {
        rank += 1;
    }
    rank
}

/// Puts a capability among capabilities in ascending order of place.
fn insert(capabilities: &mut Vec<CapEntry>, entry: CapEntry) -> Result<(), AllocError>
    ensures { OnOk result (capabilities.new.items ≡ entered entry capabilities.old.items) }
{
    let rank = rank(capabilities, entry.place);
    capabilities.insert(rank, entry)?;
    Ok(())
}

/// Puts the capability of a statement at a place, if it is one, among those that there are.
pub(crate) fn enter(
    capabilities: &mut Vec<CapEntry>,
    labels: &Labels,
    here: u128,
    operands: Option<&[u8]>,
) -> Result<(), AllocError>
    requires known { ArePartsKnown labels.now here (option_map (λ t. t.now) operands) }
    requires small { HasSmallParts labels.now here (option_map (λ t. t.now) operands) }
    ensures { OnOk result (capabilities.new.items
        ≡ with_capability labels.now here (option_map (λ t. t.now) operands.entry) capabilities.old.items) }
{
    match operands {
        Some(operands) => insert(capabilities, capability_at(labels, here, operands)),
        None => Ok(()),
    }
}
