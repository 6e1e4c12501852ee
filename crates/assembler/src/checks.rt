//! The values of a statement: whether they are known, in range and within reach.
ghost use Rattle.std.specs.Prelude.{◌≡◌, ℕ, ◌≤◌, [], ◌∷◌, map, not, is_none, option_map, pos, ◌-ℤ◌, ◌<◌, ◌^◌, IsTrue};
ghost use Rattle.base.specs.FirstFault.{first_fault};
ghost use Rattle.asm_lines.specs.Seen.{seen_expression, seen_instruction, seen_setting, seen_data, seen_statement};
ghost use Rattle.asm_lines.specs.Number.{is_in_limits, expression_of};
ghost use Rattle.asm_lines.specs.Statement.{row, is_size, is_natural, capability_parts, expression_or_nought};
ghost use Rattle.asm_lines.specs.Text.{pieces_of};
ghost use Rattle.assembler.specs.declared.fault.AsmCode.TheVariants.{A3, A5, A6};
ghost use Rattle.assembler.specs.Values.{value_of, reach_of, is_reached, is_loadable, is_entry, asked_by_instruction, asked_by_setting};
ghost use Rattle.assembler.specs.Values.{asked_by_data, asked_part, part_of, known_and, is_beyond, is_unknown};
ghost use Rattle.std.specs.List.{list_any};
ghost use Rattle.assembler.specs.Modest.{is_modest_data, is_modest};
ghost use Rattle.assembler.specs.Checks.{asked_fault, value_fault, passes, any_passes, is_test, named_fault};

use crate::fault::AsmCode;
use crate::labels::Labels;
use crate::values::{Worth, value};
use asm_lines::{
    Data, Directive, Expression, Instruction, Setting, Statement, expression, first_rest,
    is_in_size, is_natural, operand_at, split_piece, wrapped,
};
use image::is_good_header;
use isa_rows::{Format, Insn};

/// What is asked of the values of a list.
#[derive(Clone, Copy)]
enum Test {
    /// Whether a name is unknown.
    IsUnknown,
    /// Whether a value is beyond what so many bytes hold.
    IsBeyond(u8),
}

/// The expression of a list's operand, 0 where it cannot be read.
pub(crate) fn operand(piece: &[u8]) -> Expression<'_>
    ensures { seen_expression result ≡ expression_or_nought (expression_of piece.now) }
{
    match expression(piece) {
        Ok(expression) => expression,
        Err(_) => Expression {
            name: None,
            offset: 0,
        },
    }
}

impl Test {
    /// Whether the answer for a list's operand is yes.
    fn passes(self, labels: &Labels, here: u128, piece: &[u8]) -> bool
        requires { IsTrue (is_test self) }
        ensures { result ≡ passes self (value_of labels.now here (expression_or_nought (expression_of piece.now))) }
    {
        match (self, value(labels, here, &operand(piece))) {
            (Test::IsUnknown, Worth::Unknown) => true,
            (Test::IsUnknown, _) => false,
            (Test::IsBeyond(_), Worth::Unknown) => false,
            (Test::IsBeyond(_), Worth::Beyond) => true,
            (Test::IsBeyond(size), Worth::Known(value)) => !is_in_size(size, value),
        }
    }

    /// Whether the answer for some of a list's operands is yes.
    fn any_passes(self, labels: &Labels, here: u128, operands: &[u8]) -> bool
        requires { IsTrue (is_test self) }
        ensures { result ≡ any_passes self labels.now here (pieces_of operands.now) }
    {
        let mut rest = first_rest(operands);
        while let Some(text) = rest {
            let (piece, after) = split_piece(text);
            if self.passes(labels, here, piece) {
                return true;
            }
            rest = after;
        }
        false
    }
}

/// How far a value is from a place.
pub(crate) fn distance(value: i128, here: u128) -> i128
    requires limits { IsTrue (is_in_limits value) }
    requires place { here < 2 ^ 100 }
    ensures { result ≡ value -ℤ pos here }
{
    value - here as i128
}

/// How far a branch or jal reaches.
pub(crate) fn reach_of(format: Format) -> u32
    ensures value { result ≡ reach_of format }
    ensures some { 2 ≤ result }
{
    match format {
        Format::Branch => 4096,
        _ => 1_048_576,
    }
}

/// Whether what reaches so far reaches this distance.
fn is_reached(reach: u32, distance: i128) -> bool
    ensures { result ≡ is_reached reach distance }
{
    let reach = i128::from(reach);
    -reach <= distance && distance < reach && wrapped(distance) % 2 == 0
}

/// Whether auipc and a signed number of 12 bits reach so far.
fn is_loadable(distance: i128) -> bool
    ensures { result ≡ is_loadable distance }
{
    -0x8000_0000 <= distance && distance < 0x7fff_f800
}

/// Whether an image of so many pages can begin at a value.
fn is_entry(page_count: u32, value: i128) -> bool
    requires { IsTrue (is_in_limits value) }
    ensures { result ≡ is_entry page_count value }
{
    value >= 0 && is_good_header(2, page_count, wrapped(value), 0)
}

/// A6, unless a value is within reach.
fn far(is_near: bool) -> Option<AsmCode>
    ensures { result ≡ first_fault ((is_near, A6) ∷ []) }
{
    if is_near { None } else { Some(AsmCode::A6) }
}

/// The fault of the target of a branch or jal that reaches so far.
fn target_fault(reach: u32, labels: &Labels, here: u128, target: &Expression<'_>) -> Option<AsmCode>
    requires { here < 2 ^ 100 }
    ensures { result
        ≡ value_fault is_in_limits (λ v. is_reached reach (v -ℤ pos here)) (value_of labels.now here (seen_expression target.now)) }
{
    match value(labels, here, target) {
        Worth::Beyond => Some(AsmCode::A3),
        Worth::Unknown => Some(AsmCode::A5),
        Worth::Known(value) => far(is_reached(reach, distance(value, here))),
    }
}

/// The fault of the value of `la` or `cla`.
fn load_fault(labels: &Labels, here: u128, loaded: &Expression<'_>) -> Option<AsmCode>
    requires { here < 2 ^ 100 }
    ensures { result
        ≡ value_fault is_in_limits (λ v. is_loadable (v -ℤ pos here)) (value_of labels.now here (seen_expression loaded.now)) }
{
    match value(labels, here, loaded) {
        Worth::Beyond => Some(AsmCode::A3),
        Worth::Unknown => Some(AsmCode::A5),
        Worth::Known(value) => far(is_loadable(distance(value, here))),
    }
}

/// The fault of an entry, for an image of so many pages.
fn entry_fault(
    page_count: u32,
    labels: &Labels,
    here: u128,
    entry: &Expression<'_>,
) -> Option<AsmCode>
    ensures { result ≡ value_fault is_in_limits (is_entry page_count) (value_of labels.now here (seen_expression entry.now)) }
{
    match value(labels, here, entry) {
        Worth::Beyond => Some(AsmCode::A3),
        Worth::Unknown => Some(AsmCode::A5),
        Worth::Known(value) => far(is_entry(page_count, value)),
    }
}

/// The fault of values of so many bytes.
fn values_fault(size: u8, labels: &Labels, here: u128, operands: &[u8]) -> Option<AsmCode>
    requires { IsTrue (is_size size) }
    ensures { result ≡ first_fault
        ((not (any_passes (Test.IsBeyond size) labels.now here (pieces_of operands.now)), A3)
        ∷ (not (any_passes Test.IsUnknown labels.now here (pieces_of operands.now)), A5) ∷ []) }
{
    if Test::IsBeyond(size).any_passes(labels, here, operands) {
        Some(AsmCode::A3)
    } else if Test::IsUnknown.any_passes(labels, here, operands) {
        Some(AsmCode::A5)
    } else {
        None
    }
}

/// The expression of an operand of `.cap`, 0 where it cannot be read.
pub(crate) fn part_of<'a>(operands: &'a [u8], index: usize) -> Expression<'a>
    ensures { seen_expression result ≡ part_of operands.now index }
{
    match operand_at(operands, index) {
        Ok(expression) => expression,
        Err(_) => Expression {
            name: None,
            offset: 0,
        },
    }
}

/// Whether the value of an operand of `.cap` is beyond 0 to `most`.
fn is_part_beyond(labels: &Labels, here: u128, operands: &[u8], index: usize, most: u64) -> bool
    requires { most < 2 ^ 64 }
    ensures { result ≡ known_and (λ v. not (is_natural most v)) (value_of labels.now here (part_of operands.now index)) }
{
    match value(labels, here, &part_of(operands, index)) {
        Worth::Unknown => false,
        Worth::Beyond => true,
        Worth::Known(value) => !is_natural(most, value),
    }
}

/// Whether the name of an operand of `.cap` is unknown.
fn is_part_unknown(labels: &Labels, here: u128, operands: &[u8], index: usize) -> bool
    ensures { result ≡ is_none (value_of labels.now here (part_of operands.now index)) }
{
    matches!(
        value(labels, here, &part_of(operands, index)),
        Worth::Unknown
    )
}

/// Whether the value of some operand of `.cap` is out of range.
fn are_parts_beyond(labels: &Labels, here: u128, operands: &[u8]) -> bool
    ensures { result ≡ list_any (is_beyond labels.now here) (map (asked_part operands.now) capability_parts) }
{
    is_part_beyond(labels, here, operands, 0, u64::MAX)
        || is_part_beyond(labels, here, operands, 1, u64::MAX)
        || is_part_beyond(labels, here, operands, 2, 0xFFFF)
        || is_part_beyond(labels, here, operands, 3, 1)
}

/// Whether the name of some operand of `.cap` is unknown.
fn are_parts_unknown(labels: &Labels, here: u128, operands: &[u8]) -> bool
    ensures { result ≡ list_any (is_unknown labels.now here) (map (asked_part operands.now) capability_parts) }
{
    is_part_unknown(labels, here, operands, 0)
        || is_part_unknown(labels, here, operands, 1)
        || is_part_unknown(labels, here, operands, 2)
        || is_part_unknown(labels, here, operands, 3)
}

/// The fault of the operands of `.cap`.
fn parts_fault(labels: &Labels, here: u128, operands: &[u8]) -> Option<AsmCode>
    ensures { result ≡ first_fault
        ((not (list_any (is_beyond labels.now here) (map (asked_part operands.now) capability_parts)), A3)
        ∷ (not (list_any (is_unknown labels.now here) (map (asked_part operands.now) capability_parts)), A5) ∷ []) }
{
    if are_parts_beyond(labels, here, operands) {
        Some(AsmCode::A3)
    } else if are_parts_unknown(labels, here, operands) {
        Some(AsmCode::A5)
    } else {
        None
    }
}

/// The fault of an instruction's target, if it has one.
fn row_fault(
    labels: &Labels,
    here: u128,
    insn: &Insn,
    target: &Option<Expression<'_>>,
) -> Option<AsmCode>
    requires { here < 2 ^ 100 }
    ensures { (page_count : ℕ) → result
        ≡ asked_fault page_count labels.now here (asked_by_instruction (row insn.now (option_map seen_expression target.now))) }
{
    match target {
        Some(target) => target_fault(reach_of(insn.row.format()), labels, here, target),
        None => None,
    }
}

/// The first fault of what instructions ask.
fn instruction_fault(labels: &Labels, here: u128, instruction: &Instruction<'_>) -> Option<AsmCode>
    requires { here < 2 ^ 100 }
    ensures { (page_count : ℕ) → result
        ≡ asked_fault page_count labels.now here (asked_by_instruction (seen_instruction instruction.now)) }
{
    match instruction {
        Instruction::Row(insn, target) => row_fault(labels, here, insn, target),
        Instruction::Load { value, .. } => load_fault(labels, here, value),
    }
}

/// The first fault of what a setting asks.
fn setting_fault(
    page_count: u32,
    labels: &Labels,
    here: u128,
    setting: &Setting<'_>,
) -> Option<AsmCode>
    ensures { result ≡ asked_fault page_count labels.now here (asked_by_setting (seen_setting setting.now)) }
{
    match setting {
        Setting::Entry(entry) => entry_fault(page_count, labels, here, entry),
        _ => None,
    }
}

/// The first fault of what data asks.
fn data_fault(labels: &Labels, here: u128, item: &Data<'_>) -> Option<AsmCode>
    requires { IsTrue (is_modest_data (seen_data item.now)) }
    ensures { (page_count : ℕ) → result ≡ asked_fault page_count labels.now here (asked_by_data (seen_data item.now)) }
{
    match item.directive {
        Directive::Values(size) => values_fault(size, labels, here, item.text),
        Directive::Capability => parts_fault(labels, here, item.text),
        _ => None,
    }
}

/// The first fault of the values and names of a statement at a place: A3, then A5, then A6.
#[tactic(auto, unfolding(crate::specs::Checks::named_fault))]
pub(crate) fn named_fault(
    page_count: u32,
    labels: &Labels,
    here: u128,
    statement: &Statement<'_>,
) -> Option<AsmCode>
    requires modest { IsTrue (is_modest (seen_statement statement.now)) }
    requires place { here < 2 ^ 100 }
    ensures { result ≡ named_fault page_count labels.now here (seen_statement statement.now) }
{
    match statement {
        Statement::Instruction(instruction) => instruction_fault(labels, here, instruction),
        Statement::Setting(setting) => setting_fault(page_count, labels, here, setting),
        Statement::Origin(_) => None,
        Statement::Data(item) => data_fault(labels, here, item),
    }
}
