//! Rows of opcode 0x5B.

ghost use Rattle.std.specs.Prelude.{◌≡◌};
ghost use Rattle.isa_table.specs.Decision.{row_by, capability_rows, by_funct7, explicit_stores, explicit_loads, invocations, one_operand};

use crate::fields::field;
use isa_rows::Row;

// Opcode 0x5B, by funct3.
#[tactic(auto, unfolding(crate::specs::Decision::capability_rows, isa_rows::specs::Line::line_of))]
#[inline]
pub(crate) fn capability_row(word: u32) -> Option<Row>
    ensures { result ≡ row_by capability_rows word }
{
    match field(word, 12, 3) {
        0 => funct7_row(word),
        1 => Some(Row::CIncOffsetImm),
        2 => Some(Row::CSetBoundsImm),
        _ => None,
    }
}

// Opcode 0x5B, funct3 0, by funct7.
#[tactic(auto, unfolding(crate::specs::Decision::by_funct7, isa_rows::specs::Line::line_of))]
#[inline]
fn funct7_row(word: u32) -> Option<Row>
    ensures { result ≡ row_by by_funct7 word }
{
    match field(word, 25, 7) {
        0x01 => Some(Row::CSpecialRW),
        0x08 => Some(Row::CSetBounds),
        0x09 => Some(Row::CSetBoundsExact),
        0x0b => Some(Row::CSeal),
        0x0c => Some(Row::CUnseal),
        0x0d => Some(Row::CAndPerm),
        0x0e => Some(Row::CSetFlags),
        0x0f => Some(Row::CSetOffset),
        0x10 => Some(Row::CSetAddr),
        0x11 => Some(Row::CIncOffset),
        0x14 => Some(Row::CSub),
        0x20 => Some(Row::CTestSubset),
        0x21 => Some(Row::CSetEqualExact),
        0x7c => explicit_store_row(word),
        0x7d => explicit_load_row(word),
        0x7e => invocation_row(word),
        0x7f => one_operand_row(word),
        _ => None,
    }
}

// Opcode 0x5B, funct3 0, funct7 0x7C, by the rd field.
#[tactic(auto, unfolding(crate::specs::Decision::explicit_stores, isa_rows::specs::Line::line_of))]
#[inline]
fn explicit_store_row(word: u32) -> Option<Row>
    ensures { result ≡ row_by explicit_stores word }
{
    match field(word, 7, 5) {
        0x00 => Some(Row::SbDdc),
        0x01 => Some(Row::ShDdc),
        0x02 => Some(Row::SwDdc),
        0x03 => Some(Row::SdDdc),
        0x04 => Some(Row::ScDdc),
        0x08 => Some(Row::SbCap),
        0x09 => Some(Row::ShCap),
        0x0a => Some(Row::SwCap),
        0x0b => Some(Row::SdCap),
        0x0c => Some(Row::ScCap),
        _ => None,
    }
}

// Opcode 0x5B, funct3 0, funct7 0x7D, by the rs2 field.
#[tactic(auto, unfolding(crate::specs::Decision::explicit_loads, isa_rows::specs::Line::line_of))]
#[inline]
fn explicit_load_row(word: u32) -> Option<Row>
    ensures { result ≡ row_by explicit_loads word }
{
    match field(word, 20, 5) {
        0x00 => Some(Row::LbDdc),
        0x01 => Some(Row::LhDdc),
        0x02 => Some(Row::LwDdc),
        0x03 => Some(Row::LdDdc),
        0x04 => Some(Row::LbuDdc),
        0x05 => Some(Row::LhuDdc),
        0x06 => Some(Row::LwuDdc),
        0x08 => Some(Row::LbCap),
        0x09 => Some(Row::LhCap),
        0x0a => Some(Row::LwCap),
        0x0b => Some(Row::LdCap),
        0x0c => Some(Row::LbuCap),
        0x0d => Some(Row::LhuCap),
        0x0e => Some(Row::LwuCap),
        0x17 => Some(Row::LcDdc),
        0x1f => Some(Row::LcCap),
        _ => None,
    }
}

// Opcode 0x5B, funct3 0, funct7 0x7E, by the rd field.
#[tactic(auto, unfolding(crate::specs::Decision::invocations, isa_rows::specs::Line::line_of))]
#[inline]
fn invocation_row(word: u32) -> Option<Row>
    ensures { result ≡ row_by invocations word }
{
    match field(word, 7, 5) {
        0x01 => Some(Row::CInvoke),
        _ => None,
    }
}

// Opcode 0x5B, funct3 0, funct7 0x7F, by the rs2 field.
#[tactic(auto, unfolding(crate::specs::Decision::one_operand, isa_rows::specs::Line::line_of))]
#[inline]
fn one_operand_row(word: u32) -> Option<Row>
    ensures { result ≡ row_by one_operand word }
{
    match field(word, 20, 5) {
        0x00 => Some(Row::CGetPerm),
        0x01 => Some(Row::CGetType),
        0x02 => Some(Row::CGetBase),
        0x03 => Some(Row::CGetLen),
        0x04 => Some(Row::CGetTag),
        0x05 => Some(Row::CGetSealed),
        0x06 => Some(Row::CGetOffset),
        0x07 => Some(Row::CGetFlags),
        0x08 => Some(Row::Crrl),
        0x09 => Some(Row::Cram),
        0x0a => Some(Row::CMove),
        0x0b => Some(Row::CClearTag),
        0x0c => Some(Row::JalrCap),
        0x0f => Some(Row::CGetAddr),
        0x11 => Some(Row::CSealEntry),
        _ => None,
    }
}
