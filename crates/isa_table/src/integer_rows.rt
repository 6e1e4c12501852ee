//! Rows of integer arithmetic, by their opcodes.

ghost use Rattle.std.specs.Prelude.{◌≡◌};
ghost use Rattle.isa_table.specs.Decision.{row_by, immediates, left_shifts, right_shifts, word_immediates, left_word_shifts};
ghost use Rattle.isa_table.specs.Decision.{right_word_shifts, operations, registers, products, other_registers, word_operations};
ghost use Rattle.isa_table.specs.Decision.{word_registers, word_products, other_word_registers};

use crate::fields::field;
use isa_rows::Row;

// Opcode 0x13, by funct3.
#[tactic(auto, unfolding(crate::specs::Decision::immediates, isa_rows::specs::Line::line_of))]
#[inline]
pub(crate) fn immediate_row(word: u32) -> Option<Row>
    ensures { result ≡ row_by immediates word }
{
    match field(word, 12, 3) {
        0 => Some(Row::Addi),
        1 => left_shift_row(word),
        2 => Some(Row::Slti),
        3 => Some(Row::Sltiu),
        4 => Some(Row::Xori),
        5 => right_shift_row(word),
        6 => Some(Row::Ori),
        7 => Some(Row::Andi),
        _ => None,
    }
}

// Opcode 0x13, funct3 1, by bits 31..26.
#[tactic(auto, unfolding(crate::specs::Decision::left_shifts, isa_rows::specs::Line::line_of))]
#[inline]
fn left_shift_row(word: u32) -> Option<Row>
    ensures { result ≡ row_by left_shifts word }
{
    match field(word, 26, 6) {
        0x00 => Some(Row::Slli),
        _ => None,
    }
}

// Opcode 0x13, funct3 5, by bits 31..26.
#[tactic(auto, unfolding(crate::specs::Decision::right_shifts, isa_rows::specs::Line::line_of))]
#[inline]
fn right_shift_row(word: u32) -> Option<Row>
    ensures { result ≡ row_by right_shifts word }
{
    match field(word, 26, 6) {
        0x00 => Some(Row::Srli),
        0x10 => Some(Row::Srai),
        _ => None,
    }
}

// Opcode 0x1B, by funct3.
#[tactic(auto, unfolding(crate::specs::Decision::word_immediates, isa_rows::specs::Line::line_of))]
#[inline]
pub(crate) fn word_immediate_row(word: u32) -> Option<Row>
    ensures { result ≡ row_by word_immediates word }
{
    match field(word, 12, 3) {
        0 => Some(Row::Addiw),
        1 => left_word_shift_row(word),
        5 => right_word_shift_row(word),
        _ => None,
    }
}

// Opcode 0x1B, funct3 1, by funct7.
#[tactic(auto, unfolding(crate::specs::Decision::left_word_shifts, isa_rows::specs::Line::line_of))]
#[inline]
fn left_word_shift_row(word: u32) -> Option<Row>
    ensures { result ≡ row_by left_word_shifts word }
{
    match field(word, 25, 7) {
        0x00 => Some(Row::Slliw),
        _ => None,
    }
}

// Opcode 0x1B, funct3 5, by funct7.
#[tactic(auto, unfolding(crate::specs::Decision::right_word_shifts, isa_rows::specs::Line::line_of))]
#[inline]
fn right_word_shift_row(word: u32) -> Option<Row>
    ensures { result ≡ row_by right_word_shifts word }
{
    match field(word, 25, 7) {
        0x00 => Some(Row::Srliw),
        0x20 => Some(Row::Sraiw),
        _ => None,
    }
}

// Opcode 0x33, by funct7.
#[tactic(auto, unfolding(crate::specs::Decision::operations))]
#[inline]
pub(crate) fn operation_row(word: u32) -> Option<Row>
    ensures { result ≡ row_by operations word }
{
    match field(word, 25, 7) {
        0x00 => register_row(word),
        0x01 => product_row(word),
        0x20 => other_register_row(word),
        _ => None,
    }
}

// Opcode 0x33, funct7 0, by funct3.
#[tactic(auto, unfolding(crate::specs::Decision::registers, isa_rows::specs::Line::line_of))]
#[inline]
fn register_row(word: u32) -> Option<Row>
    ensures { result ≡ row_by registers word }
{
    match field(word, 12, 3) {
        0 => Some(Row::Add),
        1 => Some(Row::Sll),
        2 => Some(Row::Slt),
        3 => Some(Row::Sltu),
        4 => Some(Row::Xor),
        5 => Some(Row::Srl),
        6 => Some(Row::Or),
        7 => Some(Row::And),
        _ => None,
    }
}

// Opcode 0x33, funct7 1, by funct3.
#[tactic(auto, unfolding(crate::specs::Decision::products, isa_rows::specs::Line::line_of))]
#[inline]
fn product_row(word: u32) -> Option<Row>
    ensures { result ≡ row_by products word }
{
    match field(word, 12, 3) {
        0 => Some(Row::Mul),
        1 => Some(Row::Mulh),
        2 => Some(Row::Mulhsu),
        3 => Some(Row::Mulhu),
        4 => Some(Row::Div),
        5 => Some(Row::Divu),
        6 => Some(Row::Rem),
        7 => Some(Row::Remu),
        _ => None,
    }
}

// Opcode 0x33, funct7 0x20, by funct3.
#[tactic(auto, unfolding(crate::specs::Decision::other_registers, isa_rows::specs::Line::line_of))]
#[inline]
fn other_register_row(word: u32) -> Option<Row>
    ensures { result ≡ row_by other_registers word }
{
    match field(word, 12, 3) {
        0 => Some(Row::Sub),
        5 => Some(Row::Sra),
        _ => None,
    }
}

// Opcode 0x3B, by funct7.
#[tactic(auto, unfolding(crate::specs::Decision::word_operations))]
#[inline]
pub(crate) fn word_operation_row(word: u32) -> Option<Row>
    ensures { result ≡ row_by word_operations word }
{
    match field(word, 25, 7) {
        0x00 => word_register_row(word),
        0x01 => word_product_row(word),
        0x20 => other_word_register_row(word),
        _ => None,
    }
}

// Opcode 0x3B, funct7 0, by funct3.
#[tactic(auto, unfolding(crate::specs::Decision::word_registers, isa_rows::specs::Line::line_of))]
#[inline]
fn word_register_row(word: u32) -> Option<Row>
    ensures { result ≡ row_by word_registers word }
{
    match field(word, 12, 3) {
        0 => Some(Row::Addw),
        1 => Some(Row::Sllw),
        5 => Some(Row::Srlw),
        _ => None,
    }
}

// Opcode 0x3B, funct7 1, by funct3.
#[tactic(auto, unfolding(crate::specs::Decision::word_products, isa_rows::specs::Line::line_of))]
#[inline]
fn word_product_row(word: u32) -> Option<Row>
    ensures { result ≡ row_by word_products word }
{
    match field(word, 12, 3) {
        0 => Some(Row::Mulw),
        4 => Some(Row::Divw),
        5 => Some(Row::Divuw),
        6 => Some(Row::Remw),
        7 => Some(Row::Remuw),
        _ => None,
    }
}

// Opcode 0x3B, funct7 0x20, by funct3.
#[tactic(auto, unfolding(crate::specs::Decision::other_word_registers, isa_rows::specs::Line::line_of))]
#[inline]
fn other_word_register_row(word: u32) -> Option<Row>
    ensures { result ≡ row_by other_word_registers word }
{
    match field(word, 12, 3) {
        0 => Some(Row::Subw),
        5 => Some(Row::Sraw),
        _ => None,
    }
}
