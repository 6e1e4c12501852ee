//! Rows that jump and rows that touch memory, by their opcodes.

ghost use Rattle.std.specs.Prelude.{◌≡◌};
ghost use Rattle.isa_table.specs.Decision.{row_by, jumps, branches, loads, stores, fences};

use crate::fields::field;
use isa_rows::Row;

// Opcode 0x67, by funct3.
#[tactic(auto, unfolding(crate::specs::Decision::jumps, isa_rows::specs::Line::line_of))]
#[inline]
pub(crate) fn jump_row(word: u32) -> Option<Row>
    ensures { result ≡ row_by jumps word }
{
    match field(word, 12, 3) {
        0 => Some(Row::Jalr),
        _ => None,
    }
}

// Opcode 0x63, by funct3.
#[tactic(auto, unfolding(crate::specs::Decision::branches, isa_rows::specs::Line::line_of))]
#[inline]
pub(crate) fn branch_row(word: u32) -> Option<Row>
    ensures { result ≡ row_by branches word }
{
    match field(word, 12, 3) {
        0 => Some(Row::Beq),
        1 => Some(Row::Bne),
        4 => Some(Row::Blt),
        5 => Some(Row::Bge),
        6 => Some(Row::Bltu),
        7 => Some(Row::Bgeu),
        _ => None,
    }
}

// Opcode 0x03, by funct3.
#[tactic(auto, unfolding(crate::specs::Decision::loads, isa_rows::specs::Line::line_of))]
#[inline]
pub(crate) fn load_row(word: u32) -> Option<Row>
    ensures { result ≡ row_by loads word }
{
    match field(word, 12, 3) {
        0 => Some(Row::Lb),
        1 => Some(Row::Lh),
        2 => Some(Row::Lw),
        3 => Some(Row::Ld),
        4 => Some(Row::Lbu),
        5 => Some(Row::Lhu),
        6 => Some(Row::Lwu),
        _ => None,
    }
}

// Opcode 0x23, by funct3.
#[tactic(auto, unfolding(crate::specs::Decision::stores, isa_rows::specs::Line::line_of))]
#[inline]
pub(crate) fn store_row(word: u32) -> Option<Row>
    ensures { result ≡ row_by stores word }
{
    match field(word, 12, 3) {
        0 => Some(Row::Sb),
        1 => Some(Row::Sh),
        2 => Some(Row::Sw),
        3 => Some(Row::Sd),
        4 => Some(Row::Sc),
        _ => None,
    }
}

// Opcode 0x0F, by funct3.
#[tactic(auto, unfolding(crate::specs::Decision::fences, isa_rows::specs::Line::line_of))]
#[inline]
pub(crate) fn fence_row(word: u32) -> Option<Row>
    ensures { result ≡ row_by fences word }
{
    match field(word, 12, 3) {
        0 => Some(Row::Fence),
        1 => Some(Row::FenceI),
        2 => Some(Row::Lc),
        _ => None,
    }
}
