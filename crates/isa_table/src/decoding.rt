ghost use Rattle.std.specs.Prelude.{◌≡◌, ◌<◌, Some, IfSome, IfNone};
ghost use Rattle.isa_rows.specs.declared.operands.Insn.{Insn};
ghost use Rattle.isa_rows.specs.declared.rows.Row.{Row};
ghost use Rattle.isa_rows.specs.Insn.{IsInsn, insn_at};
ghost use Rattle.isa_rows.specs.Line.{line_of, IsRow};

use crate::fields::field;
use crate::immediates::{branch_offset, immediate, jump_offset, store_immediate, upper_immediate};
use crate::opcodes::row_of;
use isa_rows::{Format, Insn, Row};

/// The instruction that a word is, or `None` where no row fits it.
#[inline]
pub fn decode(word: u32) -> Option<Insn>
    ensures found { IfSome result (λ insn. IsInsn word insn) }
    ensures only { (insn : Insn) → IsInsn word insn → result ≡ Some insn }
    ensures none { IfNone result ((row : Row) → ¬ IsRow word row) }
    ensures registers { IfSome result (λ insn. (insn.rd < 32) × (insn.rs1 < 32) × (insn.rs2 < 32)) }
{
    let row = row_of(word)?;
    Some(operands_of(row, word))
}

// The row with the word's operands, by the row's format.
#[tactic(auto, unfolding(isa_rows::specs::Insn::insn_at))]
#[inline]
fn operands_of(row: Row, word: u32) -> Insn
    ensures { result ≡ insn_at (line_of row).format row word }
{
    let rd = field(word, 7, 5) as u8;
    let rs1 = field(word, 15, 5) as u8;
    let rs2 = field(word, 20, 5) as u8;
    match row.format() {
        Format::Upper => operands(row, rd, 0, 0, upper_immediate(word)),
        Format::Jump => operands(row, rd, 0, 0, jump_offset(word)),
        Format::Immediate => operands(row, rd, rs1, 0, immediate(word)),
        Format::Unsigned => operands(row, rd, rs1, 0, u64::from(field(word, 20, 12))),
        Format::Store => operands(row, 0, rs1, rs2, store_immediate(word)),
        Format::Branch => operands(row, 0, rs1, rs2, branch_offset(word)),
        Format::Shift6 => operands(row, rd, rs1, 0, u64::from(field(word, 20, 6))),
        Format::Shift5 => operands(row, rd, rs1, 0, u64::from(field(word, 20, 5))),
        Format::Register => operands(row, rd, rs1, rs2, 0),
        Format::Whole => operands(row, 0, 0, 0, 0),
        Format::Unary => operands(row, rd, rs1, 0, 0),
        Format::Pair => operands(row, 0, rs1, rs2, 0),
    }
}

#[inline]
fn operands(row: Row, rd: u8, rs1: u8, rs2: u8, imm: u64) -> Insn
    ensures { result ≡ record { row = row; rd = rd; rs1 = rs1; rs2 = rs2; imm = imm } }
{
    Insn {
        row,
        rd,
        rs1,
        rs2,
        imm,
    }
}
