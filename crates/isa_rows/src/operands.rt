ghost use Rattle.std.specs.Prelude.{◌<◌, ◌↔◌, IsTrue};
ghost use Rattle.isa_rows.specs.Insn.{Fits};
ghost use Rattle.isa_rows.specs.Operands.{IsSignedOf, IsBranchOffset, IsJumpOffset, IsUpperImmediate, OperandsFit};

use crate::formats::Format;
use crate::rows::Row;

/// One instruction: a row and its operands. Operands that the row has not are 0.
///
/// `imm` is the manual's immediate: sign-extended to 64 bits and taken modulo `2^64`, or unsigned where
/// the row says so (CSetBoundsImm; the number of a control and status register; a shift amount).
/// In CSRRWI, CSRRSI and CSRRCI `rs1` is the immediate of 5 bits; in CSpecialRW `rs2` is the number of
/// the special register.
#[derive(Clone, Copy, Debug, PartialEq, Eq)]
pub struct Insn {
    pub row: Row,
    pub rd: u8,
    pub rs1: u8,
    pub rs2: u8,
    pub imm: u64,
}

/// Whether some word is the instruction: whether its operands are in the ranges of its row's format.
pub fn fits(insn: &Insn) -> bool
    ensures { IsTrue result ↔ Fits insn.now }
{
    operands_fit(insn.row.format(), insn)
}

#[tactic(auto, unfolding(crate::specs::Operands::OperandsFit))]
fn operands_fit(format: Format, insn: &Insn) -> bool
    ensures { IsTrue result ↔ OperandsFit format insn.now }
{
    match format {
        Format::Upper => registers_below(insn, 32, 1, 1) && is_upper_immediate(insn.imm),
        Format::Jump => registers_below(insn, 32, 1, 1) && is_jump_offset(insn.imm),
        Format::Immediate => registers_below(insn, 32, 32, 1) && is_signed_immediate(insn.imm),
        Format::Unsigned => registers_below(insn, 32, 32, 1) && insn.imm < 1 << 12,
        Format::Store => registers_below(insn, 1, 32, 32) && is_signed_immediate(insn.imm),
        Format::Branch => registers_below(insn, 1, 32, 32) && is_branch_offset(insn.imm),
        Format::Shift6 => registers_below(insn, 32, 32, 1) && insn.imm < 1 << 6,
        Format::Shift5 => registers_below(insn, 32, 32, 1) && insn.imm < 1 << 5,
        Format::Register => registers_below(insn, 32, 32, 32) && insn.imm == 0,
        Format::Whole => registers_below(insn, 1, 1, 1) && insn.imm == 0,
        Format::Unary => registers_below(insn, 32, 32, 1) && insn.imm == 0,
        Format::Pair => registers_below(insn, 1, 32, 32) && insn.imm == 0,
    }
}

fn registers_below(insn: &Insn, rd: u8, rs1: u8, rs2: u8) -> bool
    ensures { IsTrue result ↔ ((insn.now.rd < rd) × (insn.now.rs1 < rs1) × (insn.now.rs2 < rs2)) }
{
    insn.rd < rd && insn.rs1 < rs1 && insn.rs2 < rs2
}

fn is_signed_immediate(imm: u64) -> bool
    ensures { IsTrue result ↔ IsSignedOf 12 imm }
{
    imm < 0x800 || imm >= 0xffff_ffff_ffff_f800
}

fn is_branch_offset(imm: u64) -> bool
    ensures { IsTrue result ↔ IsBranchOffset imm }
{
    imm % 2 == 0 && (imm < 0x1000 || imm >= 0xffff_ffff_ffff_f000)
}

fn is_jump_offset(imm: u64) -> bool
    ensures { IsTrue result ↔ IsJumpOffset imm }
{
    imm % 2 == 0 && (imm < 0x10_0000 || imm >= 0xffff_ffff_fff0_0000)
}

fn is_upper_immediate(imm: u64) -> bool
    ensures { IsTrue result ↔ IsUpperImmediate imm }
{
    imm % 0x1000 == 0 && (imm < 0x8000_0000 || imm >= 0xffff_ffff_8000_0000)
}
