ghost use Rattle.std.specs.Prelude.{ℕ, ◌≡◌, ◌<◌, ◌^◌};
ghost use Rattle.base.specs.Bits.{field};
ghost use Rattle.isa_rows.specs.Insn.{IsInsn, Fits};
ghost use Rattle.isa_rows.specs.Operands.{OperandsFit, word_of};

use isa_rows::{Format, Insn};

/// The word of an instruction. `isa_rows::fits` is the test for the operands.
pub fn encode(insn: Insn) -> u32
    requires { Fits insn }
    ensures value { IsInsn result insn }
    ensures only { (word : ℕ) → IsInsn word insn → word ≡ result }
{
    insn.row.value() + operand_bits(insn.row.format(), &insn)
}

// The operands in the fields of their format, every other bit 0.
#[tactic(auto, unfolding(isa_rows::specs::Operands::OperandsFit, isa_rows::specs::Operands::word_of))]
fn operand_bits(format: Format, insn: &Insn) -> u32
    requires { OperandsFit format insn.now }
    ensures { result ≡ word_of format 0 insn.now }
{
    let rd = u32::from(insn.rd) << 7;
    let rs1 = u32::from(insn.rs1) << 15;
    let rs2 = u32::from(insn.rs2) << 20;
    let imm = insn.imm;
    match format {
        Format::Upper => rd + (part(imm, 12, 20) << 12),
        Format::Jump => {
            let low = (part(imm, 12, 8) << 12) + (part(imm, 11, 1) << 20);
            let high = (part(imm, 1, 10) << 21) + (part(imm, 20, 1) << 31);
            rd + low + high
        }
        Format::Immediate | Format::Unsigned | Format::Shift6 | Format::Shift5 => {
            rd + rs1 + (part(imm, 0, 12) << 20)
        }
        Format::Store => rs1 + rs2 + (part(imm, 0, 5) << 7) + (part(imm, 5, 7) << 25),
        Format::Branch => {
            let low = (part(imm, 11, 1) << 7) + (part(imm, 1, 4) << 8);
            let high = (part(imm, 5, 6) << 25) + (part(imm, 12, 1) << 31);
            rs1 + rs2 + low + high
        }
        Format::Register => rd + rs1 + rs2,
        Format::Whole => 0,
        Format::Unary => rd + rs1,
        Format::Pair => rs1 + rs2,
    }
}

// The `count` bits of an immediate from bit `low` on.
fn part(imm: u64, low: u32, count: u32) -> u32
    requires low_in { low < 64 }
    requires count_in { count < 32 }
    ensures value { result ≡ field imm low count }
    ensures range { result < 2 ^ count }
{
    ((imm >> low) & ((1 << count) - 1)) as u32
}
