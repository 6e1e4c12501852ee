ghost use Rattle.std.specs.Prelude.{◌≡◌};
ghost use Rattle.isa_rows.specs.declared.kinds.Kind.TheVariants as kind;
ghost use Rattle.isa_rows.specs.Kind.{kind_of};
ghost use Rattle.alu.specs.Integer.{int_result};

use crate::readings::{bits_of, bits_of_word, low, low_signed, number, widened};
use isa_rows::Row;

/// What a row of integer arithmetic computes (unprivileged manual, RV64I, Integer Computational
/// Instructions): `a` is rs1's number, `b` is rs2's or the immediate. For LUI the result is `b`.
#[tactic(auto, unfolding(crate::specs::Integer::int_result, isa_rows::specs::Line::line_of))]
#[inline(always)]
pub fn int_op(row: Row, a: u64, b: u64) -> u64
    requires { kind_of row ≡ kind.Integer }
    ensures { result ≡ int_result row a b }
{
    match row {
        Row::Lui => b,
        Row::Addi => a.wrapping_add(b),
        Row::Slti => number(a.cast_signed() < b.cast_signed()),
        Row::Sltiu => number(a < b),
        Row::Xori => a ^ b,
        Row::Ori => a | b,
        Row::Andi => a & b,
        Row::Slli => a << (b % 64),
        Row::Srli => a >> (b % 64),
        Row::Srai => bits_of(a.cast_signed() >> (b % 64)),
        Row::Addiw => widened(low(a.wrapping_add(b))),
        Row::Slliw => widened(low(a << (b % 32))),
        Row::Srliw => widened(low(a) >> (b % 32)),
        Row::Sraiw => bits_of_word(low_signed(a) >> (b % 32)),
        Row::Add => a.wrapping_add(b),
        Row::Sll => a << (b % 64),
        Row::Slt => number(a.cast_signed() < b.cast_signed()),
        Row::Sltu => number(a < b),
        Row::Xor => a ^ b,
        Row::Srl => a >> (b % 64),
        Row::Or => a | b,
        Row::And => a & b,
        Row::Sub => a.wrapping_sub(b),
        Row::Sra => bits_of(a.cast_signed() >> (b % 64)),
        Row::Addw => widened(low(a.wrapping_add(b))),
        Row::Sllw => widened(low(a << (b % 32))),
        Row::Srlw => widened(low(a) >> (b % 32)),
        Row::Subw => widened(low(a.wrapping_sub(b))),
        Row::Sraw => bits_of_word(low_signed(a) >> (b % 32)),
        _ => unreachable!(),
    }
}
