ghost use Rattle.std.specs.Prelude.{◌≡◌};
ghost use Rattle.isa_rows.specs.declared.kinds.Kind.TheVariants as kind;
ghost use Rattle.isa_rows.specs.Kind.{kind_of};
ghost use Rattle.alu.specs.Integer.{branch_result};

use isa_rows::Row;

/// Whether a branch is taken (unprivileged manual, RV64I, Conditional Branches): `a` and `b` are the
/// numbers in rs1 and rs2.
#[tactic(auto, unfolding(crate::specs::Integer::branch_result, isa_rows::specs::Line::line_of))]
#[inline(always)]
pub fn branch_taken(row: Row, a: u64, b: u64) -> bool
    requires { kind_of row ≡ kind.Branch }
    ensures { result ≡ branch_result row a b }
{
    match row {
        Row::Beq => a == b,
        Row::Bne => a != b,
        Row::Blt => a.cast_signed() < b.cast_signed(),
        Row::Bge => a.cast_signed() >= b.cast_signed(),
        Row::Bltu => a < b,
        Row::Bgeu => a >= b,
        _ => unreachable!(),
    }
}
