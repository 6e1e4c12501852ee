ghost use Rattle.std.specs.Prelude.{◌≡◌, ◌*◌, ◌/◌, ◌^◌, pos, ◌*ℤ◌};
ghost use Rattle.isa_rows.specs.declared.kinds.Kind.TheVariants as kind;
ghost use Rattle.isa_rows.specs.Kind.{kind_of};
ghost use Rattle.alu.specs.Integer.{floor_div, mul_div_result, signed, wrapped};

use crate::division::{quotient, quotient_word, remainder, remainder_word};
use crate::readings::{low, widened};
use isa_rows::Row;

/// What a row of multiplication or division computes (unprivileged manual, M): `a` and `b` are the
/// numbers in rs1 and rs2.
#[tactic(auto, unfolding(crate::specs::Integer::mul_div_result, isa_rows::specs::Line::line_of))]
pub fn mul_div(row: Row, a: u64, b: u64) -> u64
    requires { kind_of row ≡ kind.MulDiv }
    ensures { result ≡ mul_div_result row a b }
{
    match row {
        Row::Mul => a.wrapping_mul(b),
        Row::Mulh => high_signed(a, b),
        Row::Mulhsu => high_mixed(a, b),
        Row::Mulhu => high(a, b),
        Row::Div => quotient(a, b),
        Row::Divu => a.checked_div(b).unwrap_or(u64::MAX),
        Row::Rem => remainder(a, b),
        Row::Remu => a.checked_rem(b).unwrap_or(a),
        Row::Mulw => widened(low(a.wrapping_mul(b))),
        Row::Divw => quotient_word(a, b),
        Row::Divuw => low(a).checked_div(low(b)).map_or(u64::MAX, widened),
        Row::Remw => remainder_word(a, b),
        Row::Remuw => widened(low(a).checked_rem(low(b)).unwrap_or(low(a))),
        _ => unreachable!(),
    }
}

// The high 64 bits of the product.
fn high(a: u64, b: u64) -> u64
    ensures { result ≡ a * b / 2 ^ 64 }
{
    ((u128::from(a) * u128::from(b)) >> 64) as u64
}

// The high 64 bits of the product of the signed readings.
fn high_signed(a: u64, b: u64) -> u64
    ensures { result ≡ wrapped (floor_div (signed a *ℤ signed b) (2 ^ 64)) }
{
    high_bits(i128::from(a.cast_signed()) * i128::from(b.cast_signed()))
}

// The high 64 bits of the product of the first number's signed reading and the second number.
fn high_mixed(a: u64, b: u64) -> u64
    ensures { result ≡ wrapped (floor_div (signed a *ℤ pos b) (2 ^ 64)) }
{
    high_bits(i128::from(a.cast_signed()) * i128::from(b))
}

fn high_bits(product: i128) -> u64
    ensures { result ≡ wrapped (floor_div product (2 ^ 64)) }
{
    ((product >> 64) as i64).cast_unsigned()
}
