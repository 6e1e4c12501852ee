//! Numbers of 64 bits read as signed, and their low 32 bits.

ghost use Rattle.std.specs.Prelude.{◌≡◌, ◌%◌, ◌^◌};
ghost use Rattle.isa_rows.specs.Insn.{sign_extended};
ghost use Rattle.base.specs.Bits.{bit};
ghost use Rattle.alu.specs.Integer.{signed_word, wrapped};

/// A truth value as a number.
#[inline]
pub(crate) fn number(b: bool) -> u64
    ensures { result ≡ bit b }
{
    u64::from(b)
}

/// The low 32 bits.
#[inline]
pub(crate) fn low(n: u64) -> u32
    ensures { result ≡ n % 2 ^ 32 }
{
    (n & 0xffff_ffff) as u32
}

/// The low 32 bits, read as signed.
#[inline]
pub(crate) fn low_signed(n: u64) -> i32
    ensures { result ≡ signed_word n }
{
    low(n).cast_signed()
}

/// A word of 32 bits, sign-extended to 64.
#[tactic(auto, unfolding(isa_rows::specs::Insn::sign_extended))]
#[inline]
pub(crate) fn widened(n: u32) -> u64
    ensures { result ≡ sign_extended 32 n }
{
    i64::from(n.cast_signed()).cast_unsigned()
}

/// The bits of a signed number.
#[inline]
pub(crate) fn bits_of(n: i64) -> u64
    ensures { result ≡ wrapped n }
{
    n.cast_unsigned()
}

/// The bits of a signed number of 32 bits, sign-extended to 64.
#[inline]
pub(crate) fn bits_of_word(n: i32) -> u64
    ensures { result ≡ wrapped n }
{
    i64::from(n).cast_unsigned()
}
