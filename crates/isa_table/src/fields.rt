ghost use Rattle.std.specs.Prelude.{◌≡◌, ◌<◌, ◌^◌};
ghost use Rattle.base.specs.Bits.{field};

/// The `count` bits of a word from bit `low` on.
#[inline]
pub(crate) fn field(word: u32, low: u32, count: u32) -> u32
    requires low_in { low < 32 }
    requires count_in { count < 32 }
    ensures value { result ≡ field word low count }
    ensures range { result < 2 ^ count }
{
    (word >> low) & ((1 << count) - 1)
}
