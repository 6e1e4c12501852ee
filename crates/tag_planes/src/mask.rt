//! Words whose bits are 1 below a place, or from it on.
ghost use Rattle.std.specs.Prelude.{◌≡◌, ℕ, ◌<◌, ◌==◌, nat_lt, nat_le};
ghost use Rattle.std.specs.Int.{bit_at};

/// A word whose bits below `count` are 1, and no others.
pub(crate) fn bits_below(count: usize) -> u64
    requires { count < 64 }
    ensures { (j : ℕ) → (bit_at result j == 1) ≡ nat_lt j count }
{
    (1 << count) - 1
}

/// A word whose bits from `count` on are 1, and no others.
pub(crate) fn bits_from(count: usize) -> u64
    requires { count < 64 }
    ensures { (j : ℕ) → j < 64 → (bit_at result j == 1) ≡ nat_le count j }
{
    u64::MAX << count
}
