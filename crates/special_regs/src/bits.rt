ghost use Rattle.std.specs.Prelude.{◌≡◌, ◌<◌};
ghost use Rattle.special_regs.specs.Writes as spec;

/// Returns whether bit `bit` of a number, below 64, is 1.
#[inline]
pub(crate) fn has_bit(number: u64, bit: u32) -> bool
    requires { bit < 64 }
    ensures { result ≡ spec.has_bit number bit }
{
    (number >> bit) & 1 == 1
}
