ghost use Rattle.std.specs.Prelude.{◌≡◌};
ghost use Rattle.special_regs.specs.Mtvec as spec;

/// Returns whether an address in mtvec gives interrupts entries of their own.
pub(crate) fn is_vectored(address: u64) -> bool
    ensures { result ≡ spec.is_vectored address }
{
    address % 4 == 1
}

/// Returns what mtvec reads of an address, and keeps of a number: the low two bits are 1 where they were, else 0.
#[tactic(auto, unfolding(crate::specs::Mtvec::mtvec_of))]
pub fn mtvec_of(n: u64) -> u64
    ensures { result ≡ spec.mtvec_of n }
{
    if is_vectored(n) { n } else { n / 4 * 4 }
}
