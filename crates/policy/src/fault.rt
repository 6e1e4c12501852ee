ghost use Rattle.std.specs.Prelude.{◌≡◌};
ghost use Rattle.policy.specs.declared.fault.PolicyFault.TheVariants.{NoMemory};

use std::alloc::AllocError;

/// Why a watched run could not go on.
#[derive(Clone, Copy, Debug, PartialEq, Eq)]
pub enum PolicyFault {
    /// No memory for the bytes that are sent, or to find out what is reachable.
    NoMemory,
}

impl From<AllocError> for PolicyFault {
    ghost from_gives = { λ _ fault. fault ≡ NoMemory };

    fn from(_: AllocError) -> PolicyFault {
        PolicyFault::NoMemory
    }
}
