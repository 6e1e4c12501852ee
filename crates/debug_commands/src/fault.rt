ghost use Rattle.std.specs.Prelude.{◌≡◌};
ghost use Rattle.debug_commands.specs.declared.fault.DebugFault.TheVariants.{B4};

use std::alloc::AllocError;

/// Why a command was refused; the first of this order. A refused command changes nothing.
#[derive(Clone, Copy, Debug, PartialEq, Eq)]
pub enum DebugFault {
    /// An unknown command, or no word.
    B1,
    /// A wrong count, form or range of operands; a line of more than 255 bytes, or with a byte of 128 or more.
    B2,
    /// Addresses outside RAM.
    B3,
    /// No memory.
    B4,
}

impl From<AllocError> for DebugFault {
    ghost from_gives = { λ _ fault. fault ≡ B4 };

    fn from(_: AllocError) -> DebugFault {
        DebugFault::B4
    }
}
