ghost use Rattle.std.specs.Prelude.{◌≡◌};
ghost use Rattle.assembler.specs.declared.fault.AsmCode.TheVariants.{A10};

use std::alloc::AllocError;

/// What is wrong with a line, or A10. Within a line the first of this order is reported: A8, A9, A4, A1, A2, A3, A5, A6, A7, A11.
#[derive(Clone, Copy, Debug, PartialEq, Eq)]
pub enum AsmCode {
    /// An unknown mnemonic.
    A1,
    /// Operands that are not of the statement's form, or a directive that is repeated or late.
    A2,
    /// A number or a value out of range.
    A3,
    /// A label that an earlier line defines.
    A4,
    /// A name that no line defines.
    A5,
    /// A target out of range, or an invalid entry.
    A6,
    /// A byte outside RAM or where another stands, a 65th section, an instruction at no multiple of 4, a capability at no multiple
    /// of 16 or the 1025th.
    A7,
    /// A byte that is not ASCII.
    A8,
    /// More than 255 bytes.
    A9,
    /// No memory.
    A10,
    /// A capability whose range ends above 2^64, or whose bounds are not exact.
    A11,
}

/// The fault of a text: that of its first faulty line.
#[derive(Clone, Copy, Debug, PartialEq, Eq)]
pub struct AsmFault {
    /// The line, counted from 1; 0 for A10.
    pub line: u64,
    pub code: AsmCode,
}

impl AsmFault {
    /// There is no memory.
    pub(crate) const NO_MEMORY: AsmFault = AsmFault {
        line: 0,
        code: AsmCode::A10,
    };
}

impl From<AllocError> for AsmFault {
    ghost from_gives = { λ _ f. (f.code ≡ A10) × (f.line ≡ 0) };

    fn from(_error: AllocError) -> AsmFault {
        AsmFault::NO_MEMORY
    }
}
