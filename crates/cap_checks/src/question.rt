use base::{Cause, CheriCause, Fault, Size};

/// What a condition of a step asks. Registers are numbered as mtval counts them: a general one by its number, a special one by 32 and
/// its number.
#[derive(Clone, Copy, Debug, PartialEq, Eq)]
pub enum Question {
    /// Of the capability in a register what it lacks where the CHERI exception has this cause.
    Right {
        /// The register.
        register: u64,
        /// The cause.
        cause: CheriCause,
    },
    /// Whether so many bytes from an address lie in the bounds of the capability in a register.
    Bounds {
        /// The register.
        register: u64,
        /// The address of the first byte.
        address: u64,
        /// How many bytes.
        size: u64,
    },
    /// Whether an address is a multiple of so many bytes.
    Multiple {
        /// The exception where it isn't.
        cause: Cause,
        /// The address.
        address: u64,
        /// How many bytes.
        size: u64,
    },
    /// Whether RAM answers at an address.
    Ram {
        /// The exception where it doesn't.
        cause: Cause,
        /// The address.
        address: u64,
    },
    /// Whether RAM or a register of a device answers an access of a size at an address.
    RamOrDevice {
        /// The exception where neither does.
        cause: Cause,
        /// The address.
        address: u64,
        /// How many bytes.
        size: Size,
    },
    /// Whether a word is an instruction.
    Instruction {
        /// The word.
        word: u64,
    },
    /// Whether there is the system register that a word names, and may be written where it is.
    SystemRegister {
        /// The word.
        word: u64,
    },
}

impl Question {
    ghost use Rattle.std.specs.Prelude.{◌≡◌};
    ghost use Rattle.cap_checks.specs.Question.{fault_of, HasRegister};

    /// The fault where the answer is no.
    #[inline(always)]
    pub fn fault(self) -> Fault
        requires { HasRegister self }
        ensures { result ≡ fault_of self }
    {
        match self {
            Question::Right { register, cause } => Fault::cheri(register, cause),
            Question::Bounds { register, .. } => Fault::cheri(register, CheriCause::Length),
            Question::Multiple { cause, address, .. }
            | Question::Ram { cause, address }
            | Question::RamOrDevice { cause, address, .. } => Fault::of(cause, address),
            Question::Instruction { word } | Question::SystemRegister { word } => {
                Fault::of(Cause::IllegalInstruction, word)
            }
        }
    }
}

/// A condition: its question, whose fault is the step's where this is the first condition that is false, and its truth.
#[derive(Clone, Copy, Debug, PartialEq, Eq)]
pub struct Condition {
    /// What it asks.
    pub question: Question,
    /// Whether it holds.
    pub holds: bool,
}
