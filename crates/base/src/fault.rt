use crate::cause::{Cause, CheriCause};

/// Why an instruction traps.
#[derive(Clone, Copy, Debug, PartialEq, Eq)]
pub struct Fault {
    /// The cause's number.
    pub mcause: u64,
    /// What the cause says more of: 32 times the register at fault plus the CHERI cause, an address, or a word.
    pub mtval: u64,
}

impl Fault {
    ghost use Rattle.std.specs.Prelude.{◌≡◌, ◌<◌};
    ghost use Rattle.base.specs.Fault as spec;

    /// The fault of an exception.
    #[inline]
    #[tactic(auto, unfolding(crate::specs::Fault::fault))]
    pub fn of(cause: Cause, mtval: u64) -> Fault
        ensures { result ≡ spec.fault cause mtval }
    {
        Fault {
            mcause: cause.number(),
            mtval,
        }
    }

    /// The fault of the CHERI exception at a register: a general one by its number, a special one by 32 and its number.
    #[inline]
    #[tactic(auto, unfolding(crate::specs::Fault::fault, crate::specs::Fault::cheri))]
    pub fn cheri(register: u64, cause: CheriCause) -> Fault
        requires { register < 64 }
        ensures { result ≡ spec.cheri register cause }
    {
        Fault {
            mcause: Cause::Cheri.number(),
            mtval: 32 * register + cause.number(),
        }
    }
}
