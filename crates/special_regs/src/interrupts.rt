ghost use Rattle.std.specs.Prelude.{◌≡◌, ◌<◌};
ghost use Rattle.special_regs.specs.Interrupts.{bit_of, is_asked, cause_of};
ghost use Rattle.special_regs.specs.Interrupts as spec;

use crate::bits::has_bit;
use crate::csrs::Csrs;
use base::{Fault, interrupt};

/// An interrupt that machine mode takes.
#[derive(Clone, Copy, Debug, PartialEq, Eq)]
pub enum Interrupt {
    /// A device asks for attention.
    External,
    /// The time has come that software asked for.
    Timer,
}

impl Interrupt {
    /// Returns the place of its bit in mie and mip.
    #[inline]
    fn place(self) -> u32
        ensures value { result ≡ bit_of self }
        ensures range { result < 63 }
    {
        match self {
            Interrupt::External => interrupt::EXTERNAL,
            Interrupt::Timer => interrupt::TIMER,
        }
    }

    /// Returns what a trap keeps of it: bit 63 and its number in mcause, and 0 in mtval.
    pub fn fault(self) -> Fault
        ensures { result ≡ cause_of self }
    {
        Fault {
            mcause: interrupt::CAUSE + u64::from(self.place()),
            mtval: 0,
        }
    }
}

/// Returns whether software enables an interrupt and a device asks for it.
#[inline]
fn is_asked(csrs: &Csrs, mip: u64, interrupt: Interrupt) -> bool
    ensures { result ≡ spec.is_asked csrs.now mip interrupt }
{
    let place = interrupt.place();
    has_bit(csrs.mie, place) && has_bit(mip, place)
}

/// Finds the interrupt to be taken while devices ask for those in `mip`: none with interrupts off, and the external one before the
/// timer's.
#[inline]
#[tactic(auto, unfolding(crate::specs::Interrupts::pending))]
pub fn pending(csrs: &Csrs, mip: u64) -> Option<Interrupt>
    ensures { result ≡ spec.pending csrs.now mip }
{
    if !csrs.mstatus_mie {
        None
    } else if is_asked(csrs, mip, Interrupt::External) {
        Some(Interrupt::External)
    } else if is_asked(csrs, mip, Interrupt::Timer) {
        Some(Interrupt::Timer)
    } else {
        None
    }
}
