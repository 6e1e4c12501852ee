ghost use Rattle.std.specs.Prelude.{◌≡◌, ℕ, ◌<◌, ◌==◌, ◌^◌, map, position, slice_index};
ghost use Rattle.base.specs.declared.registers.TheConstants.{CSR_COUNT};
ghost use Rattle.special_regs.specs.Csrs as spec;
ghost use Rattle.special_regs.specs.Numbered.{value_at};

use base::{CSR_COUNT, CSRS, Holds, SpecialRegister};

/// What a register holds, by its line in the listing.
#[inline]
pub(crate) fn holds_at(number: u16) -> Option<Holds>
    ensures { result ≡ spec.holds_at number }
{
    held_in(&CSRS, number)
}

fn held_in(listing: &[SpecialRegister], number: u16) -> Option<Holds>
    ensures { result ≡ value_at number (map (λ r. (r.0, r.2)) listing.now) }
{
    let (first, rest) = listing.split_first()?;
    if first.0 == number {
        Some(first.2)
    } else {
        held_in(rest, number)
    }
}

/// The place where it is kept what was written last into a register: that of its line in the listing.
#[inline]
pub(crate) fn place_of(number: u16) -> usize
    ensures is { result ≡ spec.place_of number }
    ensures within { result < CSR_COUNT }
{
    match place_in(&CSRS, number) {
        Some(place) => place,
        None => 0,
    }
}

fn place_in(listing: &[SpecialRegister], number: u16) -> Option<usize>
    ensures { result ≡ position (λ r. r.0 == number) listing.now }
{
    listing.iter().position(|r| r.0 == number)
}

/// Tells proofs that numbers have 64 bits. It does nothing.
#[inline]
fn are_numbers(numbers: &[u64])
    ensures { (k : ℕ) → slice_index numbers.now k < 2 ^ 64 }
{
    if let [first, rest @ ..] = numbers {
        let _first = *first;
        are_numbers(rest);
    }
}

/// The control and status registers that hold something of their own.
#[derive(Clone, Copy, Debug, PartialEq, Eq)]
pub struct Csrs {
    /// mstatus.MIE: interrupts are on.
    pub mstatus_mie: bool,
    /// mstatus.MPIE: they were on before the last trap.
    pub mstatus_mpie: bool,
    /// The interrupts that may be taken, by bit.
    pub mie: u64,
    /// What was written last into those registers that hold that, each at the place of its line in the listing; 0 at the others.
    pub kept: [u64; CSR_COUNT],
    /// The cause of the last trap.
    pub mcause: u64,
    /// What the cause says more of.
    pub mtval: u64,
    /// Steps, modulo 2^64.
    pub mcycle: u64,
    /// Instructions done, modulo 2^64.
    pub minstret: u64,
}

impl Csrs {
    ghost use Rattle.special_regs.specs.Csrs.{zero_csrs, cycle_counted, instruction_counted};
    ghost use Rattle.special_regs.specs.Sound.{AreInRange};

    /// Creates the registers as they begin: zeros.
    pub fn new() -> Self
        ensures { result ≡ zero_csrs }
    {
        Csrs {
            mstatus_mie: false,
            mstatus_mpie: false,
            mie: 0,
            kept: [0; CSR_COUNT],
            mcause: 0,
            mtval: 0,
            mcycle: 0,
            minstret: 0,
        }
    }

    /// Tells proofs what is true of all control and status registers: their numbers have 64 bits. It does nothing.
    #[inline]
    pub fn are_in_range(&self)
        ensures { AreInRange self.now }
    {
        let _mie = self.mie;
        are_numbers(&self.kept);
        let _mcause = self.mcause;
        let _mtval = self.mtval;
        let _mcycle = self.mcycle;
        let _minstret = self.minstret;
    }

    /// Counts a step.
    #[inline]
    pub fn count_cycle(&mut self)
        ensures { self.new ≡ cycle_counted self.old }
    {
        self.mcycle = self.mcycle.wrapping_add(1);
    }

    /// Counts an instruction that is done.
    #[inline]
    pub fn count_instruction(&mut self)
        ensures { self.new ≡ instruction_counted self.old }
    {
        self.minstret = self.minstret.wrapping_add(1);
    }
}
