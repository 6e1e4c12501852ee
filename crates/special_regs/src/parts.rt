//! The control and status registers one by one: those that are parts of the machine have a line each here, and the others their line in
//! the listing.

ghost use Rattle.std.specs.Prelude.{◌≡◌};
ghost use Rattle.special_regs.specs.CsrValues as spec;
ghost use Rattle.special_regs.specs.Writes.{csrs_written, has_bit as bit_is, kept_written, mie_bit, mpie_bit, views_written};

use crate::bits::has_bit;
use crate::csrs::{Csrs, holds_at, place_of};
use crate::mtvec::mtvec_of;
use crate::scrs::Scrs;
use base::{Holds, csr, interrupt, scr};
use cap_bounds::CapRep;

/// Where MIE stands in mstatus.
const MIE_BIT: u32 = 3;

/// Where MPIE stands in mstatus.
const MPIE_BIT: u32 = 7;

/// What mstatus reads at bits 12..11: machine mode.
const MACHINE_MODE: u64 = 3 << 11;

/// The bits of mie that software may set: the timer's and the external interrupt's.
const INTERRUPT_BITS: u64 = 1 << interrupt::TIMER | 1 << interrupt::EXTERNAL;

// The parts of the machine, a line each: the number, what a read gives, and what a write does. mtvec and mepc are views of MTCC and
// MEPCC; mip is what the devices ask for.
macro_rules! parts {
    ($form:ident $number:ident $other:expr; $csrs:ident $scrs:ident $mip:ident $value:ident) => {
        $form! {
            $number $other;
            MSTATUS mstatus($csrs) => set_mstatus($csrs, $value);
            MIE $csrs.mie => $csrs.mie = $value & INTERRUPT_BITS;
            MTVEC mtvec_of($scrs.mtcc().address()) => $scrs.set(scr::MTCC, $scrs.mtcc().set_address(mtvec_of($value)));
            MEPC $scrs.mepcc().address() / 4 * 4 => $scrs.set(scr::MEPCC, $scrs.mepcc().set_address($value / 4 * 4));
            MCAUSE $csrs.mcause => $csrs.mcause = $value;
            MTVAL $csrs.mtval => $csrs.mtval = $value;
            MIP $mip => ();
            MCYCLE $csrs.mcycle => $csrs.mcycle = $value;
            MINSTRET $csrs.minstret => $csrs.minstret = $value;
        }
    };
}

macro_rules! part_read {
    ($number:ident $other:expr; $($part:ident $read:expr => $write:expr;)*) => {
        match $number {
            $(csr::$part => Some($read),)*
            _ => $other,
        }
    };
}

macro_rules! part_written {
    ($number:ident $other:expr; $($part:ident $read:expr => $write:expr;)*) => {
        match $number {
            $(csr::$part => $write,)*
            _ => $other,
        }
    };
}

/// Reads mstatus: MIE, MPIE, and machine mode in bits 12..11.
fn mstatus(csrs: &Csrs) -> u64
    ensures { result ≡ spec.mstatus csrs.now }
{
    MACHINE_MODE
        + (u64::from(csrs.mstatus_mpie) << MPIE_BIT)
        + (u64::from(csrs.mstatus_mie) << MIE_BIT)
}

/// Writes mstatus: MIE and MPIE are kept.
fn set_mstatus(csrs: &mut Csrs, value: u64)
    ensures { csrs.new ≡ record csrs.old { mstatus_mie = bit_is value mie_bit; mstatus_mpie = bit_is value mpie_bit } }
{
    csrs.mstatus_mie = has_bit(value, MIE_BIT);
    csrs.mstatus_mpie = has_bit(value, MPIE_BIT);
}

/// What a read gives by the line of a register in the listing.
fn listed_value(csrs: &Csrs, number: u16) -> Option<u64>
    ensures { result ≡ spec.listed_value csrs.now number }
{
    match holds_at(number) {
        Some(Holds::Written(_)) => Some(csrs.kept[place_of(number)]),
        Some(Holds::Fixed(fixed)) => Some(fixed),
        Some(Holds::Part) => Some(0),
        None => None,
    }
}

/// Keeps what a register holds of a number by its line in the listing.
fn keep(csrs: &mut Csrs, number: u16, value: u64)
    ensures { csrs.new ≡ record csrs.old { kept = kept_written number value csrs.old.kept } }
{
    if let Some(Holds::Written(bits)) = holds_at(number) {
        csrs.kept[place_of(number)] = value & bits;
    }
}

/// Returns what control and status register `number` holds, or `None` where there is no such register; a debugger needs no access.
#[tactic(auto, unfolding(crate::specs::CsrValues::csr_value))]
pub fn csr_value<C: CapRep>(csrs: &Csrs, scrs: &Scrs<C>, mip: u64, number: u16) -> Option<u64>
    ensures { result ≡ spec.csr_value csrs.now scrs.now mip number }
{
    parts!(part_read number listed_value(csrs, number); csrs scrs mip value)
}

/// Writes control and status register `number` where a check has allowed it, as `write_csr` says; a number that no CSR has does
/// nothing.
#[tactic(auto, unfolding(crate::specs::Writes::csrs_written, crate::specs::Writes::views_written, crate::specs::Writes::scr_written))]
pub fn set_csr<C: CapRep>(csrs: &mut Csrs, scrs: &mut Scrs<C>, number: u16, value: u64)
    ensures csrs { csrs.new ≡ csrs_written number value csrs.old }
    ensures scrs { scrs.new ≡ views_written number value scrs.old }
{
    parts!(part_written number keep(csrs, number, value); csrs scrs mip value)
}
