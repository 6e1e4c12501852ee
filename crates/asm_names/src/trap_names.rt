//! The names of causes, and of the register at fault.

ghost use Rattle.std.specs.Prelude.{◌≡◌, ◌==◌, find, option_map};
ghost use Rattle.base.specs.Fault.{number_of, cheri_number_of};
ghost use Rattle.asm_names.specs.TrapNames as spec;

use crate::registers::register_name;
use crate::special_names::scr_name;
use base::{Cause, CheriCause, FIRST_SPECIAL, interrupt};

/// The names of exceptions (RISC-V privileged manual, mcause; UCAM-CL-TR-987, CHERI exception).
pub const EXCEPTIONS: [(Cause, &str); 10] = [
    (Cause::MisalignedJump, "instruction address misaligned"),
    (Cause::FetchAccess, "instruction access fault"),
    (Cause::IllegalInstruction, "illegal instruction"),
    (Cause::Breakpoint, "breakpoint"),
    (Cause::MisalignedLoad, "load address misaligned"),
    (Cause::LoadAccess, "load access fault"),
    (Cause::MisalignedStore, "store address misaligned"),
    (Cause::StoreAccess, "store access fault"),
    (Cause::EnvironmentCall, "environment call"),
    (Cause::Cheri, "CHERI exception"),
];

/// The names of interrupts, by what stands in mcause (RISC-V privileged manual, mcause).
pub const INTERRUPTS: [(u64, &str); 2] = [
    (
        interrupt::CAUSE + interrupt::TIMER as u64,
        "timer interrupt",
    ),
    (
        interrupt::CAUSE + interrupt::EXTERNAL as u64,
        "external interrupt",
    ),
];

/// What a capability is asked for, and what is said where it isn't so: one text.
macro_rules! asked {
    ($cause:ident, $asked:literal) => {
        (CheriCause::$cause, $asked, concat!($asked, " violation"))
    };
}

/// The names of what a capability is asked for and of what it forbids (UCAM-CL-TR-987, capability exception codes).
pub const CHERI_CAUSES: [(CheriCause, &str, &str); 11] = [
    asked!(Length, "length"),
    asked!(Tag, "tag"),
    asked!(Seal, "seal"),
    asked!(Type, "type"),
    asked!(Execute, "permit execute"),
    asked!(Load, "permit load"),
    asked!(Store, "permit store"),
    asked!(StoreCapability, "permit store capability"),
    asked!(StoreLocalCapability, "permit store local capability"),
    asked!(AccessSystemRegisters, "access system registers"),
    asked!(CInvoke, "permit CInvoke"),
];

/// The name of a cause, as mcause holds it, or none.
#[tactic(auto, unfolding(crate::specs::TrapNames::cause_name))]
pub fn cause_name(mcause: u64) -> Option<&'static str>
    ensures { option_map (λ name. name.now) result ≡ spec.cause_name mcause }
{
    match exception_in(&EXCEPTIONS, mcause) {
        Some(name) => Some(name),
        None => interrupt_in(&INTERRUPTS, mcause),
    }
}

/// The name of what a capability forbids, as `length violation`, by its number, or none.
#[tactic(auto, unfolding(crate::specs::TrapNames::cheri_cause_name))]
pub fn cheri_cause_name(number: u64) -> Option<&'static str>
    ensures { option_map (λ name. name.now) result ≡ spec.cheri_cause_name number }
{
    violation_in(&CHERI_CAUSES, number)
}

/// The name of what a capability is asked for, as `length`, by the number of what it forbids, or none.
#[tactic(auto, unfolding(crate::specs::TrapNames::cheri_asked_name))]
pub fn cheri_asked_name(number: u64) -> Option<&'static str>
    ensures { option_map (λ name. name.now) result ≡ spec.cheri_asked_name number }
{
    asked_in(&CHERI_CAUSES, number)
}

/// The name of the register at fault: below 32 a capability register, from 32 on a special one; or none.
#[tactic(auto, unfolding(crate::specs::TrapNames::register_at_fault))]
pub fn register_at_fault(number: u64) -> Option<&'static str>
    ensures { option_map (λ name. name.now) result ≡ spec.register_at_fault number }
{
    if number < FIRST_SPECIAL {
        Some(register_name(number as u8, true))
    } else if number < 2 * FIRST_SPECIAL {
        scr_name((number - FIRST_SPECIAL) as u8)
    } else {
        None
    }
}

fn exception_in(names: &[(Cause, &'static str)], number: u64) -> Option<&'static str>
    ensures { option_map (λ name. name.now) result ≡ option_map (λ p. p.1.now) (find (λ p. number_of p.0 == number) names.now) }
{
    names.iter().find(|p| p.0.number() == number).map(|p| p.1)
}

fn interrupt_in(names: &[(u64, &'static str)], number: u64) -> Option<&'static str>
    ensures { option_map (λ name. name.now) result ≡ option_map (λ p. p.1.now) (find (λ p. p.0 == number) names.now) }
{
    names.iter().find(|p| p.0 == number).map(|p| p.1)
}

fn asked_in(names: &[(CheriCause, &'static str, &'static str)], number: u64) -> Option<&'static str>
    ensures { option_map (λ name. name.now) result ≡ option_map (λ p. p.1.now) (find (λ p. cheri_number_of p.0 == number) names.now) }
{
    names.iter().find(|p| p.0.number() == number).map(|p| p.1)
}

fn violation_in(
    names: &[(CheriCause, &'static str, &'static str)],
    number: u64,
) -> Option<&'static str>
    ensures { option_map (λ name. name.now) result ≡ option_map (λ p. p.2.now) (find (λ p. cheri_number_of p.0 == number) names.now) }
{
    names.iter().find(|p| p.0.number() == number).map(|p| p.2)
}
