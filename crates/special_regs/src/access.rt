//! Who may use which system register.

ghost use Rattle.std.specs.Prelude.{◌≡◌, IsTrue, IfErr, IfOk, OnOk, Some, None};
ghost use Rattle.base.specs.Registers.{is_csr};
ghost use Rattle.special_regs.specs.Refusals.{csr_fault, scr_fault, return_fault, csr_checks, scr_checks, return_checks};
ghost use Rattle.special_regs.specs.Refusals as spec;
ghost use Rattle.special_regs.specs.Scrs.{scr_value};

use crate::refusal::SpecialFault;
use crate::scrs::Scrs;
use base::{is_csr, is_scr, scr};
use cap_bounds::CapRep;
use cap_rights::{Permission, permits};

/// Returns whether the code that PCC fetches may use system registers.
pub(crate) fn has_system_access<C: CapRep>(scrs: &Scrs<C>) -> bool
    ensures { result ≡ spec.has_system_access scrs.now }
{
    permits(scrs.pcc(), Permission::AccessSystemRegisters)
}

/// Returns whether control and status register `number` is one that is only read: bits 11 and 10 of the number are 1.
fn is_read_only(number: u16) -> bool
    ensures { result ≡ spec.is_read_only number }
{
    number / (1 << 10) % 4 == 3
}

/// A condition, and the refusal where it is false.
pub type Condition = (bool, SpecialFault);

/// The conditions of a check, in order.
macro_rules! listed {
    ($($holds:expr => $refusal:expr;)*) => { [$(($holds, $refusal)),*] };
}

/// Reports the refusal of the first condition of a check that is false.
macro_rules! checked {
    ($($holds:expr => $refusal:expr;)*) => {
        { $(if !($holds) { return Err($refusal); })* }
    };
}

/// What a read or, where `writes` is true, a write of a control and status register asks for, in order.
macro_rules! asked_of_csr {
    ($form:ident: $scrs:ident, $number:ident, $writes:ident) => {
        $form! {
            is_csr($number) && !($writes && is_read_only($number)) => SpecialFault::S1;
            has_system_access($scrs) => SpecialFault::S2;
        }
    };
}

/// What a read or, where `writes` is true, a replacement of a special capability register asks for, in order.
macro_rules! asked_of_scr {
    ($form:ident: $scrs:ident, $number:ident, $writes:ident) => {
        $form! {
            is_scr($number) && !($writes && $number == scr::PCC) => SpecialFault::S1;
            $number < scr::MTCC || has_system_access($scrs) => SpecialFault::S2;
        }
    };
}

/// What the return from a trap asks for.
macro_rules! asked_of_return {
    ($form:ident: $scrs:ident) => {
        $form! { has_system_access($scrs) => SpecialFault::S2; }
    };
}

/// Checks that control and status register `number` may be read or, where `writes` is true, written. S1 where there is no such
/// register or it is only read, then S2 without access.
#[tactic(auto, unfolding(crate::specs::Refusals::csr_fault))]
pub fn check_csr<C: CapRep>(scrs: &Scrs<C>, number: u16, writes: bool) -> Result<(), SpecialFault>
    ensures allowed { OnOk result (csr_fault scrs.now number writes ≡ None) }
    ensures refused { IfErr result (λ fault. csr_fault scrs.now number writes ≡ Some fault) }
    ensures exists { OnOk result (IsTrue (is_csr number)) }
{
    asked_of_csr!(checked: scrs, number, writes);
    Ok(())
}

/// Returns special capability register `number` if it may be read or, where `writes` is true, replaced. S1 where there is no such
/// register or a write would replace PCC, then S2 without access, which PCC and DDC do not need.
#[tactic(auto, unfolding(crate::specs::Refusals::scr_fault, crate::specs::Scrs::scr_value))]
pub fn check_scr<C: CapRep>(scrs: &Scrs<C>, number: u8, writes: bool) -> Result<C, SpecialFault>
    ensures value { IfOk result (λ held. scr_value scrs.now number ≡ Some (C.value held)) }
    ensures allowed { OnOk result (scr_fault scrs.now number writes ≡ None) }
    ensures refused { IfErr result (λ fault. scr_fault scrs.now number writes ≡ Some fault) }
{
    asked_of_scr!(checked: scrs, number, writes);
    Ok(scrs.get(number).unwrap())
}

/// Checks that a trap may be left. S2 without access.
#[tactic(auto, unfolding(crate::specs::Refusals::return_fault))]
pub(crate) fn check_access<C: CapRep>(scrs: &Scrs<C>) -> Result<(), SpecialFault>
    ensures allowed { OnOk result (return_fault scrs.now ≡ None) }
    ensures refused { IfErr result (λ fault. return_fault scrs.now ≡ Some fault) }
{
    asked_of_return!(checked: scrs);
    Ok(())
}

/// Lists what `check_csr` asks for: there is such a register, which isn't only read where `writes` is true; then access.
pub fn csr_conditions<C: CapRep>(scrs: &Scrs<C>, number: u16, writes: bool) -> [Condition; 2]
    ensures { result ≡ csr_checks scrs.now number writes }
{
    asked_of_csr!(listed: scrs, number, writes)
}

/// Lists what `check_scr` asks for: there is such a register, which isn't PCC where `writes` is true; then access, which PCC and DDC
/// do not need.
pub fn scr_conditions<C: CapRep>(scrs: &Scrs<C>, number: u8, writes: bool) -> [Condition; 2]
    ensures { result ≡ scr_checks scrs.now number writes }
{
    asked_of_scr!(listed: scrs, number, writes)
}

/// Lists what the return from a trap asks for: access.
pub fn return_conditions<C: CapRep>(scrs: &Scrs<C>) -> [Condition; 1]
    ensures { result ≡ return_checks scrs.now }
{
    asked_of_return!(listed: scrs)
}
