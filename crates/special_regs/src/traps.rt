ghost use Rattle.std.specs.Prelude.{◌≡◌, IfErr, IfOk, OnErr, OnOk, Some, None};
ghost use Rattle.special_regs.specs.Refusals.{return_fault};
ghost use Rattle.special_regs.specs.Scrs.{IsAligned};
ghost use Rattle.special_regs.specs.Traps.{sentry_opened, aligned, trapped_scrs, trapped_csrs, returned_scrs, returned_csrs};
ghost use Rattle.special_regs.specs.Traps as spec;

use crate::access::check_access;
use crate::bits::has_bit;
use crate::csrs::Csrs;
use crate::mtvec::is_vectored;
use crate::refusal::SpecialFault;
use crate::scrs::Scrs;
use base::{Fault, otype, scr};
use cap_bounds::CapRep;
use cap_rights::opened;

/// Returns whether a value is a tagged sentry.
#[tactic(auto, unfolding(crate::specs::Traps::is_sentry))]
fn is_sentry<C: CapRep>(c: C) -> bool
    ensures { result ≡ spec.is_sentry (C.value c) }
{
    c.tag() && c.otype() == otype::SENTRY
}

/// Returns a tagged sentry without its seal; any other value as it is.
#[tactic(auto, unfolding(crate::specs::Traps::sentry_opened))]
fn unseal_sentry<C: CapRep>(c: C) -> C
    ensures { C.value result ≡ sentry_opened (C.value c) }
{
    if is_sentry(c) { opened(c) } else { c }
}

/// Returns where a return goes to from MEPCC: a tagged sentry is unsealed, and low address bits that are not 0 are cleared, which may
/// cost another value its tag.
#[tactic(auto, unfolding(crate::specs::Traps::aligned))]
pub fn target<C: CapRep>(c: C) -> C
    ensures value { C.value result ≡ spec.target (C.value c) }
    ensures aligned { IsAligned (C.value result) }
{
    let entry = unseal_sentry(c);
    let address = entry.address();
    if address % 4 == 0 {
        entry
    } else {
        entry.set_address(address / 4 * 4)
    }
}

/// Returns the number of an interrupt, which its cause holds below bit 63; 0 for an exception.
fn vector_of(fault: Fault) -> u64
    ensures { result ≡ spec.vector_of fault }
{
    if has_bit(fault.mcause, 63) {
        fault.mcause % (1 << 63)
    } else {
        0
    }
}

/// Returns the address at which a trap begins: mtvec's base, and for a vectored interrupt four bytes a number after it.
#[tactic(auto, unfolding(crate::specs::Traps::entry_address))]
pub fn entry_address(fault: Fault, mtvec: u64) -> u64
    ensures { result ≡ spec.entry_address fault mtvec }
{
    let base = mtvec / 4 * 4;
    if is_vectored(mtvec) {
        base.wrapping_add(vector_of(fault).wrapping_mul(4))
    } else {
        base
    }
}

/// Returns a value at an address. One that is there already stays as it is, so that it keeps a seal with its tag.
#[tactic(auto, unfolding(crate::specs::Traps::placed_at))]
fn place_at<C: CapRep>(address: u64, c: C) -> C
    ensures { C.value result ≡ spec.placed_at address (C.value c) }
{
    if c.address() == address {
        c
    } else {
        c.set_address(address)
    }
}

/// Returns where a trap goes to from MTCC: a tagged sentry is unsealed, and the address is set to the trap's where it differs, which
/// may cost another value its tag.
fn trap_target<C: CapRep>(fault: Fault, mtcc: C) -> C
    ensures value { C.value result ≡ spec.trap_target fault (C.value mtcc) }
    ensures aligned { IsAligned (C.value result) }
{
    place_at(entry_address(fault, mtcc.address()), unseal_sentry(mtcc))
}

/// Enters a trap: MEPCC becomes PCC, PCC becomes MTCC at the trap's entry, the fault is kept in mcause and mtval, and interrupts are
/// off.
#[tactic(auto, unfolding(crate::specs::Writes::scr_written))]
pub fn enter_trap<C: CapRep>(scrs: &mut Scrs<C>, csrs: &mut Csrs, fault: Fault)
    ensures scrs { scrs.new ≡ trapped_scrs fault scrs.old }
    ensures csrs { csrs.new ≡ trapped_csrs fault csrs.old }
{
    let pcc = scrs.pcc();
    scrs.set(scr::MEPCC, pcc);
    scrs.set_pcc(trap_target(fault, scrs.mtcc()));
    csrs.mcause = fault.mcause;
    csrs.mtval = fault.mtval;
    csrs.mstatus_mpie = csrs.mstatus_mie;
    csrs.mstatus_mie = false;
}

/// Returns whether a return would unseal a sentry in MEPCC. S2 without access.
pub fn check_return<C: CapRep>(scrs: &Scrs<C>) -> Result<bool, SpecialFault>
    ensures sentry { IfOk result (λ sealed. sealed ≡ spec.is_sentry scrs.now.mepcc) }
    ensures allowed { OnOk result (return_fault scrs.now ≡ None) }
    ensures refused { IfErr result (λ fault. return_fault scrs.now ≡ Some fault) }
{
    check_access(scrs)?;
    Ok(is_sentry(scrs.mepcc()))
}

/// Leaves a trap: PCC becomes MEPCC's target, and interrupts are on if they were before the trap. S2 without access, and then nothing
/// changes.
pub fn leave_trap<C: CapRep>(scrs: &mut Scrs<C>, csrs: &mut Csrs) -> Result<(), SpecialFault>
    ensures allowed { OnOk result (return_fault scrs.old ≡ None) }
    ensures refused { IfErr result (λ fault. return_fault scrs.old ≡ Some fault) }
    ensures scrs { OnOk result (scrs.new ≡ returned_scrs scrs.old) }
    ensures csrs { OnOk result (csrs.new ≡ returned_csrs csrs.old) }
    ensures scrs_on_err { OnErr result (scrs.new ≡ scrs.old) }
    ensures csrs_on_err { OnErr result (csrs.new ≡ csrs.old) }
{
    check_return(scrs)?;
    return_from_trap(scrs, csrs);
    Ok(())
}

/// Leaves a trap where a check has allowed it: PCC becomes MEPCC's target, and interrupts are on if they were before the trap.
pub fn return_from_trap<C: CapRep>(scrs: &mut Scrs<C>, csrs: &mut Csrs)
    ensures scrs { scrs.new ≡ returned_scrs scrs.old }
    ensures csrs { csrs.new ≡ returned_csrs csrs.old }
{
    scrs.set_pcc(target(scrs.mepcc()));
    csrs.mstatus_mie = csrs.mstatus_mpie;
    csrs.mstatus_mpie = true;
}
