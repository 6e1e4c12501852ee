ghost use Rattle.std.specs.Prelude.{◌≡◌, IfErr, IfOk, OnErr, OnOk, Some, None, is_some, option_map, true};
ghost use Rattle.special_regs.specs.Refusals.{csr_fault, scr_fault};
ghost use Rattle.special_regs.specs.Scrs.{scr_value};
ghost use Rattle.special_regs.specs.Writes.{csrs_written, views_written, scr_written_if};

use crate::access::{check_csr, check_scr};
use crate::csrs::Csrs;
use crate::parts::set_csr;
use crate::refusal::SpecialFault;
use crate::scrs::Scrs;
use cap_bounds::CapRep;

/// Writes control and status register `number`. S1 where there is no such register or it is only read, then S2 without access; a
/// refused write changes nothing.
///
/// Of mstatus MIE and MPIE are kept, of mie two bits. mepc sets the address of MEPCC to a multiple of 4, mtvec that of MTCC to one or,
/// where the low two bits are 1, to one more. misa and mip stay as they are.
pub fn write_csr<C: CapRep>(
    csrs: &mut Csrs,
    scrs: &mut Scrs<C>,
    number: u16,
    value: u64,
) -> Result<(), SpecialFault>
    ensures allowed { OnOk result (csr_fault scrs.old number true ≡ None) }
    ensures refused { IfErr result (λ fault. csr_fault scrs.old number true ≡ Some fault) }
    ensures csrs { OnOk result (csrs.new ≡ csrs_written number value csrs.old) }
    ensures scrs { OnOk result (scrs.new ≡ views_written number value scrs.old) }
    ensures csrs_on_err { OnErr result (csrs.new ≡ csrs.old) }
    ensures scrs_on_err { OnErr result (scrs.new ≡ scrs.old) }
{
    check_csr(scrs, number, true)?;
    set_csr(csrs, scrs, number, value);
    Ok(())
}

/// Replaces special capability register `number` where there is a new value, and gives what it held. S1 where there is no such
/// register or PCC would be replaced, then S2 without access, which PCC and DDC do not need; a refused call changes nothing.
pub fn special_rw<C: CapRep>(
    scrs: &mut Scrs<C>,
    number: u8,
    new: Option<C>,
) -> Result<C, SpecialFault>
    ensures value { IfOk result (λ held. scr_value scrs.old number ≡ Some (C.value held)) }
    ensures written { OnOk result (scrs.new ≡ scr_written_if number (option_map C.value new) scrs.old) }
    ensures allowed { OnOk result (scr_fault scrs.old number (is_some new) ≡ None) }
    ensures refused { IfErr result (λ fault. scr_fault scrs.old number (is_some new) ≡ Some fault) }
    ensures err { OnErr result (scrs.new ≡ scrs.old) }
{
    let held = check_scr(scrs, number, new.is_some())?;
    if let Some(new) = new {
        scrs.set(number, new);
    }
    Ok(held)
}
