ghost use Rattle.std.specs.Prelude.{◌≡◌, IfErr, IfOk, IsTrue, OnOk, Some, None, false};
ghost use Rattle.base.specs.Registers.{is_csr};
ghost use Rattle.special_regs.specs.CsrValues as spec;
ghost use Rattle.special_regs.specs.Refusals.{csr_fault};

use crate::access::check_csr;
use crate::csrs::Csrs;
use crate::parts::csr_value;
use crate::refusal::SpecialFault;
use crate::scrs::Scrs;
use cap_bounds::CapRep;

/// Reads control and status register `number` while devices ask for the interrupts in `mip`. S1 where there is no such register,
/// then S2 without access.
pub fn read_csr<C: CapRep>(
    csrs: &Csrs,
    scrs: &Scrs<C>,
    mip: u64,
    number: u16,
) -> Result<u64, SpecialFault>
    ensures value { IfOk result (λ v. spec.csr_value csrs.now scrs.now mip number ≡ Some v) }
    ensures allowed { OnOk result (csr_fault scrs.now number false ≡ None) }
    ensures refused { IfErr result (λ fault. csr_fault scrs.now number false ≡ Some fault) }
{
    check_csr(scrs, number, false)?;
    Ok(held_csr(csrs, scrs, mip, number))
}

/// Returns what control and status register `number`, which must exist, holds while devices ask for the interrupts in `mip`.
pub fn held_csr<C: CapRep>(csrs: &Csrs, scrs: &Scrs<C>, mip: u64, number: u16) -> u64
    requires { IsTrue (is_csr number) }
    ensures { spec.csr_value csrs.now scrs.now mip number ≡ Some result }
{
    csr_value(csrs, scrs, mip, number).unwrap()
}
