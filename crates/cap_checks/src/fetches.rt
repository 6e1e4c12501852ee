ghost use Rattle.std.specs.Prelude.{◌≡◌, None, Some, IfOk, IfErr, OnOk};
ghost use Rattle.cap_bounds.specs.CapValue.{value_address};
ghost use Rattle.cap_checks.specs.FirstFault.{fetch_fault, fetch_checks};

use crate::conditions::{checked, holds, listed};
use crate::question::{Condition, Question};
use base::{CheriCause, Fault, INSTRUCTION_BYTES, PCC_REGISTER};
use cap_bounds::CapRep;
use cap_rights::{Permission, is_sealed, permits};

/// What the fetch of an instruction asks for, in order.
macro_rules! asked_of_fetch {
    ($form:ident: $pcc:ident, $address:ident) => {
        $form! {
            Question::Right { register: PCC_REGISTER, cause: CheriCause::Tag } => $pcc.tag();
            Question::Right { register: PCC_REGISTER, cause: CheriCause::Seal } => !is_sealed($pcc);
            Question::Right { register: PCC_REGISTER, cause: CheriCause::Execute } => permits($pcc, Permission::Execute);
            Question::Bounds { register: PCC_REGISTER, address: $address, size: INSTRUCTION_BYTES } =>
                holds($pcc, $address, INSTRUCTION_BYTES);
        }
    };
}

/// Lists what the fetch of the instruction at PCC's address asks for: tag, seal, Execute, bounds of 4 bytes.
pub fn fetch_conditions<C: CapRep>(pcc: C) -> [Condition; 4]
    ensures { result ≡ fetch_checks (C.value pcc) }
{
    let address = pcc.address();
    asked_of_fetch!(listed: pcc, address)
}

/// Checks the fetch of the instruction at PCC's address, and gives the address.
///
/// # Errors
///
/// The first fault: tag, seal, Execute, bounds of 4 bytes.
#[inline]
#[tactic(auto, unfolding(crate::specs::FirstFault::fetch_fault))]
pub fn check_fetch<C: CapRep>(pcc: C) -> Result<u64, Fault>
    ensures value { IfOk result (λ allowed. allowed ≡ value_address (C.value pcc)) }
    ensures allowed { OnOk result (fetch_fault (C.value pcc) ≡ None) }
    ensures refused { IfErr result (λ fault. fetch_fault (C.value pcc) ≡ Some fault) }
{
    let address = pcc.address();
    asked_of_fetch!(checked: pcc, address);
    Ok(address)
}
