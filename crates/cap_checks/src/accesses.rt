ghost use Rattle.std.specs.Prelude.{◌≡◌, ◌<◌, ◌%◌, None, Some, IfOk, IfErr, OnOk};
ghost use Rattle.cap_checks.specs.Access.{width_of};
ghost use Rattle.cap_checks.specs.FirstFault.{access_fault, access_checks};

use crate::access::Access;
use crate::conditions::{holds, push, report};
use crate::question::{Condition, Question};
use base::{CheriCause, Fault};
use cap_bounds::CapRep;
use cap_rights::{Permission, is_sealed, permits};
use std::alloc::{AllocError, Global};

/// What an access through an authority asks for, in order.
macro_rules! ask_access {
    ($form:ident $list:ident: $authority:ident, $register:ident, $access:ident, $address:ident) => {
        $form!($list: Question::Right { register: $register, cause: CheriCause::Tag } => $authority.tag());
        $form!($list: Question::Right { register: $register, cause: CheriCause::Seal } => !is_sealed($authority));
        $form!($list: Question::Right { register: $register, cause: $access.lacking() } => permits($authority, $access.needed()));
        if $access.stores_capability() {
            $form!($list: Question::Right { register: $register, cause: CheriCause::StoreCapability } =>
                permits($authority, Permission::StoreCapability));
        }
        if $access.stores_local() {
            $form!($list: Question::Right { register: $register, cause: CheriCause::StoreLocalCapability } =>
                permits($authority, Permission::StoreLocalCapability));
        }
        $form!($list: Question::Bounds { register: $register, address: $address, size: $access.width() } =>
            holds($authority, $address, $access.width()));
        $form!($list: Question::Multiple { cause: $access.misaligned(), address: $address, size: $access.width() } =>
            $address % $access.width() == 0);
    };
}

/// Lists what an access through an authority asks for: tag, seal, Load or Store, Store_Capability and Store_Local_Capability where
/// such a capability is stored, bounds, alignment.
///
/// # Errors
///
/// Out of memory.
pub fn access_conditions<C: CapRep>(
    heap: Global,
    authority: C,
    register: u64,
    access: Access,
    address: u64,
) -> Result<Vec<Condition>, AllocError>
    ensures { IfOk result (λ asked. asked.items ≡ access_checks (C.value authority) register access address) }
{
    let mut asked = Vec::new(heap);
    ask_access!(push asked: authority, register, access, address);
    Ok(asked)
}

/// Checks an access through an authority that a register holds, and gives its address.
///
/// # Errors
///
/// The first fault: tag, seal, Load or Store, Store_Capability and Store_Local_Capability where such a capability is stored, bounds,
/// alignment.
#[inline]
#[tactic(auto, unfolding(crate::specs::FirstFault::access_fault))]
pub fn check_access<C: CapRep>(
    authority: C,
    register: u64,
    access: Access,
    address: u64,
) -> Result<u64, Fault>
    requires { register < 64 }
    ensures value { IfOk result (λ allowed. allowed ≡ address) }
    ensures allowed { OnOk result (access_fault (C.value authority) register access address ≡ None) }
    ensures refused { IfErr result (λ fault. access_fault (C.value authority) register access address ≡ Some fault) }
    ensures aligned { OnOk result (address % width_of access ≡ 0) }
{
    ask_access!(report asked: authority, register, access, address);
    Ok(address)
}
