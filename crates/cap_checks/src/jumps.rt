ghost use Rattle.std.specs.Prelude.{◌≡◌, ◌<◌, ◌%◌, None, Some, IfOk, IfErr, OnOk};
ghost use Rattle.cap_bounds.specs.CapValue.{value_address};
ghost use Rattle.cap_checks.specs.FirstFault.{target_fault, jump_fault, invoke_target, invoke_fault};
ghost use Rattle.cap_checks.specs.FirstFault.{target_checks, jump_checks, invoke_checks};
ghost use Rattle.cap_checks.specs.FirstFault as spec;

use crate::conditions::{checked, holds, listed};
use crate::question::{Condition, Question};
use base::{Cause, CheriCause, Fault, INSTRUCTION_BYTES, PCC_REGISTER, otype};
use cap_bounds::CapRep;
use cap_rights::{OType, Permission, is_sealed, permits};

/// Gives where a jump by an offset goes: modulo `2^64`, with bit 0 cleared.
#[inline]
#[tactic(auto, unfolding(crate::specs::FirstFault::jump_target))]
pub fn jump_target(address: u64, offset: u64) -> u64
    ensures { result ≡ spec.jump_target address offset }
{
    address.wrapping_add(offset) / 2 * 2
}

/// What a target within the bounds of a capability asks for, in order: bounds of 4 bytes, alignment to 4.
macro_rules! asked_of_target {
    ($form:ident: $c:ident, $register:ident, $target:ident; $($question:expr => $holds:expr;)*) => {
        $form! {
            $($question => $holds;)*
            Question::Bounds { register: $register, address: $target, size: INSTRUCTION_BYTES } =>
                holds($c, $target, INSTRUCTION_BYTES);
            Question::Multiple { cause: Cause::MisalignedJump, address: $target, size: INSTRUCTION_BYTES } =>
                $target % INSTRUCTION_BYTES == 0;
        }
    };
}

/// Lists what a jump within PCC asks for: bounds of 4 bytes, alignment to 4.
pub fn target_conditions<C: CapRep>(pcc: C, target: u64) -> [Condition; 2]
    ensures { result ≡ target_checks (C.value pcc) target }
{
    asked_of_target!(listed: pcc, PCC_REGISTER, target;)
}

/// Checks the target of a jump within PCC, and gives it.
///
/// # Errors
///
/// The first fault: bounds of 4 bytes, alignment to 4.
#[inline]
#[tactic(auto, unfolding(crate::specs::FirstFault::target_fault))]
pub fn check_target<C: CapRep>(pcc: C, target: u64) -> Result<u64, Fault>
    ensures value { IfOk result (λ allowed. allowed ≡ target) }
    ensures allowed { OnOk result (target_fault (C.value pcc) target ≡ None) }
    ensures refused { IfErr result (λ fault. target_fault (C.value pcc) target ≡ Some fault) }
    ensures aligned { OnOk result (target % 4 ≡ 0) }
{
    asked_of_target!(checked: pcc, PCC_REGISTER, target;);
    Ok(target)
}

/// Tells whether the value is a sentry that is jumped to at no offset.
#[inline]
fn is_entered_sealed<C: CapRep>(c: C, offset: u64) -> bool
    ensures { result ≡ spec.is_entered_sealed (C.value c) offset }
{
    c.otype() == otype::SENTRY && offset == 0
}

/// What a jump by an offset to a capability asks for, in order.
macro_rules! asked_of_jump {
    ($form:ident: $c:ident, $register:ident, $offset:ident, $target:ident) => {
        asked_of_target! {
            $form: $c, $register, $target;
            Question::Right { register: $register, cause: CheriCause::Tag } => $c.tag();
            Question::Right { register: $register, cause: CheriCause::Seal } =>
                !is_sealed($c) || is_entered_sealed($c, $offset);
            Question::Right { register: $register, cause: CheriCause::Execute } => permits($c, Permission::Execute);
        }
    };
}

/// Lists what a jump by an offset to a capability asks for: tag, seal (a sentry passes at no offset), Execute, bounds of 4 bytes,
/// alignment to 4.
pub fn jump_conditions<C: CapRep>(c: C, register: u64, offset: u64) -> [Condition; 5]
    ensures { result ≡ jump_checks (C.value c) register offset }
{
    let target = jump_target(c.address(), offset);
    asked_of_jump!(listed: c, register, offset, target)
}

/// Checks a jump by an offset to a capability that a register holds, and gives its target.
///
/// # Errors
///
/// The first fault: tag, seal (a sentry passes at no offset), Execute, bounds of 4 bytes, alignment to 4.
#[inline]
#[tactic(auto, unfolding(crate::specs::FirstFault::jump_fault))]
pub fn check_jump<C: CapRep>(c: C, register: u64, offset: u64) -> Result<u64, Fault>
    requires { register < 64 }
    ensures value { IfOk result (λ target. target ≡ spec.jump_target (value_address (C.value c)) offset) }
    ensures allowed { OnOk result (jump_fault (C.value c) register offset ≡ None) }
    ensures refused { IfErr result (λ fault. jump_fault (C.value c) register offset ≡ Some fault) }
    ensures aligned { IfOk result (λ target. target % 4 ≡ 0) }
{
    let target = jump_target(c.address(), offset);
    asked_of_jump!(checked: c, register, offset, target);
    Ok(target)
}

/// What the invocation of a pair asks for, in order.
macro_rules! asked_of_invocation {
    ($form:ident: $code:ident, $code_register:ident, $data:ident, $data_register:ident, $target:ident) => {
        asked_of_target! {
            $form: $code, $code_register, $target;
            Question::Right { register: $code_register, cause: CheriCause::Tag } => $code.tag();
            Question::Right { register: $data_register, cause: CheriCause::Tag } => $data.tag();
            Question::Right { register: $code_register, cause: CheriCause::Seal } => !OType::of($code).is_reserved();
            Question::Right { register: $data_register, cause: CheriCause::Seal } => !OType::of($data).is_reserved();
            Question::Right { register: $code_register, cause: CheriCause::Type } => $code.otype() == $data.otype();
            Question::Right { register: $code_register, cause: CheriCause::CInvoke } => permits($code, Permission::CInvoke);
            Question::Right { register: $data_register, cause: CheriCause::CInvoke } => permits($data, Permission::CInvoke);
            Question::Right { register: $code_register, cause: CheriCause::Execute } => permits($code, Permission::Execute);
            Question::Right { register: $data_register, cause: CheriCause::Execute } => !permits($data, Permission::Execute);
        }
    };
}

/// Lists what the invocation of a pair asks for, of the code before the data: tags, reserved types, different types, CInvoke, Execute
/// (the code must have it, and the data must not), and then of the code the bounds of 4 bytes and alignment to 4.
pub fn invoke_conditions<C: CapRep>(
    code: C,
    code_register: u64,
    data: C,
    data_register: u64,
) -> [Condition; 11]
    ensures { result ≡ invoke_checks (C.value code) code_register (C.value «data») data_register }
{
    let target = jump_target(code.address(), 0);
    asked_of_invocation!(listed: code, code_register, data, data_register, target)
}

/// Checks the invocation of a pair that two registers hold, code and data, and gives its target.
///
/// # Errors
///
/// The first fault, of the code before the data: tags, reserved types, different types, CInvoke, Execute (the code must have
/// it, and the data must not), and then of the code the bounds of 4 bytes and alignment to 4.
#[inline]
#[tactic(auto, unfolding(crate::specs::FirstFault::invoke_fault))]
pub fn check_invoke<C: CapRep>(
    code: C,
    code_register: u64,
    data: C,
    data_register: u64,
) -> Result<u64, Fault>
    requires code { code_register < 64 }
    requires data { data_register < 64 }
    ensures value { IfOk result (λ target. target ≡ invoke_target (C.value code)) }
    ensures allowed { OnOk result
        (invoke_fault (C.value code) code_register (C.value «data») data_register ≡ None) }
    ensures refused { IfErr result (λ fault.
        invoke_fault (C.value code) code_register (C.value «data») data_register ≡ Some fault) }
    ensures aligned { IfOk result (λ target. target % 4 ≡ 0) }
{
    let target = jump_target(code.address(), 0);
    asked_of_invocation!(checked: code, code_register, data, data_register, target);
    Ok(target)
}
