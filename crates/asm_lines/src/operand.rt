//! Operands as they are written, slot by slot, and what they make of an instruction.
ghost use Rattle.std.specs.Prelude.{◌≡◌, Ok, ◌≤◌, ◌<◌, ◌^◌, ◌-◌, ◌*◌, IfOk};
ghost use Rattle.isa_rows.specs.Insn.{sign_extended};
ghost use Rattle.asm_names.specs.Registers.{register_named};
ghost use Rattle.asm_names.specs.SpecialNames.{csr_named, scr_named};
ghost use Rattle.asm_lines.specs.Number.{number_of};
ghost use Rattle.asm_lines.specs.Operand.{wrapped, up_to, signed_12, named_or, has_brackets, before_bracket, in_brackets, displacement};
ghost use Rattle.asm_lines.specs.Operand.{filled_address, filled_authority, filled_slot};
ghost use Rattle.asm_lines.specs.Bounded.{HasTargetOffset};
ghost use Rattle.asm_lines.specs.Seen.{seen_draft, seen_filled, or_A2, wrapped_or};

use crate::class::Class;
use crate::fault::LineFault;
use crate::number::{expression, number};
use crate::parsed::Expression;
use crate::ranges::{MOST_CSR, MOST_REGISTER, MOST_UPPER, SIGNED, most_of};
use crate::text::{after, before, trimmed};
use asm_names::{Slot, csr_named, register_named, scr_named};
use isa_rows::Insn;

/// An instruction that is being written, and its target if it has one.
#[derive(Clone, Copy)]
pub(crate) struct Draft<'a> {
    pub(crate) insn: Insn,
    pub(crate) target: Option<Expression<'a>>,
}

/// The least number of more than 64 bits.
const END: u128 = 1 << 64;

/// A number modulo 2^64.
pub fn wrapped(value: i128) -> u64
    ensures { result ≡ wrapped value }
{
    if value >= 0 {
        (value as u128 % END) as u64
    } else {
        u64::MAX - ((-1 - value) as u128 % END) as u64
    }
}

/// The register that a text names, or A2.
pub(crate) fn register(text: &[u8]) -> Result<u8, LineFault>
    ensures value { result ≡ or_A2 (register_named text.now) }
    ensures below { IfOk result (λ n. n < 32) }
{
    register_named(text).ok_or(LineFault::A2)
}

/// A number, if it is 0 to `most`.
fn at_most(number: i128, most: u64) -> Result<u64, LineFault>
    ensures value { result ≡ wrapped_or (up_to most (Ok number)) }
    ensures bound { IfOk result (λ n. n ≤ most) }
{
    if number < 0 || number > i128::from(most) {
        return Err(LineFault::A3);
    }
    Ok(number as u64)
}

/// A number of 0 to `most`.
pub fn natural(text: &[u8], most: u64) -> Result<u64, LineFault>
    ensures value { result ≡ wrapped_or (up_to most (number_of text.now)) }
    ensures bound { IfOk result (λ n. n ≤ most) }
{
    at_most(number(text)?, most)
}

/// A number of -2048 to 2047, modulo 2^64.
fn signed(number: i128) -> Result<u64, LineFault>
    ensures { result ≡ wrapped_or (signed_12 (Ok number)) }
{
    if number < SIGNED.least || number > SIGNED.most {
        Err(LineFault::A3)
    } else if number < 0 {
        Ok(u64::MAX - (-1 - number) as u64)
    } else {
        Ok(number as u64)
    }
}

/// The 32-bit immediate whose bits 31 to 12 are a number of 0 to 0xFFFFF, modulo 2^64.
#[tactic(auto, unfolding(isa_rows::specs::Insn::sign_extended))]
fn upper(number: u64) -> u64
    requires { number ≤ 0xFFFFF }
    ensures { result ≡ sign_extended 32 (number * 2 ^ 12) }
{
    if number < 0x8_0000 {
        number * 0x1000
    } else {
        number * 0x1000 + 0xFFFF_FFFF_0000_0000
    }
}

/// The number of a control and status register, by name or as a number.
fn csr(text: &[u8]) -> Result<u64, LineFault>
    ensures { result ≡ wrapped_or (named_or (csr_named text.now) (up_to 4095 (number_of text.now))) }
{
    match csr_named(text) {
        Some(number) => Ok(u64::from(number)),
        None => natural(text, MOST_CSR),
    }
}

/// A number of 0 to 31.
fn small(text: &[u8]) -> Result<u8, LineFault>
    ensures { result ≡ wrapped_or (up_to 31 (number_of text.now)) }
{
    Ok(natural(text, MOST_REGISTER)? as u8)
}

/// The number of a special capability register, by name or as a number.
fn special(text: &[u8]) -> Result<u8, LineFault>
    ensures { result ≡ wrapped_or (named_or (scr_named text.now) (up_to 31 (number_of text.now))) }
{
    match scr_named(text) {
        Some(number) => Ok(number),
        None => small(text),
    }
}

/// Whether a text has a `(` and ends with `)`.
fn has_brackets(text: &[u8]) -> bool
    ensures { result ≡ has_brackets text.now }
{
    before(text, Class::Not(b'(')).len() < text.len() && text[text.len() - 1] == b')'
}

/// What stands before the `(`.
fn before_bracket(text: &[u8]) -> &[u8]
    ensures { result.now ≡ before_bracket text.now }
{
    trimmed(before(text, Class::Not(b'(')))
}

/// What stands after the `(`, but for the last byte.
fn in_brackets(text: &[u8]) -> &[u8]
    ensures { result.now ≡ in_brackets text.now }
{
    let past = after(text, Class::Not(b'('));
    trimmed(&past[..past.len().saturating_sub(1)])
}

/// The number before a bracket; nothing means 0.
fn displacement(text: &[u8]) -> Result<u64, LineFault>
    ensures { result ≡ wrapped_or (signed_12 (displacement text.now)) }
{
    if text.is_empty() {
        return Ok(0);
    }
    signed(number(text)?)
}

/// The instruction with one operand more, or what is wrong with the operand.
#[tactic(auto, unfolding(crate::specs::Operand::filled_slot))]
pub(crate) fn filled_slot<'a>(
    slot: Slot,
    text: &'a [u8],
    draft: Draft<'a>,
) -> Result<Draft<'a>, LineFault>
    requires { HasTargetOffset draft.target }
    ensures value { seen_filled result ≡ filled_slot slot text.now (seen_draft draft.entry) }
    ensures offset { IfOk result (λ d. HasTargetOffset d.target) }
{
    let mut insn = draft.insn;
    let mut target = draft.target;
    match slot {
        Slot::Rd(_) => insn.rd = register(text)?,
        Slot::Rs1(_) => insn.rs1 = register(text)?,
        Slot::Rs2(_) => insn.rs2 = register(text)?,
        Slot::Signed => insn.imm = signed(number(text)?)?,
        Slot::Unsigned(bits) => insn.imm = natural(text, most_of(bits))?,
        Slot::Upper => insn.imm = upper(natural(text, MOST_UPPER)?),
        Slot::Small => insn.rs1 = small(text)?,
        Slot::Csr => insn.imm = csr(text)?,
        Slot::Special => insn.rs2 = special(text)?,
        Slot::Address(_) => return with_address(text, draft),
        Slot::Authority(_) => return with_authority(text, draft),
        Slot::Target(_) => target = Some(expression(text)?),
    }
    Ok(Draft { insn, target })
}

/// The instruction with a register in brackets, and a signed number before them.
fn with_address<'a>(text: &'a [u8], draft: Draft<'a>) -> Result<Draft<'a>, LineFault>
    requires { HasTargetOffset draft.target }
    ensures value { seen_filled result ≡ filled_address text.now (seen_draft draft.entry) }
    ensures offset { IfOk result (λ d. HasTargetOffset d.target) }
{
    if !has_brackets(text) {
        return Err(LineFault::A2);
    }
    let rs1 = register(in_brackets(text))?;
    let imm = displacement(before_bracket(text))?;
    let insn = Insn {
        rs1,
        imm,
        ..draft.insn
    };
    Ok(Draft { insn, ..draft })
}

/// The instruction with a register in brackets, and nothing before them.
fn with_authority<'a>(text: &'a [u8], draft: Draft<'a>) -> Result<Draft<'a>, LineFault>
    requires { HasTargetOffset draft.target }
    ensures value { seen_filled result ≡ filled_authority text.now (seen_draft draft.entry) }
    ensures offset { IfOk result (λ d. HasTargetOffset d.target) }
{
    if !has_brackets(text) || !before_bracket(text).is_empty() {
        return Err(LineFault::A2);
    }
    let rs1 = register(in_brackets(text))?;
    let insn = Insn { rs1, ..draft.insn };
    Ok(Draft { insn, ..draft })
}
