//! The text of a trap, as a step comes to one, and what it leaves in mcause and mtval, in words.
ghost use Rattle.std.specs.Prelude.{◌≡◌, ◌≤◌, ◌==◌, length, if◌then◌else◌, IsTrue};
ghost use Rattle.arrayvec.specs.ArrayString.{array_string_len};
ghost use Rattle.base.specs.Fault.{number_of};
ghost use Rattle.base.specs.declared.cause.Cause.TheVariants as cause;
ghost use Rattle.texts.specs.Piece.{text_of, width_of, are_narrow};
ghost use Rattle.asm_names.specs.TrapNames.{cause_name as cause_name_of};
ghost use Rattle.explain.specs.EffectText.{cause_part, taken, trap_entry, violation_part};
ghost use Rattle.explain.specs.TrapText as spec;

use crate::effect::Line;
use arrayvec::ArrayString;
use asm_names::{cause_name, cheri_cause_name, register_at_fault};
use base::{Cause, Fault, interrupt};
use texts::Piece::{self, Hexadecimal, Text};
use texts::{fill, pieces, text};

/// A cause's name and a comma, where it has one.
#[tactic(auto, using(crate::specs::LengthLaws::cause_name_short))]
fn cause_part(mcause: u64) -> [Piece<'static>; 2]
    ensures text { text_of result ≡ cause_part (cause_name_of mcause) }
    ensures narrow { IsTrue (are_narrow result) }
    ensures within { width_of result ≤ 32 }
{
    match cause_name(mcause) {
        Some(name) => [Text(name), Text(", ")],
        None => [Text(""), Text("")],
    }
}

/// What a capability forbids, and at which register, where the trap is a CHERI exception and both have names.
#[tactic(auto, using(crate::specs::LengthLaws::cheri_cause_name_short, crate::specs::LengthLaws::register_at_fault_short))]
fn violation_part(fault: Fault) -> [Piece<'static>; 4]
    ensures text { text_of result ≡ violation_part fault }
    ensures narrow { IsTrue (are_narrow result) }
    ensures within { width_of result ≤ 66 }
{
    let none = [Text(""), Text(""), Text(""), Text("")];
    if fault.mcause != Cause::Cheri.number() {
        return none;
    }
    match (
        cheri_cause_name(fault.mtval % 32),
        register_at_fault(fault.mtval / 32),
    ) {
        (Some(what), Some(register)) => [Text(what), Text(" at "), Text(register), Text(", ")],
        _ => none,
    }
}

/// An exception traps; an interrupt is taken.
#[tactic(auto, unfolding(crate::specs::EffectText::taken))]
fn taken(mcause: u64) -> &'static str
    ensures text { result.now ≡ taken mcause }
    ensures length { length result.now ≡ 5 }
{
    if mcause < interrupt::CAUSE {
        "trap "
    } else {
        "take "
    }
}

/// The text of a trap.
pub(crate) fn trap_entry(fault: Fault) -> Line
    ensures text { result.bytes ≡ trap_entry fault }
    ensures within { array_string_len result ≤ 160 }
{
    let mut line = text(&[Text(taken(fault.mcause))]);
    fill(&mut line, &cause_part(fault.mcause));
    fill(&mut line, &violation_part(fault));
    let numbers = pieces![
        "mcause " Hexadecimal(16, u128::from(fault.mcause))
        ", mtval " Hexadecimal(16, u128::from(fault.mtval))
    ];
    fill(&mut line, &numbers);
    line
}

/// A cause by its name, or its number.
#[tactic(auto, using(crate::specs::LengthLaws::cause_name_short))]
fn cause_words(mcause: u64) -> [Piece<'static>; 2]
    ensures text { text_of result ≡ spec.cause_text mcause }
    ensures narrow { IsTrue (are_narrow result) }
    ensures within { width_of result ≤ 30 }
{
    match cause_name(mcause) {
        Some(name) => [Text(name), Text("")],
        None => [Text("mcause "), Hexadecimal(16, u128::from(mcause))],
    }
}

/// What mtval says of a cause: of a CHERI exception what is forbidden, and at which register; else its number.
#[tactic(auto, using(crate::specs::LengthLaws::cheri_cause_name_short, crate::specs::LengthLaws::register_at_fault_short))]
fn value_words(mcause: u64, mtval: u64) -> [Piece<'static>; 3]
    ensures text { text_of result
        ≡ (if mcause == number_of cause.Cheri then spec.violation_text mtval else spec.number_text mtval) }
    ensures narrow { IsTrue (are_narrow result) }
    ensures within { width_of result ≤ 64 }
{
    let number = [Text("mtval "), Hexadecimal(16, u128::from(mtval)), Text("")];
    if mcause != Cause::Cheri.number() {
        return number;
    }
    match (cheri_cause_name(mtval % 32), register_at_fault(mtval / 32)) {
        (Some(cause), Some(register)) => [Text(cause), Text(" at "), Text(register)],
        _ => number,
    }
}

/// The text of what a trap left in mcause and mtval, as `CHERI exception, length violation at ca0`: the cause by its name and mtval as
/// a number, and of a CHERI exception what is forbidden and at which register. A cause, a violation or a register without a name is
/// shown by its number. At most 96 bytes.
#[tactic(auto, unfolding(crate::specs::TrapText::trap_text))]
pub fn trap_text(mcause: u64, mtval: u64) -> ArrayString<128>
    ensures text { result.bytes ≡ spec.trap_text mcause mtval }
    ensures length { array_string_len result ≤ 96 }
{
    let mut words = text(&cause_words(mcause));
    fill(&mut words, &[Text(", ")]);
    fill(&mut words, &value_words(mcause, mtval));
    words
}
