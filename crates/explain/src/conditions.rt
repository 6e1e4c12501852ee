//! The lines of conditions, and of the capabilities that they ask, by registers as mtval counts them.
ghost use Rattle.std.specs.Prelude.{◌≡◌, ◌++◌, IsTrue, OnOk, string_bytes, codes};
ghost use Rattle.symbols.specs.Labels.{labelled};
ghost use Rattle.texts.specs.Piece.{text_of, are_narrow};
ghost use Rattle.explain.specs.WhyText.{register_text, capability_in, capability_line, fields_text};
ghost use Rattle.explain.specs.WhyText.{asked_name, name_text, question_text, bounds_text, mark, condition_line, condition_lines};

use crate::value::value_text;
use asm_names::{cheri_asked_name, register_at_fault};
use base::{CheriCause, FIRST_SPECIAL};
use bounds_text::permission_letters;
use cap_bounds::CapRep;
use cap_checks::{Condition, Question};
use cap_insns::integer;
use hart::Hart;
use std::alloc::AllocError;
use symbols::{Symbols, labelled};
use texts::Piece::{self, Text};
use texts::{append, pieces};

/// The capability in a register: 0 to 31 general, 32 and its number special. Null where there is no such register.
pub(crate) fn capability_in<C: CapRep>(hart: &Hart<C>, register: u64) -> C
    ensures { C.value result ≡ capability_in hart.now register }
{
    if register < FIRST_SPECIAL {
        return hart.reg(register as u8);
    }
    match u8::try_from(register - FIRST_SPECIAL) {
        Ok(number) => hart.scrs().get(number).unwrap_or(integer(0)),
        Err(_) => integer(0),
    }
}

/// The name of a register; nothing where there is none.
pub(crate) fn register_name(register: u64) -> &'static str
    ensures { result.now ≡ register_text register }
{
    register_at_fault(register).unwrap_or("")
}

/// Appends the rest of a capability's line to a text: its fields, and its permissions in letters.
fn append_fields<C: CapRep>(text: &mut String, capability: C) -> Result<(), AllocError>
    ensures { OnOk result (string_bytes text.new ≡ string_bytes text.old ++ (fields_text (C.value capability) ++ codes "\n")) }
{
    let fields = value_text(capability);
    let letters = permission_letters(capability.perms());
    append(
        text,
        &pieces![Text(fields.as_str()) " " Text(letters.as_str()) "\n"],
    )
}

/// Appends the line of the capability in a register to a text: its fields, and its permissions in letters.
pub(crate) fn append_capability<C: CapRep>(
    text: &mut String,
    hart: &Hart<C>,
    register: u64,
) -> Result<(), AllocError>
    ensures { OnOk result (string_bytes text.new ≡ string_bytes text.old ++ capability_line hart.now register) }
{
    append(
        text,
        &[Text("  "), Text(register_name(register)), Text(" ")],
    )?;
    append_fields(text, capability_in(hart, register))
}

/// Appends a text, an address and its label to a text.
pub(crate) fn append_at(
    text: &mut String,
    symbols: &Symbols,
    before: &str,
    address: u64,
) -> Result<(), AllocError>
    ensures { OnOk result (string_bytes text.new ≡ string_bytes text.old ++ (before.now ++ labelled symbols.now address)) }
{
    let place = labelled(Some(symbols), address);
    append(text, &[Text(before), Text(place.as_str())])
}

/// What is asked of a capability.
pub(crate) fn asked_name(cause: CheriCause) -> &'static str
    ensures { result.now ≡ asked_name cause }
{
    cheri_asked_name(cause.number()).unwrap_or("")
}

/// What is asked of a capability, and its register.
fn name(register: u64, cause: CheriCause) -> [Piece<'static>; 3]
    ensures text { text_of result ≡ name_text register cause }
    ensures narrow { IsTrue (are_narrow result) }
{
    [
        Text(asked_name(cause)),
        Text(" of "),
        Text(register_name(register)),
    ]
}

/// Appends the bytes that are asked for, and a capability's bounds, addresses with their labels, to a text.
///
/// # Errors
///
/// Out of memory.
pub fn put_bounds<C: CapRep>(
    text: &mut String,
    symbols: &Symbols,
    address: u64,
    size: u64,
    capability: C,
) -> Result<(), AllocError>
    ensures { OnOk result (string_bytes text.new ≡ string_bytes text.old ++ bounds_text symbols.now address size (C.value capability)) }
{
    let place = labelled(Some(symbols), address);
    let base = labelled(Some(symbols), capability.base());
    let line = pieces![
        ": " Text(place.as_str()) " + " Decimal(size) " in " Text(base.as_str()) " to "
        Hexadecimal(17, capability.top())
    ];
    append(text, &line)
}

/// Appends what a condition asks to a text.
#[tactic(auto, unfolding(crate::specs::WhyText::question_text))]
fn append_question<C: CapRep>(
    text: &mut String,
    symbols: &Symbols,
    hart: &Hart<C>,
    question: Question,
) -> Result<(), AllocError>
    ensures { OnOk result (string_bytes text.new ≡ string_bytes text.old ++ question_text symbols.now hart.now question) }
{
    match question {
        Question::Right { register, cause } => append(text, &name(register, cause)),
        Question::Bounds {
            register,
            address,
            size,
        } => {
            append(text, &name(register, CheriCause::Length))?;
            put_bounds(text, symbols, address, size, capability_in(hart, register))
        }
        Question::Multiple { address, size, .. } => {
            let place = labelled(Some(symbols), address);
            append(
                text,
                &pieces!["a multiple of " Decimal(size) ": " Text(place.as_str())],
            )
        }
        Question::Ram { address, .. } => append_at(text, symbols, "RAM at ", address),
        Question::RamOrDevice { address, .. } => {
            append_at(text, symbols, "RAM or a device at ", address)
        }
        Question::Instruction { .. } => append(text, &[Text("the word is an instruction")]),
        Question::SystemRegister { .. } => {
            let question = "there is such a register, and it may be written where it is";
            append(text, &[Text(question)])
        }
    }
}

fn mark(holds: bool) -> &'static str
    ensures { result.now ≡ mark holds }
{
    if holds { "  ok " } else { "  no " }
}

/// Appends the line of a condition to a text.
#[tactic(auto, unfolding(crate::specs::WhyText::condition_line))]
pub(crate) fn append_line<C: CapRep>(
    text: &mut String,
    symbols: &Symbols,
    hart: &Hart<C>,
    condition: Condition,
) -> Result<(), AllocError>
    ensures { OnOk result (string_bytes text.new ≡ string_bytes text.old ++ condition_line symbols.now hart.now condition) }
{
    append(text, &[Text(mark(condition.holds))])?;
    append_question(text, symbols, hart, condition.question)?;
    append(text, &[Text("\n")])
}

/// Appends the lines of conditions to a text, up to the first that is false.
pub(crate) fn append_conditions<C: CapRep>(
    text: &mut String,
    symbols: &Symbols,
    hart: &Hart<C>,
    conditions: &[Condition],
) -> Result<(), AllocError>
    ensures { OnOk result (string_bytes text.new ≡ string_bytes text.old ++ condition_lines symbols.now hart.now conditions.now) }
{
    match conditions {
        [] => Ok(()),
        [first, rest @ ..] => {
            append_line(text, symbols, hart, *first)?;
            if first.holds {
                append_conditions(text, symbols, hart, rest)
            } else {
                Ok(())
            }
        }
    }
}
