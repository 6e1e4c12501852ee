//! Operands that aren't of the mnemonic's form, or are out of range.

use crate::faulty::{Faulty, shown};
use crate::near::{csr_near, register_near, scr_near};
use crate::numbers::{aligned, in_decimal, loaded, negative, upper};
use crate::proposals::{
    did_you_mean, in_any_form, in_other_form, instead, rewritten, with_commas, words,
};
use crate::shapes::{commented, foreign_form, local_use, reckoned, unquoted};
use crate::table::{
    FORMS, IMMEDIATE_FORMS, OTHER_NAMES, REGISTERS, SHIFTS, WIDER, is_listed, row_of,
};
use asm_lines::{Class, LineFault, Operand, Written, after, before, form_of, is_word, run_length};
use asm_names::{Slot, register_named};
use std::alloc::{AllocError, Global};

/// The first operand that has a fault.
fn first_with<'a>(faulty: Faulty<'a>, fault: LineFault) -> Option<(Operand, &'a [u8])> {
    let mut form = form_of(faulty.word);
    for text in faulty.each_operand() {
        let (operand, later) = form.split_first()?;
        if operand.written.fault(text) == Some(fault) {
            return Some((operand, text));
        }
        form = later;
    }
    None
}

/// A register's name after a sign that other languages write before it.
fn without_sign(text: &[u8]) -> Option<&str> {
    match text {
        [b'$' | b'%' | b'@', name @ ..] => register_named(name).map(|_| shown(name)),
        _ => None,
    }
}

/// What is said of a number where a register is expected.
fn number_for_register(text: &[u8]) -> Option<&'static str> {
    match text {
        [b'-' | b'0'..=b'9', ..] => Some("a register is expected: put the number into one before"),
        _ => None,
    }
}

/// The registers that are named as a text is, but for its number.
fn registers_of_kind(text: &[u8]) -> Option<&'static str> {
    let digit = text.iter().position(|byte| byte.is_ascii_digit())?;
    let (kind, number) = (&text[..digit], &text[digit..]);
    if run_length(number, Class::Digit(10)) == number.len() {
        row_of(REGISTERS, kind)
    } else {
        None
    }
}

/// What is said of a text that names no register.
fn register_meant(alloc: Global, text: &[u8]) -> Result<Vec<u8>, AllocError> {
    first_known! { alloc;
        instead(alloc, row_of(OTHER_NAMES, text), text);
        instead(alloc, without_sign(text), text);
        words(alloc, number_for_register(text));
        words(alloc, registers_of_kind(text));
        did_you_mean(alloc, register_near(text));
    }
}

/// What is said of a text that names no control and status register.
fn csr_meant(alloc: Global, text: &[u8]) -> Result<Vec<u8>, AllocError> {
    first_known! { alloc;
        instead(alloc, row_of(OTHER_NAMES, text), text);
        did_you_mean(alloc, csr_near(text));
    }
}

/// What is said of the register in an address.
fn address_meant(alloc: Global, text: &[u8]) -> Result<Vec<u8>, AllocError> {
    let register = before(after(text, Class::Not(b'(')), Class::Not(b')'));
    if register.is_empty() || register_named(register).is_some() {
        return Ok(Vec::new(alloc));
    }
    register_meant(alloc, register)
}

const EXPLICIT: &'static str =
    "an explicit load or store has no number before its bracket: add it to the register before";

/// What is said of the first operand that isn't of its form.
fn operand_meant(alloc: Global, faulty: Faulty<'_>) -> Result<Vec<u8>, AllocError> {
    let Some((operand, text)) = first_with(faulty, LineFault::A2) else {
        return Ok(Vec::new(alloc));
    };
    match operand.written {
        Written::Slot(Slot::Rd(_) | Slot::Rs1(_) | Slot::Rs2(_)) => register_meant(alloc, text),
        Written::Slot(Slot::Csr) => csr_meant(alloc, text),
        Written::Slot(Slot::Special) => did_you_mean(alloc, scr_near(text)),
        Written::Slot(Slot::Address(_)) => address_meant(alloc, text),
        Written::Slot(Slot::Authority(_)) => words(alloc, text.contains(&b'(').then_some(EXPLICIT)),
        _ => first_known! { alloc;
            in_decimal(alloc, text);
            words(alloc, local_use(faulty));
            words(alloc, reckoned(text));
        },
    }
}

/// What is said of operands that aren't of the mnemonic's form.
pub(crate) fn misformed(alloc: Global, faulty: Faulty<'_>) -> Result<Vec<u8>, AllocError> {
    if is_word(faulty.word, ".ascii") {
        return words(alloc, unquoted(faulty.operands));
    }
    first_known! { alloc;
        words(alloc, commented(faulty));
        words(alloc, foreign_form(faulty));
        rewritten(alloc, FORMS, faulty);
        in_other_form(alloc, faulty);
        with_commas(alloc, faulty);
        in_any_form(alloc, faulty);
        operand_meant(alloc, faulty);
    }
}

/// What is said of a number that stands in an instruction and is too great for it, where another one takes it from a register.
fn in_register(alloc: Global, faulty: Faulty<'_>) -> Result<Vec<u8>, AllocError> {
    if is_listed(SHIFTS, faulty.word) {
        return Ok(Vec::new(alloc));
    }
    match IMMEDIATE_FORMS
        .iter()
        .find(|row| is_word(faulty.word, row.1))
    {
        Some(row) => hint_of!(alloc, "put the number into a register, and write " Text(row.0)),
        None => Ok(Vec::new(alloc)),
    }
}

/// What is said of the first number that is out of its range.
fn number_meant(alloc: Global, faulty: Faulty<'_>) -> Result<Vec<u8>, AllocError> {
    let Some((operand, text)) = first_with(faulty, LineFault::A3) else {
        return Ok(Vec::new(alloc));
    };
    match operand.written {
        Written::Slot(Slot::Address(_)) => words(
            alloc,
            Some("add the number, or a part of it, to the register before"),
        ),
        _ => negative(alloc, text, operand.written.range()),
    }
}

/// What is said of a number out of range.
pub(crate) fn out_of_range(alloc: Global, faulty: Faulty<'_>) -> Result<Vec<u8>, AllocError> {
    first_known! { alloc;
        number_meant(alloc, faulty);
        loaded(alloc, faulty);
        upper(alloc, faulty);
        aligned(alloc, faulty);
        rewritten(alloc, WIDER, faulty);
        in_register(alloc, faulty);
    }
}
