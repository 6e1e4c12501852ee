//! Calls that neither the libraries nor the program show.

use crate::agreements::pair;
use crate::fault::CaseError;
use crate::forms::{PERMISSIONS, row};
use crate::quoted::{put_quoted, unquoted};
use crate::words::Words;
use alu::int_op;
use asm_lines::{expression, split_piece};
use asm_names::register_named;
use base::{Fault, Size};
use bitflags::Flags;
use cap_bounds::{CapRep, PlainCap};
use cap_checks::check_target;
use cap_rights::{OType, Perms, opened};
use devices::{Devices, Effect};
use isa_rows::Kind;
use std::alloc::{AllocError, Global};

/// The set of the permissions of these names, which are joined by `+`.
fn set_of_names(names: &str) -> Option<Perms> {
    let mut set = Perms::from_bits(0);
    for name in names.split('+') {
        let one = Perms::from_name(name)?;
        set = set | one;
        if !set.contains(one) {
            return None;
        }
    }
    Some(set)
}

/// The set of the permission of a bit.
fn set_of_bit(bit: u8) -> Option<Perms> {
    let permission = PERMISSIONS.get(usize::from(bit))?;
    Some(Perms::of(*permission))
}

fn tell_set(told: &mut String, set: Option<Perms>) -> Result<(), CaseError> {
    let bits = set.ok_or(CaseError::Unreadable)?.bits();
    Ok(write!(told, "{bits:x}")?)
}

/// Whether a number is an object type.
fn is_type(number: u64) -> bool {
    match u32::try_from(number) {
        Ok(number) => OType::new(number).is_some(),
        Err(_) => false,
    }
}

/// The three words of a value.
fn tell_value(told: &mut String, c: PlainCap) -> Result<(), AllocError> {
    let high = (c.word().logical() >> 64) as u64;
    let address = c.address();
    let tag = u8::from(c.tag());
    write!(told, "{high:016x} {address:x} {tag}")
}

/// Where a jump within PCC goes, or its fault.
fn tell_target(told: &mut String, words: &mut Words) -> Result<(), AllocError> {
    let pcc = pair(words);
    match check_target(pcc.record, words.hex()) {
        Ok(address) => write!(told, "{address:x}"),
        Err(Fault { mcause, mtval }) => write!(told, "{mcause:x} {mtval:x}"),
    }
}

/// What stands before a text's first comma, and what after it.
fn tell_piece(told: &mut String, text: &[u8]) -> Result<(), AllocError> {
    let (first, rest) = split_piece(text);
    put_quoted(told, first)?;
    told.push(' ')?;
    match rest {
        Some(rest) => put_quoted(told, rest),
        None => told.push('-'),
    }
}

/// `piece`; `register`, the number of the register that a text names; or `expression`, the fault of a text as one.
fn tell_text(told: &mut String, what: &str, text: &[u8]) -> Result<(), AllocError> {
    match what {
        "register" => {
            let number = register_named(text);
            write!(told, "{number:?}")
        }
        "expression" => {
            let fault = expression(text).err();
            write!(told, "{fault:?}")
        }
        _ => tell_piece(told, text),
    }
}

/// The same of a text in quotes, which stands after the first word.
fn tell_quoted(alloc: Global, told: &mut String, inputs: &str) -> Result<(), CaseError> {
    let (what, quoted) = inputs.split_once(' ').ok_or(CaseError::Unreadable)?;
    let (text, _) = unquoted(alloc, quoted)?;
    Ok(tell_text(told, what, &text)?)
}

/// What a row of integer arithmetic gives of two numbers, of which the second may be an amount that no instruction has.
fn integer(words: &mut Words) -> Option<u64> {
    let row = row(words)?;
    let a = words.hex();
    let b = words.hex();
    if matches!(row.kind(), Kind::Integer) {
        Some(int_op(row, a, b))
    } else {
        None
    }
}

/// A number that the devices are halted with, and one that is stored into transmit then; answered by what is loaded of halt, the byte that
/// is sent, and the first number.
fn tell_halted(told: &mut String, words: &mut Words) -> Result<(), CaseError> {
    let mut devices = Devices::new();
    let halts = devices.write(0x10_0000, Size::Double, words.hex());
    let loads = devices.read(0x10_0000, Size::Double);
    let sends = devices.write(0x1000_0000, Size::Byte, words.hex());
    match (halts, loads, sends, devices.halted()) {
        (Ok(Effect::Halt(_)), Ok(loaded), Ok(Effect::Byte(sent)), Some(number)) => {
            Ok(write!(told, "{loaded:x} {sent:x} {number:x}")?)
        }
        _ => Err(CaseError::Unreadable),
    }
}

/// Tells the answer to what is asked, after which words or a text in quotes stand.
pub(crate) fn tell(
    alloc: Global,
    told: &mut String,
    inputs: &str,
    words: &mut Words,
) -> Result<(), CaseError> {
    match words.word() {
        "set" => tell_set(told, set_of_bit(words.small())),
        "names" => tell_set(told, set_of_names(words.word())),
        "type" => Ok(told.push(if is_type(words.hex()) { '1' } else { '0' })?),
        "opened" => Ok(tell_value(told, opened(pair(words).record))?),
        "target" => Ok(tell_target(told, words)?),
        "piece" | "register" | "expression" => tell_quoted(alloc, told, inputs),
        "integer" => {
            let number = integer(words).ok_or(CaseError::Unreadable)?;
            Ok(write!(told, "{number:x}")?)
        }
        "halted" => tell_halted(told, words),
        _ => Err(CaseError::Unreadable),
    }
}
