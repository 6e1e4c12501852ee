//! Numbers that are written otherwise here, or that an instruction can't hold.

use crate::faulty::{Faulty, shown};
use crate::proposals::words;
use crate::table::is_listed;
use asm_lines::{Expression, Range, digit_value, is_word, operand_at};
use std::alloc::{AllocError, Global};

/// The number that digits write, if it is below 2^64.
fn value(digits: &[u8], radix: u32) -> Option<u64> {
    let mut value = 0u64;
    for digit in digits {
        let digit = digit_value(*digit);
        if digit >= radix {
            return None;
        }
        value = value
            .checked_mul(u64::from(radix))?
            .checked_add(u64::from(digit))?;
    }
    if digits.is_empty() { None } else { Some(value) }
}

/// The number that a text of another language's form means: `'a'`, `0b101`, `-0x10`.
fn number_meant(text: &[u8]) -> Option<i128> {
    match text {
        [b'\'', byte, b'\''] => Some(i128::from(*byte)),
        [b'0', b'b' | b'B', digits @ ..] => value(digits, 2).map(i128::from),
        [b'0', b'X', digits @ ..] => value(digits, 16).map(i128::from),
        [b'-', b'0', b'x' | b'X', digits @ ..] => value(digits, 16).map(|number| -i128::from(
            number,
        )),
        [b'+', digits @ ..] => value(digits, 10).map(i128::from),
        _ => None,
    }
}

/// What is said of a number in place of a text.
fn number_instead(alloc: Global, number: i128, text: &[u8]) -> Result<Vec<u8>, AllocError> {
    hint_of!(alloc, "write " WideSignedDecimal(number) " for " Text(shown(text)))
}

/// What is said of a number of another language's form.
pub(crate) fn in_decimal(alloc: Global, text: &[u8]) -> Result<Vec<u8>, AllocError> {
    match number_meant(text) {
        Some(number) => number_instead(alloc, number, text),
        None => Ok(Vec::new(alloc)),
    }
}

/// The number that stands at an index between commas.
fn number_at(faulty: Faulty<'_>, index: usize) -> Option<i128> {
    match operand_at(faulty.operands, index) {
        Ok(value) if value.name.is_none() => Some(value.offset),
        _ => None,
    }
}

/// A number as a signed one of 64 bits.
fn signed(number: i128) -> i128 {
    if number < 1 << 63 {
        number
    } else {
        number - (1 << 64)
    }
}

/// What is said of a number of 64 bits, in two's complement, whose signed number is in the range.
pub(crate) fn negative(alloc: Global, text: &[u8], range: Range) -> Result<Vec<u8>, AllocError> {
    match operand_at(text, 0) {
        Ok(Expression { name: None, offset })
            if offset >= 1 << 63 && signed(offset) >= range.least => {
            number_instead(alloc, signed(offset), text)
        }
        _ => Ok(Vec::new(alloc)),
    }
}

/// `lui`, and `addiw` where it is needed, that put a number of 32 bits into a register.
fn upper_and_lower(alloc: Global, register: &str, bits: u32) -> Result<Vec<u8>, AllocError> {
    // `addiw` takes away up to 0x800, so that the upper part is rounded to the nearest.
    let rounded = u64::from(bits) + 0x800;
    let upper = rounded / 0x1000 % 0x10_0000;
    let lower = (rounded % 0x1000) as i64 - 0x800;
    if lower == 0 {
        hint_of!(alloc, "write lui " Text(register) ", " ShortHexadecimal(upper))
    } else {
        hint_of!(alloc, "write lui " Text(register) ", " ShortHexadecimal(upper)
            " and addiw " Text(register) ", " Text(register) ", " SignedDecimal(lower))
    }
}

/// The least number below 2048 that a number is, shifted to the left, and by how many bits.
fn unshifted(number: u64) -> Option<(u64, u32)> {
    let mut least = None;
    for shift in 12..64u32 {
        let rest = number >> shift;
        if rest < 0x800 && rest << shift == number {
            least = Some((rest, shift));
        }
    }
    least
}

/// What is said of a number of more than 32 bits: `li` and `slli`, or `la` where it reaches the number from wherever in RAM it stands, or
/// the way through memory.
fn wide(alloc: Global, register: &str, number: u64) -> Result<Vec<u8>, AllocError> {
    match unshifted(number) {
        Some((rest, shift)) => hint_of!(alloc, "write li " Text(register) ", " Decimal(rest)
            " and slli " Text(register) ", " Text(register) ", " Decimal(u64::from(shift))),
        None if number <= MOST_REACHED =>
            hint_of!(alloc, "in integer mode write la " Text(register) ", " ShortHexadecimal(number)),
        None => words(alloc, Some(IN_MEMORY)),
    }
}

/// What `la` reaches from the beginning of RAM on.
const MOST_REACHED: u64 = 0xffff_f7ff;

const IN_MEMORY: &'static str = "place the number at a label by .dword, and load it by la and ld";

/// What is said of a number that `li` can't take.
pub(crate) fn loaded(alloc: Global, faulty: Faulty<'_>) -> Result<Vec<u8>, AllocError> {
    let (true, Some(number)) = (is_word(faulty.word, "li"), number_at(faulty, 1)) else {
        return Ok(Vec::new(alloc));
    };
    let register = shown(faulty.part(b'1'));
    let number = signed(number);
    if number < -(1 << 31) || number >= 1 << 63 {
        words(alloc, Some(IN_MEMORY))
    } else if number < 0 {
        upper_and_lower(alloc, register, (number + (1 << 32)) as u32)
    } else if number < 1 << 31 {
        upper_and_lower(alloc, register, number as u32)
    } else {
        wide(alloc, register, number as u64)
    }
}

/// The number that `lui` takes for one that isn't 0 to 0xFFFFF: what is put into the register, or a negative one of 20 bits.
fn upper_part(number: i128) -> Option<u64> {
    if number >= -0x8_0000 && number < 0 {
        Some((number + 0x10_0000) as u64)
    } else if number >= 0 && number < 1 << 32 && number % 0x1000 == 0 {
        Some((number / 0x1000) as u64)
    } else {
        None
    }
}

/// What is said of a number that `lui` or `auipc` can't take: it is bits 31 to 12 of what is put into the register.
pub(crate) fn upper(alloc: Global, faulty: Faulty<'_>) -> Result<Vec<u8>, AllocError> {
    if !is_listed("lui auipc auipcc", faulty.word) {
        return Ok(Vec::new(alloc));
    }
    match number_at(faulty, 1).and_then(upper_part) {
        Some(part) => hint_of!(alloc, "it takes bits 31 to 12: write " ShortHexadecimal(part)),
        None => Ok(Vec::new(alloc)),
    }
}

/// `.align` with the power of two that a number is.
pub(crate) fn aligned(alloc: Global, faulty: Faulty<'_>) -> Result<Vec<u8>, AllocError> {
    if is_listed(".align .balign", faulty.word) {
        for power in 0..13u32 {
            if number_at(faulty, 0) == Some(1 << power) {
                return hint_of!(alloc, "write .align " Decimal(u64::from(power)));
            }
        }
    }
    Ok(Vec::new(alloc))
}
