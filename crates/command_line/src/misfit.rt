//! Why what clap found is no plan, and what is said of it.

use crate::numbers::{are_numerals, count_in, is_grouped, without_plus};
use std::alloc::{AllocError, Global};

/// Why what clap found is no plan.
#[derive(Clone, Copy)]
pub(crate) enum Misfit<'a> {
    /// This is said of it.
    Told(&'static str),
    /// The value of an argument with limits is no number between them.
    Value {
        /// The argument's id.
        id: &'static str,
        /// The name of its value; of an operand that is empty.
        name: &'static str,
        /// The value.
        value: &'a str,
        /// The least number that the argument takes.
        least: u64,
        /// The most.
        most: u64,
    },
}

/// What is said where an argument that must be there isn't.
pub(crate) const MISSING: &str = "an argument is missing, or its value is out of range";

/// Why digits are no number below 2^64, in clap's words.
fn fault_of_digits(digits: &[u8], radix: u8) -> &'static str {
    if is_grouped(digits) && are_numerals(digits, radix) {
        "number too large to fit in target type"
    } else {
        "invalid digit found in string"
    }
}

/// Why a text is no number below 2^64, in clap's words.
fn fault_of_number(text: &str) -> &'static str {
    if text.is_empty() {
        return "cannot parse integer from empty string";
    }
    match text.strip_prefix("0x") {
        Some(digits) => fault_of_digits(digits.as_bytes(), 16),
        None => fault_of_digits(without_plus(text.as_bytes()), 10),
    }
}

/// Why a value is no number between two, in clap's words.
fn reason_of(alloc: Global, value: &str, least: u64, most: u64) -> Result<String, AllocError> {
    match count_in(value) {
        Some(number) => format!(in alloc; "{number} is not in {least}..={most}"),
        None => String::from_str(alloc, fault_of_number(value)),
    }
}

/// What is said of it: of a value, in clap's words.
pub(crate) fn misfit_text(alloc: Global, misfit: Misfit<'_>) -> Result<String, AllocError> {
    match misfit {
        Misfit::Told(text) => String::from_str(alloc, text),
        Misfit::Value {
            id,
            name,
            value,
            least,
            most,
        } => {
            let reason = reason_of(alloc, value, least, most)?;
            if name.is_empty() {
                format!(in alloc; "invalid value '{value}' for '<{id}>': {reason}")
            } else {
                format!(in alloc; "invalid value '{value}' for '--{id} <{name}>': {reason}")
            }
        }
    }
}
