//! Lines of a table: how it is cut into them, what one says, and how symbols are written as lines.
ghost use Rattle.std.specs.Prelude.{◌≡◌, ◌<◌, ◌^◌, ◌∷◌, ◌++◌, length, take, IfNone, IfOk, IfSome, IsTrue, OnOk, SomeIff};
ghost use Rattle.std.specs.Str.Parse.{digits_value};
ghost use Rattle.symbols.specs.Reads.{IsCut, line_length, seen_entries};
ghost use Rattle.symbols.specs.Symbols.{has_address, has_letter, is_line, is_symbol, lacks_address, lines_of, name_of};
ghost use Rattle.symbols.specs.Symbols.{symbol, symbol_line, table_text};

use crate::symbol::is_label;
use asm_lines::{Class, digit_value, run_length};
use indexmap::IndexMap;
use std::alloc::{AllocError, Global};
use texts::{append, pieces};

/// The first line and what stands after its line feed, if it has ended.
pub(crate) fn ended_line(text: &[u8]) -> Option<(&[u8], &[u8])>
    ensures ended { IfSome result (λ cut. IsCut text.now cut.0.now cut.1.now) }
    ensures left { IfNone result (line_length text.now ≡ length text.now) }
{
    let end = run_length(text, Class::Not(b'\n'));
    if end < text.len() {
        Some((&text[..end], &text[end + 1..]))
    } else {
        None
    }
}

/// What stands before the first line feed, or before the end, and what stands after it.
#[tactic(auto, using(crate::proofs::LineLemmas::cuts))]
pub fn split_line(text: &[u8]) -> (&[u8], &[u8])
    requires { 0 < length text.now }
    ensures split { lines_of text.now ≡ result.0.now ∷ lines_of result.1.now }
    ensures shorter { length result.1.now < length text.now }
{
    match ended_line(text) {
        Some(cut) => cut,
        None => (text, &[]),
    }
}

/// Whether a letter stands between a line's address and its name, as in what nm prints.
#[tactic(auto, unfolding(crate::specs::Symbols::has_letter))]
fn has_letter(line: &[u8]) -> bool
    ensures { result ≡ has_letter line.now }
{
    line.len() > 18 && line[18] == b' '
}

/// What stands after the address and the letter, if there is one.
#[tactic(auto, unfolding(crate::specs::Symbols::name_of))]
pub(crate) fn name(line: &[u8]) -> &[u8]
    ensures { result.now ≡ name_of line.now }
{
    let start = if has_letter(line) { 19 } else { 17 };
    line.get(start..).unwrap_or_default()
}

/// Whether a line begins with 16 hexadecimal digits and a blank.
#[tactic(auto, unfolding(crate::specs::Symbols::has_address))]
pub(crate) fn has_address(line: &[u8]) -> bool
    ensures { result ≡ has_address line.now }
{
    run_length(line, Class::Digit(16)) == 16 && line.len() > 16 && line[16] == b' '
}

/// Whether a line says a symbol.
#[tactic(auto, unfolding(crate::specs::Symbols::is_symbol))]
pub(crate) fn is_symbol(line: &[u8]) -> bool
    ensures { result ≡ is_symbol line.now }
{
    has_address(line) && is_label(name(line))
}

/// Whether blanks stand for a line's address, and one more before its letter.
#[tactic(auto, unfolding(crate::specs::Symbols::lacks_address))]
pub(crate) fn lacks_address(line: &[u8]) -> bool
    ensures { result ≡ lacks_address line.now }
{
    line.starts_with(b"                 ")
}

/// Whether a line is one of a table.
#[tactic(auto, unfolding(crate::specs::Symbols::is_line))]
pub(crate) fn is_line(line: &[u8]) -> bool
    ensures { result ≡ is_line line.now }
{
    is_symbol(line) || (has_letter(line) && (has_address(line) || lacks_address(line)))
}

/// The number that digits write, if it is below 2^64.
fn value(digits: &[u8]) -> Option<u64>
    ensures { SomeIff result (digits_value 16 digits.now < 2 ^ 64) (digits_value 16 digits.now) }
{
    let mut value = 0u64;
    for digit in digits {
        let digit = u64::from(digit_value(*digit));
        value = value.checked_mul(16)?.checked_add(digit)?;
    }
    Some(value)
}

/// The address that a line begins with.
#[tactic(auto, using(crate::proofs::LineLemmas::address_fits))]
pub(crate) fn address(line: &[u8]) -> u64
    requires { IsTrue (has_address line.now) }
    ensures { result ≡ digits_value 16 (take 16 line.now) }
{
    match value(&line[..16]) {
        Some(address) => address,
        None => unreachable!(),
    }
}

/// Appends the line of a symbol to a text.
fn append_line(text: &mut Vec<u8>, address: u128, name: &[u8]) -> Result<(), AllocError>
    ensures { OnOk result (text.new.items ≡ text.old.items ++ symbol_line (symbol address name.now)) }
{
    append(text, &pieces![Hexadecimal(16, address) " "])?;
    text.extend_from_slice(name)?;
    append(text, &pieces!["\n"])
}

/// The lines of symbols, in their order: of each the lowest 16 hexadecimal digits of its value, a blank and its name.
#[tactic(auto, using(crate::proofs::TableLemmas::next_entry, crate::proofs::TableLemmas::last_entry))]
pub fn table_text(alloc: Global, symbols: &IndexMap<Vec<u8>, u128>) -> Result<Vec<u8>, AllocError>
    ensures { IfOk result (λ text. text.items ≡ table_text (seen_entries symbols.now.entries)) }
{
    let mut text = Vec::new(alloc);
    let entries = symbols.as_slice();
    let mut index = 0;
    while let Some((name, value)) = entries.get_index(index) {
        append_line(&mut text, *value, name)?;
        index += 1;
    }
    Ok(text)
}
