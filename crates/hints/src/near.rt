//! Names that are a letter off.
ghost use Rattle.std.specs.Prelude.{◌≤◌, length};

use crate::table::OTHER_MNEMONICS;
use asm_names::register_name;
use base::{CSRS, SPECIAL_REGISTERS};
use isa_rows::ROWS;

/// Shorter texts are a letter off too many names.
const SHORTEST: usize = 3;

/// Whether a text is another name but for a letter (missing, too many, wrong, or exchanged with the next) or for capitals.
pub(crate) fn is_near(text: &[u8], name: &[u8]) -> bool {
    text != name
        && (text.eq_ignore_ascii_case(name)
            || text.len() >= SHORTEST && is_a_letter_off(text, name))
}

fn is_a_letter_off(text: &[u8], name: &[u8]) -> bool {
    let same = common_length(text, name);
    let (text, name) = (&text[same..], &name[same..]);
    match (text, name) {
        ([_, after @ ..], [_, rest @ ..]) => {
            after == rest || after == name || text == rest || are_exchanged(text, name)
        }
        ([_], []) | ([], [_]) => true,
        _ => false,
    }
}

/// How many bytes two texts begin with alike.
fn common_length(text: &[u8], name: &[u8]) -> usize
    ensures of_text { result ≤ length text.now }
    ensures of_name { result ≤ length name.now }
{
    let most = text.len().min(name.len());
    let mut count = 0;
    while count < most && text[count] == name[count] {
        count += 1;
    }
    count
}

/// Whether two texts differ in that their first two bytes are exchanged.
fn are_exchanged(text: &[u8], name: &[u8]) -> bool {
    match (text, name) {
        ([a, b, after @ ..], [c, d, rest @ ..]) => a == d && b == c && after == rest,
        _ => false,
    }
}

/// The first mnemonic or directive that a word is near.
pub(crate) fn mnemonic_near(word: &[u8]) -> Option<&'static str> {
    match row_near(word) {
        Some(name) => Some(name),
        None => OTHER_MNEMONICS
            .iter()
            .copied()
            .find(|name| is_near(word, name.as_bytes())),
    }
}

fn row_near(word: &[u8]) -> Option<&'static str> {
    for row in ROWS {
        if is_near(word, row.name().as_bytes()) {
            return Some(row.name());
        }
        if is_near(word, row.capability_name().as_bytes()) {
            return Some(row.capability_name());
        }
    }
    None
}

/// The first register that a word is near.
pub(crate) fn register_near(word: &[u8]) -> Option<&'static str> {
    for n in 0..32 {
        if is_near(word, register_name(n, false).as_bytes()) {
            return Some(register_name(n, false));
        }
        if is_near(word, register_name(n, true).as_bytes()) {
            return Some(register_name(n, true));
        }
    }
    None
}

/// The first control and status register that a word is near.
pub(crate) fn csr_near(word: &[u8]) -> Option<&'static str> {
    for register in &CSRS {
        if is_near(word, register.1.as_bytes()) {
            return Some(register.1);
        }
    }
    None
}

/// The first special capability register that a word is near.
pub(crate) fn scr_near(word: &[u8]) -> Option<&'static str> {
    for register in &SPECIAL_REGISTERS {
        if is_near(word, register.1.as_bytes()) {
            return Some(register.1);
        }
    }
    None
}
