//! What the shape of a statement shows, whatever its mnemonic.

use crate::faulty::Faulty;
use crate::proposals::is_read;
use asm_lines::{Class, after, run_length, trimmed_start};

const COMMENT: &'static str = "a comment begins with #";

const LOCAL: &'static str =
    "a label begins with a letter, _ or .: name it, as l1: and l1 for 1: and 1b or 1f";

const CONSTANT: &'static str = "there are no constants: write the number wherever it is meant";

/// What other languages begin a comment with.
const COMMENTS: &'static [&'static str] = &["//", "/*", "*/", ";", "--"];

/// What is said of a semicolon, by what follows it.
fn parted(text: &[u8]) -> Option<&'static str> {
    match trimmed_start(after(text, Class::Not(b';'))) {
        [] | [b'#', ..] => Some("leave the semicolon out"),
        later if is_read(later) => Some(
            "a line has one statement: begin another line in place of the semicolon",
        ),
        _ => Some(COMMENT),
    }
}

/// What is said of a comment that doesn't begin with `#`, and of semicolons.
pub(crate) fn commented(faulty: Faulty<'_>) -> Option<&'static str> {
    if faulty.line.contains(&b'"') {
        None
    } else if COMMENTS
        .iter()
        .any(|mark| faulty.word.starts_with(mark.as_bytes()))
        || faulty
            .operands
            .windows(2)
            .any(|bytes| matches!(bytes, b"//" | b"/*"))
    {
        Some(COMMENT)
    } else if faulty.word.contains(&b';') {
        parted(faulty.line)
    } else if faulty.operands.contains(&b';') {
        parted(faulty.operands)
    } else {
        None
    }
}

/// Whether an operand is a local label, as `1b`.
fn is_local(operand: &[u8]) -> bool {
    match &operand[run_length(operand, Class::Digit(10))..] {
        [end] => operand.len() > 1 && (*end == b'b' || *end == b'f'),
        _ => false,
    }
}

/// What is said where an operand is a local label.
pub(crate) fn local_use(faulty: Faulty<'_>) -> Option<&'static str> {
    faulty
        .each_operand()
        .any(|operand| is_local(operand))
        .then_some(LOCAL)
}

/// What is said of a word where a mnemonic is expected, and of what follows it, by their shape.
pub(crate) fn misplaced(faulty: Faulty<'_>) -> Option<&'static str> {
    if is_numbered(faulty.word) {
        Some(LOCAL)
    } else if faulty.operands.starts_with(b":") {
        Some("a label has its colon at once after it")
    } else if faulty.word.ends_with(b":") {
        Some("a label has letters, digits, _ and . alone")
    } else if faulty.operands.starts_with(b"=") {
        Some(CONSTANT)
    } else {
        None
    }
}

/// Whether a word is a number with a colon after it.
fn is_numbered(word: &[u8]) -> bool {
    let digits = run_length(word, Class::Digit(10));
    digits > 0 && digits < word.len() && word[digits] == b':'
}

/// What is said of operands of another language's form.
pub(crate) fn foreign_form(faulty: Faulty<'_>) -> Option<&'static str> {
    let has = |byte: u8| faulty.operands.contains(&byte);
    if faulty.operands.ends_with(b",") && faulty.line.contains(&b'#') {
        Some("# begins a comment: write the number without it")
    } else if has(b'%') && has(b'(') {
        Some("la rd, label gives an address, and cla cd, label a capability with it")
    } else if has(b'[') {
        Some("an address in memory is written as 8(a1)")
    } else {
        None
    }
}

/// What is said of an expression with operators that aren't there.
pub(crate) fn reckoned(text: &[u8]) -> Option<&'static str> {
    text.iter()
        .any(|byte| matches!(
            *byte,
            b'+' | b'-' | b'*' | b'/' | b'<' | b'>' | b'|' | b'&' | b'('
        ))
        .then_some("an expression is a number, a name, or a name plus or minus a number")
}

/// What is said of the operand of `.ascii`.
pub(crate) fn unquoted(operands: &[u8]) -> Option<&'static str> {
    match operands {
        [b'"', rest @ ..] => Some(if !rest.ends_with(b"\"") {
            "a text ends with a double quote"
        } else if rest.contains(&b'\\') {
            "the escapes are \\n, \\0, \\\\ and \\\""
        } else {
            "a line has one text, and a quote in it is written \\\""
        }),
        _ => Some("a text stands in double quotes"),
    }
}
