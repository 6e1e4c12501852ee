//! Texts in quotes: `\n`, `\t`, `\r`, `\0`, and `\xHH` for a quote, a backslash and every byte that is not printed.

use crate::fault::CaseError;
use std::alloc::{AllocError, Global};

/// The number of a hexadecimal digit.
fn digit(byte: u8) -> Result<u8, CaseError> {
    match byte {
        b'0'..=b'9' => Ok(byte - b'0'),
        b'a'..=b'f' => Ok(byte - b'a' + 10),
        _ => Err(CaseError::Unreadable),
    }
}

/// Appends a byte and more bytes to others.
fn put(bytes: &mut Vec<u8>, byte: u8, more: &[u8]) -> Result<(), AllocError> {
    bytes.push(byte)?;
    bytes.extend_from_slice(more)
}

/// Puts what stands after a backslash, up to the next one, after other bytes.
fn put_piece(bytes: &mut Vec<u8>, piece: &[u8]) -> Result<(), CaseError> {
    match piece {
        [b'n', more @ ..] => put(bytes, b'\n', more)?,
        [b't', more @ ..] => put(bytes, b'\t', more)?,
        [b'r', more @ ..] => put(bytes, b'\r', more)?,
        [b'0', more @ ..] => put(bytes, 0, more)?,
        [b'x', high, low, more @ ..] => {
            let high = digit(*high)?;
            let low = digit(*low)?;
            put(bytes, high.wrapping_mul(16).wrapping_add(low), more)?;
        }
        _ => return Err(CaseError::Unreadable),
    }
    Ok(())
}

/// The bytes that a text with escapes means.
pub fn unescaped(alloc: Global, text: &str) -> Result<Vec<u8>, CaseError> {
    let mut bytes = Vec::new(alloc);
    let mut pieces = text.split('\\');
    if let Some(first) = pieces.next() {
        bytes.extend_from_slice(first.as_bytes())?;
    }
    for piece in pieces {
        put_piece(&mut bytes, piece.as_bytes())?;
    }
    Ok(bytes)
}

/// The bytes of a text in quotes, and what stands after it.
pub fn unquoted<'a>(alloc: Global, text: &'a str) -> Result<(Vec<u8>, &'a str), CaseError> {
    let opened = text.strip_prefix('"').ok_or(CaseError::Unreadable)?;
    let (inner, rest) = opened.split_once('"').ok_or(CaseError::Unreadable)?;
    Ok((unescaped(alloc, inner)?, rest))
}

/// Appends a byte with its escape to a text.
fn put_escaped(text: &mut String, byte: u8) -> Result<(), AllocError> {
    match byte {
        b'\n' => text.push_str("\\n"),
        b'\t' => text.push_str("\\t"),
        b'\r' => text.push_str("\\r"),
        0 => text.push_str("\\0"),
        b'"' | b'\\' | 1..=31 | 127..=255 => write!(text, "\\x{byte:02x}"),
        _ => text.push(char::from(byte)),
    }
}

/// Appends bytes in quotes to a text.
pub fn put_quoted(text: &mut String, bytes: &[u8]) -> Result<(), AllocError> {
    text.push('"')?;
    for byte in bytes {
        put_escaped(text, *byte)?;
    }
    text.push('"')
}
