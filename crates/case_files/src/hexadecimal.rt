//! Bytes in cases: pairs of hexadecimal digits, `-` for none, and `HH*COUNT` for bytes of one value. An input may join such parts
//! by `+`.

use crate::fault::CaseError;
use std::alloc::Global;

/// The bytes that a word of a case is.
pub fn bytes(alloc: Global, word: &str) -> Result<Vec<u8>, CaseError> {
    let mut all = Vec::new(alloc);
    for part in word.split('+') {
        add_part(alloc, &mut all, part)?;
    }
    Ok(all)
}

fn add_part(alloc: Global, all: &mut Vec<u8>, part: &str) -> Result<(), CaseError> {
    let part = if part == "-" { "" } else { part };
    let (digits, count) = part.split_once('*').unwrap_or((part, "1"));
    let count: u16 = count.parse().map_err(|_| CaseError::Unreadable)?;
    let bytes = hex::decode(alloc, digits).map_err(|_| CaseError::Unreadable)?;
    for _ in 0..count {
        all.extend_from_slice(&bytes)?;
    }
    Ok(())
}

/// Bytes as a word: `HH*COUNT` where there are several and all are the same.
pub fn bytes_text(alloc: Global, bytes: &[u8]) -> Result<String, CaseError> {
    match bytes.first() {
        None => Ok(String::from_str(alloc, "-")?),
        Some(first) if bytes.len() > 1 && bytes.iter().all(|byte| byte == first) => {
            let count = bytes.len();
            Ok(format!(in alloc; "{first:02x}*{count}")?)
        }
        Some(_) => Ok(hex::encode(alloc, bytes)?),
    }
}
