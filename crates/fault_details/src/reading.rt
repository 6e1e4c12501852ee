//! What was read of a faulty line, by the fault's code.
ghost use Rattle.std.specs.Prelude.{◌≡◌, ◌++◌, IfOk, OnOk, map, replicate};
ghost use Rattle.asm_lines.specs.SeenParts.{seen_part};
ghost use Rattle.fault_details.specs.Detail as spec;

use crate::reasons::append_reason;
use asm_lines::{Class, Part, after, before, parts_of, run_length, trimmed_end};
use assembler::{AsmCode, Stopped};
use std::alloc::{AllocError, Global};

/// What stands after so many lines of a text.
pub(crate) fn after_lines(text: &[u8], count: u64) -> &[u8]
    ensures { result.now ≡ spec.after_lines count text.now }
{
    let mut left = count;
    let mut rest = text;
    while left > 0 {
        left -= 1;
        rest = after(rest, Class::Not(b'\n'));
    }
    rest
}

/// A line of a text, counted from 1, without its line feed; after the last one an empty one.
pub fn line_at(number: u64, text: &[u8]) -> &[u8]
    ensures { result.now ≡ spec.line_at number text.now }
{
    before(
        after_lines(text, number.saturating_sub(1)),
        Class::Not(b'\n'),
    )
}

/// Appends a byte so many times.
fn append_times(text: &mut Vec<u8>, byte: u8, count: usize) -> Result<(), AllocError>
    ensures { OnOk result (text.new.items ≡ text.old.items ++ replicate count byte) }
{
    for _ in 0..count {
        text.push(byte)?;
    }
    Ok(())
}

/// Appends what stands under bytes.
fn append_under(text: &mut Vec<u8>, bytes: &[u8]) -> Result<(), AllocError>
    ensures { OnOk result (text.new.items ≡ text.old.items ++ map spec.under bytes.now) }
{
    for byte in bytes {
        text.push(if *byte == b'\t' { b'\t' } else { b' ' })?;
    }
    Ok(())
}

/// Appends the first byte that is no part of a text, and its column.
fn append_foreign(text: &mut Vec<u8>, line: &[u8]) -> Result<(), AllocError>
    ensures { OnOk result (text.new.items ≡ text.old.items ++ spec.foreign_read line.now) }
{
    let at = run_length(line, Class::Plain);
    let byte = if at < line.len() { line[at] } else { 0 };
    append_pieces!(text, "0x" Hexadecimal(2, u128::from(byte)) " at column " Decimal(at as u64 + 1))
}

/// Appends the line, which so many columns stand before, and on the next line carets under a part.
#[tactic(auto, unfolding(crate::specs::Detail::underlined))]
fn append_underlined(
    text: &mut Vec<u8>,
    indent: usize,
    line: &[u8],
    part: Part<'_>,
) -> Result<(), AllocError>
    ensures { OnOk result (text.new.items ≡ text.old.items ++ spec.underlined indent line.now (seen_part part.entry)) }
{
    text.extend_from_slice(trimmed_end(line))?;
    text.push(b'\n')?;
    append_times(text, b' ', indent)?;
    append_under(text, &line[..part.before.min(line.len())])?;
    append_times(text, b'^', part.text.len().max(1))
}

/// What was read of the line at fault, by the fault's code (docs/ASSEMBLY.md, Faults): the line, which `indent` columns stand before, on
/// the next line carets under what the fault is about, and what was expected there; without the line, byte and column (counted from 1)
/// of A8 and the length of A9; nothing of A10.
///
/// # Errors
///
/// Out of memory.
#[tactic(auto, unfolding(crate::specs::Detail::detail_of))]
pub fn detail(
    alloc: Global,
    text: &[u8],
    stopped: &Stopped,
    indent: usize,
) -> Result<Vec<u8>, AllocError>
    ensures { IfOk result (λ detail. detail.items ≡ spec.detail_at indent text.now stopped.now) }
{
    let mut detail = Vec::new(alloc);
    let Some(standing) = &stopped.standing else {
        return Ok(detail);
    };
    let code = stopped.fault.code;
    let line = line_at(stopped.fault.line, text);
    match code {
        AsmCode::A8 => append_foreign(&mut detail, line)?,
        AsmCode::A9 => append_pieces!(&mut detail, Decimal(line.len() as u64) " bytes")?,
        AsmCode::A10 => {}
        _ => {
            append_underlined(
                &mut detail,
                indent,
                line,
                standing.part_at_fault(code, line),
            )?;
            if let Some(reason) = standing.reason_at_fault(code, line) {
                append_reason(&mut detail, parts_of(line).mnemonic.text, reason)?;
            }
        }
    }
    Ok(detail)
}
