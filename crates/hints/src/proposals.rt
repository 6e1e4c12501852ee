//! Lines that are proposed in place of a faulty one.

use crate::faulty::{Faulty, shown};
use crate::table::{ANY_FORM, IMMEDIATE_FORMS, Row, is_listed};
use asm_lines::{Expression, Instruction, Statement, is_word, parse_line, trimmed_start};
use asm_names::register_named;
use std::alloc::{AllocError, Global};

/// Words as a hint.
pub(crate) fn words(alloc: Global, words: Option<&str>) -> Result<Vec<u8>, AllocError> {
    Vec::from_slice(alloc, words.unwrap_or("").as_bytes())
}

/// What is said of a name that is meant to be another one.
pub(crate) fn did_you_mean(alloc: Global, name: Option<&str>) -> Result<Vec<u8>, AllocError> {
    match name {
        Some(name) => hint_of!(alloc, "did you mean " Text(name) "?"),
        None => Ok(Vec::new(alloc)),
    }
}

/// What is said of one text in place of another.
pub(crate) fn instead<'a>(
    alloc: Global,
    meant: Option<&'a str>,
    text: &'a [u8],
) -> Result<Vec<u8>, AllocError> {
    match meant {
        Some(meant) => hint_of!(alloc, "write " Text(meant) " for " Text(shown(text))),
        None => Ok(Vec::new(alloc)),
    }
}

/// The line of a template: a part of the faulty statement for each `$` and byte.
fn expanded(alloc: Global, template: &[u8], faulty: Faulty<'_>) -> Result<Vec<u8>, AllocError> {
    let mut line = Vec::new(alloc);
    let mut names_part = false;
    for byte in trimmed_start(template) {
        if names_part {
            line.extend_from_slice(faulty.part(*byte))?;
            names_part = false;
        } else if *byte == b'$' {
            names_part = true;
        } else {
            line.push(*byte)?;
        }
    }
    Ok(line)
}

/// Whether an expression is the name of a register, which a label is hardly given.
fn is_register(value: Expression<'_>) -> bool {
    match value.name {
        Some(name) => register_named(name).is_some(),
        None => false,
    }
}

/// Whether the assembler reads a line, as far as that doesn't hang on others.
pub(crate) fn is_read(line: &[u8]) -> bool {
    let parsed = parse_line(line);
    let names_register = match parsed.statement {
        Some(Statement::Instruction(Instruction::Row(_, Some(value)))) => is_register(value),
        Some(Statement::Instruction(Instruction::Load { value, .. })) => is_register(value),
        _ => false,
    };
    parsed.fault.is_none() && !names_register
}

/// A line as a hint; nothing where the assembler doesn't read it.
fn proposed(alloc: Global, line: &[u8]) -> Result<Vec<u8>, AllocError> {
    if is_read(line) {
        hint_of!(alloc, "write " Text(shown(line)))
    } else {
        Ok(Vec::new(alloc))
    }
}

/// How many operands templates take: the greatest that they name, or any number where they name none or all.
fn operands_taken(templates: &[u8]) -> Option<usize> {
    let mut most = None;
    let mut after_sign = false;
    for byte in templates {
        match *byte {
            b'*' | b'-' if after_sign => return None,
            b'1'..=b'9' if after_sign => most = most.max(Some(usize::from(*byte - b'0'))),
            _ => {}
        }
        after_sign = *byte == b'$';
    }
    most
}

/// Lines as a hint, by their templates with semicolons between; nothing where they take another number of operands, or the assembler
/// doesn't read one.
pub(crate) fn lines(
    alloc: Global,
    templates: &str,
    faulty: Faulty<'_>,
) -> Result<Vec<u8>, AllocError> {
    let mut hint = Vec::new(alloc);
    if operands_taken(templates.as_bytes()).is_some_and(|taken| taken != faulty.operand_count()) {
        return Ok(hint);
    }
    for template in templates.as_bytes().split(|byte| *byte == b';') {
        let line = expanded(alloc, template, faulty)?;
        if !is_read(&line) {
            return Ok(Vec::new(alloc));
        }
        let before = if hint.is_empty() { "write " } else { " and " };
        append_pieces!(&mut hint, Text(before) Text(shown(&line)))?;
    }
    Ok(hint)
}

/// The lines of the first row for the mnemonic whose lines the assembler reads.
pub(crate) fn rewritten(
    alloc: Global,
    table: &[Row],
    faulty: Faulty<'_>,
) -> Result<Vec<u8>, AllocError> {
    for row in table {
        if is_listed(row.0, faulty.word) {
            let hint = lines(alloc, row.1, faulty)?;
            if !hint.is_empty() {
                return Ok(hint);
            }
        }
    }
    Ok(Vec::new(alloc))
}

/// The line of the first form in which the assembler reads the operands.
pub(crate) fn in_any_form(alloc: Global, faulty: Faulty<'_>) -> Result<Vec<u8>, AllocError> {
    for form in ANY_FORM {
        let hint = lines(alloc, form, faulty)?;
        if !hint.is_empty() {
            return Ok(hint);
        }
    }
    Ok(Vec::new(alloc))
}

/// The line with the mnemonic that takes a number in place of a register, or a register in place of a number.
pub(crate) fn in_other_form(alloc: Global, faulty: Faulty<'_>) -> Result<Vec<u8>, AllocError> {
    for row in IMMEDIATE_FORMS {
        if is_word(faulty.word, row.0) {
            return lines(alloc, "$0 $*", faulty.with_word(row.1.as_bytes()));
        }
        if is_word(faulty.word, row.1) {
            return lines(alloc, "$0 $*", faulty.with_word(row.0.as_bytes()));
        }
    }
    Ok(Vec::new(alloc))
}

/// The line with a comma wherever white space parts two operands.
pub(crate) fn with_commas(alloc: Global, faulty: Faulty<'_>) -> Result<Vec<u8>, AllocError> {
    let mut line = Vec::from_slice(alloc, faulty.word)?;
    let mut is_first = true;
    for operand in faulty
        .operands
        .split(|byte| matches!(*byte, b' ' | b'\t' | b','))
    {
        if !operand.is_empty() {
            let before = if is_first { " " } else { ", " };
            append_pieces!(&mut line, Text(before) Text(shown(operand)))?;
            is_first = false;
        }
    }
    proposed(alloc, &line)
}
