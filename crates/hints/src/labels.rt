//! Labels that a statement names and no line defines.

use crate::faulty::{Faulty, shown};
use crate::near::is_near;
use crate::proposals::{did_you_mean, rewritten};
use crate::table::REGISTER_JUMPS;
use asm_lines::{
    Class, Expression, Written, before, expression, form_of, is_dot, is_name, run_length,
    trimmed_start,
};
use asm_names::Slot;
use std::alloc::{AllocError, Global};

/// What the lines of a text tell of a name.
#[derive(Clone, Copy)]
enum Found<'a> {
    /// A line defines it.
    Defined,
    /// No line defines it; this is the first label that it is near.
    Near(&'a [u8]),
    /// No line defines it, or a label that it is near.
    Unknown,
}

/// The label that a line defines.
fn label_of(line: &[u8]) -> Option<&[u8]> {
    let line = trimmed_start(line);
    let name = before(line, Class::Name);
    let rest = &line[run_length(line, Class::Name)..];
    (rest.starts_with(b":") && is_name(name) && !is_dot(name)).then_some(name)
}

/// Looks a name up among the labels of a text, in one pass over its lines.
fn looked_up<'a>(text: &'a [u8], name: &[u8]) -> Found<'a> {
    let mut found = Found::Unknown;
    for line in text.split(|byte| *byte == b'\n') {
        if let Some(label) = label_of(line) {
            if label == name {
                return Found::Defined;
            }
            if matches!(found, Found::Unknown) && is_near(name, label) {
                found = Found::Near(label);
            }
        }
    }
    found
}

/// The first name in an operand that is an expression.
fn name_used<'a>(faulty: Faulty<'a>) -> Option<&'a [u8]> {
    let mut form = form_of(faulty.word);
    for text in faulty.each_operand() {
        let (operand, later) = form.split_first()?;
        if matches!(
            operand.written,
            Written::Value(_) | Written::Slot(Slot::Target(_))
        ) {
            match expression(text) {
                Ok(
                    Expression {
                        name: Some(name),
                        ..
                    },
                ) if !is_dot(name) => return Some(name),
                _ => {}
            }
        }
        form = later;
    }
    None
}

/// What is said of a statement whose line has no fault of its own: that a label isn't known.
pub(crate) fn mislabelled(
    alloc: Global,
    text: &[u8],
    faulty: Faulty<'_>,
) -> Result<Vec<u8>, AllocError> {
    let Some(name) = name_used(faulty) else {
        return Ok(Vec::new(alloc));
    };
    match looked_up(text, name) {
        Found::Defined => Ok(Vec::new(alloc)),
        Found::Unknown => rewritten(alloc, REGISTER_JUMPS, faulty),
        Found::Near(label) => did_you_mean(alloc, Some(shown(label))),
    }
}
