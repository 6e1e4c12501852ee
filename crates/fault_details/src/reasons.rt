//! What is said of a fault after its line.
ghost use Rattle.std.specs.Prelude.{◌≡◌, ◌++◌, OnOk};
ghost use Rattle.asm_lines.specs.SeenParts.{seen_form};
ghost use Rattle.fault_details.specs.Reasons as spec;

use asm_lines::{Form, form_of, slot_word};
use assembler::{Misplaced, Reason};
use std::alloc::AllocError;
use texts::Piece::{Address, Decimal, Hexadecimal, Text, WideSignedDecimal};
use texts::append;

/// Appends the words of operands, the first one after a text and each other after a comma; another text where there are none.
fn append_words(text: &mut Vec<u8>, none: &str, before: &str, form: Form) -> Result<(), AllocError>
    ensures { OnOk result (text.new.items ≡ text.old.items ++ spec.words none.now before.now (seen_form form).operands) }
{
    match form {
        Form::Slots([slot, later @ ..]) => {
            append(text, &[Text(before), Text(slot_word(*slot))])?;
            append_words(text, "", ", ", Form::Slots(later))
        }
        Form::Number(_) => append(text, &[Text(before), Text("a number")]),
        Form::Listed([operand, later @ ..], repeats) => {
            append(text, &[Text(before), Text(operand.word)])?;
            append_words(text, "", ", ", Form::Listed(later, repeats))
        }
        _ => append(text, &[Text(none)]),
    }
}

/// What closes the number of pages.
fn pages_words(pages: u32) -> &'static str
    ensures { result.now ≡ spec.pages_words pages }
{
    if pages == 1 {
        " page; see .pages)"
    } else {
        " pages; see .pages)"
    }
}

#[tactic(auto, unfolding(crate::specs::Reasons::misplaced_words))]
fn misplaced_words(misplaced: Misplaced) -> &'static str
    ensures { result.now ≡ spec.misplaced_words misplaced }
{
    match misplaced {
        Misplaced::BelowRam => "below RAM",
        Misplaced::PastRam => "past the end of RAM",
        Misplaced::Taken => "where an earlier line places bytes",
        Misplaced::TooManySections => "a 65th section",
        Misplaced::CodeAskew => "an instruction at no multiple of 4",
        Misplaced::CapabilityAskew => "a capability at no multiple of 16",
        Misplaced::TooManyCapabilities => "the 1025th capability",
    }
}

/// Appends a place and why it is invalid, with the number of pages where there are too few.
fn append_place(
    text: &mut Vec<u8>,
    place: u128,
    misplaced: Misplaced,
    pages: u32,
) -> Result<(), AllocError>
    ensures { OnOk result (text.new.items ≡ text.old.items ++ spec.place_text place misplaced pages) }
{
    let width = if place < 1 << 64 { 16 } else { 17 };
    append_pieces!(text, " from 0x" Hexadecimal(width, place) " on: " Text(misplaced_words(misplaced)))?;
    match misplaced {
        Misplaced::PastRam =>
            append_pieces!(text, " (" Decimal(u64::from(pages)) Text(pages_words(pages))),
        _ => Ok(()),
    }
}

#[tactic(auto, unfolding(crate::specs::Reasons::bounds_words))]
fn bounds_words(base: u64, length: u64) -> &'static str
    ensures { result.now ≡ spec.bounds_words base length }
{
    if u128::from(base) + u128::from(length) > 1 << 64 {
        "end above 2^64"
    } else {
        "would be rounded"
    }
}

/// Appends what a mnemonic takes, or where it stands.
fn append_expected(text: &mut Vec<u8>, word: &[u8], reason: Reason) -> Result<(), AllocError>
    ensures { OnOk result (text.new.items ≡ text.old.items ++ spec.expected_text word.now reason) }
{
    match reason {
        Reason::Form => append_words(text, " takes no operands", " takes ", form_of(word)),
        Reason::Repeated => append(text, &[Text(" stands once")]),
        Reason::Late => append(text, &[Text(" stands once, before other statements")]),
        _ => Ok(()),
    }
}

/// Appends what is said of a fault after its line, by the line's mnemonic.
#[tactic(auto, unfolding(crate::specs::Reasons::reason_text))]
pub(crate) fn append_reason(
    text: &mut Vec<u8>,
    word: &[u8],
    reason: Reason,
) -> Result<(), AllocError>
    ensures { OnOk result (text.new.items ≡ text.old.items ++ spec.reason_text word.now reason) }
{
    match reason {
        Reason::Number(range) =>
            append_pieces!(text, " " WideSignedDecimal(range.least) " to " WideSignedDecimal(range.most)),
        Reason::Value(value, range) => append_pieces!(text,
            " is " WideSignedDecimal(value) " (" WideSignedDecimal(range.least) " to " WideSignedDecimal(range.most) ")"),
        Reason::Target(distance, range) => append_pieces!(text, " " WideSignedDecimal(distance)
            " bytes away (even, " WideSignedDecimal(range.least) " to " WideSignedDecimal(range.most) ")"),
        Reason::Load(distance, range) => append_pieces!(text, " " WideSignedDecimal(distance)
            " bytes away (" WideSignedDecimal(range.least) " to " WideSignedDecimal(range.most) ")"),
        Reason::Entry(entry, pages) => append_pieces!(text, " 0x" Address(entry)
            " is no multiple of 4 in RAM (" Decimal(u64::from(pages)) Text(pages_words(pages))),
        Reason::Place(place, misplaced, pages) => append_place(text, place, misplaced, pages),
        Reason::Bounds(base, length) => append_pieces!(text,
            " from 0x" Address(base) " on, " Decimal(length) " bytes " Text(bounds_words(base, length))),
        _ => {
            append(text, &[Text(" ")])?;
            text.extend_from_slice(word)?;
            append_expected(text, word, reason)
        }
    }
}
