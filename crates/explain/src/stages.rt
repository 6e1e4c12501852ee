//! The stages of the next step as lines of text, and the condition of them that fails.
ghost use Rattle.std.specs.Prelude.{◌≡◌, ◌++◌, IfSome, OnOk, flat_map, string_bytes};
ghost use Rattle.steps.specs.Looks.{HasRegisters};
ghost use Rattle.steps.specs.State.{pc_of};
ghost use Rattle.steps.specs.Step.{fetch_asked, step_fetched};
ghost use Rattle.explain.specs.Asked.{all_conditions, word_stages};
ghost use Rattle.explain.specs.WhyText as spec;
ghost use Rattle.explain.specs.WhyText.{ram_name, moved_name, sized_place, place_text};
ghost use Rattle.explain.specs.WhyText.{tag_lines, capability_lines, stage_text, stages_text};

use crate::conditions::{append_at, append_capability, append_conditions, append_line};
use crate::effect::size_text;
use base::CheriCause::{CInvoke, Tag};
use base::{Cause, PCC_REGISTER, Size};
use cap_bounds::CapRep;
use cap_checks::{Condition, Question};
use hart::Hart;
use isa_rows::Insn;
use std::alloc::AllocError;
use steps::Fetched;
use symbols::Symbols;
use texts::Piece::Text;
use texts::append;

/// What RAM alone is asked for.
fn ram_name(cause: Cause) -> &'static str
    ensures { result.now ≡ ram_name cause }
{
    match cause {
        Cause::FetchAccess => "fetch at ",
        Cause::LoadAccess => "load of a capability at ",
        _ => "store of a capability at ",
    }
}

/// What RAM or a device is asked for.
fn moved_name(cause: Cause) -> &'static str
    ensures { result.now ≡ moved_name cause }
{
    match cause {
        Cause::LoadAccess => "load of ",
        _ => "store of ",
    }
}

/// Appends a size, and where, to a text.
fn append_sized(
    text: &mut String,
    symbols: &Symbols,
    name: &str,
    size: Size,
    address: u64,
) -> Result<(), AllocError>
    ensures { OnOk result (string_bytes text.new ≡ string_bytes text.old ++ sized_place symbols.now name.now size address) }
{
    append(text, &[Text(name), Text(size_text(size))])?;
    append_at(text, symbols, " at ", address)
}

/// PCC's address.
pub(crate) fn here<C: CapRep>(hart: &Hart<C>) -> u64
    ensures { result ≡ pc_of hart.now }
{
    hart.scrs().pcc().address()
}

/// Appends what a stage asks and where, as its last question says it, to a text.
fn append_place<C: CapRep>(
    text: &mut String,
    symbols: &Symbols,
    hart: &Hart<C>,
    invokes: bool,
    last: Question,
) -> Result<(), AllocError>
    ensures { OnOk result (string_bytes text.new ≡ string_bytes text.old ++ place_text symbols.now invokes last hart.now) }
{
    match last {
        Question::Multiple { address, .. } if invokes => append_at(
            text,
            symbols,
            "invocation of ",
            address,
        ),
        Question::Multiple { address, .. } => append_at(text, symbols, "jump to ", address),
        Question::Ram { cause, address } => append_at(text, symbols, ram_name(cause), address),
        Question::RamOrDevice {
            cause,
            address,
            size,
        } => append_sized(text, symbols, moved_name(cause), size, address),
        Question::Instruction { .. } => append_at(text, symbols, "decoding at ", here(hart)),
        _ => append_at(text, symbols, "system register at ", here(hart)),
    }
}

/// Whether a stage asks for the permission to invoke.
fn is_invocation(conditions: &[Condition]) -> bool
    ensures { result ≡ spec.is_invocation conditions.now }
{
    conditions.iter().any(|c| matches!(c.question, Question::Right { cause: CInvoke, .. }))
}

/// Appends the lines of the capabilities whose tag is asked to a text.
fn append_tag_lines<C: CapRep>(
    text: &mut String,
    hart: &Hart<C>,
    conditions: &[Condition],
) -> Result<(), AllocError>
    ensures { OnOk result (string_bytes text.new ≡ string_bytes text.old ++ tag_lines hart.now conditions.now) }
{
    match conditions {
        [] => Ok(()),
        [first, rest @ ..] => match first.question {
            Question::Right {
                register,
                cause: Tag,
            } => {
                append_capability(text, hart, register)?;
                append_tag_lines(text, hart, rest)
            }
            _ => append_tag_lines(text, hart, rest),
        },
    }
}

/// Appends the lines of the capabilities that a stage asks to a text.
fn append_capabilities<C: CapRep>(
    text: &mut String,
    hart: &Hart<C>,
    first: Question,
    conditions: &[Condition],
) -> Result<(), AllocError>
    ensures { OnOk result (string_bytes text.new ≡ string_bytes text.old ++ capability_lines first conditions.now hart.now) }
{
    match first {
        Question::Right { cause, .. } => match cause {
            Tag => append_tag_lines(text, hart, conditions),
            _ => append_capability(text, hart, PCC_REGISTER),
        },
        Question::Instruction { .. } => Ok(()),
        _ => append_capability(text, hart, PCC_REGISTER),
    }
}

/// Appends a stage to a text, if it asks for something.
#[tactic(auto, unfolding(crate::specs::WhyText::stage_text))]
fn append_stage<C: CapRep>(
    text: &mut String,
    symbols: &Symbols,
    hart: &Hart<C>,
    conditions: &[Condition],
) -> Result<(), AllocError>
    ensures { OnOk result (string_bytes text.new ≡ string_bytes text.old ++ stage_text symbols.now hart.now conditions.now) }
{
    match (conditions.first(), conditions.last()) {
        (Some(first), Some(last)) => {
            append_place(
                text,
                symbols,
                hart,
                is_invocation(conditions),
                last.question,
            )?;
            append(text, &[Text("\n")])?;
            append_capabilities(text, hart, first.question, conditions)?;
            append_conditions(text, symbols, hart, conditions)
        }
        _ => Ok(()),
    }
}

/// Appends the decoding of a word, and what it asks as this instruction, if it is one, to a text.
fn append_word<C: CapRep>(
    text: &mut String,
    symbols: &Symbols,
    hart: &Hart<C>,
    word: u32,
    found: Option<Insn>,
) -> Result<(), AllocError>
    requires registers { IfSome found HasRegisters }
    ensures { OnOk result (string_bytes text.new
        ≡ string_bytes text.old ++ flat_map (stage_text symbols.now hart.now) (word_stages found word hart.now)) }
{
    let number = u64::from(word);
    let question = Question::Instruction { word: number };
    let holds = found.is_some();
    append_stage(text, symbols, hart, &[Condition { question, holds }])?;
    match found {
        Some(insn) => {
            let asked = hart.asked(*text.allocator(), word, insn)?;
            append_stage(text, symbols, hart, &asked)
        }
        None => Ok(()),
    }
}

/// Appends what the fetch asks to a text.
fn append_fetch<C: CapRep>(
    text: &mut String,
    symbols: &Symbols,
    hart: &Hart<C>,
) -> Result<(), AllocError>
    ensures { OnOk result (string_bytes text.new ≡ string_bytes text.old ++ stage_text symbols.now hart.now (fetch_asked hart.now)) }
{
    let asked = hart.fetch_asked(*text.allocator())?;
    append_stage(text, symbols, hart, &asked)
}

/// Appends the stages of the next step, which fetches so, to a text; there are none where an interrupt is taken.
#[tactic(auto, unfolding(crate::specs::Asked::stages_of, crate::specs::WhyText::stages_text))]
pub(crate) fn append_stages<C: CapRep>(
    text: &mut String,
    symbols: &Symbols,
    hart: &Hart<C>,
    fetched: Fetched,
) -> Result<(), AllocError>
    requires { fetched ≡ step_fetched hart.now }
    ensures { OnOk result (string_bytes text.new ≡ string_bytes text.old ++ stages_text symbols.now hart.now) }
{
    match fetched {
        Fetched::Interrupt => Ok(()),
        Fetched::Fault => append_fetch(text, symbols, hart),
        Fetched::Word(word, insn) => {
            append_fetch(text, symbols, hart)?;
            append_word(text, symbols, hart, word, insn)
        }
    }
}

/// Appends the line of the first condition that is false to a text, where one is.
fn append_false<C: CapRep>(
    text: &mut String,
    symbols: &Symbols,
    hart: &Hart<C>,
    conditions: &[Condition],
) -> Result<(), AllocError>
    ensures { OnOk result (string_bytes text.new ≡ string_bytes text.old ++ spec.false_line symbols.now hart.now conditions.now) }
{
    match conditions {
        [] => Ok(()),
        [first, rest @ ..] => {
            if first.holds {
                append_false(text, symbols, hart, rest)
            } else {
                append_line(text, symbols, hart, *first)
            }
        }
    }
}

/// Appends the line of the condition that fails of a word that was fetched, and is this instruction, to a text, where one does.
fn append_word_failed<C: CapRep>(
    text: &mut String,
    symbols: &Symbols,
    hart: &Hart<C>,
    word: u32,
    insn: Option<Insn>,
) -> Result<(), AllocError>
    requires registers { IfSome insn HasRegisters }
    ensures { OnOk result (string_bytes text.new
        ≡ string_bytes text.old ++ spec.false_line symbols.now hart.now (all_conditions (word_stages insn word hart.now))) }
{
    match insn {
        Some(insn) => {
            let asked = hart.asked(*text.allocator(), word, insn)?;
            append_false(text, symbols, hart, &asked)
        }
        None => {
            let question = Question::Instruction {
                word: u64::from(word),
            };
            let holds = false;
            append_line(text, symbols, hart, Condition { question, holds })
        }
    }
}

/// Appends the line of the condition that fails at the next step, which fetches so, of a machine that is not halted: what it asks, of which
/// register, and the numbers, addresses with their labels. Where none fails, as at an interrupt or an ECALL, it appends nothing.
///
/// # Errors
///
/// Out of memory.
#[tactic(auto, unfolding(crate::specs::Asked::stages_of, crate::specs::WhyText::failed_line))]
pub fn put_failed<C: CapRep>(
    text: &mut String,
    symbols: &Symbols,
    hart: &Hart<C>,
    fetched: Fetched,
) -> Result<(), AllocError>
    requires { fetched ≡ step_fetched hart.now }
    ensures { OnOk result (string_bytes text.new ≡ string_bytes text.old ++ spec.failed_line symbols.now hart.now) }
{
    match fetched {
        Fetched::Interrupt => Ok(()),
        Fetched::Fault => {
            let asked = hart.fetch_asked(*text.allocator())?;
            append_false(text, symbols, hart, &asked)
        }
        Fetched::Word(word, insn) => append_word_failed(text, symbols, hart, word, insn),
    }
}
