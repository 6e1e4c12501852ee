//! What is told of a link.
ghost use Rattle.std.specs.Prelude.{◌≡◌, ◌<◌, ◌≤◌, ◌-◌, ◌^◌, ◌++◌, IsTrue, IfOk, OnOk, string_bytes, IfSome};
ghost use Rattle.arrayvec.specs.ArrayString.{array_string_len};
ghost use Rattle.texts.specs.Piece.{are_narrow, text_of};
ghost use Rattle.explain.specs.TraceLine.{word_part};
ghost use Rattle.steps.specs.Applying.{IsPlanned};
ghost use Rattle.steps.specs.Event.{after};
ghost use Rattle.steps.specs.Step.{step_fetched};
ghost use Rattle.steps.specs.declared.event.Event.TheVariants.{Step};
ghost use Rattle.origins.specs.Kept.{AreThere};
ghost use Rattle.origins.specs.Making.{source};
ghost use Rattle.origins.specs.Places.{IsThere};
ghost use Rattle.origin_texts.specs.Held.{as_told};
ghost use Rattle.origin_texts.specs.declared.told.Telling.TheVariants.{OfLosses};
ghost use Rattle.origin_texts.specs.Link as spec;
ghost use Rattle.origin_texts.specs.Origin.{told_at};

use crate::conditions::append_conditions;
use crate::link::source_text;
use crate::log::Link;
use crate::place::place_text;
use arrayvec::ArrayString;
use cap_bounds::CapRep;
use disassembler::disassemble;
use explain::trace_line;
use hart::Hart;
use machine::{Machine, Planned};
use origins::tag_asked;
use std::alloc::{AllocError, Global};
use steps::Fetched;
use symbols::{Symbols, labelled};
use texts::Piece::{self, Hexadecimal, Text};
use texts::{append, text};

/// What is told of a link.
#[derive(Drop)]
pub struct Told {
    /// The place, where its value came from, and what was cut.
    pub source: String,
    /// The step's instruction, and where it stands.
    pub step: String,
    /// The whole line.
    pub line: String,
}

/// What is told of links.
#[derive(Clone, Copy, Debug, PartialEq, Eq)]
pub enum Telling {
    /// Where a value came from.
    OfLinks,
    /// That and the conditions of the tag.
    OfLosses,
}

/// The word that a step fetches and its text in a mode, or `-`.
fn word_text(mode: bool, fetched: Fetched) -> ArrayString<80>
    ensures { result.bytes ≡ word_part mode fetched }
{
    match fetched {
        Fetched::Word(word, _) => {
            let words = disassemble(word, mode);
            text(&[
                Hexadecimal(8, u128::from(word)),
                Text(" "),
                Text(words.as_str()),
            ])
        }
        Fetched::Interrupt | Fetched::Fault => text(&[Text("-")]),
    }
}

/// A string of pieces.
fn string_of(alloc: Global, pieces: &[Piece]) -> Result<String, AllocError>
    requires { IsTrue (are_narrow pieces.now) }
    ensures { IfOk result (λ text. string_bytes text ≡ text_of pieces.now) }
{
    let mut text = String::new(alloc);
    append(&mut text, pieces)?;
    Ok(text)
}

/// The next step's instruction, and where it stands. The step was planned.
#[tactic(auto, unfolding(explain::specs::TraceLine::step_word))]
fn step_text<C: CapRep>(
    alloc: Global,
    symbols: &Symbols,
    hart: &Hart<C>,
    planned: &Planned<C>,
) -> Result<String, AllocError>
    requires { planned.now.fetched ≡ step_fetched hart.now }
    ensures { IfOk result (λ text. string_bytes text ≡ spec.step_text symbols.now hart.now) }
{
    let pcc = hart.scrs().pcc();
    let address = labelled(Some(symbols), pcc.address());
    let word = word_text(pcc.flag(), planned.fetched);
    string_of(
        alloc,
        &[Text(address.as_str()), Text(" "), Text(word.as_str())],
    )
}

/// What is told of a link, whose event is the machine's next step. It is done on the way.
#[tactic(auto, unfolding(crate::specs::Link::link_text))]
fn tell_link<C: CapRep>(
    alloc: Global,
    symbols: &Symbols,
    machine: &mut Machine<C>,
    link: Link,
) -> Result<Told, AllocError>
    requires few { link.found.before < 2 ^ 64 - 1 }
    requires there { IsThere link.place machine.old }
    requires source { IfSome (source link.found.making) (λ from. IsThere from machine.old) }
    ensures told { IfOk result (λ told. as_told told ≡ spec.told_of symbols.now link.place link.found machine.old) }
    ensures state { OnOk result (machine.new ≡ after Step machine.old) }
{
    let planned = machine.next();
    let line = trace_line(symbols, link.found.before + 1, machine.hart(), &planned);
    let step = step_text(alloc, symbols, machine.hart(), &planned)?;
    let name = place_text(symbols, link.place);
    let from = source_text(symbols, machine, planned, link.place, link.found.making);
    let source = string_of(
        alloc,
        &[Text(name.as_str()), Text(" from "), Text(from.as_str())],
    )?;
    let line = string_of(
        alloc,
        &[
            Text(name.as_str()),
            Text(" from "),
            Text(from.as_str()),
            Text(": "),
            Text(line.as_str()),
        ],
    )?;
    Ok(Told { source, step, line })
}

/// The same, and the conditions of the tag of what the step wrote.
fn tell_loss<C: CapRep>(
    alloc: Global,
    symbols: &Symbols,
    machine: &mut Machine<C>,
    link: Link,
) -> Result<Told, AllocError>
    requires few { link.found.before < 2 ^ 64 - 1 }
    requires there { IsThere link.place machine.old }
    requires sources { AreThere link.found.making machine.old }
    ensures told { IfOk result (λ told. as_told told ≡ told_at OfLosses symbols.now link.place link.found machine.old) }
    ensures state { OnOk result (machine.new ≡ after Step machine.old) }
{
    let asked = tag_asked(alloc, machine, link.found.making)?;
    let mut conditions = String::new(alloc);
    append_conditions(&mut conditions, symbols, machine, &asked)?;
    let mut told = tell_link(alloc, symbols, machine, link)?;
    append(&mut told.line, &[Text(conditions.as_str())])?;
    Ok(told)
}

/// What is told of a link, whose event is the machine's next step. It is done on the way.
pub(crate) fn tell<C: CapRep>(
    telling: Telling,
    alloc: Global,
    symbols: &Symbols,
    machine: &mut Machine<C>,
    link: Link,
) -> Result<Told, AllocError>
    requires few { link.found.before < 2 ^ 64 - 1 }
    requires there { IsThere link.place machine.old }
    requires sources { AreThere link.found.making machine.old }
    ensures told { IfOk result (λ told. as_told told ≡ told_at telling symbols.now link.place link.found machine.old) }
    ensures state { OnOk result (machine.new ≡ after Step machine.old) }
{
    match telling {
        Telling::OfLinks => tell_link(alloc, symbols, machine, link),
        Telling::OfLosses => tell_loss(alloc, symbols, machine, link),
    }
}
