//! What a line says.
ghost use Rattle.std.specs.Prelude.{◌≡◌, ◌++◌, false, Ok, option_map, unwrap_or, IfOk};
ghost use Rattle.std.specs.Result.{result_map_both};
ghost use Rattle.asm_lines.specs.Words.{words_of};
ghost use Rattle.policy_text.specs.Policy.{everywhere, said, after_when, after_any, code_of, rule_of, name_of, new_name, definition_of};
ghost use Rattle.policy_text.specs.Policy.{any_line, has_word, rule_line, line_of, spoken_of};
ghost use Rattle.policy.specs.Terms.{terms};
ghost use Rattle.policy_text.specs.declared.line.Line.TheVariants as held;
ghost use Rattle.policy_text.specs.Seen.{Gives, seen_line, seen_named, seen_names, seen_parts};

use crate::cut::cut_at;
use crate::fault::{Fault, PolicyCode};
use crate::parts::{Parts, is_end, read_parts};
use crate::ranges::{END, Named, defined, device_named, ranges_or, register};
use asm_lines::{is_dot, is_name, is_word, split_word};
use policy::Rule;
use reach::{HALT, Range, TIMER_COMPARE, TRANSMIT};
use std::alloc::{AllocError, Global};
use symbols::Symbols;

/// What a line says.
#[derive(Drop)]
pub(crate) enum Line<'a> {
    Nothing,
    Definition(Named<'a>),
    Rule(Rule),
    AnyCode(Vec<Range>),
}

/// What follows `when pc in`, if a text begins with these words.
fn after_when(text: &[u8]) -> Option<&[u8]>
    ensures { option_map (λ rest. words_of rest.now) result ≡ after_when (words_of text.now) }
{
    let (a, rest) = split_word(text)?;
    let (b, rest) = split_word(rest)?;
    let (c, rest) = split_word(rest)?;
    if is_word(a, "when") && is_word(b, "pc") && is_word(c, "in") {
        Some(rest)
    } else {
        None
    }
}

/// What follows `any code in`, if a text begins with these words.
fn after_any(text: &[u8]) -> Option<&[u8]>
    ensures { option_map (λ rest. words_of rest.now) result ≡ after_any (words_of text.now) }
{
    let (a, rest) = split_word(text)?;
    let (b, rest) = split_word(rest)?;
    let (c, rest) = split_word(rest)?;
    if is_word(a, "any") && is_word(b, "code") && is_word(c, "in") {
        Some(rest)
    } else {
        None
    }
}

/// The ranges of `when pc in RANGES`, or P1.
fn code(
    alloc: Global,
    symbols: &Symbols,
    definitions: &[Named],
    text: &[u8],
) -> Result<Vec<Range>, Fault>
    ensures { Gives (λ ranges. ranges.items) result (code_of symbols.now (seen_names definitions.now) (words_of text.now)) }
{
    match after_when(text) {
        Some(words) => ranges_or(PolicyCode::P1, alloc, symbols, definitions, words),
        None => Err(Fault::Code(PolicyCode::P1)),
    }
}

/// What `any code in RANGES` says, or P1.
fn any_code<'a>(
    alloc: Global,
    symbols: &Symbols,
    definitions: &[Named],
    text: &[u8],
) -> Result<Line<'a>, Fault>
    ensures { Gives seen_line result (any_line symbols.now (seen_names definitions.now) (words_of text.now)) }
{
    match after_any(text) {
        Some(words) => {
            let ranges = ranges_or(PolicyCode::P1, alloc, symbols, definitions, words)?;
            Ok(Line::AnyCode(ranges))
        }
        None => Err(Fault::Code(PolicyCode::P1)),
    }
}

/// The ranges of a part, or every address where it isn't there.
fn or_everywhere(alloc: Global, ranges: Option<Vec<Range>>) -> Result<Vec<Range>, AllocError>
    ensures { IfOk result (λ v. v.items ≡ unwrap_or (option_map (λ ranges. ranges.items) ranges) everywhere) }
{
    match ranges {
        Some(ranges) => Ok(ranges),
        None => Vec::from_slice(alloc, &[Range { from: 0, to: END }]),
    }
}

/// The ranges for stores: with the device registers that parts of their own are about.
fn stores(alloc: Global, ranges: Option<Vec<Range>>) -> Result<Vec<Range>, AllocError>
    ensures { IfOk result (λ v. v.items ≡ unwrap_or (option_map (λ ranges. ranges ++ spoken_of)
        (option_map (λ ranges. ranges.items) ranges)) everywhere) }
{
    let Some(mut all) = ranges else {
        return or_everywhere(alloc, None);
    };
    let spoken_of = [register(HALT), register(TIMER_COMPARE), register(TRANSMIT)];
    all.extend_from_slice(&spoken_of)?;
    Ok(all)
}

/// The rule of these parts.
fn made(alloc: Global, code: Vec<Range>, parts: Parts) -> Result<Rule, AllocError>
    ensures { IfOk result (λ rule. terms rule ≡ said code.items (seen_parts parts)) }
{
    Ok(Rule {
        code,
        store: stores(alloc, parts.store)?,
        load: or_everywhere(alloc, parts.load)?,
        execute: or_everywhere(alloc, parts.execute)?,
        keep: or_everywhere(alloc, parts.keep)?,
        enter: or_everywhere(alloc, parts.enter)?,
        transmit: parts.transmit.unwrap_or(true),
        halt: parts.halt.unwrap_or(true),
        timer: parts.timer.unwrap_or(true),
        system: parts.system.unwrap_or(true),
        seal: parts.seal.unwrap_or(true),
        types: parts.types,
        or_caller: parts.or_caller,
    })
}

/// The rule that the texts before a colon and after it say.
#[tactic(auto, unfolding(crate::specs::Policy::rule_of))]
fn rule(
    alloc: Global,
    symbols: &Symbols,
    definitions: &[Named],
    before: &[u8],
    after: &[u8],
) -> Result<Rule, Fault>
    ensures { Gives terms result (rule_of symbols.now (seen_names definitions.now) before.now after.now) }
{
    let code = code(alloc, symbols, definitions, before)?;
    let parts = read_parts(alloc, symbols, definitions, after)?;
    Ok(made(alloc, code, parts)?)
}

/// The only word of a text, if it is a name, or P1.
fn name(text: &[u8]) -> Result<&[u8], PolicyCode>
    ensures { result_map_both (λ name. name.now) (λ code. code) result ≡ name_of (words_of text.now) }
{
    match split_word(text) {
        Some((word, rest)) if is_name(word) && !is_dot(word) && is_end(rest) => Ok(word),
        _ => Err(PolicyCode::P1),
    }
}

/// The definition that the texts before an equals sign and after it say.
#[tactic(auto, unfolding(crate::specs::Policy::definition_of))]
fn definition<'a>(
    alloc: Global,
    symbols: &Symbols,
    definitions: &[Named],
    before: &'a [u8],
    after: &[u8],
) -> Result<Named<'a>, Fault>
    ensures { Gives seen_named result (definition_of symbols.now (seen_names definitions.now) before.now after.now) }
{
    let name = name(before)?;
    if defined(definitions, name).is_some() || device_named(name).is_some() {
        return Err(Fault::Code(PolicyCode::P3));
    }
    let ranges = ranges_or(PolicyCode::P1, alloc, symbols, definitions, after)?;
    Ok(Named { name, ranges })
}

/// What a line without a comment says.
#[tactic(auto, unfolding(crate::specs::Policy::line_of))]
pub(crate) fn read_line<'a>(
    alloc: Global,
    symbols: &Symbols,
    definitions: &[Named],
    text: &'a [u8],
) -> Result<Line<'a>, Fault>
    ensures said { Gives seen_line result (line_of symbols.now (seen_names definitions.now) text.now) }
    ensures silent { has_word text.now ≡ false → result ≡ Ok held.Nothing }
{
    if is_end(text) {
        return Ok(Line::Nothing);
    }
    if let Some((before, after)) = cut_at(text, b'=') {
        let named = definition(alloc, symbols, definitions, before, after)?;
        return Ok(Line::Definition(named));
    }
    match cut_at(text, b':') {
        Some((before, after)) => {
            let rule = rule(alloc, symbols, definitions, before, after)?;
            Ok(Line::Rule(rule))
        }
        None => any_code(alloc, symbols, definitions, text),
    }
}
