//! The parts of a rule as they are written.
ghost use Rattle.std.specs.Prelude.{◌≡◌, ◌==◌, length};
ghost use Rattle.asm_lines.specs.Text.{pieces_between};
ghost use Rattle.asm_lines.specs.Words.{words_of};
ghost use Rattle.policy_text.specs.Policy.{within_of, answer_of, caller_of, numbers_of, types_of, no_parts, has_part, with_part, part_read};
ghost use Rattle.policy_text.specs.Policy.{parts_read};
ghost use Rattle.policy_text.specs.Seen.{Gives, Leaves, seen_names, seen_parts};

use crate::fault::{Fault, PolicyCode};
use crate::part::{Part, part_named};
use crate::ranges::{Named, number, ranges_or};
use asm_lines::{is_word, split_piece, split_word};
use reach::Range;
use std::alloc::Global;
use symbols::Symbols;

/// The greatest object type that seals.
const MOST_TYPE: u64 = 0x3FFFB;

/// What the parts of a rule so far say, each where it was there.
#[derive(Drop)]
pub(crate) struct Parts {
    pub store: Option<Vec<Range>>,
    pub load: Option<Vec<Range>>,
    pub execute: Option<Vec<Range>>,
    pub keep: Option<Vec<Range>>,
    pub enter: Option<Vec<Range>>,
    pub transmit: Option<bool>,
    pub halt: Option<bool>,
    pub timer: Option<bool>,
    pub system: Option<bool>,
    pub seal: Option<bool>,
    pub types: Option<Vec<u64>>,
    pub or_caller: bool,
}

impl Parts {
    fn none() -> Parts
        ensures { seen_parts result ≡ no_parts }
    {
        Parts {
            store: None,
            load: None,
            execute: None,
            keep: None,
            enter: None,
            transmit: None,
            halt: None,
            timer: None,
            system: None,
            seal: None,
            types: None,
            or_caller: false,
        }
    }

    fn has(&self, part: Part) -> bool
        ensures { result ≡ has_part (seen_parts self.now) part }
    {
        match part {
            Part::Store => self.store.is_some(),
            Part::Load => self.load.is_some(),
            Part::Execute => self.execute.is_some(),
            Part::Keep => self.keep.is_some(),
            Part::Enter => self.enter.is_some(),
            Part::Transmit => self.transmit.is_some(),
            Part::Halt => self.halt.is_some(),
            Part::Timer => self.timer.is_some(),
            Part::System => self.system.is_some(),
            Part::Seal => self.seal.is_some(),
            Part::Types => self.types.is_some(),
            Part::OrCaller => self.or_caller,
        }
    }
}

/// Whether there is no word.
pub(crate) fn is_end(words: &[u8]) -> bool
    ensures { result ≡ (length (words_of words.now) == 0) }
{
    split_word(words).is_none()
}

/// What `within RANGES` or `no` says.
fn within(
    alloc: Global,
    symbols: &Symbols,
    definitions: &[Named],
    words: &[u8],
) -> Result<Vec<Range>, Fault>
    ensures { Gives (λ ranges. ranges.items) result (within_of symbols.now (seen_names definitions.now) (words_of words.now)) }
{
    match split_word(words) {
        Some((word, rest)) if is_word(word, "within") => ranges_or(
            PolicyCode::P8,
            alloc,
            symbols,
            definitions,
            rest,
        ),
        Some((word, rest)) if is_word(word, "no") && is_end(rest) => Ok(Vec::new(alloc)),
        _ => Err(Fault::Code(PolicyCode::P8)),
    }
}

/// What `yes` or `no` says.
fn answer(words: &[u8]) -> Result<bool, PolicyCode>
    ensures { result ≡ answer_of (words_of words.now) }
{
    match split_word(words) {
        Some((word, rest)) if is_end(rest) && is_word(word, "yes") => Ok(true),
        Some((word, rest)) if is_end(rest) && is_word(word, "no") => Ok(false),
        _ => Err(PolicyCode::P8),
    }
}

/// The object types of words.
fn numbers(alloc: Global, words: &[u8]) -> Result<Vec<u64>, Fault>
    ensures { Gives (λ numbers. numbers.items) result (numbers_of (words_of words.now)) }
{
    let mut out = Vec::new(alloc);
    let mut rest = words;
    while let Some((word, after)) = split_word(rest) {
        out.push(number(word, MOST_TYPE)?)?;
        rest = after;
    }
    Ok(out)
}

/// What object types or `none` says.
fn types(alloc: Global, words: &[u8]) -> Result<Vec<u64>, Fault>
    ensures { Gives (λ numbers. numbers.items) result (types_of (words_of words.now)) }
{
    match split_word(words) {
        Some((word, rest)) if is_word(word, "none") && is_end(rest) => Ok(Vec::new(alloc)),
        Some((word, _)) if !is_word(word, "none") => numbers(alloc, words),
        _ => Err(Fault::Code(PolicyCode::P8)),
    }
}

/// What `caller` says after `or`.
fn caller(words: &[u8]) -> Result<bool, PolicyCode>
    ensures { result ≡ caller_of (words_of words.now) }
{
    match split_word(words) {
        Some((word, rest)) if is_word(word, "caller") && is_end(rest) => Ok(true),
        _ => Err(PolicyCode::P8),
    }
}

/// Sets a part to what the words after its name say.
fn set(
    parts: &mut Parts,
    part: Part,
    alloc: Global,
    symbols: &Symbols,
    definitions: &[Named],
    words: &[u8],
) -> Result<(), Fault>
    ensures { Leaves (seen_parts parts.new) result
        (with_part symbols.now (seen_names definitions.now) (seen_parts parts.old) (words_of words.now) part) }
{
    match part {
        Part::Store => parts.store = Some(within(alloc, symbols, definitions, words)?),
        Part::Load => parts.load = Some(within(alloc, symbols, definitions, words)?),
        Part::Execute => parts.execute = Some(within(alloc, symbols, definitions, words)?),
        Part::Keep => parts.keep = Some(within(alloc, symbols, definitions, words)?),
        Part::Enter => parts.enter = Some(within(alloc, symbols, definitions, words)?),
        Part::Transmit => parts.transmit = Some(answer(words)?),
        Part::Halt => parts.halt = Some(answer(words)?),
        Part::Timer => parts.timer = Some(answer(words)?),
        Part::System => parts.system = Some(answer(words)?),
        Part::Seal => parts.seal = Some(answer(words)?),
        Part::Types => parts.types = Some(types(alloc, words)?),
        Part::OrCaller => parts.or_caller = caller(words)?,
    }
    Ok(())
}

/// Sets the part that a text says.
fn read_part(
    parts: &mut Parts,
    alloc: Global,
    symbols: &Symbols,
    definitions: &[Named],
    text: &[u8],
) -> Result<(), Fault>
    ensures { Leaves (seen_parts parts.new) result
        (part_read symbols.now (seen_names definitions.now) (seen_parts parts.old) (words_of text.now)) }
{
    let Some((name, words)) = split_word(text) else {
        return Err(Fault::Code(PolicyCode::P6));
    };
    let Some(part) = part_named(name) else {
        return Err(Fault::Code(PolicyCode::P6));
    };
    if parts.has(part) {
        return Err(Fault::Code(PolicyCode::P7));
    }
    set(parts, part, alloc, symbols, definitions, words)
}

/// The parts that stand between commas.
pub(crate) fn read_parts(
    alloc: Global,
    symbols: &Symbols,
    definitions: &[Named],
    text: &[u8],
) -> Result<Parts, Fault>
    ensures { Gives seen_parts result (parts_read symbols.now (seen_names definitions.now) no_parts (pieces_between text.now)) }
{
    let mut parts = Parts::none();
    let mut left = Some(text);
    while let Some(text) = left {
        let (piece, rest) = split_piece(text);
        read_part(&mut parts, alloc, symbols, definitions, piece)?;
        left = rest;
    }
    Ok(parts)
}
