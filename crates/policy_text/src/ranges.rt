//! Ranges as they are written.
ghost use Rattle.std.specs.Prelude.{◌≡◌, ◌≤◌, ◌^◌, option_map, IfOk};
ghost use Rattle.asm_lines.specs.Words.{words_of};
ghost use Rattle.policy_text.specs.Policy.{number_up_to, address_or_code, end_of, to_of, filled, range_of, defined, ranges_in, ranges_of};
ghost use Rattle.policy_text.specs.Policy.{ranges_or, device_named, register};
ghost use Rattle.policy_text.specs.Seen.{Gives, Adds, seen_names};

use crate::cut::cut_at_dots;
use crate::fault::{Fault, PolicyCode};
use asm_lines::{is_word, natural, split_word};
use devices::RECEIVE;
use reach::{CONTROL, HALT, Range, STATUS, TIMER, TIMER_COMPARE, TRANSMIT};
use std::alloc::Global;
use symbols::Symbols;

/// The end of the addresses.
pub(crate) const END: u128 = 1 << 64;

/// A name and the ranges that it stands for.
#[derive(Drop)]
pub(crate) struct Named<'a> {
    pub name: &'a [u8],
    pub ranges: Vec<Range>,
}

/// A number of at most so much, or P4.
pub(crate) fn number(word: &[u8], most: u64) -> Result<u64, PolicyCode>
    ensures { result ≡ number_up_to most word.now }
{
    match natural(word, most) {
        Ok(number) => Ok(number),
        Err(_) => Err(PolicyCode::P4),
    }
}

/// An address, or else P4 where the word begins as a number does, and P2 where it does not.
fn address(symbols: &Symbols, word: &[u8]) -> Result<u64, PolicyCode>
    ensures { result ≡ address_or_code symbols.now word.now }
{
    match symbols.address_in(word) {
        Some(address) => Ok(address),
        None if word.first().is_some_and(u8::is_ascii_digit) => Err(PolicyCode::P4),
        None => Err(PolicyCode::P2),
    }
}

/// Where so many bytes from an address on end, or P4.
fn end(from: u64, length: u64) -> Result<u128, PolicyCode>
    ensures { result ≡ end_of from length }
{
    let end = u128::from(from) + u128::from(length);
    if end <= END {
        Ok(end)
    } else {
        Err(PolicyCode::P4)
    }
}

/// Where the range from an address on ends that the text after its dots says.
fn to(symbols: &Symbols, from: u64, word: &[u8]) -> Result<u128, PolicyCode>
    ensures { result ≡ to_of symbols.now from word.now }
{
    match word {
        [b'+', length @ ..] => end(from, number(length, u64::MAX)?),
        _ => Ok(u128::from(address(symbols, word)?)),
    }
}

/// The range that the texts before two dots and after them say.
#[tactic(auto, unfolding(crate::specs::Policy::range_of))]
fn range(symbols: &Symbols, before: &[u8], after: &[u8]) -> Result<Range, PolicyCode>
    ensures { result ≡ range_of symbols.now before.now after.now }
{
    let from = address(symbols, before)?;
    let to = to(symbols, from, after)?;
    if u128::from(from) < to {
        Ok(Range { from, to })
    } else {
        Err(PolicyCode::P5)
    }
}

/// The ranges of a name, if it is defined.
pub(crate) fn defined<'a>(definitions: &'a [Named], name: &[u8]) -> Option<&'a [Range]>
    ensures { option_map (λ ranges. ranges.now) result ≡ defined (seen_names definitions.now) name.now }
{
    for definition in definitions {
        if definition.name == name {
            return Some(&definition.ranges);
        }
    }
    None
}

/// Where the device register of this name begins.
#[tactic(auto, unfolding(crate::specs::Policy::device_named))]
pub(crate) fn device_named(name: &[u8]) -> Option<u64>
    ensures { result ≡ device_named name.now }
{
    if is_word(name, "halt") {
        Some(HALT)
    } else if is_word(name, "mtimecmp") {
        Some(TIMER_COMPARE)
    } else if is_word(name, "mtime") {
        Some(TIMER)
    } else if is_word(name, "transmit") {
        Some(TRANSMIT)
    } else if is_word(name, "receive") {
        Some(RECEIVE)
    } else if is_word(name, "status") {
        Some(STATUS)
    } else if is_word(name, "control") {
        Some(CONTROL)
    } else {
        None
    }
}

/// The bytes of a device register.
pub(crate) fn register(from: u64) -> Range
    ensures { result ≡ register from }
{
    let to = u128::from(from) + 8;
    Range { from, to }
}

/// Appends the ranges of a word.
#[tactic(auto, unfolding(crate::specs::Policy::ranges_in))]
fn push_ranges(
    out: &mut Vec<Range>,
    symbols: &Symbols,
    definitions: &[Named],
    word: &[u8],
) -> Result<(), Fault>
    ensures { Adds out.old.items out.new.items result (ranges_in symbols.now (seen_names definitions.now) word.now) }
{
    match cut_at_dots(word) {
        Some((before, after)) => out.push(range(symbols, before, after)?)?,
        None => match defined(definitions, word) {
            Some(ranges) => out.extend_from_slice(ranges)?,
            None => match device_named(word) {
                Some(from) => out.push(register(from))?,
                None => return Err(Fault::Code(PolicyCode::P2)),
            },
        },
    }
    Ok(())
}

/// The ranges of words.
fn ranges_of(
    alloc: Global,
    symbols: &Symbols,
    definitions: &[Named],
    words: &[u8],
) -> Result<Vec<Range>, Fault>
    ensures { Gives (λ ranges. ranges.items) result (ranges_of symbols.now (seen_names definitions.now) (words_of words.now)) }
{
    let mut out = Vec::new(alloc);
    let mut rest = words;
    while let Some((word, after)) = split_word(rest) {
        push_ranges(&mut out, symbols, definitions, word)?;
        rest = after;
    }
    Ok(out)
}

/// The ranges of one word or more, or this code where there is none.
pub(crate) fn ranges_or(
    code: PolicyCode,
    alloc: Global,
    symbols: &Symbols,
    definitions: &[Named],
    words: &[u8],
) -> Result<Vec<Range>, Fault>
    ensures { Gives (λ ranges. ranges.items) result (ranges_or code symbols.now (seen_names definitions.now) (words_of words.now)) }
{
    if split_word(words).is_none() {
        return Err(Fault::Code(code));
    }
    ranges_of(alloc, symbols, definitions, words)
}
