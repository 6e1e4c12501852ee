//! Operands of commands as they are written.
ghost use Rattle.std.specs.Prelude.{◌≡◌, ◌⊎◌, ◌≤◌, ◌<◌, ◌%◌, ◌^◌, Some, IfOk, IfSome};
ghost use Rattle.asm_names.specs.Registers.{register_named};
ghost use Rattle.asm_names.specs.SpecialNames.{scr_named};
ghost use Rattle.debug_commands.specs.Address.{address_at};
ghost use Rattle.debug_commands.specs.Command as spec;
ghost use Rattle.debug_commands.specs.Limits.{IsShownWithinLimits};
ghost use Rattle.asm_lines.specs.Words.{words_of};
ghost use Rattle.origins.specs.Places.{IsHolder};

use crate::address::address_at;
use crate::command::{Back, View, Watched};
use crate::fault::DebugFault;
use asm_lines::{number_between, split_word};
use asm_names::{register_named, scr_named};
use origins::Place;
use reach::Horizon;
use symbols::Symbols;

/// The bytes of a granule.
const CAPABILITY_BYTES: u64 = 16;

/// The only operand, a number of `low` to `high`, or B2.
pub(crate) fn one_number(operands: &[u8], low: u64, high: u64) -> Result<u64, DebugFault>
    ensures value { result ≡ spec.one_number low high (words_of operands.now) }
    ensures bound { IfOk result (λ n. n ≤ high) }
{
    let Some((word, rest)) = split_word(operands) else {
        return Err(DebugFault::B2);
    };
    if split_word(rest).is_some() {
        return Err(DebugFault::B2);
    }
    number_between(word, low, high).ok_or(DebugFault::B2)
}

/// The only operand, a number of `low` to `high`, or `otherwise` where there is none, or B2.
pub(crate) fn number_or(
    operands: &[u8],
    otherwise: u64,
    low: u64,
    high: u64,
) -> Result<u64, DebugFault>
    ensures value { result ≡ spec.number_or otherwise low high (words_of operands.now) }
    ensures bound { IfOk result (λ n. (n ≤ high) ⊎ (n ≡ otherwise)) }
{
    if split_word(operands).is_none() {
        return Ok(otherwise);
    }
    one_number(operands, low, high)
}

/// The only operand, an address, or B2.
pub(crate) fn one_address(symbols: &Symbols, operands: &[u8]) -> Result<u64, DebugFault>
    ensures { result ≡ spec.one_address symbols.now (words_of operands.now) }
{
    let Some((word, rest)) = split_word(operands) else {
        return Err(DebugFault::B2);
    };
    if split_word(rest).is_some() {
        return Err(DebugFault::B2);
    }
    address_at(symbols, word).ok_or(DebugFault::B2)
}

/// An address that is a multiple of `multiple`, and a number.
fn placed(
    symbols: &Symbols,
    place: &[u8],
    multiple: u64,
    number: Option<u64>,
) -> Result<(u64, u64), DebugFault>
    requires { 0 < multiple }
    ensures value { result ≡ spec.placed multiple (address_at symbols.now place.now) number }
    ensures number { IfOk result (λ p. number ≡ Some p.1) }
    ensures aligned { IfOk result (λ p. p.0 % multiple ≡ 0) }
{
    let Some(address) = address_at(symbols, place) else {
        return Err(DebugFault::B2);
    };
    match number {
        Some(number) if address % multiple == 0 => Ok((address, number)),
        _ => Err(DebugFault::B2),
    }
}

/// The only two operands, an address that is a multiple of `multiple` and a number of 1 to `high`, or `otherwise` where there is no number,
/// or B2.
pub(crate) fn address_and_number_or(
    symbols: &Symbols,
    operands: &[u8],
    otherwise: u64,
    multiple: u64,
    high: u64,
) -> Result<(u64, u64), DebugFault>
    requires { 0 < multiple }
    ensures value { result ≡ spec.address_and_number_or symbols.now otherwise multiple high (words_of operands.now) }
    ensures bound { IfOk result (λ p. (p.1 ≤ high) ⊎ (p.1 ≡ otherwise)) }
    ensures aligned { IfOk result (λ p. p.0 % multiple ≡ 0) }
{
    let Some((place, rest)) = split_word(operands) else {
        return Err(DebugFault::B2);
    };
    let Some((count, rest)) = split_word(rest) else {
        return placed(symbols, place, multiple, Some(otherwise));
    };
    if split_word(rest).is_some() {
        return Err(DebugFault::B2);
    }
    placed(symbols, place, multiple, number_between(count, 1, high))
}

/// What a text names: a register, or a special capability register.
fn register_in(text: &[u8]) -> Option<View>
    ensures value { result ≡ spec.register_shown (register_named text.now) (scr_named text.now) }
    ensures limits { IfSome result IsShownWithinLimits }
{
    if let Some(number) = register_named(text) {
        return Some(View::Register(number));
    }
    if let Some(number) = scr_named(text) {
        return Some(View::SpecialRegister(number));
    }
    None
}

/// The only operand, the name of a register or of a special capability register, or B2.
pub(crate) fn one_register(operands: &[u8]) -> Result<View, DebugFault>
    ensures value { result ≡ spec.one_register (words_of operands.now) }
    ensures limits { IfOk result IsShownWithinLimits }
{
    let Some((word, rest)) = split_word(operands) else {
        return Err(DebugFault::B2);
    };
    if split_word(rest).is_some() {
        return Err(DebugFault::B2);
    }
    register_in(word).ok_or(DebugFault::B2)
}

/// The granule at an address, a multiple of 16.
fn granule_at(address: u64) -> Option<Place>
    ensures value { result ≡ spec.granule_at address }
    ensures place { IfSome result IsHolder }
{
    if address % CAPABILITY_BYTES == 0 {
        Some(Place::Granule(address))
    } else {
        None
    }
}

/// What holds a capability: a register or a special capability register by its name, or else the granule at an address.
fn holder_in(symbols: &Symbols, text: &[u8]) -> Option<Place>
    ensures value { result ≡ spec.holder_in symbols.now text.now }
    ensures place { IfSome result IsHolder }
{
    if let Some(number) = register_named(text) {
        return Some(Place::Register(number));
    }
    if let Some(number) = scr_named(text) {
        return Some(Place::Special(number));
    }
    granule_at(address_at(symbols, text)?)
}

/// The only operand, what holds a capability, or B2.
pub(crate) fn one_holder(symbols: &Symbols, operands: &[u8]) -> Result<Place, DebugFault>
    ensures value { result ≡ spec.one_holder symbols.now (words_of operands.now) }
    ensures place { IfOk result IsHolder }
{
    let Some((word, rest)) = split_word(operands) else {
        return Err(DebugFault::B2);
    };
    if split_word(rest).is_some() {
        return Err(DebugFault::B2);
    }
    holder_in(symbols, word).ok_or(DebugFault::B2)
}

/// The only two operands, what holds a capability and a number of 1 to `high`, or B2.
pub(crate) fn holder_and_number(
    symbols: &Symbols,
    operands: &[u8],
    high: u64,
) -> Result<(Place, u64), DebugFault>
    ensures value { result ≡ spec.holder_and_number symbols.now high (words_of operands.now) }
    ensures place { IfOk result (λ p. IsHolder p.0) }
    ensures bound { IfOk result (λ p. p.1 ≤ high) }
{
    let Some((place, rest)) = split_word(operands) else {
        return Err(DebugFault::B2);
    };
    let Some((count, rest)) = split_word(rest) else {
        return Err(DebugFault::B2);
    };
    if split_word(rest).is_some() {
        return Err(DebugFault::B2);
    }
    match (holder_in(symbols, place), number_between(count, 1, high)) {
        (Some(place), Some(count)) => Ok((place, count)),
        _ => Err(DebugFault::B2),
    }
}

/// What a single word has watched: what holds a capability, or 16 bytes from another address.
fn held_or_bytes(symbols: &Symbols, word: &[u8]) -> Result<Watched, DebugFault>
    ensures { result ≡ spec.held_watched (spec.holder_in symbols.now word.now) (address_at symbols.now word.now) }
{
    match holder_in(symbols, word) {
        Some(place) => Ok(Watched::Held(place)),
        None => {
            let address = address_at(symbols, word).ok_or(DebugFault::B2)?;
            let count = CAPABILITY_BYTES;
            Ok(Watched::Bytes { address, count })
        }
    }
}

/// What is watched for a change: what holds a capability, or an address and a number of 1 to `high`, which is 16 where the address is no
/// granule's and no number follows; or else it is B2.
pub(crate) fn watched(symbols: &Symbols, operands: &[u8], high: u64) -> Result<Watched, DebugFault>
    ensures { result ≡ spec.watched symbols.now high (words_of operands.now) }
{
    let Some((place, rest)) = split_word(operands) else {
        return Err(DebugFault::B2);
    };
    let Some((count, rest)) = split_word(rest) else {
        return held_or_bytes(symbols, place);
    };
    if split_word(rest).is_some() {
        return Err(DebugFault::B2);
    }
    match (address_at(symbols, place), number_between(count, 1, high)) {
        (Some(address), Some(count)) => Ok(Watched::Bytes { address, count }),
        _ => Err(DebugFault::B2),
    }
}

/// How far a command goes back: the only operand, a number of 1 to `high`, or `to stop`, or else it is B2.
pub(crate) fn distance_back(operands: &[u8], high: u64) -> Result<Back, DebugFault>
    ensures { result ≡ spec.distance_back high (words_of operands.now) }
{
    let Some((first, rest)) = split_word(operands) else {
        return Err(DebugFault::B2);
    };
    let Some((second, rest)) = split_word(rest) else {
        return match number_between(first, 1, high) {
            Some(number) => Ok(Back::By(number)),
            None => Err(DebugFault::B2),
        };
    };
    if split_word(rest).is_some() || first != b"to".as_slice() || second != b"stop".as_slice() {
        return Err(DebugFault::B2);
    }
    Ok(Back::ToStop)
}

/// How far an answer is to hold: what follows a question's own operands is nothing, or `through doors`, or else it is B2.
pub(crate) fn horizon(operands: &[u8]) -> Result<Horizon, DebugFault>
    ensures { result ≡ spec.horizon_of (words_of operands.now) }
{
    let Some((first, rest)) = split_word(operands) else {
        return Ok(Horizon::Stretch);
    };
    let Some((second, rest)) = split_word(rest) else {
        return Err(DebugFault::B2);
    };
    if split_word(rest).is_some()
        || first != b"through".as_slice()
        || second != b"doors".as_slice()
    {
        return Err(DebugFault::B2);
    }
    Ok(Horizon::Turn)
}

/// A number of `low` to `high`, and how far an answer is to hold, or B2.
pub(crate) fn number_and_horizon(
    operands: &[u8],
    low: u64,
    high: u64,
) -> Result<(u64, Horizon), DebugFault>
    ensures { result ≡ spec.number_and_horizon low high (words_of operands.now) }
{
    let Some((word, rest)) = split_word(operands) else {
        return Err(DebugFault::B2);
    };
    match number_between(word, low, high) {
        Some(number) => Ok((number, horizon(rest)?)),
        None => Err(DebugFault::B2),
    }
}

/// An address, a number of 1 to `high`, and how far an answer is to hold, or B2.
pub(crate) fn bytes_and_horizon(
    symbols: &Symbols,
    operands: &[u8],
    high: u64,
) -> Result<((u64, u64), Horizon), DebugFault>
    ensures { result ≡ spec.bytes_and_horizon symbols.now high (words_of operands.now) }
{
    let Some((place, rest)) = split_word(operands) else {
        return Err(DebugFault::B2);
    };
    let Some((count, rest)) = split_word(rest) else {
        return Err(DebugFault::B2);
    };
    match (address_at(symbols, place), number_between(count, 1, high)) {
        (Some(address), Some(count)) => Ok(((address, count), horizon(rest)?)),
        _ => Err(DebugFault::B2),
    }
}

/// The same, or how far an answer is to hold alone: then it is about the first `high` bytes that there are.
pub(crate) fn some_bytes_and_horizon(
    symbols: &Symbols,
    operands: &[u8],
    high: u64,
) -> Result<((u64, u64), Horizon), DebugFault>
    ensures { result ≡ spec.some_bytes_and_horizon symbols.now high (words_of operands.now) }
{
    match horizon(operands) {
        Ok(until) => Ok(((0, high), until)),
        Err(_) => bytes_and_horizon(symbols, operands, high),
    }
}
