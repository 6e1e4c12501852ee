//! The parts that the bounds of a word are decoded from, and the bounds.

ghost use Rattle.std.specs.Prelude.{◌≡◌, pos, ◌+◌, ◌*◌, ◌/◌, ◌%◌, ◌^◌, ◌<◌, ◌≤◌, ◌&&◌, ◌-ℤ◌, nat_le, nat_lt};
ghost use Rattle.base.specs.Bits.{bit};
ghost use Rattle.cap_bounds.specs.Window.{decoded_base, decoded_top, base_of_word, top_of_word};
ghost use Rattle.word_cap.specs.Parts.{ArePartsOf, GiveBoundsOf, edge_of, eighth_of, corrected_top, is_flipped};

use crate::mantissas::mantissas_of;
use crate::word_parts::Parts;
use cap_format::CapWord;

/// The number of the window that holds an address, modulo `2^(50 - e)`. The windows of a base begin one eighth before its own.
#[inline(always)]
pub(crate) fn window(e: u32, b: u64, address: u64) -> u64
    requires exponent { e ≤ 52 }
    requires mantissa { b < 2 ^ 14 }
    ensures base { (result * 2 ^ 14 + b) * 2 ^ e % 2 ^ 64 ≡ decoded_base e b address }
    ensures range { result < 2 ^ 50 }
{
    (address >> e)
        .wrapping_add(1 << 11)
        .wrapping_sub(b >> 11 << 11)
        >> 14
}

/// The base that an exponent and B give with an address: its window's number and B, in units of `2^e`.
#[inline(always)]
pub(crate) fn base_at(e: u32, b: u64, address: u64) -> u64
    requires exponent { e ≤ 52 }
    requires mantissa { b < 2 ^ 14 }
    ensures { result ≡ decoded_base e b address }
{
    ((window(e, b, address) << 14) + b) << e
}

/// The top that they give with a length's mantissa, below `2^65`.
#[inline(always)]
fn top_at(e: u32, b: u64, l: u64, address: u64) -> u128
    requires exponent { e ≤ 52 }
    requires mantissa { b < 2 ^ 14 }
    requires length { l < 2 ^ 13 }
    ensures value { result ≡ decoded_top e b l address }
    ensures range { result < 2 ^ 65 }
{
    if e <= 50 {
        u128::from(base_at(e, b, address)) + u128::from(l << e)
    } else {
        u128::from(b + l) << e & ((1 << 65) - 1)
    }
}

/// The eighth at which the representable space of a base begins.
#[inline(always)]
fn edge_of(b: u64) -> u64
    ensures value { result ≡ edge_of b }
    ensures range { result < 8 }
{
    (b >> 11 & 7) + 7 & 7
}

/// Whether the highest three of a number's 14 low bits are below the edge.
#[inline(always)]
fn is_high(edge: u64, number: u64) -> bool
    ensures { result ≡ nat_lt (eighth_of number) edge }
{
    (number >> 11 & 7) < edge
}

/// The correction of a mantissa.
#[inline(always)]
fn correction(mantissa_high: bool, address_high: bool) -> i8
    ensures { result ≡ pos (bit mantissa_high) -ℤ pos (bit address_high) }
{
    i8::from(mantissa_high) - i8::from(address_high)
}

/// A block of `2^(e+14)` addresses, if there is one.
#[inline(always)]
fn block(e: u32, some: bool) -> u128
    requires { e ≤ 52 }
    ensures value { result ≡ bit some * 2 ^ (e + 14) }
    ensures range { result ≤ 2 ^ 66 }
{
    if some { 1 << (e + 14) } else { 0 }
}

/// Where the block of an address begins.
#[inline(always)]
fn block_start(e: u32, address: u64) -> u128
    requires { e ≤ 52 }
    ensures value { result ≡ address / 2 ^ (e + 14) * 2 ^ (e + 14) }
    ensures range { result < 2 ^ 64 }
{
    u128::from(address) >> (e + 14) << (e + 14)
}

/// The top by its correction, modulo `2^65`, before bit 64 is looked at.
#[inline(always)]
fn corrected_top(e: u32, address: u64, t: u64, top_high: bool, address_high: bool) -> u128
    requires exponent { e ≤ 52 }
    requires mantissa { t < 2 ^ 14 }
    ensures value { result ≡ corrected_top e address (pos (bit top_high) -ℤ pos (bit address_high)) t }
    ensures range { result < 2 ^ 65 }
{
    let forward = block_start(e, address) + block(e, top_high) + (u128::from(t) << e);
    (forward + (1 << 66) - block(e, address_high)) & ((1 << 65) - 1)
}

/// Whether bit 64 of a top is to be inverted: the top lies less than `2^63` past the base.
#[inline(always)]
#[tactic(auto, unfolding(crate::specs::Parts::is_flipped))]
fn is_flipped(e: u32, base: u64, top: u128) -> bool
    requires { top < 2 ^ 65 }
    ensures { result ≡ is_flipped e base top }
{
    e < 51 && ((top >> 63) + 4 - u128::from(base >> 63)) & 3 > 1
}

/// The parts that the bounds of a word are decoded from: of every word, also of one that is no capability's.
#[inline(always)]
pub fn parts(word: CapWord) -> Parts
    ensures numbers { ArePartsOf word result }
    ensures bounds { GiveBoundsOf word result }
{
    let mantissas = mantissas_of(word);
    let (e, b) = (mantissas.exponent, mantissas.base);
    let t = b + mantissas.length & 0x3fff;
    let address = word.address();
    let edge = edge_of(b);
    let address_high = is_high(edge, address >> e);
    let base_high = is_high(edge, b);
    let top_high = is_high(edge, t);
    let top = corrected_top(e, address, t, top_high, address_high);
    Parts {
        e: e as u8,
        b: b as u16,
        t: t as u16,
        edge: edge as u8,
        base_step: correction(base_high, address_high),
        top_step: correction(top_high, address_high),
        flip: is_flipped(e, base_at(e, b, address), top),
    }
}

/// The bounds of a word.
#[derive(Clone, Copy)]
pub(crate) struct Bounds {
    pub(crate) base: u64,
    /// Below `2^65`.
    pub(crate) top: u128,
}

/// The bounds of a word: its base, and the top that lies its length past it. The top by its correction, with bit 64 inverted
/// where that is wrong, is the same number.
#[inline(always)]
#[tactic(auto, unfolding(cap_bounds::specs::Window::base_of_word, cap_bounds::specs::Window::top_of_word))]
pub(crate) fn bounds_of(word: CapWord) -> Bounds
    ensures base { result.base ≡ base_of_word word }
    ensures top { result.top ≡ top_of_word word }
    ensures range { result.top < 2 ^ 65 }
{
    let parts = parts(word);
    let e = u32::from(parts.e);
    let b = u64::from(parts.b);
    let length = u64::from(parts.t).wrapping_sub(b) & 0x3fff;
    let address = word.address();
    Bounds {
        base: base_at(e, b, address),
        top: top_at(e, b, length, address),
    }
}

/// The same of any exponent. Its own function, since hardly an access needs it and all others would carry its code.
#[inline(never)]
fn wide_bounds_hold(word: CapWord, address: u64, size: u64) -> bool
    ensures { result ≡ (nat_le (base_of_word word) address && nat_le (address + size) (top_of_word word)) }
{
    let bounds = bounds_of(word);
    bounds.base <= address && u128::from(address) + u128::from(size) <= bounds.top
}

/// Whether a word's bounds hold the `size` bytes from an address. Up to an exponent of 50 the length decides, and no top is built.
#[inline(always)]
pub(crate) fn bounds_hold(word: CapWord, address: u64, size: u64) -> bool
    ensures { result ≡ (nat_le (base_of_word word) address && nat_le (address + size) (top_of_word word)) }
{
    let mantissas = mantissas_of(word);
    if mantissas.exponent > 50 {
        return wide_bounds_hold(word, address, size);
    }
    let base = base_at(mantissas.exponent, mantissas.base, word.address());
    if address < base {
        return false;
    }
    let length = mantissas.length << mantissas.exponent;
    if length < size {
        return false;
    }
    address - base <= length - size
}
