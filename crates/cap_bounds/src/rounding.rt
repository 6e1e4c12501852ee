//! Rounding requested bounds out to what a word can say, by trying one exponent after the other; a length alone by its leading zeros.

ghost use Rattle.std.specs.Prelude.{◌≡◌, ◌+◌, ◌^◌, ◌<◌, ◌≤◌};
ghost use Rattle.cap_bounds.specs.Rounding.{granules_spanned, granules_up_to, is_exact, length_granule, rounded_base, rounded_top};
ghost use Rattle.cap_bounds.specs.Rounding.{rounding_exponent, rounding_granule};

use crate::decode::power;

/// A number of granules that holds so many bytes.
fn granules_up_to(granule: u128, bytes: u128) -> u128
    requires some { 1 ≤ granule }
    requires size { granule ≤ 2 ^ 64 }
    requires bytes { bytes < 2 ^ 65 }
    ensures value { result ≡ granules_up_to granule bytes }
{
    (bytes + granule - 1) / granule
}

/// The granule of an exponent.
fn granule_at(e: u32) -> u128
    requires { e ≤ 52 }
    ensures value { result ≡ 2 ^ (e + 3) }
    ensures some { 1 ≤ result }
    ensures size { result ≤ 2 ^ 55 }
{
    power(e + 3)
}

/// How many granules of `2^(e+3)` bytes the addresses from `base` on and below `top` touch.
fn granules_spanned(e: u32, base: u64, top: u128) -> u128
    requires exponent { e ≤ 52 }
    requires ordered { base ≤ top }
    requires range { top < 2 ^ 65 }
    ensures { result ≡ granules_spanned e base top }
{
    let granule = granule_at(e);
    granules_up_to(granule, top) - u128::from(base) / granule
}

/// The least exponent at which the range touches fewer than 1024 granules.
pub(crate) fn exponent(base: u64, top: u128) -> u32
    requires ordered { base ≤ top }
    requires range { top < 2 ^ 65 }
    ensures value { result ≡ rounding_exponent base top }
    ensures high { result ≤ 52 }
{
    let mut e = 0;
    while e < 52 && granules_spanned(e, base, top) >= 1024 {
        e += 1;
    }
    e
}

/// What the range is rounded out to multiples of.
#[tactic(auto, unfolding(crate::specs::Rounding::rounding_granule))]
fn granule_of_range(base: u64, top: u128) -> u128
    requires ordered { base ≤ top }
    requires range { top < 2 ^ 65 }
    ensures value { result ≡ rounding_granule base top }
    ensures some { 1 ≤ result }
    ensures size { result ≤ 2 ^ 55 }
{
    if top - u128::from(base) < 4096 {
        1
    } else {
        granule_at(exponent(base, top))
    }
}

/// A range rounded out, and whether that changed nothing.
#[derive(Clone, Copy)]
pub(crate) struct Rounded {
    pub(crate) base: u64,
    /// At most 2^65: not yet modulo 2^65.
    pub(crate) top: u128,
    pub(crate) exact: bool,
}

/// The base rounded down and the top rounded up.
#[tactic(auto, unfolding(crate::specs::Rounding::rounded_base, crate::specs::Rounding::rounded_top, crate::specs::Rounding::is_exact))]
pub(crate) fn rounded_out(base: u64, top: u128) -> Rounded
    requires ordered { base ≤ top }
    requires range { top < 2 ^ 65 }
    ensures base { result.base ≡ rounded_base base top }
    ensures top { result.top ≡ rounded_top base top }
    ensures exact { result.exact ≡ is_exact base top }
{
    let granule = granule_of_range(base, top);
    let low = (u128::from(base) / granule * granule) as u64;
    let high = granules_up_to(granule, top) * granule;
    Rounded {
        base: low,
        top: high,
        exact: low == base && high == top,
    }
}

/// Whether bounds can be exactly the `length` bytes from `base`: rounding them out changes nothing.
pub fn is_exact(base: u64, length: u64) -> bool
    ensures { result ≡ is_exact base (base + length) }
{
    rounded_out(base, u128::from(base) + u128::from(length)).exact
}

/// The least exponent at which a length of 4096 bytes or more takes fewer than 1024 granules.
///
/// That of its leading zeros, at which it takes 512 granules at least, or the next one where it is rounded up to 1024.
fn length_exponent(length: u64) -> u32
    requires { 4096 ≤ length }
    ensures value { result ≡ rounding_exponent 0 length }
    ensures high { result ≤ 52 }
{
    let e = 51 - length.leading_zeros();
    let granules = ((length - 1) >> e >> 3) + 1;
    let raise = if granules < 1024 { 0 } else { 1 };
    e + raise
}

/// The granule of a length: what the base and the length of a capability of so many bytes are multiples of, where its base is
/// aligned.
///
/// 1 for a length below 4096, else a power of two from 8 to 2^55.
pub fn granule(length: u64) -> u128
    ensures value { result ≡ length_granule length }
    ensures some { 1 ≤ result }
    ensures size { result ≤ 2 ^ 55 }
{
    if length < 4096 {
        return 1;
    }
    granule_at(length_exponent(length))
}
