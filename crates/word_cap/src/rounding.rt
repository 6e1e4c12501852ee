//! Rounding a request out to what a word can say, the exponent found from the length's leading zeros.

ghost use Rattle.std.specs.Prelude.{◌≡◌, ◌+◌, ◌-◌, ◌%◌, ◌^◌, ◌<◌, ◌≤◌, nat_lt};
ghost use Rattle.cap_bounds.specs.Record.{has_exponent, encoded_b, encoded_t};
ghost use Rattle.cap_bounds.specs.Rounding.{granules_up_to, granules_spanned, rounding_exponent, rounded_base, rounded_top, is_exact};

/// One less than a granule, which is `2^(e+3)` bytes.
#[inline(always)]
fn granule_mask(e: u32) -> u64
    requires { e ≤ 52 }
    ensures value { result ≡ 2 ^ (e + 3) - 1 }
    ensures range { result < 2 ^ 55 }
{
    (8 << e) - 1
}

/// How many granules lie below the end of a request, the last one counted whole, modulo `2^(61-e)`.
#[inline(always)]
fn granules_below_end(e: u32, address: u64, length: u64) -> u64
    requires { e ≤ 52 }
    ensures { result ≡ granules_up_to (2 ^ (e + 3)) (address + length) % 2 ^ (61 - e) }
{
    address.wrapping_add(length).wrapping_add(granule_mask(e)) >> e >> 3
}

/// Whether a request touches fewer than 1024 granules, if it touches 512 to 1025.
///
/// Bit 9 of their number tells, so its higher bits need not be known.
#[inline(always)]
fn spans_few(e: u32, address: u64, length: u64) -> bool
    requires exponent { e ≤ 51 }
    requires low { 512 ≤ granules_spanned e address (address + length) }
    requires high { granules_spanned e address (address + length) ≤ 1025 }
    ensures { result ≡ nat_lt (granules_spanned e address (address + length)) 1024 }
{
    let first = address >> e >> 3;
    granules_below_end(e, address, length).wrapping_sub(first) >> 9 & 1 == 1
}

/// The least exponent at which a request of 4096 bytes or more touches fewer than 1024 granules.
///
/// At the exponent of the length's leading zeros it touches 512 at least, and 1025 at most: where that is 1024 or more, the next
/// exponent is the least that serves.
#[inline(always)]
fn exponent(address: u64, length: u64) -> u32
    requires { 4096 ≤ length }
    ensures value { result ≡ rounding_exponent address (address + length) }
    ensures range { result ≤ 52 }
{
    let e = 51 - length.leading_zeros();
    let raise = if spans_few(e, address, length) { 0 } else { 1 };
    e + raise
}

/// The bounds of a request, rounded out, as they stand in a word.
#[derive(Clone, Copy)]
pub(crate) struct Encoding {
    /// Whether the exponent is internal.
    pub(crate) ie: bool,
    /// 12 bits.
    pub(crate) t: u64,
    /// 14 bits.
    pub(crate) b: u64,
    /// Whether rounding changed nothing.
    pub(crate) exact: bool,
}

/// The bounds of `length` bytes from an address, rounded out.
#[inline(always)]
pub(crate) fn encoding_of(address: u64, length: u64) -> Encoding
    ensures ie { result.ie ≡ has_exponent length }
    ensures t { result.t ≡ encoded_t (rounded_top address (address + length) % 2 ^ 65) (rounding_exponent address (address + length))
        (has_exponent length) }
    ensures b { result.b ≡ encoded_b (rounded_base address (address + length)) (rounding_exponent address (address + length))
        (has_exponent length) }
    ensures exact { result.exact ≡ is_exact address (address + length) }
    ensures t_range { result.t < 2 ^ 12 }
    ensures b_range { result.b < 2 ^ 14 }
{
    if length < 4096 {
        return Encoding {
            ie: false,
            t: address.wrapping_add(length) & 0xfff,
            b: address & 0x3fff,
            exact: true,
        };
    }
    let e = exponent(address, length);
    Encoding {
        ie: true,
        t: (granules_below_end(e, address, length) & 0x1ff) << 3 | u64::from(e >> 3),
        b: (address >> e >> 3 & 0x7ff) << 3 | u64::from(e & 7),
        exact: (address | length) & granule_mask(e) == 0,
    }
}
