//! The bounds of any word, by whole numbers in the manner of the windows.

ghost use Rattle.std.specs.Prelude.{◌≡◌, ◌+◌, ◌*◌, ◌^◌, ◌<◌, ◌≤◌};
ghost use Rattle.cap_bounds.specs.Mantissa.{exponent_of, base_mantissa, low_top_mantissa, top_mantissa, length_mantissa};
ghost use Rattle.cap_bounds.specs.Window.{step_of, place_in_window, decoded_base, decoded_top, base_of_word, top_of_word};

use cap_format::CapWord;

/// 2 to the power of an exponent.
#[inline]
pub(crate) fn power(e: u32) -> u128
    requires { e ≤ 64 }
    ensures value { result ≡ 2 ^ e }
    ensures range { result ≤ 2 ^ 64 }
    ensures positive { 1 ≤ result }
{
    1 << e
}

/// An eighth of a window.
#[inline]
fn step(e: u32) -> u128
    requires { e ≤ 50 }
    ensures value { result ≡ step_of e }
    ensures range { result ≤ 2 ^ 61 }
    ensures positive { 1 ≤ result }
{
    power(e + 11)
}

/// The exponent, at most 52.
#[tactic(auto, unfolding(crate::specs::Mantissa::exponent_of))]
pub(crate) fn exponent(word: CapWord) -> u32
    ensures value { result ≡ exponent_of word }
    ensures range { result ≤ 52 }
{
    if word.ie() {
        let high = u32::from(word.t_field() % 8);
        let low = u32::from(word.b_field() % 8);
        (high * 8 + low).min(52)
    } else {
        0
    }
}

/// B, the base's 14 bits.
#[tactic(auto, unfolding(crate::specs::Mantissa::base_mantissa))]
pub(crate) fn base_bits(word: CapWord) -> u64
    ensures value { result ≡ base_mantissa word }
    ensures range { result < 2 ^ 14 }
{
    let field = u64::from(word.b_field());
    if word.ie() { field / 8 * 8 } else { field }
}

/// The low 12 bits of T.
#[tactic(auto, unfolding(crate::specs::Mantissa::low_top_mantissa))]
fn low_top_bits(word: CapWord) -> u64
    ensures value { result ≡ low_top_mantissa word }
    ensures range { result < 2 ^ 12 }
{
    let field = u64::from(word.t_field());
    if word.ie() { field / 8 * 8 } else { field }
}

/// T, the top's 14 bits.
#[tactic(auto, unfolding(crate::specs::Mantissa::top_mantissa))]
fn top_bits(word: CapWord) -> u64
    ensures value { result ≡ top_mantissa word }
    ensures range { result < 2 ^ 14 }
{
    let b = base_bits(word);
    let t = low_top_bits(word);
    let carry = u64::from(t < b % 4096);
    let ie = u64::from(word.ie());
    (b / 4096 + carry + ie) % 4 * 4096 + t
}

/// L, the length's mantissa.
#[tactic(auto, unfolding(crate::specs::Mantissa::length_mantissa))]
pub(crate) fn length_bits(word: CapWord) -> u64
    ensures value { result ≡ length_mantissa word }
    ensures range { result < 2 ^ 14 }
{
    (top_bits(word) + 16384 - base_bits(word)) % 16384
}

/// How far the address lies past the beginning of its window.
#[tactic(auto, unfolding(crate::specs::Window::place_in_window))]
fn place(e: u32, b: u64, address: u64) -> u128
    requires exponent { e ≤ 50 }
    requires mantissa { b < 2 ^ 14 }
    ensures value { result ≡ place_in_window e b address }
    ensures range { result < 2 ^ 64 }
{
    let eighth = step(e);
    (u128::from(address) + eighth + u128::from(8 - b / 2048) * eighth) % (8 * eighth)
}

/// The base that these mantissas give.
#[tactic(auto, unfolding(crate::specs::Window::decoded_base))]
fn base_at(e: u32, b: u64, address: u64) -> u64
    requires exponent { e ≤ 52 }
    requires mantissa { b < 2 ^ 14 }
    ensures { result ≡ decoded_base e b address }
{
    let base = if e <= 50 {
        let from_start = step(e) + u128::from(b % 2048) * power(e);
        u128::from(address) + power(64) - place(e, b, address) + from_start
    } else {
        u128::from(b) * power(e)
    };
    (base % power(64)) as u64
}

/// The top that these mantissas give, below 2^65.
#[tactic(auto, unfolding(crate::specs::Window::decoded_top))]
fn top_at(e: u32, b: u64, l: u64, address: u64) -> u128
    requires exponent { e ≤ 52 }
    requires mantissa { b < 2 ^ 14 }
    requires length { l < 2 ^ 14 }
    ensures { result ≡ decoded_top e b l address }
{
    if e <= 50 {
        u128::from(base_at(e, b, address)) + u128::from(l) * power(e)
    } else {
        u128::from(b + l) * power(e) % (2 * power(64))
    }
}

/// The base that a word decodes to.
#[tactic(auto, unfolding(crate::specs::Window::base_of_word))]
pub(crate) fn base(word: CapWord) -> u64
    ensures { result ≡ base_of_word word }
{
    base_at(exponent(word), base_bits(word), word.address())
}

/// The top that a word decodes to, below 2^65.
#[tactic(auto, unfolding(crate::specs::Window::top_of_word))]
pub(crate) fn top(word: CapWord) -> u128
    ensures value { result ≡ top_of_word word }
    ensures range { result < 2 ^ 65 }
{
    top_at(
        exponent(word),
        base_bits(word),
        length_bits(word),
        word.address(),
    )
}
