//! The numbers that are typed as words.

ghost use Rattle.std.specs.Prelude.{◌≡◌, ◌≤◌, ◌<◌, ◌+◌, ◌*◌, ◌^◌, IfNone, IfSome};
ghost use Rattle.std.specs.Char.{digit_value};
ghost use Rattle.command_line.specs.CommandLine.{are_numerals, count_in, is_grouped, is_grouped_after, number_after, number_in, ungrouped};
ghost use Rattle.command_line.specs.CommandLine.{written_number};
ghost use Rattle.std.specs.Str.Parse.{without_leading_plus};

/// What a byte is worth as a digit; 36 of any other byte.
fn digit_value(byte: u8) -> u8
    ensures value { result ≡ digit_value byte }
    ensures most { result ≤ 36 }
{
    match byte {
        b'0'..=b'9' => byte - b'0',
        b'A'..=b'Z' => byte - b'A' + 10,
        b'a'..=b'z' => byte - b'a' + 10,
        _ => 36,
    }
}

/// Whether each `_` stands between two digits, after a digit or at the beginning; there is some digit.
fn is_grouped_after(digit: bool, digits: &[u8]) -> bool
    ensures { result ≡ is_grouped_after digit digits.now }
{
    match digits {
        [] => digit,
        [b'_', rest @ ..] => digit && is_grouped_after(false, rest),
        [_, rest @ ..] => is_grouped_after(true, rest),
    }
}

/// Whether there is some digit, and each `_` stands between two.
pub(crate) fn is_grouped(digits: &[u8]) -> bool
    ensures { result ≡ is_grouped digits.now }
{
    is_grouped_after(false, digits)
}

/// Whether all but each `_` are digits.
pub(crate) fn are_numerals(digits: &[u8], radix: u8) -> bool
    ensures { result ≡ are_numerals radix (ungrouped digits.now) }
{
    match digits {
        [] => true,
        [b'_', rest @ ..] => are_numerals(rest, radix),
        [digit, rest @ ..] => digit_value(*digit) < radix && are_numerals(rest, radix),
    }
}

/// A number with one more digit, if that is below 2^64.
fn with_digit(number: u64, digit: u8, radix: u8) -> Option<u64>
    ensures some { IfSome result (λ next. next ≡ number * radix + digit) }
    ensures none { IfNone result (2 ^ 64 ≤ number * radix + digit) }
{
    let next = u128::from(number) * u128::from(radix) + u128::from(digit);
    if next >> 64 == 0 {
        Some(next as u64)
    } else {
        None
    }
}

/// The number below 2^64 that digits write which follow those of another.
#[tactic(auto, using(crate::proofs::Found::past_most))]
fn number_after(number: u64, digits: &[u8], radix: u8) -> Option<u64>
    requires { 1 ≤ radix }
    ensures { result ≡ number_after radix number (ungrouped digits.now) }
{
    match digits {
        [] => Some(number),
        [b'_', rest @ ..] => number_after(number, rest, radix),
        [digit, rest @ ..] => {
            let digit = digit_value(*digit);
            if digit >= radix {
                return None;
            }
            match with_digit(number, digit, radix) {
                Some(next) => number_after(next, rest, radix),
                None => None,
            }
        }
    }
}

/// The number below 2^64 that digits write, with `_` between them or not. A plus before them is no digit.
#[tactic(auto, unfolding(crate::specs::CommandLine::number_in))]
fn number_in(digits: &[u8], radix: u8) -> Option<u64>
    requires { 1 ≤ radix }
    ensures { result ≡ number_in radix digits.now }
{
    if is_grouped(digits) {
        number_after(0, digits, radix)
    } else {
        None
    }
}

/// The number below 2^64 that a word is: hexadecimal digits after `0x`, or else decimal digits, with `_` between digits or not.
#[tactic(auto, unfolding(crate::specs::CommandLine::written_number))]
pub(crate) fn written_number(word: &str) -> Option<u64>
    ensures { result ≡ written_number word.now }
{
    match word.strip_prefix("0x") {
        Some(digits) => number_in(digits.as_bytes(), 16),
        None => number_in(word.as_bytes(), 10),
    }
}

/// The bytes of a text without a leading plus.
pub(crate) fn without_plus(text: &[u8]) -> &[u8]
    ensures { result.now ≡ without_leading_plus text.now }
{
    match text {
        [b'+', rest @ ..] => rest,
        _ => text,
    }
}

/// The number below 2^64 that a word is which has limits: hexadecimal digits after `0x`, or else decimal digits, with a plus before them
/// or not; and with `_` between digits or not.
#[tactic(auto, unfolding(crate::specs::CommandLine::count_in))]
pub(crate) fn count_in(word: &str) -> Option<u64>
    ensures { result ≡ count_in word.now }
{
    match word.strip_prefix("0x") {
        Some(digits) => number_in(digits.as_bytes(), 16),
        None => number_in(without_plus(word.as_bytes()), 10),
    }
}
