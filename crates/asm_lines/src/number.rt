//! Numbers and expressions.
ghost use Rattle.std.specs.Prelude.{◌≡◌, ◌≤◌, ◌<◌, ◌^◌, pos, neg_ℤ, Some, SomeIff, IfOk, IsTrue, ◌==◌, if◌then◌else◌};
ghost use Rattle.std.specs.Str.Parse.{digits_value};
ghost use Rattle.asm_lines.specs.Number.{is_numeral, is_in_limits, is_hexadecimal, is_negative, limited, number_of, named_expression};
ghost use Rattle.asm_lines.specs.Number.{expression_of, expression};
ghost use Rattle.asm_lines.specs.Seen.{seen_expression, seen_result};
ghost use Rattle.asm_lines.specs.Bounded.{IsOffset};

use crate::class::{Class, begins_name, digit_value, run_length};
use crate::fault::LineFault;
use crate::parsed::Expression;
use crate::text::{is_name, trimmed_end, trimmed_start};

/// The number that digits write, if it is below 2^64.
fn value(digits: &[u8], radix: u32) -> Option<u64>
    requires { 2 ≤ radix }
    ensures { SomeIff result (digits_value radix digits.now < 2 ^ 64) (digits_value radix digits.now) }
{
    let mut value = 0u64;
    for digit in digits {
        let digit = u64::from(digit_value(*digit));
        value = value.checked_mul(u64::from(radix))?.checked_add(digit)?;
    }
    Some(value)
}

fn is_numeral(digits: &[u8], radix: u32) -> bool
    ensures { result ≡ is_numeral radix digits.now }
{
    !digits.is_empty() && run_length(digits, Class::Digit(radix)) == digits.len()
}

/// A number, if it is at least -2^63 and below 2^64.
fn limited(value: i128) -> Result<i128, LineFault>
    ensures { result ≡ limited value }
{
    if value < -0x8000_0000_0000_0000 || value >= 0x1_0000_0000_0000_0000 {
        Err(LineFault::A3)
    } else {
        Ok(value)
    }
}

fn positive(digits: &[u8], radix: u32) -> Result<i128, LineFault>
    requires { 2 ≤ radix }
    ensures { result ≡ limited (pos (digits_value radix digits.now)) }
{
    match value(digits, radix) {
        Some(value) => Ok(i128::from(value)),
        None => Err(LineFault::A3),
    }
}

fn negative(digits: &[u8]) -> Result<i128, LineFault>
    ensures { result ≡ limited (neg_ℤ (pos (digits_value 10 digits.now))) }
{
    match value(digits, 10) {
        Some(value) => limited(-i128::from(value)),
        None => Err(LineFault::A3),
    }
}

fn is_hexadecimal(text: &[u8]) -> bool
    ensures { result ≡ is_hexadecimal text.now }
{
    text.len() >= 2 && text[0] == b'0' && text[1] == b'x'
}

fn is_negative(text: &[u8]) -> bool
    ensures { result ≡ is_negative text.now }
{
    text.first() == Some(&b'-')
}

/// A number: decimal digits, with a minus before them or not, or `0x` and hexadecimal digits.
///
/// A2 if it is not one, and else A3 where it is below -2^63 or at least 2^64.
#[tactic(auto, unfolding(crate::specs::Number::number_of))]
pub(crate) fn number(text: &[u8]) -> Result<i128, LineFault>
    ensures value { result ≡ number_of text.now }
    ensures limits { IfOk result (λ n. IsTrue (is_in_limits n)) }
{
    if is_hexadecimal(text) {
        if !is_numeral(&text[2..], 16) {
            return Err(LineFault::A2);
        }
        return positive(&text[2..], 16);
    }
    if is_negative(text) {
        if !is_numeral(&text[1..], 10) {
            return Err(LineFault::A2);
        }
        return negative(&text[1..]);
    }
    if !is_numeral(text, 10) {
        return Err(LineFault::A2);
    }
    positive(text, 10)
}

/// What a name, with a number added where a plus stands before it and taken away where a minus does, says.
fn named<'a>(name: &'a [u8], sign: u8, amount: i128) -> Expression<'a>
    requires { IsTrue (is_in_limits amount) }
    ensures value { seen_expression result ≡ expression (Some name.now) (if sign == 43 then amount else neg_ℤ amount) }
    ensures offset { IsOffset result.offset }
{
    let offset = if sign == b'+' { amount } else { -amount };
    Expression {
        name: Some(name),
        offset,
    }
}

#[tactic(auto, unfolding(crate::specs::Number::named_expression))]
fn named_expression<'a>(text: &'a [u8]) -> Result<Expression<'a>, LineFault>
    ensures value { seen_result result ≡ named_expression text.now }
    ensures offset { IfOk result (λ e. IsOffset e.offset) }
{
    let sign = run_length(text, Class::Unsigned);
    let name = trimmed_end(&text[..sign]);
    if !is_name(name) {
        return Err(LineFault::A2);
    }
    if sign == text.len() {
        return Ok(Expression {
            name: Some(text),
            offset: 0,
        });
    }
    let amount = number(trimmed_start(&text[sign + 1..]))?;
    Ok(named(name, text[sign], amount))
}

/// An expression, without white space around it: a number, a name, or a name plus or minus a number.
///
/// A2 if it is not one, and else A3 where its number is below -2^63 or at least 2^64.
#[tactic(auto, unfolding(crate::specs::Number::expression_of))]
pub fn expression<'a>(text: &'a [u8]) -> Result<Expression<'a>, LineFault>
    ensures value { seen_result result ≡ expression_of text.now }
    ensures offset { IfOk result (λ e. IsOffset e.offset) }
{
    if !text.is_empty() && begins_name(text[0]) {
        return named_expression(text);
    }
    let offset = number(text)?;
    Ok(Expression { name: None, offset })
}
