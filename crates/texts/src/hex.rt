ghost use Rattle.std.specs.Prelude.{◌≡◌, ◌<◌, ◌≤◌, false, length};
ghost use Rattle.std.specs.Fmt.{digit_glyph, digits};
ghost use Rattle.arrayvec.specs.ArrayString.{array_string_len};
ghost use Rattle.texts.specs.Hex.{hex_of};

use arrayvec::ArrayString;

/// The lowest `width` digits of `n`, at most 17, in lower-case hexadecimal with leading zeros.
///
/// All are written before they become a text: to append a character to a text costs several times what it takes to write its digit.
#[tactic(auto, using(crate::specs::HexLaws::length_of_hex))]
pub fn hex_digits(n: u128, width: usize) -> ArrayString<17>
    requires { width ≤ 17 }
    ensures text { result.bytes ≡ hex_of width n }
    ensures length { array_string_len result ≡ width }
{
    let mut digits = [0; 17];
    write_hex(&mut digits, n);
    let mut text = ArrayString::new();
    // SAFETY: digits are ASCII.
    text.push_str(unsafe { str::from_utf8_unchecked(&digits[17 - width..]) });
    text
}

/// Writes the lowest digits of `n`, as many as there are places.
#[tactic(auto, unfolding(crate::specs::Hex::hex_of))]
fn write_hex(digits: &mut [u8], n: u128)
    ensures { digits.new ≡ hex_of (length digits.old) n }
{
    if let Some((last, before)) = digits.split_last_mut() {
        *last = glyph((n % 16) as u8);
        write_hex(before, n / 16);
    }
}

/// The digits of `n` in lower-case hexadecimal, without leading zeros.
pub fn short_digits(n: u64) -> ArrayString<17>
    ensures text { result.bytes ≡ digits 16 false n }
    ensures length { array_string_len result ≤ 16 }
{
    hex_digits(u128::from(n), significant(n))
}

/// How many digits `n` has without leading zeros.
fn significant(n: u64) -> usize
    ensures all { hex_of result n ≡ digits 16 false n }
    ensures within { result ≤ 16 }
{
    if n < 16 { 1 } else { significant(n / 16) + 1 }
}

/// The digit of a number below 16.
fn glyph(digit: u8) -> u8
    requires { digit < 16 }
    ensures { result ≡ digit_glyph false digit }
{
    if digit < 10 {
        b'0' + digit
    } else {
        b'a' + (digit - 10)
    }
}
