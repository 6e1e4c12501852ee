//! The text of a value, and registers with their new values.
ghost use Rattle.std.specs.Prelude.{◌≡◌, ◌≤◌, length};
ghost use Rattle.arrayvec.specs.ArrayString.{array_string_len};
ghost use Rattle.explain.specs.EffectText.{register_text, shown_csr, shown_special, written_first, written_or};
ghost use Rattle.explain.specs.ValueText.{digit, shown_value};

use arrayvec::ArrayString;
use asm_names::{csr_name, register_name, scr_name};
use cap_bounds::CapRep;
use cap_rights::Perms;
use texts::Piece::{Hexadecimal, Text};
use texts::{fill, pieces, text};

/// A truth value as a digit.
fn digit(flag: bool) -> &'static str
    ensures text { result.now ≡ digit flag }
    ensures length { length result.now ≡ 1 }
{
    if flag { "1" } else { "0" }
}

/// The text of every field of a value, as `v:1 a:0000000080001000 b:..`: tag, address, base, top, the permissions as CGetPerm gives
/// them, flag and type. It has 81 bytes.
#[tactic(auto, unfolding(crate::specs::ValueText::shown_value), using(crate::proofs::Lengths::length_shown_value))]
pub fn value_text<C: CapRep>(value: C) -> ArrayString<96>
    ensures text { result.bytes ≡ shown_value (C.value value) }
    ensures length { array_string_len result ≡ 81 }
{
    let perms = Perms::from_bits(value.perms()).hardware();
    text(&pieces![
        "v:" Text(digit(value.tag())) " a:" Address(value.address()) " b:" Address(value.base())
        " t:" Hexadecimal(17, value.top()) " p:" Hexadecimal(5, u128::from(perms)) " f:"
        Text(digit(value.flag())) " o:" Hexadecimal(5, u128::from(value.otype()))
    ])
}

/// The capability name of a general register.
fn register(n: u8) -> &'static str
    ensures name { result.now ≡ register_text n }
    ensures short { length result.now ≤ 5 }
{
    if n < 32 { register_name(n, true) } else { "" }
}

/// A register's new value; for register 0, where it is lost, another text.
#[tactic(auto, unfolding(crate::specs::EffectText::written_or))]
pub(crate) fn written_or<C: CapRep>(other: &str, rd: u8, value: C) -> ArrayString<96>
    requires { length other.now ≤ 89 }
    ensures text { result.bytes ≡ written_or other.now rd (C.value value) }
    ensures within { array_string_len result ≤ 89 }
{
    if rd == 0 {
        return text(&[Text(other)]);
    }
    let shown = value_text(value);
    text(&[Text(register(rd)), Text(" = "), Text(shown.as_str())])
}

/// A register's new value and a comma; for register 0, where it is lost, nothing.
#[tactic(auto, unfolding(crate::specs::EffectText::written_first, crate::specs::EffectText::written_or))]
pub(crate) fn written_first<C: CapRep>(rd: u8, value: C) -> ArrayString<96>
    ensures text { result.bytes ≡ written_first rd (C.value value) }
    ensures within { array_string_len result ≤ 91 }
{
    let mut part = written_or("", rd, value);
    if rd != 0 {
        fill(&mut part, &[Text(", ")]);
    }
    part
}

/// The name of a special capability register, or its number.
#[tactic(auto, using(disassembler::specs::LengthLaws::scr_name_short))]
pub(crate) fn special_name(number: u8) -> ArrayString<20>
    ensures { result.bytes ≡ shown_special number }
{
    match scr_name(number) {
        Some(name) => text(&[Text(name)]),
        None => text(&[Text("scr "), Hexadecimal(2, u128::from(number))]),
    }
}

/// The name of a control and status register, or its number.
#[tactic(auto, using(disassembler::specs::LengthLaws::csr_name_short))]
pub(crate) fn control_name(number: u16) -> ArrayString<20>
    ensures { result.bytes ≡ shown_csr number }
{
    match csr_name(number) {
        Some(name) => text(&[Text(name)]),
        None => text(&[Text("csr "), Hexadecimal(3, u128::from(number))]),
    }
}
