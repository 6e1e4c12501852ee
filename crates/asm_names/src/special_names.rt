ghost use Rattle.std.specs.Prelude.{◌≡◌, ◌<◌, IfSome, map, option_map};
ghost use Rattle.asm_names.specs.SpecialNames.{csr_name as csr_name_of, csr_named as csr_of, number_in, name_in};
ghost use Rattle.asm_names.specs.SpecialNames.{scr_name as scr_name_of, scr_named as scr_of};

use base::{CSRS, SPECIAL_REGISTERS, SpecialRegister};

/// The number of the control and status register that a text names, below 4096, or none.
#[tactic(auto, unfolding(crate::specs::SpecialNames::csr_named))]
pub fn csr_named(text: &[u8]) -> Option<u16>
    ensures value { result ≡ csr_of text.now }
    ensures below { IfSome result (λ n. n < 4096) }
{
    number_in(&CSRS, text)
}

/// The name of the control and status register of a number, or none.
#[tactic(auto, unfolding(crate::specs::SpecialNames::csr_name))]
pub fn csr_name(number: u16) -> Option<&'static str>
    ensures { option_map (λ name. name.now) result ≡ csr_name_of number }
{
    name_in(&CSRS, number)
}

/// The number of the special capability register that a text names, below 32, or none.
#[tactic(auto, unfolding(crate::specs::SpecialNames::scr_named))]
pub fn scr_named(text: &[u8]) -> Option<u8>
    ensures value { result ≡ scr_of text.now }
    ensures below { IfSome result (λ n. n < 32) }
{
    match number_in(&SPECIAL_REGISTERS, text) {
        Some(n) => Some(n as u8),
        None => None,
    }
}

/// The name of the special capability register of a number, or none.
#[tactic(auto, unfolding(crate::specs::SpecialNames::scr_name))]
pub fn scr_name(number: u8) -> Option<&'static str>
    ensures { option_map (λ name. name.now) result ≡ scr_name_of number }
{
    name_in(&SPECIAL_REGISTERS, number as u16)
}

/// The number that a table gives a name.
fn number_in(names: &[SpecialRegister], text: &[u8]) -> Option<u16>
    ensures { result ≡ number_in (map (λ r. (r.0, r.1.now)) names.now) text.now }
{
    let (first, rest) = names.split_first()?;
    if first.1.as_bytes() == text {
        Some(first.0)
    } else {
        number_in(rest, text)
    }
}

/// The name that a table gives a number.
fn name_in(names: &[SpecialRegister], number: u16) -> Option<&'static str>
    ensures { option_map (λ name. name.now) result ≡ name_in (map (λ r. (r.0, r.1.now)) names.now) number }
{
    let (first, rest) = names.split_first()?;
    if first.0 == number {
        Some(first.1)
    } else {
        name_in(rest, number)
    }
}
