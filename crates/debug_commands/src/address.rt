//! Addresses as they are written.
ghost use Rattle.std.specs.Prelude.{◌≡◌, Some};
ghost use Rattle.asm_lines.specs.Bounded.{IsOffset};
ghost use Rattle.asm_lines.specs.Number.{expression_of};
ghost use Rattle.debug_commands.specs.Address as spec;

use asm_lines::{Expression, expression};
use symbols::Symbols;

/// So far from an address, where that is one of 64 bits.
fn moved(address: u64, offset: i128) -> Option<u64>
    requires { IsOffset offset }
    ensures { result ≡ spec.moved offset (Some address) }
{
    let sum = i128::from(address) + offset;
    if sum < 0 || sum > i128::from(u64::MAX) {
        return None;
    }
    Some(sum as u64)
}

/// So far from a label as an expression says.
fn beside_label(symbols: &Symbols, text: &[u8]) -> Option<u64>
    ensures { result ≡ spec.beside_label symbols.now (expression_of text.now) }
{
    match expression(text) {
        Ok(
            Expression {
                name: Some(name),
                offset,
            },
        ) => moved(symbols.address_of(name)?, offset),
        _ => None,
    }
}

/// The address that a text writes: a number, a label, or a label with a number added to it or taken away from it.
pub(crate) fn address_at(symbols: &Symbols, text: &[u8]) -> Option<u64>
    ensures { result ≡ spec.address_at symbols.now text.now }
{
    match symbols.address_in(text) {
        Some(address) => Some(address),
        None => beside_label(symbols, text),
    }
}
