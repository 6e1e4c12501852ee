//! What expressions are worth.
ghost use Rattle.std.specs.Prelude.{◌≡◌, Some, pos, ◌+ℤ◌, ◌-ℤ◌, ◌<◌};
ghost use Rattle.asm_lines.specs.Seen.{seen_expression};
ghost use Rattle.assembler.specs.Values.{value_of};
ghost use Rattle.assembler.specs.Worth.{worth};

use crate::labels::Labels;
use asm_lines::{Expression, is_dot};

/// What an expression is worth.
#[derive(Clone, Copy)]
pub(crate) enum Worth {
    /// No line defines its name.
    Unknown,
    /// It is below -2^63, or 2^64 or more.
    Beyond,
    /// A number from -2^63 to 2^64 - 1.
    Known(i128),
}

/// The least value below zero that is in the limits, without its sign.
const MOST_BELOW: u128 = 1 << 63;

/// The least value that is beyond the limits.
const END: u128 = 1 << 64;

/// A number below zero.
fn below_zero(amount: u128) -> Worth
    requires { 0 < amount }
    ensures { result ≡ worth (Some (pos 0 -ℤ pos amount)) }
{
    if amount <= MOST_BELOW {
        Worth::Known(-(amount as i128))
    } else {
        Worth::Beyond
    }
}

/// A number that is not below zero.
fn not_below_zero(amount: u128) -> Worth
    ensures { result ≡ worth (Some (pos amount)) }
{
    if amount < END {
        Worth::Known(amount as i128)
    } else {
        Worth::Beyond
    }
}

/// A place with a number added.
fn sum(base: u128, offset: i128) -> Worth
    ensures { result ≡ worth (Some (pos base +ℤ offset)) }
{
    let amount = offset.unsigned_abs();
    if offset >= 0 {
        match base.checked_add(amount) {
            Some(sum) => not_below_zero(sum),
            None => Worth::Beyond,
        }
    } else if base >= amount {
        not_below_zero(base - amount)
    } else {
        below_zero(amount - base)
    }
}

/// What an expression of a statement at a place is worth.
#[tactic(auto, unfolding(crate::specs::Values::value_of))]
pub(crate) fn value(labels: &Labels, here: u128, expression: &Expression<'_>) -> Worth
    ensures { result ≡ worth (value_of labels.now here (seen_expression expression.now)) }
{
    match expression.name {
        None => sum(0, expression.offset),
        Some(name) if is_dot(name) => sum(here, expression.offset),
        Some(name) => match labels.value(name) {
            Some(place) => sum(place, expression.offset),
            None => Worth::Unknown,
        },
    }
}
