//! Operands with commas between.
ghost use Rattle.std.specs.Prelude.{◌≡◌, ◌≤◌, ◌+◌, [], get_or, length, IfOk, IsTrue};
ghost use Rattle.asm_lines.specs.Text.{pieces_of};
ghost use Rattle.asm_lines.specs.Statement.{is_in_size, value_fault, values_fault, is_size, is_natural, operand_at, capability_fault};
ghost use Rattle.asm_lines.specs.Seen.{seen_result};
ghost use Rattle.asm_lines.specs.Bounded.{IsOffset};

use crate::fault::LineFault;
use crate::filling::{first_rest, told_fault};
use crate::number::expression;
use crate::parsed::Expression;
use crate::text::split_piece;

/// Whether a number is at least the least signed and at most the greatest unsigned number of 1, 2, 4 or 8 bytes.
pub fn is_in_size(size: u8, number: i128) -> bool
    requires { IsTrue (is_size size) }
    ensures { result ≡ is_in_size size number }
{
    match size {
        1 => number >= -0x80 && number < 0x100,
        2 => number >= -0x8000 && number < 0x1_0000,
        4 => number >= -0x8000_0000 && number < 0x1_0000_0000,
        _ => number >= -0x8000_0000_0000_0000 && number < 0x1_0000_0000_0000_0000,
    }
}

/// What of a value its line decides: its form, and whether a number is in the range of 1, 2, 4 or 8 bytes.
fn value_fault<'a>(size: u8, value: Result<Expression<'a>, LineFault>) -> Option<LineFault>
    requires { IsTrue (is_size size) }
    ensures { result ≡ value_fault (is_in_size size) (seen_result value.entry) }
{
    match value {
        Ok(value) if value.name.is_some() || is_in_size(size, value.offset) => None,
        Ok(_) => Some(LineFault::A3),
        Err(fault) => Some(fault),
    }
}

/// What is wrong with values of 1, 2, 4 or 8 bytes, as far as their line decides it.
pub(crate) fn values_fault(size: u8, operands: &[u8]) -> Option<LineFault>
    requires { IsTrue (is_size size) }
    ensures { result ≡ values_fault size (pieces_of operands.now) }
{
    let mut rest = first_rest(operands);
    let mut fault = None;
    'values: while let Some(text) = rest {
        let (piece, left) = split_piece(text);
        fault = told_fault(fault, value_fault(size, expression(piece)));
        rest = left;
    }
    fault
}

/// The operand at an index between commas; nothing where there is none.
fn piece(operands: &[u8], index: usize) -> &[u8]
    ensures { result.now ≡ get_or (pieces_of operands.now) index [] }
{
    let mut rest = first_rest(operands);
    let mut left = index;
    while let Some(text) = rest {
        let (piece, after) = split_piece(text);
        if left == 0 {
            return piece;
        }
        left -= 1;
        rest = after;
    }
    &[]
}

/// The expression at an index between commas.
pub fn operand_at<'a>(operands: &'a [u8], index: usize) -> Result<Expression<'a>, LineFault>
    ensures value { seen_result result ≡ operand_at index operands.now }
    ensures offset { IfOk result (λ e. IsOffset e.offset) }
{
    expression(piece(operands, index))
}

/// The number of operands between commas.
pub fn operand_count(operands: &[u8]) -> u128
    ensures value { result ≡ length (pieces_of operands.now) }
    ensures bound { result ≤ length operands.now + 1 }
{
    let mut count = 0;
    let mut rest = first_rest(operands);
    while let Some(text) = rest {
        count += 1;
        rest = split_piece(text).1;
    }
    count
}

/// Whether a number is 0 to `most`.
pub fn is_natural(most: u64, number: i128) -> bool
    ensures { result ≡ is_natural most number }
{
    number >= 0 && number <= i128::from(most)
}

/// What of an operand of `.cap` its line decides: its form, and whether a number is 0 to `most`.
fn part_fault(operands: &[u8], index: usize, most: u64) -> Option<LineFault>
    ensures { result ≡ value_fault (is_natural most) (operand_at index operands.now) }
{
    match operand_at(operands, index) {
        Ok(value) if value.name.is_some() || is_natural(most, value.offset) => None,
        Ok(_) => Some(LineFault::A3),
        Err(fault) => Some(fault),
    }
}

/// What is wrong with the operands of `.cap`, as far as their line decides it: the base, the length, the permissions and the flag.
pub(crate) fn capability_fault(operands: &[u8]) -> Option<LineFault>
    ensures { result ≡ capability_fault operands.now }
{
    if operand_count(operands) != 4 {
        return Some(LineFault::A2);
    }
    let flag = part_fault(operands, 3, 1);
    let perms = told_fault(part_fault(operands, 2, 0xFFFF), told_fault(flag, None));
    let length = told_fault(part_fault(operands, 1, u64::MAX), perms);
    told_fault(part_fault(operands, 0, u64::MAX), length)
}
