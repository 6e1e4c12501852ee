//! Which line of a text each placed instruction comes from.
ghost use Rattle.std.specs.Prelude.{◌≡◌, ◌<◌, ◌^◌, ◌++◌, OnOk};
ghost use Rattle.std.specs.Option.{option_map};
ghost use Rattle.asm_lines.specs.Seen.{seen_instruction, seen_statement};
ghost use Rattle.assembler.specs.Placed.{instruction_lines, statement_lines};

use asm_lines::{Instruction, Statement};
use std::alloc::AllocError;

/// A placed instruction: its address, and the number of its line, counted from 1.
#[derive(Clone, Copy, Debug, PartialEq, Eq)]
pub struct PlacedLine {
    pub place: u128,
    pub line: u64,
}

/// Appends the instructions that an instruction of a line places.
fn push_instruction(
    placed: &mut Vec<PlacedLine>,
    line: u64,
    place: u128,
    instruction: &Instruction<'_>,
) -> Result<(), AllocError>
    requires { place < 2 ^ 100 }
    ensures { OnOk result (placed.new.items ≡ placed.old.items ++ instruction_lines line place (seen_instruction instruction.now)) }
{
    placed.push(PlacedLine { place, line })?;
    match instruction {
        Instruction::Row(_, _) => Ok(()),
        Instruction::Load { .. } => {
            placed.push(PlacedLine {
                place: place + 4,
                line,
            })?;
            Ok(())
        }
    }
}

/// Appends the instructions that a line's statement places, if there is one.
pub(crate) fn push_statement(
    placed: &mut Vec<PlacedLine>,
    line: u64,
    place: u128,
    statement: &Option<Statement<'_>>,
) -> Result<(), AllocError>
    requires { place < 2 ^ 100 }
    ensures { OnOk result (placed.new.items ≡ placed.old.items ++ statement_lines line place (option_map seen_statement statement.now)) }
{
    match statement {
        Some(Statement::Instruction(instruction)) => {
            push_instruction(placed, line, place, instruction)
        }
        _ => Ok(()),
    }
}
