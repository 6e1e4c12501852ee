//! The lines of a text that place instructions.
ghost use Rattle.std.specs.Prelude.{◌≡◌, ◌++◌, IfOk, OnOk, take};
ghost use Rattle.asm_lines.specs.SeenParts.{seen_parts};
ghost use Rattle.fault_details.specs.Detail.{after_lines as lines_after, line_at};
ghost use Rattle.fault_details.specs.SourceLines.{after_mnemonic, instruction_in, line_of, shown, shown_byte, source_lines, source_place};

use crate::reading::after_lines;
use asm_lines::{Class, Parts, before, parts_of};
use assembler::PlacedLine;
use std::alloc::{AllocError, Global};
use std::marker::Model;

/// How many bytes of a name or a line are shown.
const MOST_SHOWN: usize = 100;

/// A byte as it is shown.
fn shown_byte(byte: u8) -> u8
    ensures { result ≡ shown_byte byte }
{
    if byte == b'\t' {
        b' '
    } else if 32 <= byte && byte <= 126 {
        byte
    } else {
        b'?'
    }
}

/// The bytes of a name or a line that are shown.
fn front(text: &[u8]) -> &[u8]
    ensures { result.now ≡ take 100 text.now }
{
    match text.get(..MOST_SHOWN) {
        Some(front) => front,
        None => text,
    }
}

/// Appends what is shown of a name or a line.
fn append_shown(made: &mut Vec<u8>, text: &[u8]) -> Result<(), AllocError>
    ensures { OnOk result (made.new.items ≡ made.old.items ++ shown text.now) }
{
    for byte in front(text) {
        made.push(shown_byte(*byte))?;
    }
    Ok(())
}

/// Appends the operands of an instruction after a blank, where it has some.
fn append_operands(made: &mut Vec<u8>, operands: &[u8]) -> Result<(), AllocError>
    ensures { OnOk result (made.new.items ≡ made.old.items ++ after_mnemonic operands.now) }
{
    match operands {
        [] => Ok(()),
        [_, ..] => {
            append_pieces!(made, " ")?;
            append_shown(made, operands)
        }
    }
}

/// Appends the instruction of a line by its parts.
fn append_instruction(made: &mut Vec<u8>, parts: Parts<'_>) -> Result<(), AllocError>
    ensures { OnOk result (made.new.items ≡ made.old.items ++ instruction_in (seen_parts parts.entry)) }
{
    append_shown(made, parts.mnemonic.text)?;
    append_operands(made, parts.operands.text)
}

/// Appends where a line stands, and its instruction.
fn append_place(made: &mut Vec<u8>, name: &[u8], number: u64, line: &[u8]) -> Result<(), AllocError>
    ensures { OnOk result (made.new.items ≡ made.old.items ++ source_place name.now number line.now) }
{
    append_shown(made, name)?;
    append_pieces!(made, ":" Decimal(number) ": ")?;
    append_instruction(made, parts_of(line))
}

/// Appends the line of a placed instruction, of which this is the text.
fn append_line(
    made: &mut Vec<u8>,
    name: &[u8],
    placed: PlacedLine,
    line: &[u8],
) -> Result<(), AllocError>
    ensures { OnOk result (made.new.items ≡ made.old.items ++ line_of name.now placed line.now) }
{
    append_pieces!(made, Hexadecimal(16, placed.place) " ")?;
    append_place(made, name, placed.line, line)?;
    append_pieces!(made, "\n")
}

/// A text of which lines are read, mostly one after the other.
#[derive(Drop)]
struct Lines<'a> {
    text: &'a [u8],
    /// How many lines stand before the rest.
    skipped: u64,
    rest: &'a [u8],
    ghost follows: { rest.now ≡ lines_after skipped text.now },
}

impl<'a> Model for Lines<'a> {
    ghost use Rattle.std.specs.Prelude.{List, ℕ};

    ghost Value = { List ℕ };

    ghost view = { λ l. l.text.now };
}

impl<'a> Lines<'a> {
    /// The lines of a text.
    fn new(text: &'a [u8]) -> Self
        ensures { result ≡ text.entry.now }
    {
        Lines {
            text,
            skipped: 0,
            rest: text,
        }
    }

    /// What stands after so many lines.
    fn after(&self, count: u64) -> &'a [u8]
        ensures { result.now ≡ lines_after count self.now }
    {
        if count < self.skipped {
            after_lines(self.text, count)
        } else {
            after_lines(self.rest, count - self.skipped)
        }
    }

    /// The line of a number, counted from 1.
    fn line(&mut self, number: u64) -> &'a [u8]
        ensures line { result.now ≡ line_at number self.old }
        ensures text { self.new ≡ self.old }
    {
        let count = number.saturating_sub(1);
        let rest = self.after(count);
        self.skipped = count;
        self.rest = rest;
        before(rest, Class::Not(b'\n'))
    }
}

/// A line for each placed instruction of a text: its address in 16 digits, a blank, and where it stands and what it says, as
/// `mem.s:41: csd t0, 24(cs4)`: the file, the number of the line, and its instruction. Of the name and of the operands 100 bytes are shown.
///
/// # Errors
///
/// Out of memory.
pub fn source_lines(
    alloc: Global,
    name: &[u8],
    text: &[u8],
    placed: &[PlacedLine],
) -> Result<Vec<u8>, AllocError>
    ensures { IfOk result (λ made. made.items ≡ source_lines name.now text.now placed.now) }
{
    let mut made = Vec::new(alloc);
    let mut lines = Lines::new(text);
    for one in placed {
        append_line(&mut made, name, *one, lines.line(one.line))?;
    }
    Ok(made)
}
