//! A faulty line, cut into its parts.
ghost use Rattle.std.specs.Prelude.{◌+◌, length};
ghost use Rattle.std.specs.Option.{option_map_or};
ghost use Rattle.std.specs.Iterator.{at_most};

use asm_lines::{first_rest, parts_of, split_piece};

/// The statement of a faulty line.
#[derive(Clone, Copy)]
pub(crate) struct Faulty<'a> {
    /// The whole line.
    pub(crate) line: &'a [u8],
    /// The mnemonic.
    pub(crate) word: &'a [u8],
    /// The operands, with the commas between them.
    pub(crate) operands: &'a [u8],
}

/// Operands between commas, each without white space around it.
#[derive(Clone, Copy)]
pub(crate) struct Operands<'a>(Option<&'a [u8]>);

impl<'a> Iterator for Operands<'a> {
    type Item = &'a [u8];

    ghost remaining = { λ s. at_most (option_map_or (λ t. length t.now + 1) s.0 0) };

    fn next(&mut self) -> Option<&'a [u8]> {
        let (operand, rest) = split_piece(self.0?);
        self.0 = rest;
        Some(operand)
    }
}

/// A part of a line that is ASCII, as a text.
pub(crate) fn shown(part: &[u8]) -> &str {
    str::from_utf8(part).unwrap_or("")
}

impl<'a> Faulty<'a> {
    pub(crate) fn new(line: &'a [u8]) -> Faulty<'a> {
        let parts = parts_of(line);
        Faulty {
            line,
            word: parts.mnemonic.text,
            operands: parts.operands.text,
        }
    }

    /// The statement with another mnemonic.
    pub(crate) fn with_word(self, word: &'a [u8]) -> Faulty<'a> {
        Faulty { word, ..self }
    }

    pub(crate) fn each_operand(self) -> Operands<'a> {
        Operands(first_rest(self.operands))
    }

    pub(crate) fn operand_count(self) -> usize {
        self.each_operand().count()
    }

    /// The part that a template names by a byte after `$`.
    pub(crate) fn part(self, name: u8) -> &'a [u8] {
        match name {
            b'0' => self.word,
            b'1'..=b'9' => self.operand(usize::from(name - b'1')),
            b'*' => self.operands,
            b'-' => match self.operands {
                [rest @ .., _] => rest,
                [] => &[],
            },
            _ => &[],
        }
    }

    /// The operand at an index; nothing where there is none.
    fn operand(self, index: usize) -> &'a [u8] {
        self.each_operand().nth(index).unwrap_or(&[])
    }
}
