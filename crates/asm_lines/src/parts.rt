//! Where the parts of a line stand.
ghost use Rattle.std.specs.Prelude.{◌≡◌, ◌≤◌, ◌<◌, ◌∷◌, length, option_map, IfSome};
ghost use Rattle.asm_lines.specs.Text.{label_of};
ghost use Rattle.asm_lines.specs.Parts as spec;
ghost use Rattle.asm_lines.specs.SeenParts.{HasRoom, seen_part, seen_parts};

use crate::class::{Class, run_length};
use crate::comment::uncommented;
use crate::text::{label, mnemonic, operands, statement_text, trimmed};

/// A part of a line.
#[derive(Clone, Copy)]
pub struct Part<'a> {
    /// How many bytes of the line stand before it.
    pub before: usize,
    pub text: &'a [u8],
}

/// The parts of a line, each without white space around it.
#[derive(Clone, Copy)]
pub struct Parts<'a> {
    /// The name that the line defines.
    pub label: Option<Part<'a>>,
    pub mnemonic: Part<'a>,
    /// The operands, with the commas between them.
    pub operands: Part<'a>,
}

impl<'a> Part<'a> {
    /// The part without the white space around it.
    fn trimmed(self) -> Part<'a>
        requires { HasRoom self }
        ensures value { seen_part result ≡ spec.trimmed_part (seen_part self.entry) }
        ensures room { HasRoom result }
    {
        Part {
            before: self.before + run_length(self.text, Class::Blank),
            text: trimmed(self.text),
        }
    }

    /// What stands at the end of the part.
    fn ending(self, rest: &'a [u8]) -> Part<'a>
        requires room { HasRoom self }
        requires shorter { length rest.now ≤ length self.text.now }
        ensures value { seen_part result ≡ spec.ending (seen_part self.entry) rest.now }
        ensures room { HasRoom result }
    {
        Part {
            before: self.before + (self.text.len() - rest.len()),
            text: rest,
        }
    }

    /// The operands of the part, to be split off one after another: none in no text.
    pub fn operands(self) -> Option<Part<'a>>
        requires { HasRoom self }
        ensures parts { spec.parts_left (option_map seen_part result) ≡ spec.operand_parts (seen_part self.entry) }
        ensures room { IfSome result HasRoom }
    {
        if self.text.is_empty() {
            None
        } else {
            Some(self)
        }
    }

    /// The first operand between commas, without white space around it, and what follows its comma, if there is one.
    pub fn split(self) -> (Part<'a>, Option<Part<'a>>)
        requires { HasRoom self }
        ensures parts { spec.parts_between (seen_part self.entry) ≡ seen_part result.0 ∷ spec.parts_left (option_map seen_part result.1) }
        ensures room { IfSome result.1 HasRoom }
        ensures shorter { IfSome result.1 (λ rest. length rest.text.now < length self.entry.text.now) }
    {
        let end = run_length(self.text, Class::Not(b','));
        let first = Part {
            before: self.before,
            text: &self.text[..end],
        };
        if end < self.text.len() {
            let rest = Part {
                before: self.before + end + 1,
                text: &self.text[end + 1..],
            };
            (first.trimmed(), Some(rest))
        } else {
            (first.trimmed(), None)
        }
    }

    /// A label that a part begins with.
    fn label(self) -> Option<Part<'a>>
        ensures { option_map seen_part result ≡ option_map (spec.part self.entry.before) (label_of self.entry.text.now) }
    {
        let text = label(self.text)?;
        Some(Part {
            before: self.before,
            text,
        })
    }
}

/// The parts of a statement, by the label before it.
fn statement_parts<'a>(label: Option<Part<'a>>, statement: Part<'a>) -> Parts<'a>
    requires { HasRoom statement }
    ensures value { seen_parts result ≡ spec.statement_parts (option_map seen_part label.entry) (seen_part statement.entry) }
    ensures room { HasRoom result.operands }
{
    Parts {
        label,
        mnemonic: Part {
            before: statement.before,
            text: mnemonic(statement.text),
        },
        operands: statement.ending(operands(statement.text)),
    }
}

/// The parts of a line, which is without its line feed and has no comment.
fn parts_of_text<'a>(text: Part<'a>) -> Parts<'a>
    requires { HasRoom text }
    ensures value { seen_parts result ≡ spec.parts_of_text (seen_part text.entry) }
    ensures room { HasRoom result.operands }
{
    statement_parts(text.label(), text.ending(statement_text(text.text)))
}

/// The parts of a line, which is without its line feed.
#[tactic(auto, unfolding(crate::specs::Parts::parts_of))]
pub fn parts_of<'a>(line: &'a [u8]) -> Parts<'a>
    ensures value { seen_parts result ≡ spec.parts_of line.now }
    ensures room { HasRoom result.operands }
{
    let text = Part {
        before: 0,
        text: uncommented(line),
    };
    parts_of_text(text.trimmed())
}
