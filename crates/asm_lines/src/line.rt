//! Lines.
ghost use Rattle.std.specs.Prelude.{◌≡◌};
ghost use Rattle.asm_lines.specs.Line.{labelled, line_said, line_meaning, RowFits};
ghost use Rattle.asm_lines.specs.Seen.{seen_line};
ghost use Rattle.asm_lines.specs.Bounded.{IsBoundedIfAny};
ghost use Rattle.asm_lines.specs.Seen.{seen_said, seen_rest};

use crate::class::{Class, run_length};
use crate::comment::uncommented;
use crate::fault::LineFault;
use crate::parsed::Parsed;
use crate::statement::{Said, said_by};
use crate::text::{label, mnemonic, operands, statement_text, trimmed};

fn labelled<'a>(label: Option<&'a [u8]>, said: Said<'a>) -> Parsed<'a>
    requires { IsBoundedIfAny said.statement }
    ensures bounds { IsBoundedIfAny result.statement }
    ensures value { seen_line result ≡ labelled (seen_rest label.entry) (seen_said said.entry) }
{
    Parsed {
        label,
        statement: said.statement,
        fault: said.fault,
    }
}

/// What a line says, by its label and what follows.
fn line_said<'a>(label: Option<&'a [u8]>, text: &'a [u8]) -> Parsed<'a>
    ensures bounds { IsBoundedIfAny result.statement }
    ensures value { seen_line result ≡ line_said (seen_rest label.entry) text.now }
{
    if text.is_empty() {
        return labelled(label, Said::nothing());
    }
    labelled(label, said_by(mnemonic(text), operands(text)))
}

/// What a line says: its label, its statement, and the first fault that it decides alone.
///
/// `line` is without its line feed. The fault is the first of these: A8, a byte that cannot be in text; A9, more than 255 bytes;
/// A1, an unknown mnemonic; A2, operands of another form; A3, a number out of range. A line with A8 or A9 has no label and no
/// statement; one with A1 or A2, or with A3 at `.org`, `.align` or `.zero`, has no statement. An instruction without a fault has
/// a word.
pub fn parse_line<'a>(line: &'a [u8]) -> Parsed<'a>
    ensures value { seen_line result ≡ line_meaning line.now }
    ensures fits { RowFits (seen_line result) }
    ensures bounds { IsBoundedIfAny result.statement }
{
    meaning(line)
}

#[tactic(auto, unfolding(crate::specs::Line::line_meaning))]
fn meaning<'a>(line: &'a [u8]) -> Parsed<'a>
    ensures bounds { IsBoundedIfAny result.statement }
    ensures value { seen_line result ≡ line_meaning line.now }
{
    if run_length(line, Class::Plain) < line.len() {
        return labelled(None, Said::fault(LineFault::A8));
    }
    if line.len() > 255 {
        return labelled(None, Said::fault(LineFault::A9));
    }
    let text = trimmed(uncommented(line));
    line_said(label(text), statement_text(text))
}
