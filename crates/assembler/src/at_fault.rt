//! What a fault is about: the operand that has it, the part of the line, and what is known of it.
ghost use Rattle.std.specs.Prelude.{◌≡◌, ◌≤◌, IfSome, IsTrue, option_map};
ghost use Rattle.asm_lines.specs.Line.{line_meaning};
ghost use Rattle.asm_lines.specs.Number.{is_in_limits};
ghost use Rattle.asm_lines.specs.Parts.{parts_left};
ghost use Rattle.asm_lines.specs.Seen.{seen_expression, seen_statement};
ghost use Rattle.asm_lines.specs.SeenParts.{HasRoom, seen_form, seen_part};
ghost use Rattle.assembler.specs.AtFault as spec;

use crate::checks::{distance, operand, part_of, reach_of};
use crate::fault::AsmCode;
use crate::lines::read;
use crate::reason::Reason;
use crate::standing::Standing;
use crate::values::{Worth, value};
use asm_lines::{
    Directive, Expression, Form, Instruction, LineFault, Part, Range, Setting, Statement, Written,
    form_of, is_word, parts_of, wrapped,
};
use isa_rows::Slot;

/// What `la` and `cla` reach.
const LOAD_RANGE: Range = Range {
    least: -0x8000_0000,
    most: 0x7fff_f7ff,
};

/// What a branch or jal reaches.
fn even_range(reach: u32) -> Range
    requires { 2 ≤ reach }
    ensures { result ≡ spec.even_range reach }
{
    let reach = i128::from(reach);
    Range {
        least: -reach,
        most: reach - 2,
    }
}

/// Whether a fault is about an expression of this worth, which has to be in a range.
fn is_faulty(code: AsmCode, range: Range, worth: Worth) -> bool
    ensures { result ≡ spec.is_faulty code range worth }
{
    match (code, worth) {
        (AsmCode::A3, Worth::Known(value)) => value < range.least || range.most < value,
        (AsmCode::A3, Worth::Beyond) | (AsmCode::A5, Worth::Unknown) | (AsmCode::A6, _) => true,
        _ => false,
    }
}

/// What is known of A2, by whether the operands have it.
fn form_reason(is_of_operands: bool, word: &[u8]) -> Reason
    ensures { result ≡ spec.form_reason is_of_operands word.now }
{
    if is_of_operands {
        Reason::Form
    } else if is_word(word, ".entry") {
        Reason::Repeated
    } else {
        Reason::Late
    }
}

impl Standing {
    /// What an expression of the faulty line is worth.
    fn worth(&self, expression: &Expression<'_>) -> Worth
        ensures { result ≡ spec.worth_at self.now (seen_expression expression.now) }
    {
        value(&self.labels, self.builder.place(), expression)
    }

    /// The value of an expression of the faulty line; 0 where it is unknown or beyond all numbers.
    fn number(&self, expression: &Expression<'_>) -> i128
        ensures value { result ≡ spec.number (spec.worth_at self.now (seen_expression expression.now)) }
        ensures limits { IsTrue (is_in_limits result) }
    {
        match self.worth(expression) {
            Worth::Known(value) => value,
            _ => 0,
        }
    }

    /// Whether a fault is about an operand, by the fault that the line alone has.
    fn has_fault(
        &self,
        code: AsmCode,
        fault: Option<LineFault>,
        written: Written,
        text: &[u8],
    ) -> bool
        ensures { result ≡ spec.has_fault code fault self.now written text.now }
    {
        match (fault, written) {
            (Some(LineFault::A2), _) => matches!(written.fault(text), Some(LineFault::A2)),
            (Some(_), _) => matches!(written.fault(text), Some(LineFault::A3)),
            (None, Written::Slot(Slot::Target(_)) | Written::Value(_)) => {
                is_faulty(code, written.range(), self.worth(&operand(text)))
            }
            _ => false,
        }
    }

    /// The first operand of a form that the fault is about: its range, and the part of the line where it is written.
    fn first_in<'a>(
        &self,
        code: AsmCode,
        fault: Option<LineFault>,
        form: Form,
        parts: Option<Part<'a>>,
    ) -> Option<(Range, Part<'a>)>
        requires { IfSome parts HasRoom }
        ensures { option_map (λ found. (found.0, seen_part found.1)) result
            ≡ spec.first_in code fault self.now (seen_form form) (parts_left (option_map seen_part parts.entry)) }
    {
        let (part, rest) = parts?.split();
        let (operand, later) = form.split_first()?;
        if self.has_fault(code, fault, operand.written, part.text) {
            return Some((operand.written.range(), part));
        }
        self.first_in(code, fault, later, rest)
    }

    /// The first operand of the faulty line that the fault is about.
    fn operand_at_fault<'a>(&self, code: AsmCode, line: &'a [u8]) -> Option<(Range, Part<'a>)>
        ensures { option_map (λ found. (found.0, seen_part found.1)) result ≡ spec.operand_at_fault code self.now line.now }
    {
        let parts = parts_of(line);
        let form = form_of(parts.mnemonic.text);
        self.first_in(code, read(line).fault, form, parts.operands.operands())
    }

    /// The part of the faulty line that a fault is about.
    pub fn part_at_fault<'a>(&self, code: AsmCode, line: &'a [u8]) -> Part<'a>
        ensures { seen_part result ≡ spec.part_at_fault code self.now line.now }
    {
        let parts = parts_of(line);
        match code {
            AsmCode::A1 | AsmCode::A7 => parts.mnemonic,
            AsmCode::A2 if !matches!(read(line).fault, Some(LineFault::A2)) => parts.mnemonic,
            AsmCode::A4 => parts.label.unwrap_or(parts.mnemonic),
            _ => match self.operand_at_fault(code, line) {
                Some((_, part)) => part,
                None if parts.operands.text.is_empty() => parts.mnemonic,
                None => parts.operands,
            },
        }
    }

    /// What is known of A3.
    fn range_reason(&self, line: &[u8]) -> Option<Reason>
        ensures { result ≡ spec.reason_at_fault AsmCode.A3 self.now line.now }
    {
        let (range, part) = self.operand_at_fault(AsmCode::A3, line)?;
        match (read(line).fault, self.worth(&operand(part.text))) {
            (None, Worth::Known(value)) => Some(Reason::Value(value, range)),
            _ => Some(Reason::Number(range)),
        }
    }

    /// What is known of A6 and A11, by the statement that the line leaves.
    fn value_reason(&self, statement: &Option<Statement<'_>>) -> Option<Reason>
        ensures { result ≡ spec.value_reason self.now (option_map seen_statement statement.now) }
    {
        let here = self.builder.place();
        match statement {
            Some(Statement::Instruction(Instruction::Row(insn, Some(target)))) => {
                let range = even_range(reach_of(insn.row.format()));
                Some(Reason::Target(distance(self.number(target), here), range))
            }
            Some(Statement::Instruction(Instruction::Load { value, .. })) => {
                Some(Reason::Load(distance(self.number(value), here), LOAD_RANGE))
            }
            Some(Statement::Setting(Setting::Entry(entry))) => {
                let pages = self.builder.page_count();
                Some(Reason::Entry(wrapped(self.number(entry)), pages))
            }
            Some(Statement::Data(data)) if matches!(data.directive, Directive::Capability) => {
                let base = wrapped(self.number(&part_of(data.text, 0)));
                Some(Reason::Bounds(base, wrapped(self.number(&part_of(data.text, 1)))))
            }
            _ => None,
        }
    }

    /// What is known of a fault of the faulty line.
    pub fn reason_at_fault(&self, code: AsmCode, line: &[u8]) -> Option<Reason>
        ensures { result ≡ spec.reason_at_fault code self.now line.now }
    {
        let read = read(line);
        match code {
            AsmCode::A2 => {
                let is_of_operands = matches!(read.fault, Some(LineFault::A2));
                Some(form_reason(is_of_operands, parts_of(line).mnemonic.text))
            }
            AsmCode::A3 => self.range_reason(line),
            AsmCode::A6 | AsmCode::A11 => self.value_reason(&read.statement),
            AsmCode::A7 => {
                let misplaced = self.builder.misplaced_if_any(&read.statement)?;
                let place = self.builder.place();
                Some(Reason::Place(place, misplaced, self.builder.page_count()))
            }
            _ => None,
        }
    }
}
