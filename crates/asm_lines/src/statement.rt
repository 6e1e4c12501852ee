//! Statements: instructions, the two-row loads of a value, directives.
ghost use Rattle.std.specs.Prelude.{◌≡◌, ◌<◌, Some, None, option_map, IfOk, IfSome};
ghost use Rattle.asm_lines.specs.Text.{pieces_of};
ghost use Rattle.asm_lines.specs.Number.{number_of, expression_of};
ghost use Rattle.asm_lines.specs.Statement.{said, said_unless, pattern_said, load_said, register_load, entry_said, pages_said};
ghost use Rattle.asm_lines.specs.Statement.{mode_said, origin_said, directive_named, placing_said, said_by};
ghost use Rattle.asm_lines.specs.Seen.{seen_statement, seen_result};
ghost use Rattle.asm_lines.specs.Bounded.{HasOffset, IsBounded, IsBoundedIfAny};
ghost use Rattle.asm_lines.specs.Seen.{seen_pattern, seen_said};

use crate::data::{data_said, directive_named};
use crate::fault::LineFault;
use crate::filling::{filled, first_rest};
use crate::number::expression;
use crate::operand::{Draft, natural, register};
use crate::parsed::{Expression, Instruction, Setting, Statement};
use crate::pattern::{Pattern, is_word, pattern_of};
use crate::text::split_piece;
use base::ram;

/// A statement, unless a fault leaves none, and the first fault that its line decides.
#[derive(Clone, Copy)]
pub(crate) struct Said<'a> {
    pub(crate) statement: Option<Statement<'a>>,
    pub(crate) fault: Option<LineFault>,
}

impl<'a> Said<'a> {
    /// No statement and no fault.
    pub(crate) fn nothing() -> Said<'a>
        ensures value { seen_said result ≡ said None None }
        ensures bounds { IsBoundedIfAny result.statement }
    {
        Said {
            statement: None,
            fault: None,
        }
    }

    /// A statement without a fault.
    pub(crate) fn plain(statement: Statement<'a>) -> Said<'a>
        requires { IsBounded statement }
        ensures value { seen_said result ≡ said (Some (seen_statement statement.entry)) None }
        ensures bounds { IsBoundedIfAny result.statement }
    {
        Said {
            statement: Some(statement),
            fault: None,
        }
    }

    /// A fault and no statement.
    pub(crate) fn fault(fault: LineFault) -> Said<'a>
        ensures value { seen_said result ≡ said None (Some fault) }
        ensures bounds { IsBoundedIfAny result.statement }
    {
        Said {
            statement: None,
            fault: Some(fault),
        }
    }

    /// A statement, which a number out of range leaves and operands of another form do not.
    pub(crate) fn with_fault(statement: Statement<'a>, fault: Option<LineFault>) -> Said<'a>
        requires { IsBounded statement }
        ensures value { seen_said result ≡ said_unless (seen_statement statement.entry) fault }
        ensures bounds { IsBoundedIfAny result.statement }
    {
        Said {
            statement: match fault {
                None | Some(LineFault::A3) => Some(statement),
                Some(_) => None,
            },
            fault,
        }
    }
}

/// The instruction that a mnemonic and its operands say.
pub(crate) fn pattern_said<'a>(pattern: Option<Pattern>, operands: &'a [u8]) -> Said<'a>
    ensures value { seen_said result ≡ pattern_said (option_map seen_pattern pattern) operands.now }
    ensures bounds { IsBoundedIfAny result.statement }
{
    let Some(pattern) = pattern else {
        return Said::fault(LineFault::A1);
    };
    let draft = Draft {
        insn: pattern.insn,
        target: None,
    };
    let (draft, fault) = filled(pattern.slots, operands, draft);
    let row = Instruction::Row(draft.insn, draft.target);
    Said::with_fault(Statement::Instruction(row), fault)
}

const NOUGHT: Expression<'static> = Expression {
    name: None,
    offset: 0,
};

/// `la` or `cla`: a register and an expression.
#[tactic(auto, using(crate::proofs::SlotSteps::load_more))]
fn load_said<'a>(capability: bool, operands: &'a [u8]) -> Said<'a>
    ensures value { seen_said result ≡ load_said capability (pieces_of operands.now) }
    ensures bounds { IsBoundedIfAny result.statement }
{
    let Some(text) = first_rest(operands) else {
        return Said::fault(LineFault::A2);
    };
    let (name, Some(text)) = split_piece(text) else {
        return Said::fault(LineFault::A2);
    };
    let (text, None) = split_piece(text) else {
        return Said::fault(LineFault::A2);
    };
    register_load(capability, register(name).ok(), expression(text))
}

fn register_load<'a>(
    capability: bool,
    rd: Option<u8>,
    value: Result<Expression<'a>, LineFault>,
) -> Said<'a>
    requires register { IfSome rd (λ n. n < 32) }
    requires offset { IfOk value HasOffset }
    ensures value { seen_said result ≡ register_load capability rd (seen_result value.entry) }
    ensures bounds { IsBoundedIfAny result.statement }
{
    let Some(rd) = rd else {
        return Said::fault(LineFault::A2);
    };
    let fault = value.err();
    let value = value.unwrap_or(NOUGHT);
    let load = Instruction::Load {
        capability,
        rd,
        value,
    };
    Said::with_fault(Statement::Instruction(load), fault)
}

/// `.pages`: a number of 1 to the most pages of RAM; out of range it leaves 0.
fn pages_said<'a>(operands: &[u8]) -> Said<'a>
    ensures value { seen_said result ≡ pages_said (number_of operands.now) }
    ensures bounds { IsBoundedIfAny result.statement }
{
    let none = Statement::Setting(Setting::Pages(0));
    match natural(operands, u64::from(ram::MOST_PAGES)) {
        Ok(0) => Said::with_fault(none, Some(LineFault::A3)),
        Ok(pages) => Said::plain(Statement::Setting(Setting::Pages(pages as u32))),
        Err(fault) => Said::with_fault(none, Some(fault)),
    }
}

/// `.mode`: 0 or 1; out of range it leaves 0.
fn mode_said<'a>(operands: &[u8]) -> Said<'a>
    ensures value { seen_said result ≡ mode_said (number_of operands.now) }
    ensures bounds { IsBoundedIfAny result.statement }
{
    match natural(operands, 1) {
        Ok(mode) => Said::plain(Statement::Setting(Setting::Mode(mode == 1))),
        Err(fault) => Said::with_fault(Statement::Setting(Setting::Mode(false)), Some(fault)),
    }
}

/// `.entry`: an expression.
fn entry_said<'a>(operands: &'a [u8]) -> Said<'a>
    ensures value { seen_said result ≡ entry_said (expression_of operands.now) }
    ensures bounds { IsBoundedIfAny result.statement }
{
    let value = expression(operands);
    let entry = Setting::Entry(value.unwrap_or(NOUGHT));
    Said::with_fault(Statement::Setting(entry), value.err())
}

/// `.org`: a number of 0 to 2^64 - 1.
fn origin_said<'a>(operands: &[u8]) -> Said<'a>
    ensures value { seen_said result ≡ origin_said (number_of operands.now) }
    ensures bounds { IsBoundedIfAny result.statement }
{
    match natural(operands, u64::MAX) {
        Ok(place) => Said::plain(Statement::Origin(place)),
        Err(fault) => Said::fault(fault),
    }
}

/// What a directive that places bytes, or else an instruction, and its operands say.
fn placing_said<'a>(word: &[u8], operands: &'a [u8]) -> Said<'a>
    ensures value { seen_said result ≡ placing_said (directive_named word.now) word.now operands.now }
    ensures bounds { IsBoundedIfAny result.statement }
{
    match directive_named(word) {
        Some(directive) => data_said(directive, operands),
        None => pattern_said(pattern_of(word, operands.is_empty()), operands),
    }
}

/// What a mnemonic and its operands say.
#[tactic(auto, unfolding(crate::specs::Statement::said_by))]
pub(crate) fn said_by<'a>(word: &[u8], operands: &'a [u8]) -> Said<'a>
    ensures value { seen_said result ≡ said_by word.now operands.now }
    ensures bounds { IsBoundedIfAny result.statement }
{
    if is_word(word, "la") {
        load_said(false, operands)
    } else if is_word(word, "cla") {
        load_said(true, operands)
    } else if is_word(word, ".pages") {
        pages_said(operands)
    } else if is_word(word, ".mode") {
        mode_said(operands)
    } else if is_word(word, ".entry") {
        entry_said(operands)
    } else if is_word(word, ".org") {
        origin_said(operands)
    } else {
        placing_said(word, operands)
    }
}
