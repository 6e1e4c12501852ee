//! Directives that place bytes.
ghost use Rattle.std.specs.Prelude.{◌≡◌, IsTrue, IfSome};
ghost use Rattle.asm_lines.specs.Number.{number_of};
ghost use Rattle.asm_lines.specs.declared.parsed.Directive.TheVariants.{Capability};
ghost use Rattle.asm_lines.specs.Statement.{is_size, is_sized, directives, directive_in, directive_named, zeros_said, values_said};
ghost use Rattle.asm_lines.specs.Statement.{text_said, data_said, contents, item, said_unless, capability_fault};
ghost use Rattle.asm_lines.specs.Bounded.{IsBoundedIfAny};
ghost use Rattle.asm_lines.specs.Seen.{seen_said};

use crate::fault::LineFault;
use crate::fills::fill_named;
use crate::operand::natural;
use crate::parsed::{Data, Directive, Fill, Statement};
use crate::pattern::is_word;
use crate::quoted::closes;
use crate::statement::Said;
use crate::values::{capability_fault, values_fault};

/// The directive of a name, if it places bytes and takes no number alone.
fn other_named(word: &[u8]) -> Option<Directive>
    ensures value { result ≡ directive_in directives word.now }
    ensures sized { IfSome result (λ d. IsTrue (is_sized d)) }
{
    if is_word(word, ".byte") {
        Some(Directive::Values(1))
    } else if is_word(word, ".half") {
        Some(Directive::Values(2))
    } else if is_word(word, ".word") {
        Some(Directive::Values(4))
    } else if is_word(word, ".dword") {
        Some(Directive::Values(8))
    } else if is_word(word, ".ascii") {
        Some(Directive::Ascii)
    } else if is_word(word, ".cap") {
        Some(Directive::Capability)
    } else {
        None
    }
}

/// The directive of a name, if it places bytes.
pub(crate) fn directive_named(word: &[u8]) -> Option<Directive>
    ensures value { result ≡ directive_named word.now }
    ensures sized { IfSome result (λ d. IsTrue (is_sized d)) }
{
    match fill_named(word) {
        Some(fill) => Some(Directive::Zeros(fill)),
        None => other_named(word),
    }
}

/// A directive with a number.
fn zeros_said<'a>(fill: Fill, operands: &[u8]) -> Said<'a>
    ensures value { seen_said result ≡ zeros_said fill (number_of operands.now) }
    ensures bounds { IsBoundedIfAny result.statement }
{
    match natural(operands, fill.most()) {
        Ok(number) => Said::plain(Statement::Data(Data {
            directive: Directive::Zeros(fill),
            number,
            text: &[],
        })),
        Err(fault) => Said::fault(fault),
    }
}

/// One value or more.
fn values_said<'a>(size: u8, operands: &'a [u8]) -> Said<'a>
    requires { IsTrue (is_size size) }
    ensures value { seen_said result ≡ values_said size operands.now }
    ensures bounds { IsBoundedIfAny result.statement }
{
    if operands.is_empty() {
        return Said::fault(LineFault::A2);
    }
    let values = Data {
        directive: Directive::Values(size),
        number: 0,
        text: operands,
    };
    Said::with_fault(Statement::Data(values), values_fault(size, operands))
}

/// A text between quotes.
fn text_said<'a>(operands: &'a [u8]) -> Said<'a>
    ensures value { seen_said result ≡ text_said operands.now }
    ensures bounds { IsBoundedIfAny result.statement }
{
    if operands.is_empty() || operands[0] != b'"' || !closes(&operands[1..]) {
        return Said::fault(LineFault::A2);
    }
    let text = Data {
        directive: Directive::Ascii,
        number: 0,
        text: &operands[1..operands.len() - 1],
    };
    Said::plain(Statement::Data(text))
}

/// `.cap`: four operands.
fn capability_said<'a>(operands: &'a [u8]) -> Said<'a>
    ensures value { seen_said result ≡ said_unless (contents (item Capability 0 operands.now)) (capability_fault operands.now) }
    ensures bounds { IsBoundedIfAny result.statement }
{
    let capability = Data {
        directive: Directive::Capability,
        number: 0,
        text: operands,
    };
    Said::with_fault(Statement::Data(capability), capability_fault(operands))
}

/// What a directive and its operands say.
pub(crate) fn data_said<'a>(directive: Directive, operands: &'a [u8]) -> Said<'a>
    requires { IsTrue (is_sized directive) }
    ensures value { seen_said result ≡ data_said directive operands.now }
    ensures bounds { IsBoundedIfAny result.statement }
{
    match directive {
        Directive::Zeros(fill) => zeros_said(fill, operands),
        Directive::Values(size) => values_said(size, operands),
        Directive::Ascii => text_said(operands),
        Directive::Capability => capability_said(operands),
    }
}
