//! What each mnemonic is written with.
ghost use Rattle.std.specs.Prelude.{◌≡◌, [], ◌∷◌, drop, if◌then◌else◌, map, option_map};
ghost use Rattle.isa_rows.specs.declared.rows.Row.TheVariants.{Addi};
ghost use Rattle.asm_lines.specs.Number.{expression_of, number_of};
ghost use Rattle.asm_lines.specs.Operand.{fault_of, filled_slot, within};
ghost use Rattle.asm_lines.specs.Ranges.{is_within};
ghost use Rattle.asm_lines.specs.Statement.{draft_of, plain as plain_pattern, value_fault};
ghost use Rattle.asm_lines.specs.Seen.{seen_pattern};
ghost use Rattle.asm_lines.specs.Forms as spec;
ghost use Rattle.asm_lines.specs.SeenParts.{seen_form, seen_operand, seen_split};

use crate::fault::LineFault;
use crate::fills::fill_named;
use crate::number::{expression, number};
use crate::operand::{Draft, filled_slot};
use crate::pattern::{Pattern, is_word, pattern_of, plain};
use crate::ranges::{EVERY_NUMBER, Range, natural, slot_range};
use asm_names::{Naming, Slot};
use base::ram;
use isa_rows::Row;

/// How an operand is written.
#[derive(Clone, Copy)]
pub enum Written {
    /// An operand of a row.
    Slot(Slot),
    /// A number in a range.
    Number(Range),
    /// An expression whose value is in a range.
    Value(Range),
    /// A text in quotes.
    Quoted,
}

/// An operand of a statement: a word for it, and how it is written.
#[derive(Clone, Copy)]
pub struct Operand {
    pub word: &'static str,
    pub written: Written,
}

/// The operands of a statement.
#[derive(Clone, Copy)]
pub enum Form {
    /// Those of a row.
    Slots(&'static [Slot]),
    /// One number in a range.
    Number(Range),
    /// Operands, the last of which may be repeated.
    Listed(&'static [Operand], bool),
}

/// What of a value its text decides: its form, and the range of a number.
fn value_fault(range: Range, text: &[u8]) -> Option<LineFault>
    ensures { result ≡ value_fault (is_within range) (expression_of text.now) }
{
    match expression(text) {
        Ok(value)
            if value.name.is_some() || value.offset >= range.least && value.offset <= range.most =>
            { None }
        Ok(_) => Some(LineFault::A3),
        Err(fault) => Some(fault),
    }
}

/// What of a number its text decides: its form, and its range.
fn number_fault(range: Range, text: &[u8]) -> Option<LineFault>
    ensures { result ≡ fault_of (within range (number_of text.now)) }
{
    match number(text) {
        Ok(number) if number < range.least || number > range.most => Some(LineFault::A3),
        Ok(_) => None,
        Err(fault) => Some(fault),
    }
}

/// What of a row's operand its text decides.
fn slot_fault(slot: Slot, text: &[u8]) -> Option<LineFault>
    ensures { result ≡ fault_of (filled_slot slot text.now (draft_of (plain_pattern Addi []))) }
{
    let draft = Draft {
        insn: plain(Row::Addi),
        target: None,
    };
    filled_slot(slot, text, draft).err()
}

impl Written {
    /// The numbers that the operand can be; of one that is no number, all of them.
    pub fn range(self) -> Range
        ensures { result ≡ spec.range_of self }
    {
        match self {
            Written::Slot(slot) => slot_range(slot),
            Written::Number(range) | Written::Value(range) => range,
            Written::Quoted => EVERY_NUMBER,
        }
    }

    /// The first fault of an operand's text that the text alone decides: A2, and else A3. That of a text in quotes its whole line
    /// decides.
    #[tactic(auto, unfolding(crate::specs::Forms::operand_fault))]
    pub fn fault(self, text: &[u8]) -> Option<LineFault>
        ensures { result ≡ spec.operand_fault self text.now }
    {
        match self {
            Written::Slot(slot) => slot_fault(slot, text),
            Written::Number(range) => number_fault(range, text),
            Written::Value(range) => value_fault(range, text),
            Written::Quoted => None,
        }
    }
}

/// One of two words, the first for a capability.
fn word_of(naming: Naming, capability: &'static str, integer: &'static str) -> &'static str
    ensures { result.now ≡ (if spec.is_capability naming then capability.now else integer.now) }
{
    match naming {
        Naming::Capability => capability,
        _ => integer,
    }
}

/// A row's operand as a manual writes it.
pub fn slot_word(slot: Slot) -> &'static str
    ensures { result.now ≡ spec.slot_word slot }
{
    match slot {
        Slot::Rd(naming) => word_of(naming, "cd", "rd"),
        Slot::Rs1(naming) => word_of(naming, "cs1", "rs1"),
        Slot::Rs2(naming) => word_of(naming, "cs2", "rs2"),
        Slot::Csr => "csr",
        Slot::Special => "scr",
        Slot::Address(naming) => word_of(naming, "imm(cs1)", "imm(rs1)"),
        Slot::Authority(naming) => word_of(naming, "(cs1)", "(rs1)"),
        Slot::Target(_) => "target",
        _ => "imm",
    }
}

fn slot_operand(slot: Slot) -> Operand
    ensures { seen_operand result ≡ spec.slot_operand slot }
{
    Operand {
        word: slot_word(slot),
        written: Written::Slot(slot),
    }
}

fn number_operand(range: Range) -> Operand
    ensures { seen_operand result ≡ spec.number_operand range }
{
    Operand {
        word: "a number",
        written: Written::Number(range),
    }
}

// An operand: its word, and how it is written.
macro_rules! operand {
    ($word:literal $written:ident $value:expr) => {
        Operand {
            word: $word,
            written: Written::$written($value),
        }
    };
}

// An expression whose value is between two numbers.
macro_rules! value {
    ($word:literal, $least:expr, $most:expr) => { operand!($word Value Range { least: $least, most: $most }) };
}

const LOADED: &'static [Operand] = &[
    operand!("rd" Slot Slot::Rd(Naming::Integer)),
    operand!("expression" Value EVERY_NUMBER),
];

const LOADED_CAPABILITY: &'static [Operand] = &[
    operand!("cd" Slot Slot::Rd(Naming::Capability)),
    operand!("expression" Value EVERY_NUMBER),
];

const PAGES: Range = Range {
    least: 1,
    most: ram::MOST_PAGES as i128,
};

const ENTRY: &'static [Operand] = &[operand!("an expression" Value EVERY_NUMBER)];

const BYTES: &'static [Operand] = &[value!("one expression or more", -0x80, 0xff)];

const HALVES: &'static [Operand] = &[value!("one expression or more", -0x8000, 0xffff)];

const WORDS: &'static [Operand] = &[value!("one expression or more", -0x8000_0000, 0xffff_ffff)];

const DOUBLE_WORDS: &'static [Operand] = &[operand!("one expression or more" Value EVERY_NUMBER)];

const TEXT: &'static [Operand] = &[Operand {
    word: "a text in quotes",
    written: Written::Quoted,
}];

const CAPABILITY: &'static [Operand] = &[
    value!("base", 0, 0xffff_ffff_ffff_ffff),
    value!("length", 0, 0xffff_ffff_ffff_ffff),
    value!("permissions", 0, 0xffff),
    value!("flag", 0, 1),
];

// What the first of these names that a word is is written with, and else another answer.
macro_rules! named {
    ($word:ident: $($name:literal $form:ident($($part:expr),*);)* else $other:expr) => {{
        $(if is_word($word, $name) {
            return Some(Form::$form($($part),*));
        })*
        $other
    }};
}

/// What a directive with values or a text is written with.
fn values_named(word: &[u8]) -> Option<Form>
    ensures { option_map seen_form result ≡ spec.form_in (drop 6 spec.forms) word.now }
{
    named! { word:
        ".byte" Listed(BYTES, true);
        ".half" Listed(HALVES, true);
        ".word" Listed(WORDS, true);
        ".dword" Listed(DOUBLE_WORDS, true);
        ".ascii" Listed(TEXT, false);
        ".cap" Listed(CAPABILITY, false);
        else None
    }
}

/// What a mnemonic that is no row, and places no zeros by a number, is written with.
fn listed_named(word: &[u8]) -> Option<Form>
    ensures { option_map seen_form result ≡ spec.form_in spec.forms word.now }
{
    named! { word:
        "la" Listed(LOADED, false);
        "cla" Listed(LOADED_CAPABILITY, false);
        ".pages" Number(PAGES);
        ".mode" Number(natural(1));
        ".entry" Listed(ENTRY, false);
        ".org" Number(natural(u64::MAX));
        else values_named(word)
    }
}

/// What a mnemonic that is no row is written with.
fn form_named(word: &[u8]) -> Option<Form>
    ensures { option_map seen_form result ≡ spec.form_named word.now }
{
    match fill_named(word) {
        Some(fill) => Some(Form::Number(natural(fill.most()))),
        None => listed_named(word),
    }
}

/// The operands of a row, or of another name of one.
fn pattern_slots(pattern: Option<Pattern>) -> &'static [Slot]
    ensures { result.now ≡ spec.pattern_slots (option_map seen_pattern pattern) }
{
    match pattern {
        Some(pattern) => pattern.slots,
        None => &[],
    }
}

/// What a mnemonic is written with; one that isn't known has no operands.
#[tactic(auto, unfolding(crate::specs::Forms::form_of))]
pub fn form_of(word: &[u8]) -> Form
    ensures { seen_form result ≡ spec.form_of word.now }
{
    match form_named(word) {
        Some(form) => form,
        None => Form::Slots(pattern_slots(pattern_of(word, false))),
    }
}

/// What is written after the first of these operands.
fn later(operands: &'static [Operand], rest: &'static [Operand], repeats: bool) -> Form
    ensures { (first : spec.Operand) → map seen_operand operands.now ≡ first ∷ map seen_operand rest.now
        → seen_form result ≡ record { operands = spec.later repeats first (map seen_operand rest.now); repeats = repeats } }
{
    if rest.is_empty() && repeats {
        Form::Listed(operands, repeats)
    } else {
        Form::Listed(rest, repeats)
    }
}

impl Form {
    /// The first operand, and what is written after it; the last one of those that repeat is first again.
    pub fn split_first(self) -> Option<(Operand, Form)>
        ensures { option_map seen_split result ≡ spec.split_form (seen_form self) }
    {
        match self {
            Form::Slots(slots) => {
                let (slot, rest) = slots.split_first()?;
                Some((slot_operand(*slot), Form::Slots(rest)))
            }
            Form::Number(range) => Some((number_operand(range), Form::Listed(&[], false))),
            Form::Listed(operands, repeats) => {
                let (operand, rest) = operands.split_first()?;
                Some((*operand, later(operands, rest, repeats)))
            }
        }
    }
}
