//! Where statements stand.
ghost use Rattle.std.specs.Prelude.{◌≡◌, ◌+◌, ◌*◌, ◌<◌, ◌≤◌, ◌^◌, length, IsTrue, OnOk};
ghost use Rattle.asm_lines.specs.Seen.{seen_instruction, seen_data, seen_statement, seen_line};
ghost use Rattle.asm_lines.specs.Statement.{text_bytes, most_of};
ghost use Rattle.asm_lines.specs.Fills.{aligned, row_of};
ghost use Rattle.assembler.specs.Modest.{is_modest_data, is_modest, is_modest_line, IsNear};
ghost use Rattle.assembler.specs.Places.{instruction_size, zero_count, data_size, size_at, end_of, places_after, opening_places};

use crate::labels::Labels;
use asm_lines::{Data, Directive, Fill, Instruction, Parsed, Statement, operand_count};
use base::ram;
use std::alloc::{AllocError, Global};
use std::marker::Model;

/// The number of bytes that a text between quotes stands for.
fn text_length(between: &[u8]) -> u128
    ensures value { result ≡ length (text_bytes between.now) }
    ensures bound { result ≤ length between.now }
{
    let mut count = 0;
    let mut is_escaped = false;
    for byte in between {
        if *byte == b'\\' && !is_escaped {
            is_escaped = true;
        } else {
            is_escaped = false;
            count += 1;
        }
    }
    count
}

/// Two to a power of at most 12.
fn power(bits: u32) -> u128
    requires { bits ≤ 12 }
    ensures value { result ≡ 2 ^ bits }
    ensures bound { result ≤ 4096 }
    ensures positive { 0 < result }
{
    1 << bits
}

/// The next multiple of two to a power of at most 12.
fn aligned(place: u128, bits: u32) -> u128
    requires bits { bits ≤ 12 }
    requires place { place < 2 ^ 100 }
    ensures value { result ≡ aligned place bits }
    ensures bound { result < place + 2 ^ 12 }
    ensures past { place ≤ result }
{
    let unit = power(bits);
    (place + unit - 1) / unit * unit
}

/// The number of bytes of the instructions.
fn instruction_size(instruction: &Instruction<'_>) -> u128
    ensures { result ≡ instruction_size (seen_instruction instruction.now) }
{
    match instruction {
        Instruction::Row(_, _) => 4,
        Instruction::Load { .. } => 8,
    }
}

/// The number of zeros that a directive with a number places, by its place and its number.
fn fill_count(fill: Fill, place: u128, number: u64) -> u128
    requires number { number ≤ (row_of fill).most }
    requires place { place < 2 ^ 100 }
    ensures value { result ≡ (row_of fill).count place number }
    ensures bound { result ≤ 2 ^ 28 }
{
    match fill {
        Fill::Align => aligned(place, number as u32) - place,
        Fill::Zero => u128::from(number),
    }
}

/// The number of zeros that a directive places, by its place and its number.
pub(crate) fn zero_count(directive: Directive, place: u128, number: u64) -> u128
    requires number { number ≤ most_of directive }
    requires place { place < 2 ^ 100 }
    ensures value { result ≡ zero_count directive place number }
    ensures bound { result ≤ 2 ^ 28 }
{
    match directive {
        Directive::Zeros(fill) => fill_count(fill, place, number),
        Directive::Capability => 16,
        _ => 0,
    }
}

/// The number of bytes of data at a place.
fn data_size(item: &Data<'_>, place: u128) -> u128
    requires modest { IsTrue (is_modest_data (seen_data item.now)) }
    requires place { place < 2 ^ 100 }
    ensures value { result ≡ data_size (seen_data item.now) place }
    ensures bound { result ≤ 2 ^ 28 }
{
    match item.directive {
        Directive::Values(size) => u128::from(size) * operand_count(item.text),
        Directive::Ascii => text_length(item.text),
        directive => zero_count(directive, place, item.number),
    }
}

/// The number of bytes that a statement at a place takes.
#[tactic(auto, unfolding(crate::specs::Places::size_at))]
pub(crate) fn size_at(statement: &Statement<'_>, place: u128) -> u128
    requires modest { IsTrue (is_modest (seen_statement statement.now)) }
    requires place { place < 2 ^ 100 }
    ensures value { result ≡ size_at (seen_statement statement.now) place }
    ensures bound { result ≤ 2 ^ 28 }
{
    match statement {
        Statement::Instruction(instruction) => instruction_size(instruction),
        Statement::Data(item) => data_size(item, place),
        _ => 0,
    }
}

/// Where a statement that stands at a place ends.
#[tactic(auto, unfolding(crate::specs::Places::end_of))]
fn end_of(statement: &Statement<'_>, place: u128) -> u128
    requires modest { IsTrue (is_modest (seen_statement statement.now)) }
    requires place { place < 2 ^ 100 }
    ensures value { result ≡ end_of (seen_statement statement.now) place }
    ensures near { IsNear place result }
{
    match statement {
        Statement::Origin(start) => u128::from(*start),
        _ => place + size_at(statement, place),
    }
}

/// The place of the next statement, and the labels so far.
#[derive(Drop)]
pub(crate) struct Places {
    place: u128,
    labels: Labels,
}

impl Model for Places {
    ghost use Rattle.std.specs.Prelude.{◌<◌, ◌^◌};
    ghost use Rattle.assembler.specs.Places as spec;

    ghost Value = { spec.Places };

    ghost view = { λ p. record { place = p.place; symbols = p.labels } };

    ghost invariant = { λ p. p.place < 2 ^ 100 };
}

impl Places {
    /// Where a text begins.
    pub(crate) fn new(alloc: Global) -> Self
        ensures { result ≡ opening_places }
    {
        Places {
            place: u128::from(ram::BASE),
            labels: Labels::new(alloc),
        }
    }

    /// The place of the next statement, below 2^100.
    pub(crate) fn place(&self) -> u128
        ensures value { result ≡ self.now.place }
        ensures bound { result < 2 ^ 100 }
    {
        self.place
    }

    /// The labels so far.
    pub(crate) fn labels(&self) -> &Labels
        ensures { result.now ≡ self.now.symbols }
    {
        &self.labels
    }

    /// Goes past a line.
    pub(crate) fn pass(&mut self, alloc: Global, line: &Parsed<'_>) -> Result<(), AllocError>
        requires modest { IsTrue (is_modest_line (seen_line line.now)) }
        requires room { self.old.place + 2 ^ 28 < 2 ^ 100 }
        ensures value { OnOk result (self.new ≡ places_after (seen_line line.now) self.old) }
        ensures near { OnOk result (IsNear self.old.place self.new.place) }
    {
        let end = match &line.statement {
            Some(statement) => end_of(statement, self.place),
            None => self.place,
        };
        if let Some(name) = line.label {
            self.labels.define(alloc, name, self.place)?;
        }
        self.place = end;
        Ok(())
    }

    /// The labels.
    pub(crate) fn into_labels(self) -> Labels
        ensures { result ≡ self.symbols }
    {
        self.labels
    }
}
