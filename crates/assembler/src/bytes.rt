//! The bytes that a statement places.
ghost use Rattle.std.specs.Prelude.{◌≡◌, ◌<◌, ◌≤◌, ◌++◌, ◌%◌, ◌^◌, ◌*◌, if◌then◌else◌, replicate, pos, neg_ℤ, ◌<ℤ◌, Some};
ghost use Rattle.std.specs.Prelude.{map, IsTrue, OnOk};
ghost use Rattle.byteorder.specs.Endian.{little_bytes};
ghost use Rattle.isa_rows.specs.Insn.{insn, sign_extended, Fits};
ghost use Rattle.isa_rows.specs.Operands.{IsUpperImmediate, IsSignedOf};
ghost use Rattle.isa_rows.specs.InsnLaws.{insn_word};
ghost use Rattle.asm_lines.specs.Seen.{seen_expression, seen_instruction, seen_data, seen_statement};
ghost use Rattle.asm_lines.specs.Number.{is_in_limits, expression_of};
ghost use Rattle.asm_lines.specs.Operand.{wrapped};
ghost use Rattle.asm_lines.specs.Statement.{row, is_size, expression_or_nought, text_bytes, escaped_byte};
ghost use Rattle.asm_lines.specs.Text.{pieces_of};
ghost use Rattle.std.specs.List.{flat_map};
ghost use Rattle.std.specs.Option.{option_map};
ghost use Rattle.assembler.specs.Modest.{is_modest_data, is_modest};
ghost use Rattle.assembler.specs.Sound.{IsKnown, AreKnown, IsValued, IsEncoded, HasWords};
ghost use Rattle.assembler.specs.Values.{value_of, asked_by_instruction, asked_by_data, asked_value};
ghost use Rattle.assembler.specs.Bytes.{value_at, insn_bytes, aimed, upper_part, lower_part, load_bytes, instruction_bytes, data_bytes};
ghost use Rattle.assembler.specs.Bytes.{bytes_at, value_bytes};

use crate::checks::{distance, operand};
use crate::labels::Labels;
use crate::places::zero_count;
use crate::values::{Worth, value};
use asm_lines::{
    Data, Directive, Expression, Instruction, Statement, first_rest, split_piece, wrapped,
};
use byteorder::{ByteOrder, LittleEndian};
use isa_rows::{Insn, Row};
use isa_table::encode;
use std::alloc::AllocError;

/// Places the bytes of a word.
fn append_word(bytes: &mut Vec<u8>, word: u32) -> Result<(), AllocError>
    ensures { OnOk result (bytes.new.items ≡ bytes.old.items ++ little_bytes 4 word) }
{
    let mut buffer = [0; 4];
    LittleEndian::write_u32(&mut buffer, word);
    bytes.extend_from_slice(&buffer)
}

/// Places the low bytes of a number.
fn append_number(bytes: &mut Vec<u8>, size: u8, number: u64) -> Result<(), AllocError>
    requires { IsTrue (is_size size) }
    ensures { OnOk result (bytes.new.items ≡ bytes.old.items ++ little_bytes size number) }
{
    let mut buffer = [0; 8];
    LittleEndian::write_u64(&mut buffer, number);
    bytes.extend_from_slice(&buffer[..usize::from(size)])
}

/// Places at most 2^28 zeros.
fn append_zeros(bytes: &mut Vec<u8>, count: usize) -> Result<(), AllocError>
    requires { count ≤ 2 ^ 28 }
    ensures { OnOk result (bytes.new.items ≡ bytes.old.items ++ replicate count 0) }
{
    bytes.resize(bytes.len() + count, 0)
}

/// The word of an instruction that has one.
fn word_of(insn: Insn) -> u32
    requires { Fits insn }
    ensures { result ≡ insn_word insn }
{
    encode(insn)
}

/// Places the bytes of an instruction that has a word.
#[tactic(auto, unfolding(crate::specs::Bytes::insn_bytes))]
fn append_insn(bytes: &mut Vec<u8>, insn: Insn) -> Result<(), AllocError>
    requires { Fits insn }
    ensures { OnOk result (bytes.new.items ≡ bytes.old.items ++ insn_bytes insn) }
{
    append_word(bytes, word_of(insn))
}

/// The value of an expression that is known.
pub(crate) fn known(labels: &Labels, here: u128, expression: &Expression<'_>) -> i128
    requires { IsKnown (value_of labels.now here (seen_expression expression.now)) }
    ensures value { result ≡ value_at labels.now here (seen_expression expression.now) }
    ensures limits { IsTrue (is_in_limits result) }
{
    match value(labels, here, expression) {
        Worth::Known(value) => value,
        _ => unreachable!(),
    }
}

/// Places an instruction that has a word, with the distance to its target if it has one.
fn append_row(
    bytes: &mut Vec<u8>,
    labels: &Labels,
    here: u128,
    insn: &Insn,
    target: &Option<Expression<'_>>,
) -> Result<(), AllocError>
    requires place { here < 2 ^ 100 }
    requires known { AreKnown labels.now here (asked_by_instruction (row insn.now (option_map seen_expression target.now))) }
    requires fits { Fits (aimed labels.now here insn.now (option_map seen_expression target.now)) }
    ensures { OnOk result (bytes.new.items ≡ bytes.old.items ++ insn_bytes
        (aimed labels.now here insn.now (option_map seen_expression target.now))) }
{
    match target {
        None => append_insn(bytes, *insn),
        Some(target) => {
            let value = known(labels, here, target);
            let imm = wrapped(distance(value, here));
            append_insn(bytes, Insn { imm, ..*insn })
        }
    }
}

/// A number of 32 bits, read as signed, modulo 2^64.
#[tactic(auto, unfolding(isa_rows::specs::Insn::sign_extended))]
fn sign_extended(number: u64) -> u64
    requires { number < 2 ^ 32 }
    ensures { result ≡ sign_extended 32 number }
{
    if number < 0x8000_0000 {
        number
    } else {
        number + 0xffff_ffff_0000_0000
    }
}

/// A distance in steps of 4096, rounded so that the rest is a signed number of 12 bits.
fn upper_part(distance: i128) -> i128
    requires low { neg_ℤ (pos (2 ^ 101)) <ℤ distance }
    requires high { distance <ℤ pos (2 ^ 101) }
    ensures value { result ≡ upper_part distance }
    ensures low { neg_ℤ (pos (2 ^ 101)) <ℤ result }
    ensures high { result <ℤ pos (2 ^ 101) }
{
    (distance + 2048).div_euclid(4096)
}

/// The immediate of auipc for a distance.
fn upper_immediate(distance: i128) -> u64
    requires low { neg_ℤ (pos (2 ^ 101)) <ℤ distance }
    requires high { distance <ℤ pos (2 ^ 101) }
    ensures value { result ≡ sign_extended 32 (wrapped (upper_part distance) % 2 ^ 20 * 2 ^ 12) }
    ensures upper { IsUpperImmediate result }
{
    sign_extended(wrapped(upper_part(distance)) % 0x10_0000 * 0x1000)
}

/// The immediate of the instruction after auipc for a distance.
fn lower_immediate(distance: i128) -> u64
    requires low { neg_ℤ (pos (2 ^ 101)) <ℤ distance }
    requires high { distance <ℤ pos (2 ^ 101) }
    ensures value { result ≡ wrapped (lower_part distance) }
    ensures signed { IsSignedOf 12 result }
{
    wrapped(distance - 4096 * upper_part(distance))
}

/// auipc with an immediate.
#[tactic(auto, using(crate::proofs::LoadLemmas::based_fits))]
fn based(rd: u8, imm: u64) -> Insn
    requires register { rd < 32 }
    requires upper { IsUpperImmediate imm }
    ensures value { result ≡ insn Row.Auipc rd 0 0 imm }
    ensures fits { Fits result }
{
    Insn {
        row: Row::Auipc,
        rd,
        rs1: 0,
        rs2: 0,
        imm,
    }
}

/// The instruction that adds an immediate to a register, as an address or as a capability.
#[tactic(auto, using(crate::proofs::LoadLemmas::number_fits, crate::proofs::LoadLemmas::capability_fits))]
fn added(capability: bool, rd: u8, imm: u64) -> Insn
    requires register { rd < 32 }
    requires signed { IsSignedOf 12 imm }
    ensures value { result ≡ insn (if capability then Row.CIncOffsetImm else Row.Addi) rd rd 0 imm }
    ensures fits { Fits result }
{
    Insn {
        row: if capability {
            Row::CIncOffsetImm
        } else {
            Row::Addi
        },
        rd,
        rs1: rd,
        rs2: 0,
        imm,
    }
}

/// Places the bytes of two instructions.
fn append_two(bytes: &mut Vec<u8>, first: Insn, second: Insn) -> Result<(), AllocError>
    requires first { Fits first }
    requires second { Fits second }
    ensures { OnOk result (bytes.new.items ≡ bytes.old.items ++ (insn_bytes first ++ insn_bytes second)) }
{
    append_insn(bytes, first)?;
    append_insn(bytes, second)
}

/// Places the two instructions that put the place and a distance into a register.
fn append_load(
    bytes: &mut Vec<u8>,
    capability: bool,
    rd: u8,
    distance: i128,
) -> Result<(), AllocError>
    requires register { rd < 32 }
    requires low { neg_ℤ (pos (2 ^ 101)) <ℤ distance }
    requires high { distance <ℤ pos (2 ^ 101) }
    ensures { OnOk result (bytes.new.items ≡ bytes.old.items ++ load_bytes capability rd distance) }
{
    let first = based(rd, upper_immediate(distance));
    let second = added(capability, rd, lower_immediate(distance));
    append_two(bytes, first, second)
}

/// Places a value of so many bytes.
#[tactic(auto, unfolding(crate::specs::Bytes::value_bytes))]
fn append_value(
    bytes: &mut Vec<u8>,
    size: u8,
    labels: &Labels,
    here: u128,
    piece: &[u8],
) -> Result<(), AllocError>
    requires size { IsTrue (is_size size) }
    requires known { IsKnown (value_of labels.now here (expression_or_nought (expression_of piece.now))) }
    ensures { OnOk result (bytes.new.items ≡ bytes.old.items ++ value_bytes labels.now here size piece.now) }
{
    let value = known(labels, here, &operand(piece));
    append_number(bytes, size, wrapped(value))
}

/// Places values of so many bytes.
fn append_values(
    bytes: &mut Vec<u8>,
    size: u8,
    labels: &Labels,
    here: u128,
    operands: &[u8],
) -> Result<(), AllocError>
    requires size { IsTrue (is_size size) }
    requires known { AreKnown labels.now here (map (asked_value size) (pieces_of operands.now)) }
    ensures { OnOk result (bytes.new.items ≡ bytes.old.items ++ flat_map (value_bytes labels.now here size) (pieces_of operands.now)) }
{
    let mut rest = first_rest(operands);
    while let Some(text) = rest {
        let (piece, after) = split_piece(text);
        append_value(bytes, size, labels, here, piece)?;
        rest = after;
    }
    Ok(())
}

/// The byte that stands after a backslash for another.
fn escaped(byte: u8) -> u8
    ensures { result ≡ escaped_byte byte }
{
    match byte {
        b'n' => b'\n',
        b'0' => 0,
        other => other,
    }
}

/// Places the bytes that a text between quotes stands for.
fn append_text(bytes: &mut Vec<u8>, between: &[u8]) -> Result<(), AllocError>
    ensures { OnOk result (bytes.new.items ≡ bytes.old.items ++ text_bytes between.now) }
{
    let mut is_escaped = false;
    for byte in between {
        if is_escaped {
            bytes.push(escaped(*byte))?;
            is_escaped = false;
        } else if *byte == b'\\' {
            is_escaped = true;
        } else {
            bytes.push(*byte)?;
        }
    }
    Ok(())
}

/// Places the bytes of instructions that have words.
fn append_instruction(
    bytes: &mut Vec<u8>,
    labels: &Labels,
    here: u128,
    instruction: &Instruction<'_>,
) -> Result<(), AllocError>
    requires place { here < 2 ^ 100 }
    requires known { AreKnown labels.now here (asked_by_instruction (seen_instruction instruction.now)) }
    requires encoded { IsEncoded labels.now here (seen_instruction instruction.now) }
    ensures { OnOk result (bytes.new.items ≡ bytes.old.items ++ instruction_bytes labels.now here (seen_instruction instruction.now)) }
{
    match instruction {
        Instruction::Row(insn, target) => append_row(bytes, labels, here, insn, target),
        Instruction::Load {
            capability,
            rd,
            value,
        } => {
            let distance = distance(known(labels, here, value), here);
            append_load(bytes, *capability, *rd, distance)
        }
    }
}

/// Places the bytes of data whose values are known.
fn append_data(
    bytes: &mut Vec<u8>,
    labels: &Labels,
    here: u128,
    item: &Data<'_>,
) -> Result<(), AllocError>
    requires modest { IsTrue (is_modest_data (seen_data item.now)) }
    requires place { here < 2 ^ 100 }
    requires known { AreKnown labels.now here (asked_by_data (seen_data item.now)) }
    ensures { OnOk result (bytes.new.items ≡ bytes.old.items ++ data_bytes labels.now here (seen_data item.now)) }
{
    match item.directive {
        Directive::Values(size) => append_values(bytes, size, labels, here, item.text),
        Directive::Ascii => append_text(bytes, item.text),
        directive => append_zeros(bytes, zero_count(directive, here, item.number) as usize),
    }
}

/// Places the bytes of a statement that has no fault.
#[tactic(auto, unfolding(crate::specs::Bytes::bytes_at))]
pub(crate) fn append_bytes(
    bytes: &mut Vec<u8>,
    labels: &Labels,
    here: u128,
    statement: &Statement<'_>,
) -> Result<(), AllocError>
    requires modest { IsTrue (is_modest (seen_statement statement.now)) }
    requires place { here < 2 ^ 100 }
    requires valued { IsValued labels.now here (seen_statement statement.now) }
    requires words { HasWords labels.now here (seen_statement statement.now) }
    ensures { OnOk result (bytes.new.items ≡ bytes.old.items ++ bytes_at labels.now here (seen_statement statement.now)) }
{
    match statement {
        Statement::Instruction(instruction) => append_instruction(bytes, labels, here, instruction),
        Statement::Data(item) => append_data(bytes, labels, here, item),
        _ => Ok(()),
    }
}
