ghost use Rattle.std.specs.Prelude.{◌≡◌, ◌++◌, codes};
ghost use Rattle.isa_rows.specs.declared.operands.Insn.{Insn};
ghost use Rattle.texts.specs.Hex.{hex_of};
ghost use Rattle.disassembler.specs.Shown.{byte_line as byte_line_of, shown_insn, shown_word, word_line as word_line_of};
ghost use Rattle.disassembler.specs.Widths.{HasRegisters};

use crate::operands::append_operands;
use arrayvec::ArrayString;
use asm_names::{mnemonic, slots_of};
use isa_rows::Insn;
use isa_table::decode;
use texts::Piece::{Address, Hexadecimal, Text};
use texts::text;

/// The text of a word in a mode, capability mode if `mode` says so: its row's name and its operands, or `.word` and the number where the
/// word is no row (unprivileged manual, assembly listings; CHERI ISA version 9, instruction pages).
pub fn disassemble(word: u32, mode: bool) -> ArrayString<64>
    ensures { result.bytes ≡ shown_word mode word }
{
    match decode(word) {
        Some(insn) => insn_text(&insn, mode),
        None => number(word),
    }
}

/// A line of a listing: 16 digits of the address, 8 digits of the word, and the word's text in a mode, with a space between and a line
/// feed at the end, 91 bytes at most.
pub fn word_line(address: u64, word: u32, mode: bool) -> ArrayString<96>
    ensures { result.bytes ≡ word_line_of mode address word }
{
    let shown = disassemble(word, mode);
    text(&[
        Address(address),
        Text(" "),
        Hexadecimal(8, u128::from(word)),
        Text(" "),
        Text(shown.as_str()),
        Text("\n"),
    ])
}

/// A line of a listing for a byte that is no part of a word: 16 digits of its address, and its value in two.
pub fn byte_line(address: u64, byte: u8) -> ArrayString<32>
    ensures { result.bytes ≡ byte_line_of address byte }
{
    text(&[
        Address(address),
        Text(" .byte 0x"),
        Hexadecimal(2, u128::from(byte)),
        Text("\n"),
    ])
}

#[tactic(auto, using(crate::specs::LengthLaws::mnemonic_short, crate::specs::LengthLaws::operands_short))]
fn insn_text(insn: &Insn, mode: bool) -> ArrayString<64>
    requires { HasRegisters insn.now }
    ensures { result.bytes ≡ shown_insn mode insn.now }
{
    let mut line = text(&[Text(mnemonic(insn.row, mode))]);
    append_operands(&mut line, insn, mode, slots_of(insn.row));
    line
}

fn number(word: u32) -> ArrayString<64>
    ensures { result.bytes ≡ codes ".word 0x" ++ hex_of 8 word }
{
    text(&[Text(".word 0x"), Hexadecimal(8, u128::from(word))])
}
