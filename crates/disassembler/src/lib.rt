//! The disassembler: the text of a word, as the assembler reads it.
#![tactic(auto)]

mod disassembling;
mod operands;

pub use disassembling::{byte_line, disassemble, word_line};
