//! Rows of opcode 0x73.

ghost use Rattle.std.specs.Prelude.{◌≡◌};
ghost use Rattle.isa_table.specs.Decision.{row_by, system, whole_words};

use crate::fields::field;
use isa_rows::Row;

// Opcode 0x73, by funct3.
#[tactic(auto, unfolding(crate::specs::Decision::system, isa_rows::specs::Line::line_of))]
#[inline]
pub(crate) fn system_row(word: u32) -> Option<Row>
    ensures { result ≡ row_by system word }
{
    match field(word, 12, 3) {
        0 => whole_word_row(word),
        1 => Some(Row::Csrrw),
        2 => Some(Row::Csrrs),
        3 => Some(Row::Csrrc),
        5 => Some(Row::Csrrwi),
        6 => Some(Row::Csrrsi),
        7 => Some(Row::Csrrci),
        _ => None,
    }
}

// Opcode 0x73, funct3 0, by the whole word.
#[tactic(auto, unfolding(crate::specs::Decision::whole_words, isa_rows::specs::Line::line_of))]
#[inline]
fn whole_word_row(word: u32) -> Option<Row>
    ensures { result ≡ row_by whole_words word }
{
    match word {
        0x00000073 => Some(Row::Ecall),
        0x00100073 => Some(Row::Ebreak),
        0x30200073 => Some(Row::Mret),
        0x10500073 => Some(Row::Wfi),
        _ => None,
    }
}
