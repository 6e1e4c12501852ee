//! The row of a word, by its opcode.

ghost use Rattle.std.specs.Prelude.{◌≡◌};
ghost use Rattle.isa_table.specs.Decision.{row_by, table};

use crate::capability_rows::capability_row;
use crate::fields::field;
use crate::integer_rows::{immediate_row, operation_row, word_immediate_row, word_operation_row};
use crate::memory_rows::{branch_row, fence_row, jump_row, load_row, store_row};
use crate::system_rows::system_row;
use isa_rows::Row;

// By opcode.
#[tactic(auto, unfolding(crate::specs::Decision::table, isa_rows::specs::Line::line_of))]
#[inline]
pub(crate) fn row_of(word: u32) -> Option<Row>
    ensures { result ≡ row_by table word }
{
    match field(word, 0, 7) {
        0x03 => load_row(word),
        0x0f => fence_row(word),
        0x13 => immediate_row(word),
        0x17 => Some(Row::Auipc),
        0x1b => word_immediate_row(word),
        0x23 => store_row(word),
        0x33 => operation_row(word),
        0x37 => Some(Row::Lui),
        0x3b => word_operation_row(word),
        0x5b => capability_row(word),
        0x63 => branch_row(word),
        0x67 => jump_row(word),
        0x6f => Some(Row::Jal),
        0x73 => system_row(word),
        _ => None,
    }
}
