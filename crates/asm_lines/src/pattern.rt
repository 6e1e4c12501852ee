//! What a mnemonic of an instruction stands for: an instruction with some operands already there, and those that are written.
ghost use Rattle.std.specs.Prelude.{◌≡◌, option_map};
ghost use Rattle.isa_rows.specs.Insn.{insn};
ghost use Rattle.asm_lines.specs.Statement.{is_word, row_pattern, pattern_of};
ghost use Rattle.asm_lines.specs.Seen.{seen_pattern};

use asm_names::{Naming, Slot, row_named, slots_of};
use isa_rows::{Insn, Row};

/// An instruction with some operands already there, and those that are written.
#[derive(Clone, Copy)]
pub(crate) struct Pattern {
    pub(crate) insn: Insn,
    pub(crate) slots: &'static [Slot],
}

const NOTHING: &'static [Slot] = &[];

const LOADED: &'static [Slot] = &[Slot::Rd(Naming::Integer), Slot::Signed];

const MOVED: &'static [Slot] = &[Slot::Rd(Naming::Integer), Slot::Rs1(Naming::Integer)];

const JUMPED: &'static [Slot] = &[Slot::Target(21)];

/// An instruction whose operands are 0.
pub(crate) const fn plain(row: Row) -> Insn
    ensures { result ≡ insn row 0 0 0 0 }
{
    Insn {
        row,
        rd: 0,
        rs1: 0,
        rs2: 0,
        imm: 0,
    }
}

/// Whether a text is this word.
pub fn is_word(text: &[u8], word: &str) -> bool
    ensures { result ≡ is_word text.now word.now }
{
    text == word.as_bytes()
}

fn row_pattern(row: Option<Row>) -> Option<Pattern>
    ensures { option_map seen_pattern result ≡ row_pattern row }
{
    let row = row?;
    Some(Pattern {
        insn: plain(row),
        slots: slots_of(row),
    })
}

/// What a mnemonic stands for, where its operands are left out or not: an alias (unprivileged manual, pseudoinstructions) or else
/// a row by one of its names.
#[tactic(auto, unfolding(crate::specs::Statement::pattern_of))]
pub(crate) fn pattern_of(word: &[u8], alone: bool) -> Option<Pattern>
    ensures { option_map seen_pattern result ≡ pattern_of word.now alone }
{
    let addi = plain(Row::Addi);
    let jal = plain(Row::Jal);
    if is_word(word, "nop") {
        Some(Pattern {
            insn: addi,
            slots: NOTHING,
        })
    } else if is_word(word, "li") {
        Some(Pattern {
            insn: addi,
            slots: LOADED,
        })
    } else if is_word(word, "mv") {
        Some(Pattern {
            insn: addi,
            slots: MOVED,
        })
    } else if is_word(word, "j") {
        Some(Pattern {
            insn: jal,
            slots: JUMPED,
        })
    } else if is_word(word, "ret") {
        let insn = Insn {
            rs1: 1,
            ..plain(Row::Jalr)
        };
        Some(Pattern {
            insn,
            slots: NOTHING,
        })
    } else if alone && is_word(word, "fence") {
        let insn = Insn {
            imm: 255,
            ..plain(Row::Fence)
        };
        Some(Pattern {
            insn,
            slots: NOTHING,
        })
    } else if alone && is_word(word, "fence.i") {
        let insn = plain(Row::FenceI);
        Some(Pattern {
            insn,
            slots: NOTHING,
        })
    } else {
        row_pattern(row_named(word))
    }
}
