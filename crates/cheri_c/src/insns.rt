//! Instruction words.

ghost use Rattle.std.specs.Prelude.{◌≡◌, ◌≤◌, ◌<◌, ◌↔◌, length, take, false, true, IsTrue, IfSome, IfNone, MatchOption, Some, slice_get};
ghost use Rattle.isa_rows.specs.Insn.{IsInsn, Fits};
ghost use Rattle.isa_rows.specs.declared.operands.Insn.{Insn as Instruction};
ghost use Rattle.isa_rows.specs.declared.kinds.Kind.TheVariants as kind;
ghost use Rattle.isa_rows.specs.Kind.{kind_of};
ghost use Rattle.cap_insns.specs.CapabilityRows.{row_value};
ghost use Rattle.disassembler.specs.Shown.{shown_word};
ghost use Rattle.word_cap.specs.WordCap.{word_value};
ghost use Rattle.c_types.specs.Words.{capability_of};
ghost use Rattle.isa_rows.specs.declared.table.TheConstants.{ROWS as rows};
ghost use Rattle.cheri_c.specs.Insns.{IsOf};

use c_types::{CheriCap, CheriInsn, inside, outside};
use cap_insns::cap_op;
use disassembler::disassemble;
use isa_rows::{Insn, Kind, ROWS, Row, fits};
use isa_table::{decode, encode};

/// Writes the text of a word in a mode to the beginning of `text`, and answers how many bytes it has, at most 64.
#[unsafe(no_mangle)]
pub extern "C" fn cheri_disassemble(word: u32, mode: bool, text: &mut [u8; 64]) -> usize
    ensures few { result ≤ 64 }
    ensures text { take result text.new ≡ shown_word mode word }
{
    let shown = disassemble(word, mode);
    let bytes = shown.as_str().as_bytes();
    text[..bytes.len()].copy_from_slice(bytes);
    bytes.len()
}

/// A row's place in the table.
fn place_of(row: Row) -> u16
    ensures { slice_get rows result ≡ Some row }
{
    row as u16
}

/// The instruction that a word is: false, and nothing is written, if it is not one.
#[unsafe(no_mangle)]
pub extern "C" fn cheri_decode(word: u32, out: &mut CheriInsn) -> bool
    ensures ok { (insn : Instruction) → IsInsn word insn → (result ≡ true) × IsOf out.new insn }
    ensures only { result ≡ true → (insn : Instruction) × IsInsn word insn }
    ensures same { result ≡ false → out.new ≡ out.old }
{
    let Some(insn) = decode(word) else {
        return false;
    };
    *out = CheriInsn {
        imm: insn.imm,
        row: place_of(insn.row),
        rd: insn.rd,
        rs1: insn.rs1,
        rs2: insn.rs2,
    };
    true
}

/// The row at a place of some rows.
fn row_at(rows: &[Row], place: u16) -> Option<Row>
    ensures { result ≡ slice_get rows.now place }
{
    rows.get(place as usize).copied()
}

/// The instruction that C passed, if its row is one.
fn insn_of(insn: &CheriInsn) -> Option<Insn>
    ensures some { IfSome result (λ i. IsOf insn.now i) }
    ensures only { (i : Instruction) → IsOf insn.now i → result ≡ Some i }
{
    match row_at(&ROWS, insn.row) {
        Some(row) => Some(Insn {
            row,
            rd: insn.rd,
            rs1: insn.rs1,
            rs2: insn.rs2,
            imm: insn.imm,
        }),
        None => None,
    }
}

/// The word of an instruction: false, and nothing is written, where it has none.
#[unsafe(no_mangle)]
pub extern "C" fn cheri_encode(insn: &CheriInsn, word: &mut u32) -> bool
    ensures ok { (i : Instruction) → IsOf insn.now i → Fits i → (result ≡ true) × IsInsn word.new i }
    ensures only { result ≡ true → (i : Instruction) × IsOf insn.now i × Fits i }
    ensures same { result ≡ false → word.new ≡ word.old }
{
    match insn_of(insn) {
        Some(known) if fits(&known) => {
            *word = encode(known);
            true
        }
        _ => false,
    }
}

/// What a row over capabilities gives, of a word that is one: false, and nothing is written, of any other word.
///
/// `cs1` and `cs2` are what the registers rs1 and rs2 hold, and `ddc` is the default data capability.
#[unsafe(no_mangle)]
pub extern "C" fn cheri_execute(
    word: u32,
    cs1: CheriCap,
    cs2: CheriCap,
    ddc: CheriCap,
    out: &mut CheriCap,
) -> bool
    ensures ok { (insn : Instruction) → IsInsn word insn → kind_of insn.row ≡ kind.Capability
        → (result ≡ true) × (capability_of out.new ≡ row_value insn.row insn (capability_of cs1) (capability_of cs2) (capability_of ddc)) }
    ensures only { result ≡ true → (insn : Instruction) × IsInsn word insn × (kind_of insn.row ≡ kind.Capability) }
    ensures same { result ≡ false → out.new ≡ out.old }
{
    let Some(insn) = decode(word) else {
        return false;
    };
    match insn.row.kind() {
        Kind::Capability => {
            *out = outside(cap_op(insn, inside(cs1), inside(cs2), inside(ddc)));
            true
        }
        _ => false,
    }
}
