ghost use Rattle.std.specs.Prelude.{◌≡◌, ◌+◌, ◌<◌, ◌≤◌, ◌++◌, length, IsTrue, codes, decimal, flat_map};
ghost use Rattle.arrayvec.specs.ArrayString.{array_string_len};
ghost use Rattle.isa_rows.specs.declared.operands.Insn.{Insn};
ghost use Rattle.asm_names.specs.SpecialNames.{csr_name as csr_name_of, scr_name as scr_name_of};
ghost use Rattle.texts.specs.Hex.{short_hex};
ghost use Rattle.texts.specs.Piece.{text_of, piece_text, piece_width, is_narrow, width_of, are_narrow};
ghost use Rattle.disassembler.specs.Shown.{shown_register, shown_slot, shown_target, shown_operands, name_or};
ghost use Rattle.disassembler.specs.Widths.{HasRegisters, slot_width, rest_width, operands_width};

use arrayvec::ArrayString;
use asm_names::{Naming, Slot, csr_name, register_name, scr_name};
use isa_rows::Insn;
use texts::Piece::{self, Decimal, ShortHexadecimal, SignedDecimal, Text};
use texts::fill;

/// Appends the operands, after a space and with a comma and a space between.
pub fn append_operands(text: &mut ArrayString<64>, insn: &Insn, mode: bool, slots: &[Slot])
    requires registers { HasRegisters insn.now }
    requires room { array_string_len text.old + operands_width slots.now ≤ 64 }
    ensures { text.new.bytes ≡ text.old.bytes ++ shown_operands mode insn.now slots.now }
{
    if let Some((first, rest)) = slots.split_first() {
        append_slot(text, " ", insn, mode, *first);
        append_rest(text, insn, mode, rest);
    }
}

/// Appends operands, each after a comma and a space.
fn append_rest(text: &mut ArrayString<64>, insn: &Insn, mode: bool, slots: &[Slot])
    requires registers { HasRegisters insn.now }
    requires room { array_string_len text.old + rest_width slots.now ≤ 64 }
    ensures { text.new.bytes ≡ text.old.bytes ++ flat_map (λ s. codes ", " ++ shown_slot mode insn.now s) slots.now }
{
    if let Some((first, rest)) = slots.split_first() {
        append_slot(text, ", ", insn, mode, *first);
        append_rest(text, insn, mode, rest);
    }
}

/// Appends an operand after a text.
fn append_slot(text: &mut ArrayString<64>, before: &str, insn: &Insn, mode: bool, slot: Slot)
    requires registers { HasRegisters insn.now }
    requires room { array_string_len text.old + (length before.now + slot_width slot) ≤ 64 }
    ensures text { text.new.bytes ≡ text.old.bytes ++ before.now ++ shown_slot mode insn.now slot }
    ensures within { array_string_len text.new ≤ array_string_len text.old + (length before.now + slot_width slot) }
{
    fill(text, &[Text(before)]);
    fill(text, &slot_pieces(insn, mode, slot));
}

/// What an operand is made of.
#[tactic(auto, unfolding(crate::specs::Shown::shown_slot))]
fn slot_pieces(insn: &Insn, mode: bool, slot: Slot) -> [Piece<'static>; 4]
    requires { HasRegisters insn.now }
    ensures text { text_of result ≡ shown_slot mode insn.now slot }
    ensures narrow { IsTrue (are_narrow result) }
    ensures within { width_of result ≤ slot_width slot }
{
    match slot {
        Slot::Rd(naming) => alone(Text(register(insn.rd, naming, mode))),
        Slot::Rs1(naming) => alone(Text(register(insn.rs1, naming, mode))),
        Slot::Rs2(naming) => alone(Text(register(insn.rs2, naming, mode))),
        Slot::Signed => alone(SignedDecimal(insn.imm.cast_signed())),
        Slot::Unsigned(_) => alone(Decimal(insn.imm)),
        Slot::Upper => alone(ShortHexadecimal(insn.imm >> 12 & 0xf_ffff)),
        Slot::Small => alone(Decimal(u64::from(insn.rs1))),
        Slot::Csr => alone(csr(insn.imm)),
        Slot::Special => alone(special(insn.rs2)),
        Slot::Address(naming) => {
            let offset = SignedDecimal(insn.imm.cast_signed());
            [
                offset,
                Text("("),
                Text(register(insn.rs1, naming, mode)),
                Text(")"),
            ]
        }
        Slot::Authority(naming) => {
            [
                Text(""),
                Text("("),
                Text(register(insn.rs1, naming, mode)),
                Text(")"),
            ]
        }
        Slot::Target(_) if insn.imm < 1 << 63 => {
            [Text(".+"), Decimal(insn.imm), Text(""), Text("")]
        }
        Slot::Target(_) => [
            Text(".-"),
            Decimal(insn.imm.wrapping_neg()),
            Text(""),
            Text(""),
        ],
    }
}

/// A piece, and nothing after it.
fn alone(piece: Piece<'static>) -> [Piece<'static>; 4]
    ensures text { text_of result ≡ piece_text piece.entry }
    ensures narrow { IsTrue (is_narrow piece.entry) → IsTrue (are_narrow result) }
    ensures within { width_of result ≡ piece_width piece.entry }
{
    [piece, Text(""), Text(""), Text("")]
}

/// The name of a register in a mode.
#[tactic(auto, using(crate::specs::LengthLaws::register_name_short))]
fn register(n: u8, naming: Naming, mode: bool) -> &'static str
    requires { n < 32 }
    ensures text { result.now ≡ shown_register mode naming n }
    ensures short { length result.now ≤ 5 }
{
    let capability = match naming {
        Naming::Integer => false,
        Naming::Capability => true,
        Naming::ByMode => mode,
    };
    register_name(n, capability)
}

/// A control and status register, by its name where it has one.
#[tactic(auto, using(crate::specs::LengthLaws::csr_name_short, crate::specs::LengthLaws::csr_name_none))]
fn csr(number: u64) -> Piece<'static>
    ensures text { piece_text result ≡ name_or (short_hex number) (csr_name_of number) }
    ensures narrow { IsTrue (is_narrow result) }
    ensures within { piece_width result ≤ 18 }
{
    if number >= 4096 {
        return ShortHexadecimal(number);
    }
    match csr_name(number as u16) {
        Some(name) => Text(name),
        None => ShortHexadecimal(number),
    }
}

/// A special capability register, by its name where it has one.
#[tactic(auto, using(crate::specs::LengthLaws::scr_name_short))]
fn special(number: u8) -> Piece<'static>
    ensures text { piece_text result ≡ name_or (decimal number) (scr_name_of number) }
    ensures narrow { IsTrue (is_narrow result) }
    ensures within { piece_width result ≤ 20 }
{
    match scr_name(number) {
        Some(name) => Text(name),
        None => Decimal(u64::from(number)),
    }
}
