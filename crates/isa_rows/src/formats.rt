/// The formats of instruction words: which operands a word has, and where they stand
/// (unprivileged manual, Base Instruction Formats).
#[derive(Clone, Copy, Debug, PartialEq, Eq)]
pub enum Format {
    /// rd and the 20 high bits of a number: LUI, AUIPC.
    Upper,
    /// rd and a jump's offset: JAL.
    Jump,
    /// rd, rs1 and a signed immediate of 12 bits.
    Immediate,
    /// rd, rs1 and an unsigned immediate of 12 bits.
    Unsigned,
    /// rs1, rs2 and a signed immediate of 12 bits in two parts.
    Store,
    /// rs1, rs2 and a branch's offset.
    Branch,
    /// rd, rs1 and a shift amount of 6 bits.
    Shift6,
    /// rd, rs1 and a shift amount of 5 bits.
    Shift5,
    /// rd, rs1 and rs2.
    Register,
    /// No operands: the row is one word.
    Whole,
    /// rd and rs1; the rs2 field belongs to the row.
    Unary,
    /// rs1 and rs2; the rd field belongs to the row.
    Pair,
}
