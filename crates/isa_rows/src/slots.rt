/// Which of its two names a register is shown by. An assembler takes either in every place.
#[derive(Clone, Copy, Debug, PartialEq, Eq)]
pub enum Naming {
    /// As an integer register, `a0`.
    Integer,
    /// As a capability register, `ca0`.
    Capability,
    /// As a capability register in capability mode: the authority of a load, a store or a jump, and the link.
    ByMode,
}

/// One operand of a row as it is written, and what of the instruction it gives.
#[derive(Clone, Copy, Debug, PartialEq, Eq)]
pub enum Slot {
    /// A register, `rd`.
    Rd(Naming),
    /// A register, `rs1`.
    Rs1(Naming),
    /// A register, `rs2`.
    Rs2(Naming),
    /// A number of -2048 to 2047: the immediate.
    Signed,
    /// A number of this many bits: the immediate.
    Unsigned(u32),
    /// A number of 0 to 0xFFFFF: bits 31 to 12 of the immediate.
    Upper,
    /// A number of 0 to 31 in the place of `rs1`.
    Small,
    /// A control and status register, by name or as a number of 0 to 4095: the immediate.
    Csr,
    /// A special capability register, by name or as a number of 0 to 31, in the place of `rs2`.
    Special,
    /// `imm(rs1)`: the signed immediate, 0 where it is left out, and the register.
    Address(Naming),
    /// `(rs1)`: the register alone.
    Authority(Naming),
    /// An address to jump to: the immediate is its distance from the instruction, of this many bits with the sign.
    Target(u32),
}
