ghost use Rattle.std.specs.Prelude.{IsTrue};
ghost use Rattle.cap_bounds.specs.Record.{IsWordWellFormed};
ghost use Rattle.c_types.specs.Halves.{joined};

/// The 128 bits of a capability in logical form (UCAM-CL-TR-987, CHERI Concentrate): the address, and all other fields above it.
#[repr(C)]
#[derive(Clone, Copy, Debug, PartialEq, Eq)]
pub struct CheriWord {
    /// Bits 63 to 0.
    pub address: u64,
    /// Bits 127 to 64.
    pub upper: u64,
}

/// A number below 2^128 in two halves, as a top, which has 65 bits.
#[repr(C)]
#[derive(Clone, Copy, Debug, PartialEq, Eq)]
pub struct CheriNumber {
    /// Bits 63 to 0.
    pub low: u64,
    /// Bits 127 to 64.
    pub high: u64,
}

/// A capability, or 128 bits of data: a word with a tag. A tagged one is well-formed, which who makes one owes.
#[repr(C)]
#[derive(Clone, Copy)]
pub struct CheriCap {
    /// Bits 63 to 0 of the word.
    pub address: u64,
    /// Bits 127 to 64 of the word.
    pub upper: u64,
    /// Whether it is a capability.
    pub tag: bool,
    ghost well_formed: { IsTrue tag → IsWordWellFormed (joined upper address) },
}

/// A capability's bounds and fields in the plain.
#[repr(C)]
#[derive(Clone, Copy, Debug, PartialEq, Eq)]
pub struct CheriFields {
    /// The first address of the bounds.
    pub base: u64,
    /// Bits 63 to 0 of the address past the bounds.
    pub top_low: u64,
    /// Its bit 64.
    pub top_high: u64,
    /// The address.
    pub address: u64,
    /// The object type, below 2^18.
    pub otype: u32,
    /// Hardware permissions at bits 0 to 11, user permissions at bits 12 to 15.
    pub perms: u16,
    /// The flag.
    pub flag: bool,
}

/// An instruction: its row's place in the table, and its operands.
#[repr(C)]
#[derive(Clone, Copy, Debug, PartialEq, Eq)]
pub struct CheriInsn {
    /// The immediate, sign-extended modulo 2^64.
    pub imm: u64,
    /// The row's place in the table.
    pub row: u16,
    /// The register that is written, 0 to 31.
    pub rd: u8,
    /// The first register that is read, 0 to 31.
    pub rs1: u8,
    /// The second register that is read, 0 to 31.
    pub rs2: u8,
}
