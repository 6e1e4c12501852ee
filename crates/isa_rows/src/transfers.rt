use base::Size;

/// What a load or store moves between a register and memory, and through which authority.
#[derive(Clone, Copy, Debug, PartialEq, Eq)]
pub struct Transfer {
    pub width: Width,
    pub through: Through,
}

/// How much a load or store moves.
#[derive(Clone, Copy, Debug, PartialEq, Eq)]
pub enum Width {
    /// An integer of 1 to 8 bytes, and whether a load sign-extends it.
    Data(Size, bool),
    /// A capability, 16 bytes and a tag.
    Capability,
}

/// Through which capability a load or store reaches memory (CHERI ISA version 9, CHERI-RISC-V).
#[derive(Clone, Copy, Debug, PartialEq, Eq)]
pub enum Through {
    /// The capability in rs1 in capability mode, and else the default data capability.
    ByMode,
    /// The default data capability: the `.ddc` forms.
    Ddc,
    /// The capability in rs1: the `.cap` forms.
    Rs1,
}
