ghost use Rattle.std.specs.Prelude.{◌≡◌};
ghost use Rattle.base.specs.Size.{bytes_of};

/// How many bytes an instruction has; its address is a multiple of them.
pub const INSTRUCTION_BYTES: u64 = 4;

/// How many bytes a capability takes in memory.
pub const CAPABILITY_BYTES: u64 = 16;

/// How many bytes a load or a store of data moves.
#[derive(Clone, Copy, Debug, PartialEq, Eq, Hash)]
pub enum Size {
    /// One byte.
    Byte,
    /// Two bytes.
    Half,
    /// Four bytes.
    Word,
    /// Eight bytes.
    Double,
}

impl Size {
    /// The number of bytes: 1, 2, 4 or 8.
    #[inline]
    pub fn bytes(self) -> u64
        ensures { result ≡ bytes_of self }
    {
        match self {
            Size::Byte => 1,
            Size::Half => 2,
            Size::Word => 4,
            Size::Double => 8,
        }
    }
}
