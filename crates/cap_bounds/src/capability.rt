ghost use Rattle.std.specs.Prelude.{◌^◌, ◌<◌};
ghost use Rattle.cap_bounds.specs.Record.{IsWellFormed, record_with};

/// A capability with its tag: its bounds decoded, and a word for it.
#[derive(Clone, Copy, Debug, PartialEq, Eq)]
pub struct Capability {
    pub(crate) base: u64,
    pub(crate) top: u128,
    pub(crate) address: u64,
    pub(crate) perms: u16,
    pub(crate) flag: bool,
    pub(crate) otype: u32,
    ghost well_formed: { IsWellFormed (record_with base top address perms flag otype) },
}

/// 128 bits without a tag.
#[derive(Clone, Copy, Debug, PartialEq, Eq)]
pub struct Bits {
    pub(crate) bits: u128,
    ghost in_range: { bits < 2 ^ 128 },
}
