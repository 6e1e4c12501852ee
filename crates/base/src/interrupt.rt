//! The interrupts of machine mode by their bits in mie and mip, which are also their numbers in mcause (RISC-V privileged manual,
//! machine interrupt registers).

/// What stands in mcause beside the number of an interrupt.
pub const CAUSE: u64 = 1 << 63;

/// The timer's.
pub const TIMER: u32 = 7;

/// The external one: the console's.
pub const EXTERNAL: u32 = 11;
