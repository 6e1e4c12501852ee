//! The object types with a meaning of their own (UCAM-CL-TR-987, object types). Types are below `2^18`; the four greatest are
//! reserved.

/// The type of what isn't sealed.
pub const UNSEALED: u32 = 0x3_ffff;

/// The type of a sentry, a sealed entry.
pub const SENTRY: u32 = 0x3_fffe;

/// The least reserved type: no authority seals or unseals with it or with those above.
pub const FIRST_RESERVED: u32 = 0x3_fffc;
