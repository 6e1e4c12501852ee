//! Why a stretch of plain events ends.

/// Why a stretch of plain events ends.
#[derive(Clone, Copy, Debug, PartialEq, Eq)]
pub enum Why {
    /// An instruction traps, or an interrupt is taken.
    Trap,
    /// A CUnseal gives a capability.
    Unseal,
    /// A CInvoke is done, or a jump or a return through a sentry.
    SealedJump,
}
