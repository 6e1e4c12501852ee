//! Why there is no image.

ghost use Rattle.std.specs.Prelude.{◌≡◌};
ghost use Rattle.image.specs.declared.fault.ImageFault.TheVariants.{L10, L11};

use crate::devices::DeviceFailed;
use std::alloc::{AllocError, AllocFailed};

/// Why there is no image.
#[derive(Clone, Copy, Debug, PartialEq, Eq)]
pub enum ImageFault {
    /// Fewer than 32 bytes.
    L1,
    /// The first 8 bytes are not `CHERIIMG`.
    L2,
    /// A version that is neither 1 nor 2.
    L3,
    /// Pages not 1 to 4096, or in version 2 to 65536; an entry that is no multiple of 4 or has not four bytes in RAM; a mode that
    /// is not 0 or 1.
    L4,
    /// More than 64 sections.
    L5,
    /// A section that begins below RAM, or ends above its end.
    L6,
    /// A section that begins before the end of the one before it.
    L7,
    /// A section whose address and length, or whose bytes, are cut short; or the number of capabilities, or a capability.
    L8,
    /// Bytes after the last section, or the last capability.
    L9,
    /// The reader or the writer failed.
    L10,
    /// No memory.
    L11,
    /// A capability's place that is no granule of RAM, or is not above the place before.
    L12,
    /// A capability whose base and length end above 2^64, or are changed by rounding out.
    L13,
    /// Permissions above 0xFFFF, or a flag above 1.
    L14,
    /// More than 1024 capabilities.
    L15,
}

impl From<DeviceFailed> for ImageFault {
    ghost from_gives = { λ _ fault. fault ≡ L10 };

    fn from(_failed: DeviceFailed) -> ImageFault {
        ImageFault::L10
    }
}

impl From<AllocError> for ImageFault {
    ghost from_gives = { λ _ fault. fault ≡ L11 };

    fn from(_error: AllocError) -> ImageFault {
        ImageFault::L11
    }
}

impl<T: Drop> From<AllocFailed<T>> for ImageFault {
    ghost from_gives = { λ _ fault. fault ≡ L11 };

    fn from(_failed: AllocFailed<T>) -> ImageFault {
        ImageFault::L11
    }
}
