//! What calls answer, as numbers.

ghost use Rattle.std.specs.Prelude.{◌≡◌};
ghost use Rattle.cherisim_c.specs.Status.{image_status, text_status};

use assembler::AsmCode;
use image::ImageFault;

/// Done.
pub(crate) const OK: u32 = 0;

/// Out of memory.
pub(crate) const NO_MEMORY: u32 = 64;

/// The handle has no machine.
pub(crate) const NO_MACHINE: u32 = 65;

/// No such register, an address outside RAM or not aligned, a value that can't stand there.
pub(crate) const RANGE: u32 = 66;

/// The buffer is too short.
pub(crate) const FULL: u32 = 67;

/// The status of a fault of an image.
pub(crate) fn status_of_image(fault: ImageFault) -> u32
    ensures { result ≡ image_status fault }
{
    match fault {
        ImageFault::L1 => 1,
        ImageFault::L2 => 2,
        ImageFault::L3 => 3,
        ImageFault::L4 => 4,
        ImageFault::L5 => 5,
        ImageFault::L6 => 6,
        ImageFault::L7 => 7,
        ImageFault::L8 => 8,
        ImageFault::L9 => 9,
        ImageFault::L10 => 10,
        ImageFault::L11 => NO_MEMORY,
        ImageFault::L12 => 12,
        ImageFault::L13 => 13,
        ImageFault::L14 => 14,
        ImageFault::L15 => 15,
    }
}

/// The status of a fault of a text.
pub(crate) fn status_of_text(code: AsmCode) -> u32
    ensures { result ≡ text_status code }
{
    match code {
        AsmCode::A1 => 33,
        AsmCode::A2 => 34,
        AsmCode::A3 => 35,
        AsmCode::A4 => 36,
        AsmCode::A5 => 37,
        AsmCode::A6 => 38,
        AsmCode::A7 => 39,
        AsmCode::A8 => 40,
        AsmCode::A9 => 41,
        AsmCode::A10 => NO_MEMORY,
        AsmCode::A11 => 43,
    }
}
