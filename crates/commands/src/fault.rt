//! The faults that end the program with status 3.

ghost use Rattle.std.specs.Prelude.{◌≡◌};
ghost use Rattle.commands.specs.Files.{IsOpening, IsReading};
ghost use Rattle.commands.specs.declared.fault.ProgramFault.TheVariants as program;

use crate::faulty_text::FaultyText;
use image::{DeviceFailed, ImageFault};
use machine::MachineFault;
use policy_text::PolicyCode;
use std::alloc::AllocError;
use std::io;
use std::io::ErrorKind;

/// Why the program could not do its work. `put_fault` tells it.
#[derive(Debug, Drop)]
pub enum ProgramFault<'a> {
    /// A file that cannot be opened or made: its name, and the system's reason.
    NoFile(&'a str, ErrorKind),
    /// A directory stands where a file was named.
    Directory(&'a str),
    /// A file could not be read to its end: its name, and the system's reason.
    Read(&'a str, ErrorKind),
    /// The words of the command line could not be read.
    Words,
    /// What is typed could not be read.
    Input,
    /// A byte could not be written.
    Write(DeviceFailed),
    /// No memory for a file's bytes or for the words of the command line.
    Memory,
    /// A file is no image, or its bytes make none, or it could not be read; and what it probably is instead, if that is known.
    File(&'a str, ImageFault, &'static str),
    /// An ELF is not taken for flat bytes.
    Elf(&'a str),
    /// An invalid line of a table of symbols: its file, and the line's number.
    Symbols(&'a str, u64),
    /// An invalid line of a table of lines of sources: its file, and the line's number.
    Lines(&'a str, u64),
    /// A text is not a policy: its file, the first faulty line, and what is wrong with it.
    Policy(&'a str, u64, PolicyCode),
    /// The text of a policy has more than 1 MiB.
    LongPolicy(&'a str),
    /// A text, a table of symbols or what is typed has more than 256 MiB.
    LongText(&'a str),
    /// A file could not be written to its end.
    CutShort(&'a str),
    /// There is no image.
    Image(ImageFault),
    /// A text is not assembled.
    Asm(FaultyText<'a>),
    /// No machine could be made.
    Machine(MachineFault),
}

impl From<DeviceFailed> for ProgramFault<'_> {
    ghost from_gives = { λ failed fault. fault ≡ program.Write failed };

    fn from(failed: DeviceFailed) -> Self {
        ProgramFault::Write(failed)
    }
}

impl From<ImageFault> for ProgramFault<'_> {
    ghost from_gives = { λ found fault. fault ≡ program.Image found };

    fn from(found: ImageFault) -> Self {
        ProgramFault::Image(found)
    }
}

impl From<MachineFault> for ProgramFault<'_> {
    ghost from_gives = { λ found fault. fault ≡ program.Machine found };

    fn from(found: MachineFault) -> Self {
        ProgramFault::Machine(found)
    }
}

impl From<AllocError> for ProgramFault<'_> {
    ghost from_gives = { λ _ fault. fault ≡ program.Memory };

    fn from(_: AllocError) -> Self {
        ProgramFault::Memory
    }
}

/// The fault of a file that could not be opened or made.
pub fn opening_fault<'a>(name: &'a str, error: &io::Error) -> ProgramFault<'a>
    ensures { IsOpening name.entry.now result }
{
    match error.kind() {
        ErrorKind::OutOfMemory => ProgramFault::Memory,
        ErrorKind::IsADirectory => ProgramFault::Directory(name),
        reason => ProgramFault::NoFile(name, reason),
    }
}

/// The fault of a file that was opened and could not be read.
pub fn reading_fault<'a>(name: &'a str, error: &io::Error) -> ProgramFault<'a>
    ensures { IsReading name.entry.now result }
{
    match error.kind() {
        ErrorKind::OutOfMemory => ProgramFault::Memory,
        reason => ProgramFault::Read(name, reason),
    }
}
