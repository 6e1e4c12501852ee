//! Faults as they are told: the first line, and the lines that help.

ghost use Rattle.std.specs.Prelude.{◌≡◌, ◌-◌, ◌^◌, ◌<◌, ◌++◌, codes, OnOk};
ghost use Rattle.std.specs.Io.KnownBytes.{Appends};
ghost use Rattle.image.specs.Devices.{Counts};
ghost use Rattle.commands.specs.FaultTexts.{asm_words, at_line, fault_text, first_line, further_line, further_lines, help_lines};
ghost use Rattle.commands.specs.FaultTexts.{help_of_text, image_words, in_file, left_line, machine_words, marked, numbered};
ghost use Rattle.commands.specs.FaultTexts.{policy_words, reason_words, shown_name};

use crate::fault::ProgramFault;
use crate::faulty_text::FaultyText;
use arrayvec::ArrayString;
use assembler::{AsmCode, AsmFault};
use fault_details::line_at;
use image::{DeviceFailed, ImageFault, Sink, write_all};
use machine::MachineFault;
use policy_text::PolicyCode;
use std::io::ErrorKind;
use texts::{pieces, text};

/// What helps where an ELF is not taken for flat bytes.
const ELF_HINT: &str =
    "make flat bytes of it by objcopy -O binary (docs/COMPILED.md); --flat-elf takes its bytes as they stand";

/// What stands before a hint.
const HINT: &str = "\n  hint: ";

/// The system's words for why a file could not be opened, made or read.
fn reason_text(reason: ErrorKind) -> &'static str
    ensures { result.now ≡ reason_words reason }
{
    match reason {
        ErrorKind::NotFound => "No such file or directory",
        ErrorKind::PermissionDenied => "Permission denied",
        ErrorKind::AlreadyExists => "File exists",
        ErrorKind::NotADirectory => "Not a directory",
        ErrorKind::IsADirectory => "Is a directory",
        ErrorKind::ReadOnlyFilesystem => "Read-only file system",
        ErrorKind::StorageFull => "No space left on device",
        ErrorKind::QuotaExceeded => "Disk quota exceeded",
        ErrorKind::FileTooLarge => "File too large",
        ErrorKind::ResourceBusy => "Device or resource busy",
        ErrorKind::ExecutableFileBusy => "Text file busy",
        ErrorKind::InvalidFilename => "File name too long",
        ErrorKind::FilesystemLoop => "Too many levels of symbolic links",
        ErrorKind::StaleNetworkFileHandle => "Stale file handle",
        ErrorKind::InvalidInput => "Invalid argument",
        ErrorKind::Interrupted => "Interrupted system call",
        ErrorKind::BrokenPipe => "Broken pipe",
        _ => "refused by the system",
    }
}

/// The code and the words of a fault of an image.
fn image_text(fault: ImageFault) -> &'static str
    ensures { result.now ≡ image_words fault }
{
    match fault {
        ImageFault::L1 => "L1 short header",
        ImageFault::L2 => "L2 magic",
        ImageFault::L3 => "L3 version",
        ImageFault::L4 => "L4 pages, entry or mode",
        ImageFault::L5 => "L5 too many sections",
        ImageFault::L6 => "L6 section outside RAM",
        ImageFault::L7 => "L7 sections not ascending",
        ImageFault::L8 => "L8 truncated",
        ImageFault::L9 => "L9 bytes after the end",
        ImageFault::L10 => "L10 device failed",
        ImageFault::L11 => "L11 no memory",
        ImageFault::L12 => "L12 capability place",
        ImageFault::L13 => "L13 capability not exact",
        ImageFault::L14 => "L14 permissions or flag",
        ImageFault::L15 => "L15 too many capabilities",
    }
}

/// The code and the words of a fault of a policy.
fn policy_text(code: PolicyCode) -> &'static str
    ensures { result.now ≡ policy_words code }
{
    match code {
        PolicyCode::P1 => "P1 neither a definition nor a rule",
        PolicyCode::P2 => "P2 name unknown",
        PolicyCode::P3 => "P3 name twice",
        PolicyCode::P4 => "P4 number",
        PolicyCode::P5 => "P5 range empty",
        PolicyCode::P6 => "P6 part unknown",
        PolicyCode::P7 => "P7 part twice",
        PolicyCode::P8 => "P8 part malformed",
    }
}

/// The code and the words of a fault of a text.
fn asm_text(code: AsmCode) -> &'static str
    ensures { result.now ≡ asm_words code }
{
    match code {
        AsmCode::A1 => "A1 unknown mnemonic",
        AsmCode::A2 => "A2 operands",
        AsmCode::A3 => "A3 immediate out of range",
        AsmCode::A4 => "A4 label twice",
        AsmCode::A5 => "A5 label unknown",
        AsmCode::A6 => "A6 target out of range",
        AsmCode::A7 => "A7 place",
        AsmCode::A8 => "A8 byte not ASCII",
        AsmCode::A9 => "A9 line too long",
        AsmCode::A10 => "A10 no memory",
        AsmCode::A11 => "A11 capability not exact",
    }
}

/// The code and the words of a fault of a machine.
fn machine_text(fault: MachineFault) -> &'static str
    ensures { result.now ≡ machine_words fault }
{
    match fault {
        MachineFault::M2 => "M2 no memory",
        MachineFault::M5 => "M5 no memory",
    }
}

/// Writes the file's name of a first line, of which a line alone has the first line.
fn put_file<W: Sink>(sink: &mut W, alone: bool, name: &str) -> Result<(), DeviceFailed>
    requires { W.failed sink.old < 2 ^ 64 - 1 }
    ensures ok { OnOk result (Appends (W.held sink.old) (W.held sink.new) (codes "file " ++ shown_name alone name.now)) }
    ensures count { Counts (W.failed sink.old) (W.failed sink.new) result }
{
    write_all(sink, b"file ")?;
    if alone {
        write_all(sink, line_at(1, name.as_bytes()))
    } else {
        write_all(sink, name.as_bytes())
    }
}

/// Writes the number of a line, and what is wrong with it.
fn put_numbered<W: Sink>(sink: &mut W, number: u64, words: &str) -> Result<(), DeviceFailed>
    requires { W.failed sink.old < 2 ^ 64 - 1 }
    ensures ok { OnOk result (Appends (W.held sink.old) (W.held sink.new) (numbered number words.now)) }
    ensures count { Counts (W.failed sink.old) (W.failed sink.new) result }
{
    let line: ArrayString<27> = text(&pieces!["line " Decimal(number) ": "]);
    write_all(sink, line.as_bytes())?;
    write_all(sink, words.as_bytes())
}

/// Writes the first line of a fault, without its line feed.
fn put_first<W: Sink>(
    sink: &mut W,
    alone: bool,
    fault: &ProgramFault<'_>,
) -> Result<(), DeviceFailed>
    requires { W.failed sink.old < 2 ^ 64 - 1 }
    ensures ok { OnOk result (Appends (W.held sink.old) (W.held sink.new) (first_line alone fault.now)) }
    ensures count { Counts (W.failed sink.old) (W.failed sink.new) result }
{
    match fault {
        ProgramFault::NoFile(name, _) | ProgramFault::Directory(name) => put_file(
            sink, alone, name,
        ),
        ProgramFault::Read(..) | ProgramFault::Words | ProgramFault::Input => {
            write_all(sink, b"read failed")
        }
        ProgramFault::Write(_) => write_all(sink, b"write failed"),
        ProgramFault::Memory => write_all(sink, b"no memory"),
        ProgramFault::File(_, fault, _) | ProgramFault::Image(fault) => {
            write_all(sink, image_text(*fault).as_bytes())
        }
        ProgramFault::Elf(_) => write_all(sink, b"ELF, not flat bytes"),
        ProgramFault::Symbols(_, line) => put_numbered(sink, *line, "no address and label"),
        ProgramFault::Lines(_, line) => put_numbered(
            sink,
            *line,
            "no address and line of a source",
        ),
        ProgramFault::Policy(_, line, code) => put_numbered(sink, *line, policy_text(*code)),
        ProgramFault::LongPolicy(_) => write_all(sink, b"P9 policy too long"),
        ProgramFault::LongText(_) => write_all(sink, b"text too long"),
        ProgramFault::CutShort(_) => write_all(sink, b"L10 device failed"),
        ProgramFault::Asm(told) => put_numbered(sink, told.fault.line, asm_text(told.fault.code)),
        ProgramFault::Machine(fault) => write_all(sink, machine_text(*fault).as_bytes()),
    }
}

/// Writes a file's name on a line of its own.
fn put_in_file<W: Sink>(sink: &mut W, name: &str) -> Result<(), DeviceFailed>
    requires { W.failed sink.old < 2 ^ 64 - 1 }
    ensures ok { OnOk result (Appends (W.held sink.old) (W.held sink.new) (in_file name.now)) }
    ensures count { Counts (W.failed sink.old) (W.failed sink.new) result }
{
    write_all(sink, b"\n  ")?;
    write_all(sink, name.as_bytes())
}

/// Writes a file's name and the number of a line on a line of its own.
fn put_at_line<W: Sink>(sink: &mut W, name: &str, number: u64) -> Result<(), DeviceFailed>
    requires { W.failed sink.old < 2 ^ 64 - 1 }
    ensures ok { OnOk result (Appends (W.held sink.old) (W.held sink.new) (at_line name.now number)) }
    ensures count { Counts (W.failed sink.old) (W.failed sink.new) result }
{
    put_in_file(sink, name)?;
    let number: ArrayString<21> = text(&pieces![":" Decimal(number)]);
    write_all(sink, number.as_bytes())
}

/// Writes a text after what stands before it; nothing where it is empty.
fn put_marked<W: Sink>(sink: &mut W, mark: &str, bytes: &[u8]) -> Result<(), DeviceFailed>
    requires { W.failed sink.old < 2 ^ 64 - 1 }
    ensures ok { OnOk result (Appends (W.held sink.old) (W.held sink.new) (marked mark.now bytes.now)) }
    ensures count { Counts (W.failed sink.old) (W.failed sink.new) result }
{
    match bytes {
        [] => Ok(()),
        [_, ..] => {
            write_all(sink, mark.as_bytes())?;
            write_all(sink, bytes)
        }
    }
}

/// Writes a file's name on a line of its own, and a text after it; nothing more where that is empty.
fn put_after_file<W: Sink>(
    sink: &mut W,
    name: &str,
    mark: &str,
    words: &str,
) -> Result<(), DeviceFailed>
    requires { W.failed sink.old < 2 ^ 64 - 1 }
    ensures ok { OnOk result (Appends (W.held sink.old) (W.held sink.new) (in_file name.now ++ marked mark.now words.now)) }
    ensures count { Counts (W.failed sink.old) (W.failed sink.new) result }
{
    put_in_file(sink, name)?;
    put_marked(sink, mark, words.as_bytes())
}

/// Writes a fault of a later line, and what its author probably meant.
fn put_further_line<W: Sink>(
    sink: &mut W,
    name: &str,
    fault: AsmFault,
    hint: &[u8],
) -> Result<(), DeviceFailed>
    requires { W.failed sink.old < 2 ^ 64 - 1 }
    ensures ok { OnOk result (Appends (W.held sink.old) (W.held sink.new) (further_line name.now fault hint.now)) }
    ensures count { Counts (W.failed sink.old) (W.failed sink.new) result }
{
    put_at_line(sink, name, fault.line)?;
    put_marked(sink, ": ", asm_text(fault.code).as_bytes())?;
    put_marked(sink, ": ", hint)
}

/// Writes the faults of later lines, each with what its author probably meant, if that is known.
fn put_further<W: Sink>(
    sink: &mut W,
    name: &str,
    faults: &[AsmFault],
    hints: &[Vec<u8>],
) -> Result<(), DeviceFailed>
    requires { W.failed sink.old < 2 ^ 64 - 1 }
    ensures ok { OnOk result (Appends (W.held sink.old) (W.held sink.new) (further_lines name.now faults.now hints.now)) }
    ensures count { Counts (W.failed sink.old) (W.failed sink.new) result }
{
    match (faults, hints) {
        ([], _) => Ok(()),
        ([fault, faults @ ..], []) => {
            put_further_line(sink, name, *fault, &[])?;
            put_further(sink, name, faults, &[])
        }
        ([fault, faults @ ..], [hint, hints @ ..]) => {
            put_further_line(sink, name, *fault, hint)?;
            put_further(sink, name, faults, hints)
        }
    }
}

/// Writes how many faults more there are, if there are any.
fn put_left<W: Sink>(sink: &mut W, left: u64) -> Result<(), DeviceFailed>
    requires { W.failed sink.old < 2 ^ 64 - 1 }
    ensures ok { OnOk result (Appends (W.held sink.old) (W.held sink.new) (left_line left)) }
    ensures count { Counts (W.failed sink.old) (W.failed sink.new) result }
{
    if left == 0 {
        return Ok(());
    }
    let line: ArrayString<32> = text(&pieces!["\n  and " Decimal(left) " more"]);
    write_all(sink, line.as_bytes())
}

/// Writes the lines that help where a text is not assembled.
fn put_help_of_text<W: Sink>(sink: &mut W, told: &FaultyText<'_>) -> Result<(), DeviceFailed>
    requires { W.failed sink.old < 2 ^ 64 - 1 }
    ensures ok { OnOk result (Appends (W.held sink.old) (W.held sink.new) (help_of_text told.now)) }
    ensures count { Counts (W.failed sink.old) (W.failed sink.new) result }
{
    put_at_line(sink, told.name, told.fault.line)?;
    put_marked(sink, ": ", &told.read)?;
    put_marked(sink, HINT, &told.hint)?;
    put_further(sink, told.name, &told.further.shown, &told.hints)?;
    put_left(sink, told.further.left)
}

/// Writes the lines that help, each after a line feed.
fn put_help<W: Sink>(sink: &mut W, fault: &ProgramFault<'_>) -> Result<(), DeviceFailed>
    requires { W.failed sink.old < 2 ^ 64 - 1 }
    ensures ok { OnOk result (Appends (W.held sink.old) (W.held sink.new) (help_lines fault.now)) }
    ensures count { Counts (W.failed sink.old) (W.failed sink.new) result }
{
    match fault {
        ProgramFault::NoFile(_, reason) => put_in_file(sink, reason_text(*reason)),
        ProgramFault::Directory(_) => write_all(sink, b"\n  Is a directory"),
        ProgramFault::Read(name, reason) => put_after_file(sink, name, ": ", reason_text(*reason)),
        ProgramFault::Words
        | ProgramFault::Input
        | ProgramFault::Write(_)
        | ProgramFault::Memory
        | ProgramFault::Image(_)
        | ProgramFault::Machine(_) => Ok(()),
        ProgramFault::File(name, _, hint) => put_after_file(sink, name, HINT, hint),
        ProgramFault::Elf(name) => put_after_file(sink, name, HINT, ELF_HINT),
        ProgramFault::Symbols(name, line)
        | ProgramFault::Lines(name, line)
        | ProgramFault::Policy(name, line, _) => put_at_line(sink, name, *line),
        ProgramFault::LongPolicy(name) => put_in_file(sink, name),
        ProgramFault::LongText(name) => put_after_file(sink, name, ": ", "more than 256 MiB"),
        ProgramFault::CutShort(name) => put_after_file(sink, name, ": ", "the file is cut short"),
        ProgramFault::Asm(told) => put_help_of_text(sink, told),
    }
}

/// Writes what is told of a fault: its first line after the program's name, and unless that stands `alone` the lines that help.
pub fn put_fault<W: Sink>(
    sink: &mut W,
    alone: bool,
    fault: &ProgramFault<'_>,
) -> Result<(), DeviceFailed>
    requires { W.failed sink.old < 2 ^ 64 - 1 }
    ensures ok { OnOk result (Appends (W.held sink.old) (W.held sink.new) (fault_text alone fault.now)) }
    ensures count { Counts (W.failed sink.old) (W.failed sink.new) result }
{
    write_all(sink, b"cherisim: ")?;
    put_first(sink, alone, fault)?;
    if !alone {
        put_help(sink, fault)?;
    }
    write_all(sink, b"\n")
}
