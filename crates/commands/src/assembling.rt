//! The command `asm`.

ghost use Rattle.std.specs.Prelude.{◌≡◌, ◌≤◌, ◌⊎◌, ◌++◌, List, Option, None, length, IfErr, IfSome, IsSomeAnd, OnOk};
ghost use Rattle.assembler.specs.Left.{IsStoppedAt};
ghost use Rattle.assembler.specs.Placed.{placed_lines};
ghost use Rattle.assembler.specs.Places.{symbols_of};
ghost use Rattle.assembler.specs.Standing.{standing_of};
ghost use Rattle.assembler.specs.Text.{text_fault, text_image};
ghost use Rattle.fault_details.specs.SourceLines.{source_lines};
ghost use Rattle.image.specs.Grammar.{spelling};
ghost use Rattle.symbols.specs.Symbols.{table_text};
ghost use Rattle.commands.specs.Assembling.{AreFurther, Assembles, FailsToAssemble, FailsToWrite, IsAsmFault};
ghost use Rattle.commands.specs.Assembling.{base_name, columns, indent_of, lines_file, seen_labels, table_file};
ghost use Rattle.commands.specs.Files.{File, Gains, IsUnwritten, bytes_of, whole};

use crate::fault::ProgramFault;
use crate::faulty_text::FaultyText;
use crate::files::{Folder, read_text, write_bytes, write_image};
use assembler::{AsmFault, Assembly, FurtherFaults, Stopped, assemble_or_stop, further_faults};
use fault_details::{detail, line_at, source_lines};
use hints::hint;
use itoa::Buffer;
use std::alloc::Global;
use symbols::table_text;

/// How many further faults are told one by one.
const MOST_FURTHER: usize = 20;

/// How many columns bytes in UTF-8 take: one for each that begins a character.
fn columns(bytes: &[u8]) -> usize
    ensures value { result ≡ columns bytes.now }
    ensures most { result ≤ length bytes.now }
{
    match bytes.split_first() {
        None => 0,
        Some((byte, rest)) if *byte / 64 == 2 => columns(rest),
        Some((_, rest)) => columns(rest) + 1,
    }
}

/// How many columns stand before a line where it is shown after its file's name and its number.
#[tactic(auto, unfolding(crate::specs::Assembling::indent_of))]
fn indent_of(name: &str, number: u64) -> usize
    ensures { result ≡ indent_of name.now number }
{
    let mut buffer = Buffer::new();
    columns(name.as_bytes()) + buffer.format(number).len() + 5
}

/// The further faults of a text whose first faulty line is `first`; none where there is no memory for them, and after A10.
fn further_of(alloc: Global, text: &[u8], first: u64) -> FurtherFaults
    ensures { AreFurther text.now first result }
{
    if first > 0 {
        if let Ok(further) = further_faults(alloc, text, first, MOST_FURTHER) {
            return further;
        }
    }
    FurtherFaults {
        shown: Vec::new(alloc),
        left: 0,
    }
}

/// What the author of a line probably meant; nothing where that isn't known, or where there is no memory for it.
fn hint_of(alloc: Global, text: &[u8], fault: AsmFault) -> Vec<u8> {
    match hint(alloc, text, line_at(fault.line, text)) {
        Ok(hint) => hint,
        Err(_) => Vec::new(alloc),
    }
}

/// The same of several lines, in their order.
fn hints_of(alloc: Global, text: &[u8], faults: &[AsmFault]) -> Vec<Vec<u8>> {
    let mut hints = Vec::new(alloc);
    for fault in faults {
        if hints.push(hint_of(alloc, text, *fault)).is_err() {
            return hints;
        }
    }
    hints
}

/// The fault of a text, with what was read of its line and what is wrong with later lines; without what there is no memory for.
pub(crate) fn faulty_text<'a>(
    alloc: Global,
    name: &'a str,
    text: &[u8],
    stopped: &Stopped,
) -> ProgramFault<'a>
    requires { IsStoppedAt (standing_of text.now) stopped.now }
    ensures { IsAsmFault name.entry.now text.now stopped.now.fault result }
{
    let fault = stopped.fault;
    let indent = indent_of(name, fault.line);
    let further = further_of(alloc, text, fault.line);
    let read = match detail(alloc, text, stopped, indent) {
        Ok(read) => read,
        Err(_) => Vec::new(alloc),
    };
    let hint = hint_of(alloc, text, fault);
    let hints = hints_of(alloc, text, &further.shown);
    ProgramFault::Asm(FaultyText {
        name,
        fault,
        read,
        hint,
        further,
        hints,
    })
}

/// Writes the labels of a text to the file of this name.
fn write_labels<'a, F: Folder>(
    alloc: Global,
    folder: &mut F,
    name: &'a str,
    assembly: &Assembly,
) -> Result<(), ProgramFault<'a>>
    ensures ok { OnOk result (Gains (F.files folder.old) (F.files folder.new)
        (whole name.entry.now (table_text (seen_labels assembly.now.symbols)))) }
    ensures err { IfErr result (IsUnwritten name.entry.now (F.files folder.old) (F.files folder.new)) }
{
    match table_text(alloc, assembly.symbols()) {
        Ok(labels) => write_bytes(folder, name, &labels),
        Err(_) => Err(ProgramFault::Memory),
    }
}

/// Makes the file `output` and writes the image to it; then the labels to the file `symbols`, if one is named.
fn write_assembly<'a, F: Folder>(
    alloc: Global,
    folder: &mut F,
    output: &'a str,
    symbols: Option<&'a str>,
    assembly: &Assembly,
) -> Result<(), ProgramFault<'a>>
    ensures ok { OnOk result (Gains (F.files folder.old) (F.files folder.new)
        (whole output.entry.now (spelling assembly.now.image) ++ table_file symbols.entry assembly.now.symbols)) }
    ensures err { IfErr result (FailsToWrite output.entry.now symbols.entry assembly.now.image (F.files folder.old) (F.files folder.new)) }
{
    write_image(folder, output, assembly.image())?;
    match symbols {
        Some(name) => write_labels(alloc, folder, name, assembly),
        None => Ok(()),
    }
}

/// A file's name without its folders.
pub(crate) fn base_name(name: &str) -> &[u8]
    ensures { result.now ≡ base_name name.now }
{
    let mut found = name.as_bytes();
    let mut rest = found;
    while let Some((byte, after)) = rest.split_first() {
        rest = after;
        if *byte == b'/' {
            found = after;
        }
    }
    found
}

/// Writes the line of each placed instruction to the file `lines`, if one is named.
fn write_lines<'a, F: Folder>(
    alloc: Global,
    folder: &mut F,
    lines: Option<&'a str>,
    input: &str,
    text: &[u8],
    assembly: &Assembly,
) -> Result<(), ProgramFault<'a>>
    ensures ok { OnOk result (Gains (F.files folder.old) (F.files folder.new)
        (lines_file lines.entry (source_lines (base_name input.now) text.now assembly.now.placed))) }
    ensures err { IfErr result (λ fault. IsSomeAnd lines.entry (λ name.
        IsUnwritten name.now (F.files folder.old) (F.files folder.new) fault)) }
{
    let Some(file) = lines else {
        return Ok(());
    };
    match source_lines(alloc, base_name(input), text, assembly.placed()) {
        Ok(table) => write_bytes(folder, file, &table),
        Err(_) => Err(ProgramFault::Memory),
    }
}

/// Writes what a correct text of the file `input` means.
fn write_all<'a, F: Folder>(
    alloc: Global,
    folder: &mut F,
    input: &str,
    output: &'a str,
    symbols: Option<&'a str>,
    lines: Option<&'a str>,
    text: &[u8],
    assembly: &Assembly,
) -> Result<(), ProgramFault<'a>>
    requires correct { text_fault text.now ≡ None }
    requires image { assembly.now.image ≡ text_image text.now }
    requires symbols { assembly.now.symbols ≡ symbols_of text.now }
    requires placed { assembly.now.placed ≡ placed_lines text.now }
    ensures ok { OnOk result (Assembles input.now output.entry.now symbols.entry lines.entry text.now
        (F.files folder.old) (F.files folder.new)) }
    ensures err { IfErr result (λ fault. FailsToWrite output.entry.now symbols.entry (text_image text.now)
        (F.files folder.old) (F.files folder.new) fault
        ⊎ ((between : Option (List File)) × Gains (F.files folder.old) between (whole output.entry.now (spelling (text_image text.now))
        ++ table_file symbols.entry (symbols_of text.now))
        × IsSomeAnd lines.entry (λ name. IsUnwritten name.now between (F.files folder.new) fault))) }
{
    write_assembly(alloc, folder, output, symbols, assembly)?;
    write_lines(alloc, folder, lines, input, text, assembly)
}

/// Assembles the text of the file `input`, and where that succeeds makes the file `output` and writes the image to it; then the
/// labels to the file `symbols`, if one is named, and the line of each placed instruction to the file `lines`, if one is.
pub fn assemble_file<'a, F: Folder>(
    alloc: Global,
    folder: &mut F,
    input: &'a str,
    output: &'a str,
    symbols: Option<&'a str>,
    lines: Option<&'a str>,
) -> Result<(), ProgramFault<'a>>
    ensures ok { OnOk result (IfSome (bytes_of input.entry.now (F.files folder.old)) (λ text.
        Assembles input.entry.now output.entry.now symbols.entry lines.entry text (F.files folder.old) (F.files folder.new))) }
    ensures err { IfErr result (FailsToAssemble input.entry.now output.entry.now symbols.entry lines.entry
        (F.files folder.old) (F.files folder.new)) }
{
    let text = read_text(alloc, folder, input)?;
    match assemble_or_stop(alloc, text.as_slice()) {
        Ok(assembly) => write_all(
            alloc, folder, input, output, symbols, lines, &text, &assembly,
        ),
        Err(stopped) => Err(faulty_text(alloc, input, &text, &stopped)),
    }
}
