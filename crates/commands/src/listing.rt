//! The command `dis`.

ghost use Rattle.std.specs.Prelude.{◌-◌, ◌^◌, ◌<◌, Some, IfOk, IfErr, IfSome, OnOk};
ghost use Rattle.std.specs.Option.{option_copied};
ghost use Rattle.std.specs.Io.Buffered.{writer_contents};
ghost use Rattle.std.specs.Io.KnownBytes.{Appends, Keeps};
ghost use Rattle.commands.specs.Files.{IsUnsent, IsUnsentOrMemory};
ghost use Rattle.commands.specs.Listing.{FailsToList, ListsFile, listing_of};
ghost use Rattle.image_listing.specs.Listing.{listing_by};

use crate::fault::ProgramFault;
use crate::files::Folder;
use crate::programs::read_program;
use crate::writing::Writing;
use image::{DeviceFailed, Image, Sink};
use image_listing::{list, list_named, write_header};
use std::alloc::Global;
use std::io::{BufWriter, Write};
use symbols::Symbols;

/// Writes the listing of an image, with the labels of a table if there is one.
fn put_lines<W: Sink>(
    image: &Image,
    table: Option<&Symbols>,
    sink: &mut W,
) -> Result<(), DeviceFailed>
    requires { W.failed sink.old < 2 ^ 64 - 1 }
    ensures { OnOk result (Appends (W.held sink.old) (W.held sink.new) (listing_by (option_copied table.entry) image.now)) }
{
    match table {
        Some(table) => list_named(image, table, sink),
        None => list(image, sink),
    }
}

/// The same, after the image's header and capabilities if they are asked for.
fn list_on<W: Sink>(
    image: &Image,
    table: Option<&Symbols>,
    header: bool,
    sink: &mut W,
) -> Result<(), DeviceFailed>
    requires { W.failed sink.old < 2 ^ 64 - 1 }
    ensures { OnOk result (Appends (W.held sink.old) (W.held sink.new) (listing_of header (option_copied table.entry) image.now)) }
{
    if header {
        write_header(image, sink)?;
        put_lines(image, table, sink)
    } else {
        put_lines(image, table, sink)
    }
}

/// Writes what is left of a block of lines, and hands the output back.
fn finish<'a, O: Write + Drop>(lines: BufWriter<O>) -> Result<O, ProgramFault<'a>>
    ensures ok { IfOk result (λ out. Keeps (writer_contents O.contents lines) (O.contents out)) }
    ensures err { IfErr result IsUnsent }
{
    match lines.into_inner() {
        Ok(output) => Ok(output),
        Err(error) => Err(cut_short(error.into_inner())),
    }
}

/// Lists an image on `output`, a block of lines at a time, and hands it back.
fn list_to<'a, O: Write + Drop>(
    alloc: Global,
    image: &Image,
    table: Option<&Symbols>,
    header: bool,
    output: O,
) -> Result<O, ProgramFault<'a>>
    ensures ok { IfOk result (λ out.
        Appends (O.contents output) (O.contents out) (listing_of header (option_copied table.entry) image.now)) }
    ensures err { IfErr result IsUnsentOrMemory }
{
    let lines = match BufWriter::new(alloc, output) {
        Ok(lines) => lines,
        Err(_) => return Err(ProgramFault::Memory),
    };
    let mut sink = Writing::new(lines);
    match list_on(image, table, header, &mut sink) {
        Ok(()) => finish(sink.into_inner()),
        Err(_) => Err(cut_short(sink.into_inner())),
    }
}

/// Lists the program of a file on `output`, a block of lines at a time, with the labels of the file `symbols` if one is named or else of
/// the text if it is one, after the image's header and capabilities if `header`; and hands the output back.
pub fn list_file<'a, F: Folder, O: Write + Drop>(
    alloc: Global,
    folder: &F,
    name: &'a str,
    symbols: Option<&'a str>,
    header: bool,
    output: O,
) -> Result<O, ProgramFault<'a>>
    ensures ok { IfOk result (λ out.
        ListsFile header (F.files folder.now) name.entry.now symbols.entry (O.contents output) (O.contents out)) }
    ensures err { IfErr result (FailsToList name.entry.now symbols.entry (F.files folder.now)) }
{
    let program = read_program(alloc, folder, name, symbols)?;
    list_to(
        alloc,
        &program.image,
        program.labels.as_ref(),
        header,
        output,
    )
}

/// The fault of a listing that was cut short. What is left of its block is let go: written when the writer is dropped it would stand
/// after a gap.
fn cut_short<'a, O: Write + Drop>(lines: BufWriter<O>) -> ProgramFault<'a>
    ensures { IsUnsent result }
{
    let _ = lines.into_parts();
    ProgramFault::Write(DeviceFailed)
}
