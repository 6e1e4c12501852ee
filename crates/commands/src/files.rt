//! What the program reads from files and writes to them.

ghost use Rattle.std.specs.Prelude.{◌≡◌, ◌<◌, List, [], ◌∷◌, ◌++◌, Option, None, IfOk, IfErr, IfNone, OnErr, OnOk, IfSome, length, take};
ghost use Rattle.image.specs.Grammar.{spelling, reading};
ghost use Rattle.symbols.specs.Sources.{faulty_place, places_of};
ghost use Rattle.symbols.specs.Symbols.{faulty_line, symbols_of};
ghost use Rattle.commands.specs.Files.{File, begun, ended, whole, Finishes, Gains, IsNew, IsImageFault, IsTable, IsTableFault};
ghost use Rattle.commands.specs.Files.{IsOpening, IsReading, IsTextFault, IsTextSourcesFault, IsTextTableFault, IsUnfinished, IsUnwritten};
ghost use Rattle.commands.specs.Files.{bytes_of};
ghost use Rattle.commands.specs.Overwriting.{Sameness};

use crate::beginning::Beginning;
use crate::fault::{ProgramFault, opening_fault, reading_fault};
use crate::writing::Writing;
use image::{Image, write_all};
use schedules::Progress;
use std::alloc::Global;
use std::io;
use std::io::{Read, Write};
use symbols::{Symbols, SymbolsFault, read_symbols};

/// How many bytes a text has at most: 256 MiB.
pub const MOST_TEXT: u32 = 0x1000_0000;

/// The files that a program reaches by their names.
pub trait Folder {
    /// A file that is read.
    type Opened: Read + Drop;

    /// A file that is written.
    type Made: Write + Drop;

    /// Whoever waits for a run, and may be shown how far it came. What is shown is known to no clause.
    type Waiting: Progress + Drop;

    // What became of the files, in order, where that is known: each that was made, and then what it held when it was closed.
    ghost files: { Self → Option (List File) } = { λ _. None };

    // Whether two names lead to one file, where that is known.
    ghost same: { Self → Option Sameness } = { λ _. None };

    /// Whether two names lead to one file, or will where none is there yet.
    fn is_same(&self, name: &str, other: &str) -> bool
        ensures { IfSome (same self.now) (λ same. result ≡ same name.now other.now) };

    /// Opens the file of this name for reading; of a directory it answers `IsADirectory`.
    fn open(&self, name: &str) -> io::Result<Self::Opened>
        ensures { IfOk result (λ file. IfSome (bytes_of name.now (files self.now))
            (λ bytes. Self.Opened.remaining file ≡ Some bytes)) };

    /// Makes a file of this name, or empties the one that there is. An Err leaves every file as it is.
    fn make(&mut self, name: &str) -> io::Result<Self::Made>
        ensures same { OnErr result (files self.new ≡ files self.old) }
        ensures files { OnOk result (Gains (files self.old) (files self.new) (begun name.now ∷ [])) }
        ensures empty { IfOk result (λ file. IsNew (files self.old) (Self.Made.contents file)) };

    /// Whoever waits for a run from now on: nobody where nothing is to be told besides.
    fn waiting(&self, is_quiet: bool) -> Self::Waiting;

    /// Closes a file that was made by this name and is written to its end.
    fn close(&mut self, name: &str, file: Self::Made)
        ensures { Gains (files self.old) (files self.new) (ended name.now (Self.Made.contents file) ∷ []) };
}

/// What is left of a file.
fn read_rest<'a, R: Read + Drop>(
    alloc: Global,
    mut file: R,
    name: &'a str,
) -> Result<Vec<u8>, ProgramFault<'a>>
    ensures ok { IfOk result (λ read. IfSome (R.remaining file) (λ bytes. read.items ≡ bytes)) }
    ensures err { IfErr result (IsReading name.entry.now) }
{
    let mut bytes = Vec::new(alloc);
    match file.read_to_end(&mut bytes) {
        Ok(_) => Ok(bytes),
        Err(error) => Err(reading_fault(name, &error)),
    }
}

/// A file that is opened for reading.
pub fn open_file<'a, F: Folder>(folder: &F, name: &'a str) -> Result<F::Opened, ProgramFault<'a>>
    ensures ok { IfOk result (λ file. IfSome (bytes_of name.entry.now (F.files folder.now))
        (λ bytes. F.Opened.remaining file ≡ Some bytes)) }
    ensures err { IfErr result (IsOpening name.entry.now) }
{
    folder
        .open(name)
        .map_err(|error| opening_fault(name, &error))
}

/// The first `most` bytes of a file, or all that it has: no more are asked for.
pub fn read_beginning<'a, F: Folder>(
    alloc: Global,
    folder: &F,
    name: &'a str,
    most: u64,
) -> Result<Vec<u8>, ProgramFault<'a>>
    ensures ok { IfOk result (λ read. IfSome (bytes_of name.entry.now (F.files folder.now)) (λ bytes. read.items ≡ take most bytes)) }
    ensures err { IfErr result (IsReading name.entry.now) }
{
    let file = open_file(folder, name)?;
    read_rest(alloc, file.take(most), name)
}

/// All bytes of a file that has at most so many; `None` where it has more.
pub fn read_at_most<'a, F: Folder>(
    alloc: Global,
    folder: &F,
    name: &'a str,
    most: u32,
) -> Result<Option<Vec<u8>>, ProgramFault<'a>>
    ensures all { IfOk result (λ read. IfSome read (λ text. IfSome (bytes_of name.entry.now (F.files folder.now))
        (λ bytes. text.items ≡ bytes))) }
    ensures more { IfOk result (λ read. IfNone read (IfSome (bytes_of name.entry.now (F.files folder.now)) (λ bytes.
        most < length bytes))) }
    ensures err { IfErr result (IsReading name.entry.now) }
{
    let read = read_beginning(alloc, folder, name, u64::from(most) + 1)?;
    if read.len() > most as usize {
        return Ok(None);
    }
    Ok(Some(read))
}

/// All bytes of a text. One of more than 256 MiB is refused before anything of it is looked at.
pub fn read_text<'a, F: Folder>(
    alloc: Global,
    folder: &F,
    name: &'a str,
) -> Result<Vec<u8>, ProgramFault<'a>>
    ensures ok { IfOk result (λ text. IfSome (bytes_of name.entry.now (F.files folder.now)) (λ bytes. text.items ≡ bytes)) }
    ensures err { IfErr result (IsTextFault name.entry.now (F.files folder.now)) }
{
    match read_at_most(alloc, folder, name, MOST_TEXT)? {
        Some(text) => Ok(text),
        None => Err(ProgramFault::LongText(name)),
    }
}

/// A new file of this name, or the one that there is, emptied.
pub fn make_file<'a, F: Folder>(folder: &mut F, name: &'a str) -> Result<F::Made, ProgramFault<'a>>
    ensures files { OnOk result (Gains (F.files folder.old) (F.files folder.new) (begun name.entry.now ∷ [])) }
    ensures empty { IfOk result (λ file. IsNew (F.files folder.old) (F.Made.contents file)) }
    ensures err { IfErr result (IsOpening name.entry.now) }
    ensures same { OnErr result (F.files folder.new ≡ F.files folder.old) }
{
    folder
        .make(name)
        .map_err(|error| opening_fault(name, &error))
}

/// Writes an image to a new file of this name, or to the one that there is, emptied.
pub fn write_image<'a, F: Folder>(
    folder: &mut F,
    name: &'a str,
    image: &Image,
) -> Result<(), ProgramFault<'a>>
    ensures ok { OnOk result (Gains (F.files folder.old) (F.files folder.new) (whole name.entry.now (spelling image.now))) }
    ensures err { IfErr result (IsUnwritten name.entry.now (F.files folder.old) (F.files folder.new)) }
{
    let file = make_file(folder, name)?;
    let mut sink = Writing::new(file);
    match image::write(image, &mut sink) {
        Ok(()) => {
            folder.close(name, sink.into_inner());
            Ok(())
        }
        Err(_) => Err(ProgramFault::CutShort(name)),
    }
}

/// Writes bytes to a new file of this name, or to the one that there is, emptied.
pub fn write_bytes<'a, F: Folder>(
    folder: &mut F,
    name: &'a str,
    bytes: &[u8],
) -> Result<(), ProgramFault<'a>>
    ensures ok { OnOk result (Gains (F.files folder.old) (F.files folder.new) (whole name.entry.now bytes.now)) }
    ensures err { IfErr result (IsUnwritten name.entry.now (F.files folder.old) (F.files folder.new)) }
{
    let file = make_file(folder, name)?;
    finish_file(folder, name, file, bytes)
}

/// Writes bytes to a file of this name that was made, and closes it.
pub fn finish_file<'a, F: Folder>(
    folder: &mut F,
    name: &'a str,
    file: F::Made,
    bytes: &[u8],
) -> Result<(), ProgramFault<'a>>
    ensures ok { OnOk result (Finishes name.entry.now (F.Made.contents file) bytes.now (F.files folder.old) (F.files folder.new)) }
    ensures err { IfErr result (IsUnfinished name.entry.now (F.files folder.old) (F.files folder.new)) }
{
    let mut grown = Writing::new(file);
    match write_all(&mut grown, bytes) {
        Ok(()) => {
            folder.close(name, grown.into_inner());
            Ok(())
        }
        Err(_) => Err(ProgramFault::CutShort(name)),
    }
}

/// The image of a file.
pub fn read_image<'a, F: Folder>(
    alloc: Global,
    folder: &F,
    name: &'a str,
) -> Result<Image, ProgramFault<'a>>
    ensures ok { IfOk result (λ image. IfSome (bytes_of name.entry.now (F.files folder.now)) (λ bytes. reading bytes ≡ Ok image)) }
    ensures err { IfErr result (IsImageFault name.entry.now (F.files folder.now)) }
{
    let file = open_file(folder, name)?;
    let mut source = Beginning::new(file);
    match image::read(alloc, &mut source) {
        Ok(image) => Ok(image),
        Err(fault) => Err(ProgramFault::File(name, fault, source.hint(fault))),
    }
}

/// The table of symbols that a text is, which belongs to the file of this name.
pub fn table_in<'a>(alloc: Global, name: &'a str, text: &[u8]) -> Result<Symbols, ProgramFault<'a>>
    ensures correct { IfOk result (λ _. faulty_line text.now ≡ None) }
    ensures symbols { IfOk result (λ table. table ≡ symbols_of text.now) }
    ensures err { IfErr result (IsTextTableFault name.entry.now text.now) }
{
    match read_symbols(alloc, text) {
        Ok(table) => Ok(table),
        Err(SymbolsFault::Line(number)) => Err(ProgramFault::Symbols(name, number)),
        Err(SymbolsFault::Memory) => Err(ProgramFault::Memory),
    }
}

/// The symbols, and after them the lines of sources that a text has, which belongs to the file of this name.
pub fn with_sources<'a>(
    alloc: Global,
    table: Symbols,
    name: &'a str,
    text: &[u8],
) -> Result<Symbols, ProgramFault<'a>>
    ensures correct { IfOk result (λ _. faulty_place text.now ≡ None) }
    ensures symbols { IfOk result (λ all. all ≡ table ++ places_of text.now) }
    ensures err { IfErr result (IsTextSourcesFault name.entry.now text.now) }
{
    match table.with_sources(alloc, text) {
        Ok(all) => Ok(all),
        Err(SymbolsFault::Line(number)) => Err(ProgramFault::Lines(name, number)),
        Err(SymbolsFault::Memory) => Err(ProgramFault::Memory),
    }
}

/// The table of symbols of a file.
pub fn read_table<'a, F: Folder>(
    alloc: Global,
    folder: &F,
    name: &'a str,
) -> Result<Symbols, ProgramFault<'a>>
    ensures ok { IfOk result (IsTable name.entry.now (F.files folder.now)) }
    ensures err { IfErr result (IsTableFault name.entry.now (F.files folder.now)) }
{
    let text = read_text(alloc, folder, name)?;
    table_in(alloc, name, &text)
}
