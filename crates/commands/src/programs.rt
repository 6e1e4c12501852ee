//! What a file gives that is run, debugged or listed: an image, or a text that is assembled into one; and the labels of it.

ghost use Rattle.std.specs.Prelude.{◌≡◌, None, true, false, IfOk, IfErr, IfSome};
ghost use Rattle.assembler.specs.Placed.{placed_lines};
ghost use Rattle.assembler.specs.Places as places;
ghost use Rattle.assembler.specs.Text.{text_fault, text_image};
ghost use Rattle.symbols.specs.Labels.{table_of};
ghost use Rattle.symbols.specs.Symbols.{symbols_of, table_text};
ghost use Rattle.commands.specs.declared.fault.ProgramFault.TheVariants as program;
ghost use Rattle.commands.specs.Assembling.{own_lines, seen_labels};
ghost use Rattle.commands.specs.Files.{Holds, IsTextTableFault, bytes_of};
ghost use Rattle.commands.specs.Programs.{FailsToLoadProgram, GivesOwnLines, HasTable, IsGivenFault, IsLinesFault, IsProgram};
ghost use Rattle.commands.specs.Programs.{IsProgramFault, IsProgramLoaded, is_source};

use crate::assembling::{base_name, faulty_text};
use crate::fault::ProgramFault;
use crate::files::{Folder, read_image, read_table, read_text, table_in, with_sources};
use assembler::{Assembly, assemble_or_stop};
use fault_details::source_lines;
use image::Image;
use std::alloc::Global;
use symbols::{Symbols, table_text};

/// An image, the labels that are known of it: those of a table that is named, or else of the text that it was assembled from; and the
/// table of that text's lines, which is empty where there is no text.
#[derive(Drop)]
pub struct Program {
    pub image: Image,
    pub labels: Option<Symbols>,
    pub own_lines: Vec<u8>,
}

/// A program, with what is told with its addresses.
#[derive(Drop)]
pub struct LoadedProgram {
    pub image: Image,
    pub table: Symbols,
}

/// A text, and what it makes.
#[derive(Drop)]
struct Assembled {
    text: Vec<u8>,
    assembly: Assembly,
}

/// The labels that are known of a program, where none are no labels.
pub fn table_of(alloc: Global, labels: Option<Symbols>) -> Symbols
    ensures { result ≡ table_of labels }
{
    match labels {
        Some(table) => table,
        None => Symbols::new(alloc),
    }
}

/// What is told with addresses: the labels, and after them the lines of the file `lines`, if one is named, or else those of the program's
/// own text, which belong to the file of this name.
fn told_with<'a, F: Folder>(
    alloc: Global,
    folder: &F,
    name: &'a str,
    lines: Option<&'a str>,
    labels: Option<Symbols>,
    own_lines: &[u8],
) -> Result<Symbols, ProgramFault<'a>>
    requires { GivesOwnLines (is_source name.now) name.now (F.files folder.now) own_lines.now }
    ensures ok { IfOk result (HasTable name.entry.now lines.entry (F.files folder.now) labels) }
    ensures err { IfErr result (IsLinesFault name.entry.now lines.entry own_lines.now (F.files folder.now)) }
{
    let table = table_of(alloc, labels);
    match lines {
        Some(file) => {
            let text = read_text(alloc, folder, file)?;
            with_sources(alloc, table, file, &text)
        }
        None => with_sources(alloc, table, name, own_lines),
    }
}

/// Whether a file of this name holds a text.
fn is_source(name: &str) -> bool
    ensures { result ≡ is_source name.now }
{
    name.as_bytes().ends_with(b".s")
}

/// What the text of a file makes.
fn assemble_text<'a, F: Folder>(
    alloc: Global,
    folder: &F,
    name: &'a str,
) -> Result<Assembled, ProgramFault<'a>>
    ensures correct { IfOk result (λ _. IfSome (bytes_of name.entry.now (F.files folder.now)) (λ text. text_fault text ≡ None)) }
    ensures image { IfOk result (λ made. IfSome (bytes_of name.entry.now (F.files folder.now)) (λ text.
        made.assembly.image ≡ text_image text)) }
    ensures symbols { IfOk result (λ made. IfSome (bytes_of name.entry.now (F.files folder.now)) (λ text.
        made.assembly.symbols ≡ places.symbols_of text)) }
    ensures text { IfOk result (λ made. Holds name.entry.now (F.files folder.now) made.text.items) }
    ensures placed { IfOk result (λ made. made.assembly.placed ≡ placed_lines made.text.items) }
    ensures err { IfErr result (IsGivenFault true name.entry.now (F.files folder.now)) }
{
    let text = read_text(alloc, folder, name)?;
    match assemble_or_stop(alloc, text.as_slice()) {
        Ok(assembly) => Ok(Assembled { text, assembly }),
        Err(stopped) => Err(faulty_text(alloc, name, &text, &stopped)),
    }
}

/// The labels of a text, as the table has them that `asm` writes.
fn own_labels<'a>(
    alloc: Global,
    name: &'a str,
    assembly: &Assembly,
) -> Result<Symbols, ProgramFault<'a>>
    ensures ok { IfOk result (λ labels. labels ≡ symbols_of (table_text (seen_labels assembly.now.symbols))) }
    ensures err { IfErr result (IsTextTableFault name.entry.now (table_text (seen_labels assembly.now.symbols))) }
{
    let table = table_text(alloc, assembly.symbols())?;
    table_in(alloc, name, &table)
}

/// The lines of a text, as the table has them that `asm` writes.
fn own_lines<'a>(alloc: Global, name: &str, made: &Assembled) -> Result<Vec<u8>, ProgramFault<'a>>
    requires { made.now.assembly.placed ≡ placed_lines made.now.text.items }
    ensures lines { IfOk result (λ lines. lines.items ≡ own_lines name.now made.now.text.items) }
    ensures err { IfErr result (λ fault. fault ≡ program.Memory) }
{
    let lines = source_lines(alloc, base_name(name), &made.text, made.assembly.placed())?;
    Ok(lines)
}

/// The program of a text's file.
fn program_of_text<'a, F: Folder>(
    alloc: Global,
    folder: &F,
    name: &'a str,
    symbols: Option<&'a str>,
) -> Result<Program, ProgramFault<'a>>
    requires { is_source name.now ≡ true }
    ensures ok { IfOk result (λ program. IsProgram name.entry.now symbols.entry (F.files folder.now) program.image program.labels) }
    ensures lines { IfOk result (λ program. GivesOwnLines (is_source name.entry.now) name.entry.now (F.files folder.now)
        program.own_lines.items) }
    ensures err { IfErr result (IsProgramFault name.entry.now symbols.entry (F.files folder.now)) }
{
    let made = assemble_text(alloc, folder, name)?;
    let labels = match symbols {
        Some(table) => read_table(alloc, folder, table)?,
        None => own_labels(alloc, name, &made.assembly)?,
    };
    let own_lines = own_lines(alloc, name, &made)?;
    Ok(Program {
        image: made.assembly.into_image(),
        labels: Some(labels),
        own_lines,
    })
}

/// The program of an image's file.
fn program_of_image<'a, F: Folder>(
    alloc: Global,
    folder: &F,
    name: &'a str,
    symbols: Option<&'a str>,
) -> Result<Program, ProgramFault<'a>>
    requires { is_source name.now ≡ false }
    ensures ok { IfOk result (λ program. IsProgram name.entry.now symbols.entry (F.files folder.now) program.image program.labels) }
    ensures lines { IfOk result (λ program. GivesOwnLines (is_source name.entry.now) name.entry.now (F.files folder.now)
        program.own_lines.items) }
    ensures err { IfErr result (IsProgramFault name.entry.now symbols.entry (F.files folder.now)) }
{
    let image = read_image(alloc, folder, name)?;
    let labels = match symbols {
        Some(table) => Some(read_table(alloc, folder, table)?),
        None => None,
    };
    let own_lines = Vec::new(alloc);
    Ok(Program {
        image,
        labels,
        own_lines,
    })
}

/// What the file `name` gives that is run, debugged or listed: the image that its bytes are, or where the name ends in `.s` the one that
/// its text means; with the labels of the file `symbols`, if one is named, or else of the text, if it is one; and with that text's lines.
pub fn read_program<'a, F: Folder>(
    alloc: Global,
    folder: &F,
    name: &'a str,
    symbols: Option<&'a str>,
) -> Result<Program, ProgramFault<'a>>
    ensures ok { IfOk result (λ program. IsProgram name.entry.now symbols.entry (F.files folder.now) program.image program.labels) }
    ensures lines { IfOk result (λ program. GivesOwnLines (is_source name.entry.now) name.entry.now (F.files folder.now)
        program.own_lines.items) }
    ensures err { IfErr result (IsProgramFault name.entry.now symbols.entry (F.files folder.now)) }
{
    if is_source(name) {
        program_of_text(alloc, folder, name, symbols)
    } else {
        program_of_image(alloc, folder, name, symbols)
    }
}

/// What the file `name` gives that is run, judged or debugged, as `read_program` reads it; and what is told with addresses: its labels,
/// and after them the lines of the file `lines`, if one is named, or else those of the text, if it is one.
pub fn load_program<'a, F: Folder>(
    alloc: Global,
    folder: &F,
    name: &'a str,
    symbols: Option<&'a str>,
    lines: Option<&'a str>,
) -> Result<LoadedProgram, ProgramFault<'a>>
    ensures ok { IfOk result (λ loaded.
        IsProgramLoaded name.entry.now symbols.entry lines.entry (F.files folder.now) loaded.image loaded.table) }
    ensures err { IfErr result (FailsToLoadProgram name.entry.now symbols.entry lines.entry (F.files folder.now)) }
{
    let Program {
        image,
        labels,
        own_lines,
    } = read_program(alloc, folder, name, symbols)?;
    let table = told_with(alloc, folder, name, lines, labels, &own_lines)?;
    Ok(LoadedProgram { image, table })
}
