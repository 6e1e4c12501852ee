//! The listing of an image, with names or without, and the line of a word with the place in names where it leads.
ghost use Rattle.std.specs.Prelude.{◌≡◌, ◌+◌, ◌-◌, ◌^◌, ◌<◌, ◌≤◌, ◌++◌, length, OnOk, OnErr};
ghost use Rattle.std.specs.Option.{option_copied};
ghost use Rattle.std.specs.Io.KnownBytes.{Appends};
ghost use Rattle.arrayvec.specs.ArrayString.{array_string_len};
ghost use Rattle.image.specs.Devices.{Counts, AppendsBeginning};
ghost use Rattle.image_listing.specs.Listing.{listing, listing_by, listing_named, named_line, section_lines};
ghost use Rattle.image_listing.specs.Named.{after, before, label_line, label_lines, leads, target_in, target_of};

use arrayvec::ArrayString;
use byteorder::{ByteOrder, LittleEndian};
use disassembler::{byte_line, disassemble};
use image::{DeviceFailed, Image, Section, Sink, write_all};
use isa_rows::{Format, Insn};
use isa_table::decode;
use symbols::{Label, Symbols};
use texts::{pieces, text};

/// A line of at most 369 bytes: a word has 90 with its line feed, its target 278.
type Line = ArrayString<370>;

/// Whether rows of a format are branches or jal.
fn leads(format: Format) -> bool
    ensures { result ≡ leads format }
{
    matches!(format, Format::Branch | Format::Jump)
}

/// Where an instruction at an address leads, if it is a branch or jal.
fn target_in(address: u64, insn: Option<Insn>) -> Option<u64>
    ensures { result ≡ target_in address insn }
{
    match insn {
        Some(insn) if leads(insn.row.format()) => Some(address.wrapping_add(insn.imm)),
        _ => None,
    }
}

fn target_of(address: u64, word: u32) -> Option<u64>
    ensures { result ≡ target_of address word }
{
    target_in(address, decode(word))
}

/// The place in names where a word at an address leads, if there is a table.
fn after(table: Option<&Symbols>, address: u64, word: u32) -> Label
    ensures text { result.bytes ≡ after (option_copied table.entry) address word }
    ensures within { array_string_len result ≤ 278 }
{
    match (table, target_of(address, word)) {
        (Some(symbols), Some(target)) => symbols.label_of(target),
        _ => Label::new(),
    }
}

/// The line of a word at an address, in a mode, with the place where it leads.
fn named_line(table: Option<&Symbols>, address: u64, word: u32, mode: bool) -> Line
    ensures { result.bytes ≡ named_line (option_copied table.entry) mode address word }
{
    let shown = disassemble(word, mode);
    let leads = after(table, address, word);
    text(&pieces![
        Address(address) " " Hexadecimal(8, u128::from(word)) " " Text(shown.as_str()) Text(leads.as_str()) "\n"
    ])
}

/// A table of symbols, if there is one.
type Table<'a> = Option<&'a Symbols>;

type Written = Result<(), DeviceFailed>;

/// Writes the line of a label.
fn write_label<W: Sink>(name: &[u8], sink: &mut W) -> Written
    requires { W.failed sink.old < 2 ^ 64 - 1 }
    ensures ok { OnOk result (Appends (W.held sink.old) (W.held sink.new) (label_line name.now)) }
    ensures err { OnErr result (AppendsBeginning (W.held sink.old) (W.held sink.new) (label_line name.now)) }
    ensures count { Counts (W.failed sink.old) (W.failed sink.new) result }
{
    write_all(sink, name)?;
    write_all(sink, b":\n")
}

/// Writes a line for each label of an address.
fn write_labels<W: Sink>(symbols: &Symbols, address: u64, sink: &mut W) -> Written
    requires { W.failed sink.old < 2 ^ 64 - 1 }
    ensures ok { OnOk result (Appends (W.held sink.old) (W.held sink.new) (label_lines symbols.now address)) }
    ensures err { OnErr result (AppendsBeginning (W.held sink.old) (W.held sink.new) (label_lines symbols.now address)) }
    ensures count { Counts (W.failed sink.old) (W.failed sink.new) result }
{
    let mut names = symbols.names_at(address);
    while let Some(name) = names.next() {
        write_label(name, sink)?;
    }
    Ok(())
}

/// Writes the labels of an address, if there is a table, and a line.
fn write_line<W: Sink>(table: Table, address: u64, line: &str, sink: &mut W) -> Written
    requires { W.failed sink.old < 2 ^ 64 - 1 }
    ensures ok { OnOk result (Appends (W.held sink.old) (W.held sink.new) (before (option_copied table.entry) address ++ line.now)) }
    ensures err { OnErr result (AppendsBeginning (W.held sink.old) (W.held sink.new)
        (before (option_copied table.entry) address ++ line.now)) }
    ensures count { Counts (W.failed sink.old) (W.failed sink.new) result }
{
    if let Some(symbols) = table {
        write_labels(symbols, address, sink)?;
    }
    write_all(sink, line.as_bytes())
}

/// Writes the lines of a section: its words, and then the bytes left over.
fn list_section<W: Sink>(table: Table, mode: bool, section: &Section, sink: &mut W) -> Written
    requires fits { section.now.address + length section.now.bytes < 2 ^ 64 }
    requires failed { W.failed sink.old < 2 ^ 64 - 1 }
    ensures ok { OnOk result (Appends (W.held sink.old) (W.held sink.new) (section_lines (option_copied table.entry) mode section.now)) }
    ensures err { OnErr result (AppendsBeginning (W.held sink.old) (W.held sink.new)
        (section_lines (option_copied table.entry) mode section.now)) }
    ensures count { Counts (W.failed sink.old) (W.failed sink.new) result }
{
    let mut address = section.address();
    let mut rest = section.bytes();
    while rest.len() >= 4 {
        let line = named_line(table, address, LittleEndian::read_u32(rest), mode);
        write_line(table, address, line.as_str(), sink)?;
        address += 4;
        rest = &rest[4..];
    }
    while let Some((byte, after)) = rest.split_first() {
        write_line(table, address, byte_line(address, *byte).as_str(), sink)?;
        address += 1;
        rest = after;
    }
    Ok(())
}

/// Writes the listing of an image, with the names of a table if there is one.
fn list_by<W: Sink>(image: &Image, table: Table, sink: &mut W) -> Written
    requires { W.failed sink.old < 2 ^ 64 - 1 }
    ensures ok { OnOk result (Appends (W.held sink.old) (W.held sink.new) (listing_by (option_copied table.entry) image.now)) }
    ensures err { OnErr result (AppendsBeginning (W.held sink.old) (W.held sink.new) (listing_by (option_copied table.entry) image.now)) }
    ensures count { Counts (W.failed sink.old) (W.failed sink.new) result }
{
    for section in image.sections() {
        list_section(table, image.mode(), section, sink)?;
    }
    Ok(())
}

/// Writes the listing of an image: of each section from its first byte on a line for each word, in the image's mode, and for
/// each of one to three bytes left over. It takes no memory.
///
/// An Err says that a call of the sink failed: it then holds a beginning of the listing.
pub fn list<W: Sink>(image: &Image, sink: &mut W) -> Result<(), DeviceFailed>
    requires { W.failed sink.old < 2 ^ 64 - 1 }
    ensures ok { OnOk result (Appends (W.held sink.old) (W.held sink.new) (listing image.now)) }
    ensures err { OnErr result (AppendsBeginning (W.held sink.old) (W.held sink.new) (listing image.now)) }
    ensures count { Counts (W.failed sink.old) (W.failed sink.new) result }
{
    list_by(image, None, sink)
}

/// Writes the listing of an image with names: before the lines of a word or byte each label of its address in a line of its own, in
/// the table's order, and after a branch or jal the place where it leads, by a name at it or fewer than 4096 bytes below it. It takes
/// no memory.
///
/// An Err says that a call of the sink failed: it then holds a beginning of the listing.
pub fn list_named<W: Sink>(
    image: &Image,
    symbols: &Symbols,
    sink: &mut W,
) -> Result<(), DeviceFailed>
    requires { W.failed sink.old < 2 ^ 64 - 1 }
    ensures ok { OnOk result (Appends (W.held sink.old) (W.held sink.new) (listing_named symbols.now image.now)) }
    ensures err { OnErr result (AppendsBeginning (W.held sink.old) (W.held sink.new) (listing_named symbols.now image.now)) }
    ensures count { Counts (W.failed sink.old) (W.failed sink.new) result }
{
    list_by(image, Some(symbols), sink)
}
