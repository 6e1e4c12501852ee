//! Bytes and words of RAM as lines of text.
ghost use Rattle.std.specs.Prelude.{◌≡◌, ◌+◌, ◌-◌, ◌*◌, ◌%◌, ◌^◌, ◌<◌, ◌≤◌, ◌++◌, [], ◌∷◌, IsTrue, IfOk, OnOk, string_bytes, length};
ghost use Rattle.std.specs.Prelude.{take, drop};
ghost use Rattle.base.specs.Ram.{ram_base};
ghost use Rattle.tagged_memory.specs.Memory.{is_in_ram, bytes_at, number_at};
ghost use Rattle.debugger.specs.Reply.{byte_line, byte_lines, word_lines};

use base::Size;
use explain::put_word_line;
use std::alloc::{AllocError, Global};
use symbols::Symbols;
use tagged_memory::Memory;
use texts::Piece::{Address, Hexadecimal, Text};
use texts::append;

/// The most bytes of a line.
const LINE_BYTES: usize = 16;

/// The byte at an address.
#[tactic(auto, using(crate::proofs::RamBytes::one_byte, crate::proofs::RamBytes::no_fault))]
fn byte_at(memory: &Memory, address: u64) -> u8
    requires low { ram_base ≤ address }
    requires high { address < ram_base + length memory.now.bytes }
    ensures { bytes_at memory.now address 1 ≡ result ∷ [] }
{
    memory.load(address, Size::Byte) as u8
}

/// The bytes from an address.
fn bytes_at(alloc: Global, memory: &Memory, address: u64, count: u64) -> Result<Vec<u8>, AllocError>
    requires low { ram_base ≤ address }
    requires high { address + count ≤ ram_base + length memory.now.bytes }
    requires fits { address + count < 2 ^ 64 }
    ensures { IfOk result (λ bytes. bytes.items ≡ bytes_at memory.now address count) }
{
    let mut bytes = Vec::with_capacity(alloc, count as usize)?;
    for i in 0..count {
        bytes.push(byte_at(memory, address + i))?;
    }
    Ok(bytes)
}

/// Appends a line to a text: an address and bytes, two digits each and a space before each.
fn append_byte_line(text: &mut String, address: u64, bytes: &[u8]) -> Result<(), AllocError>
    ensures { OnOk result (string_bytes text.new ≡ string_bytes text.old ++ byte_line address bytes.now) }
{
    append(text, &[Address(address), Text(":")])?;
    for byte in bytes {
        append(text, &[Text(" "), Hexadecimal(2, u128::from(*byte))])?;
    }
    append(text, &[Text("\n")])
}

/// The bytes of the first line, up to 16, and the others.
fn first_line(bytes: &[u8]) -> (&[u8], &[u8])
    ensures first { result.0.now ≡ take 16 bytes.now }
    ensures others { result.1.now ≡ drop 16 bytes.now }
{
    if bytes.len() < LINE_BYTES {
        (bytes, &[])
    } else {
        (&bytes[..LINE_BYTES], &bytes[LINE_BYTES..])
    }
}

/// Appends lines of up to 16 bytes to a text, so many at most.
fn append_byte_lines(
    text: &mut String,
    lines: u64,
    address: u64,
    bytes: &[u8],
) -> Result<(), AllocError>
    requires lines { length bytes.now ≤ lines }
    requires fits { address + 16 * lines < 2 ^ 64 }
    ensures { OnOk result (string_bytes text.new ≡ string_bytes text.old ++ byte_lines lines address bytes.now) }
{
    if bytes.is_empty() {
        return Ok(());
    }
    let (first, others) = first_line(bytes);
    append_byte_line(text, address, first)?;
    append_byte_lines(text, lines - 1, address + 16, others)?;
    Ok(())
}

/// Appends the lines of so many bytes from an address to a text.
#[tactic(auto, unfolding(tagged_memory::specs::Memory::is_in_ram))]
pub(crate) fn append_memory(
    text: &mut String,
    alloc: Global,
    memory: &Memory,
    address: u64,
    count: u64,
) -> Result<(), AllocError>
    requires { IsTrue (is_in_ram memory.now address count) }
    ensures { OnOk result (string_bytes text.new ≡ string_bytes text.old ++ byte_lines count address (bytes_at memory.now address count)) }
{
    let _pages = memory.pages();
    let bytes = bytes_at(alloc, memory, address, count)?;
    append_byte_lines(text, count, address, &bytes)
}

/// The word at an address.
#[tactic(auto, unfolding(tagged_memory::specs::Memory::place_fault, tagged_memory::specs::Memory::is_in_ram))]
fn word_at(memory: &Memory, address: u64) -> u32
    requires aligned { address % 4 ≡ 0 }
    requires low { ram_base ≤ address }
    requires high { address + 4 ≤ ram_base + length memory.now.bytes }
    ensures { result ≡ number_at memory.now address 4 }
{
    memory.load(address, Size::Word) as u32
}

/// Appends the lines of so many words from an address, with their labels, to a text.
#[tactic(auto, unfolding(tagged_memory::specs::Memory::is_in_ram))]
pub(crate) fn append_words(
    text: &mut String,
    symbols: &Symbols,
    memory: &Memory,
    mode: bool,
    address: u64,
    count: u64,
) -> Result<(), AllocError>
    requires aligned { address % 4 ≡ 0 }
    requires in_ram { IsTrue (is_in_ram memory.now address (4 * count)) }
    ensures { OnOk result (string_bytes text.new ≡ string_bytes text.old ++ word_lines symbols.now mode memory.now count address) }
{
    if count == 0 {
        return Ok(());
    }
    let _pages = memory.pages();
    put_word_line(text, symbols, address, word_at(memory, address), mode)?;
    append_words(text, symbols, memory, mode, address + 4, count - 1)?;
    Ok(())
}
