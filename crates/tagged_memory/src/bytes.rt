ghost use Rattle.std.specs.Prelude.{◌≡◌, ◌+◌, ◌^◌, ◌<◌, ◌≤◌, ◌++◌, drop, take, length};
ghost use Rattle.tagged_memory.specs.Replaced.{replaced};
ghost use Rattle.byteorder.specs.Endian.{little_bytes, little_number};
ghost use Rattle.cap_format.specs.Word.{memory_bytes, word_of_memory};
ghost use Rattle.base.specs.Size.{bytes_of};

use base::Size;
use byteorder::{ByteOrder, LittleEndian};
use cap_format::CapWord;

/// The number in the first bytes, the lowest first.
#[inline]
pub fn read_number(bytes: &[u8], size: Size) -> u64
    requires { bytes_of size ≤ length bytes.now }
    ensures value { result ≡ little_number (bytes_of size) bytes.now }
    ensures fits { result < 256 ^ bytes_of size }
{
    match size {
        Size::Byte => u64::from(bytes[0]),
        Size::Half => u64::from(LittleEndian::read_u16(bytes)),
        Size::Word => u64::from(LittleEndian::read_u32(bytes)),
        Size::Double => LittleEndian::read_u64(bytes),
    }
}

/// Writes the low bytes of a number over the first bytes, the lowest first.
#[inline]
pub fn write_number(bytes: &mut [u8], size: Size, value: u64)
    requires { bytes_of size ≤ length bytes.old }
    ensures { bytes.new ≡ little_bytes (bytes_of size) value ++ drop (bytes_of size) bytes.old }
{
    match size {
        Size::Byte => bytes[0] = (value & 0xff) as u8,
        Size::Half => LittleEndian::write_u16(bytes, (value & 0xffff) as u16),
        Size::Word => LittleEndian::write_u32(bytes, (value & 0xffff_ffff) as u32),
        Size::Double => LittleEndian::write_u64(bytes, value),
    }
}

/// The word that the first 16 bytes are.
#[inline]
pub fn read_word(bytes: &[u8]) -> CapWord
    requires { 16 ≤ length bytes.now }
    ensures { result ≡ word_of_memory (take 16 bytes.now) }
{
    CapWord::from_memory([
        bytes[0], bytes[1], bytes[2], bytes[3], bytes[4], bytes[5], bytes[6], bytes[7], bytes[8],
        bytes[9], bytes[10], bytes[11], bytes[12], bytes[13], bytes[14], bytes[15],
    ])
}

/// Writes a word over the first 16 bytes.
#[inline]
pub fn write_word(bytes: &mut [u8], word: CapWord)
    requires { 16 ≤ length bytes.old }
    ensures { bytes.new ≡ memory_bytes word ++ drop 16 bytes.old }
{
    bytes[..16].copy_from_slice(&word.to_memory());
}

/// Writes bytes over those from a place on.
pub fn write_bytes(bytes: &mut [u8], place: usize, contents: &[u8])
    requires { place + length contents.now ≤ length bytes.old }
    ensures { bytes.new ≡ replaced bytes.old place contents.now }
{
    bytes[place..place + contents.len()].copy_from_slice(contents);
}
