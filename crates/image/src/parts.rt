//! The parts of an image file.

ghost use Rattle.std.specs.Prelude.{◌≡◌, ◌+◌, ◌≤◌, IfOk, IfErr, length};
ghost use Rattle.base.specs.Ram.{ram_end};
ghost use Rattle.image.specs.Image.{span_fault, capability_fault};
ghost use Rattle.base.specs.FirstFault.{unless};
ghost use Rattle.image.specs.Grammar.{number_at, header_fault, header_of, span_of, capability_in, count_fault};
ghost use Rattle.image.specs.Reads.{IsOfBytes};

use crate::cap_entry::CapEntry;
use crate::fault::ImageFault;
use crate::image::{fault_of_capability, fault_of_span, is_good_header, most_capabilities};
use byteorder::{ByteOrder, LittleEndian};

/// The first bytes of an image file.
pub const MAGIC: &[u8; 8] = b"CHERIIMG";

/// The numbers of a header that a reader needs.
#[derive(Clone, Copy, Debug)]
pub struct Header {
    pub version: u32,
    pub pages: u32,
    pub entry: u64,
    pub count: u32,
    pub mode: u32,
}

/// Where a section lies, and how many bytes it has.
#[derive(Clone, Copy, Debug)]
pub struct Span {
    pub address: u64,
    pub size: u64,
}

/// What the 32 bytes of a header say, or its first fault.
#[tactic(auto, unfolding(crate::specs::Grammar::header_fault))]
pub fn header_in(bytes: &[u8; 32]) -> Result<Header, ImageFault>
    ensures value { result ≡ unless (header_fault bytes.now) (header_of bytes.now) }
    ensures fault { IfErr result IsOfBytes }
{
    let header = Header {
        version: LittleEndian::read_u32(&bytes[8..12]),
        pages: LittleEndian::read_u32(&bytes[12..16]),
        entry: LittleEndian::read_u64(&bytes[16..24]),
        count: LittleEndian::read_u32(&bytes[24..28]),
        mode: LittleEndian::read_u32(&bytes[28..32]),
    };
    if !bytes.starts_with(MAGIC) {
        Err(ImageFault::L2)
    } else if header.version != 1 && header.version != 2 {
        Err(ImageFault::L3)
    } else if !is_good_header(header.version, header.pages, header.entry, header.mode) {
        Err(ImageFault::L4)
    } else if header.count > 64 {
        Err(ImageFault::L5)
    } else {
        Ok(header)
    }
}

/// What the 16 bytes in front of a section say, where the one before it ended at `free`, or their fault.
pub fn span_in(bytes: &[u8; 16], pages: u32, free: u64) -> Result<Span, ImageFault>
    ensures value { let span = span_of bytes.now in result ≡ unless (span_fault pages free span.address span.size) span }
    ensures fault { IfErr result IsOfBytes }
    ensures inside { IfOk result (λ span. span.address + span.size ≤ ram_end pages) }
{
    let address = LittleEndian::read_u64(&bytes[0..8]);
    let size = LittleEndian::read_u64(&bytes[8..16]);
    match fault_of_span(pages, free, address, size) {
        Some(fault) => Err(fault),
        None => Ok(Span { address, size }),
    }
}

/// The number of capabilities that 4 bytes say, or that they are more than the version may have.
pub fn count_in(bytes: &[u8; 4], version: u32) -> Result<u32, ImageFault>
    ensures value { let count = number_at 0 4 bytes.now in result ≡ unless (count_fault version count) count }
    ensures fault { IfErr result IsOfBytes }
{
    let count = LittleEndian::read_u32(bytes);
    if count > most_capabilities(version) {
        Err(ImageFault::L15)
    } else {
        Ok(count)
    }
}

/// The capability that 32 bytes are, where the one before it stands at `before`, or its fault.
pub fn capability_of(bytes: &[u8; 32], pages: u32, before: u64) -> Result<CapEntry, ImageFault>
    ensures value { result ≡ unless (capability_fault pages before (capability_in bytes.now)) (capability_in bytes.now) }
    ensures fault { IfErr result IsOfBytes }
{
    let capability = CapEntry {
        place: LittleEndian::read_u64(&bytes[0..8]),
        base: LittleEndian::read_u64(&bytes[8..16]),
        length: LittleEndian::read_u64(&bytes[16..24]),
        perms: LittleEndian::read_u32(&bytes[24..28]),
        flag: LittleEndian::read_u32(&bytes[28..32]),
    };
    match fault_of_capability(pages, before, capability) {
        Some(fault) => Err(fault),
        None => Ok(capability),
    }
}
