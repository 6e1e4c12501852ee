//! Images to a sink.

ghost use Rattle.std.specs.Prelude.{◌≡◌, ◌-◌, ◌^◌, ◌<◌, ◌≤◌, length, OnOk, OnErr, IfErr};
ghost use Rattle.std.specs.List.{flat_map};
ghost use Rattle.byteorder.specs.Endian.{little_bytes};
ghost use Rattle.std.specs.Io.KnownBytes.{Appends};
ghost use Rattle.image.specs.declared.fault.ImageFault.TheVariants.{L10};
ghost use Rattle.image.specs.Devices.{Counts, AppendsBeginning};
ghost use Rattle.image.specs.Image.{mode_number};
ghost use Rattle.image.specs.Grammar.{header_bytes, span_bytes, section_bytes, capability_bytes, capabilities_bytes, spelling};
ghost use Rattle.image.specs.Reads.{CountsL10};

use crate::cap_entry::CapEntry;
use crate::devices::{DeviceFailed, Sink, write_all};
use crate::fault::ImageFault;
use crate::image::Image;
use crate::parts::MAGIC;
use crate::section::Section;
use byteorder::{ByteOrder, LittleEndian};

/// The 32 bytes of an image's header.
#[tactic(auto, unfolding(crate::specs::Grammar::header_bytes))]
fn header_of(image: &Image) -> [u8; 32]
    ensures { result ≡ header_bytes image.now.version image.now.pages image.now.entry (length image.now.sections)
        (mode_number image.now.mode) }
{
    let mut bytes = [0; 32];
    bytes[0..8].copy_from_slice(MAGIC);
    LittleEndian::write_u32(&mut bytes[8..12], image.version());
    LittleEndian::write_u32(&mut bytes[12..16], image.pages());
    LittleEndian::write_u64(&mut bytes[16..24], image.entry());
    LittleEndian::write_u32(&mut bytes[24..28], image.sections().len() as u32);
    LittleEndian::write_u32(&mut bytes[28..32], u32::from(image.mode()));
    bytes
}

/// The 16 bytes in front of a section's own.
#[tactic(auto, unfolding(crate::specs::Grammar::span_bytes))]
fn span_of(section: &Section) -> [u8; 16]
    ensures { result ≡ span_bytes section.now.address (length section.now.bytes) }
{
    let mut bytes = [0; 16];
    LittleEndian::write_u64(&mut bytes[0..8], section.address());
    LittleEndian::write_u64(&mut bytes[8..16], section.bytes().len() as u64);
    bytes
}

fn write_section<W: Sink>(section: &Section, sink: &mut W) -> Result<(), DeviceFailed>
    requires { W.failed sink.old < 2 ^ 64 - 1 }
    ensures ok { OnOk result (Appends (W.held sink.old) (W.held sink.new) (section_bytes section.now)) }
    ensures err { OnErr result (AppendsBeginning (W.held sink.old) (W.held sink.new) (section_bytes section.now)) }
    ensures count { Counts (W.failed sink.old) (W.failed sink.new) result }
{
    write_all(sink, &span_of(section))?;
    write_all(sink, section.bytes())
}

fn write_sections<W: Sink>(sections: &[Section], sink: &mut W) -> Result<(), DeviceFailed>
    requires { W.failed sink.old < 2 ^ 64 - 1 }
    ensures ok { OnOk result (Appends (W.held sink.old) (W.held sink.new) (flat_map section_bytes sections.now)) }
    ensures err { OnErr result (AppendsBeginning (W.held sink.old) (W.held sink.new) (flat_map section_bytes sections.now)) }
    ensures count { Counts (W.failed sink.old) (W.failed sink.new) result }
{
    for section in sections {
        write_section(section, sink)?;
    }
    Ok(())
}

/// The 32 bytes of a capability.
#[tactic(auto, unfolding(crate::specs::Grammar::capability_bytes))]
fn bytes_of(capability: CapEntry) -> [u8; 32]
    ensures { result ≡ capability_bytes capability }
{
    let mut bytes = [0; 32];
    LittleEndian::write_u64(&mut bytes[0..8], capability.place);
    LittleEndian::write_u64(&mut bytes[8..16], capability.base);
    LittleEndian::write_u64(&mut bytes[16..24], capability.length);
    LittleEndian::write_u32(&mut bytes[24..28], capability.perms);
    LittleEndian::write_u32(&mut bytes[28..32], capability.flag);
    bytes
}

/// The 4 bytes of their number.
fn count_of(capabilities: &[CapEntry]) -> [u8; 4]
    requires { length capabilities.now ≤ 1024 }
    ensures { result ≡ little_bytes 4 (length capabilities.now) }
{
    let mut bytes = [0; 4];
    LittleEndian::write_u32(&mut bytes[0..4], capabilities.len() as u32);
    bytes
}

fn write_entries<W: Sink>(capabilities: &[CapEntry], sink: &mut W) -> Result<(), DeviceFailed>
    requires { W.failed sink.old < 2 ^ 64 - 1 }
    ensures ok { OnOk result (Appends (W.held sink.old) (W.held sink.new) (flat_map capability_bytes capabilities.now)) }
    ensures err { OnErr result (AppendsBeginning (W.held sink.old) (W.held sink.new) (flat_map capability_bytes capabilities.now)) }
    ensures count { Counts (W.failed sink.old) (W.failed sink.new) result }
{
    for capability in capabilities {
        write_all(sink, &bytes_of(*capability))?;
    }
    Ok(())
}

/// What stands after the sections: in version 1 nothing.
#[tactic(auto, unfolding(crate::specs::Grammar::capabilities_bytes))]
fn write_capabilities<W: Sink>(
    version: u32,
    capabilities: &[CapEntry],
    sink: &mut W,
) -> Result<(), DeviceFailed>
    requires failed { W.failed sink.old < 2 ^ 64 - 1 }
    requires few { length capabilities.now ≤ 1024 }
    ensures ok { OnOk result (Appends (W.held sink.old) (W.held sink.new) (capabilities_bytes version capabilities.now)) }
    ensures err { OnErr result (AppendsBeginning (W.held sink.old) (W.held sink.new) (capabilities_bytes version capabilities.now)) }
    ensures count { Counts (W.failed sink.old) (W.failed sink.new) result }
{
    if version == 1 {
        return Ok(());
    }
    write_all(sink, &count_of(capabilities))?;
    write_entries(capabilities, sink)
}

#[tactic(auto, unfolding(crate::specs::Grammar::spelling))]
fn write_image<W: Sink>(image: &Image, sink: &mut W) -> Result<(), DeviceFailed>
    requires { W.failed sink.old < 2 ^ 64 - 1 }
    ensures ok { OnOk result (Appends (W.held sink.old) (W.held sink.new) (spelling image.now)) }
    ensures err { OnErr result (AppendsBeginning (W.held sink.old) (W.held sink.new) (spelling image.now)) }
    ensures count { Counts (W.failed sink.old) (W.failed sink.new) result }
{
    write_all(sink, &header_of(image))?;
    write_sections(image.sections(), sink)?;
    write_capabilities(image.version(), image.capabilities(), sink)
}

/// Writes an image, and takes no memory.
///
/// L10 where a call of the sink failed: it then holds a beginning of the image's bytes.
pub fn write<W: Sink>(image: &Image, sink: &mut W) -> Result<(), ImageFault>
    requires { W.failed sink.old < 2 ^ 64 - 1 }
    ensures ok { OnOk result (Appends (W.held sink.old) (W.held sink.new) (spelling image.now)) }
    ensures err { OnErr result (AppendsBeginning (W.held sink.old) (W.held sink.new) (spelling image.now)) }
    ensures fault { IfErr result (λ fault. fault ≡ L10) }
    ensures count { CountsL10 (W.failed sink.old) (W.failed sink.new) result }
{
    write_image(image, sink)?;
    Ok(())
}
