//! The comments that a listing may begin with: an image's header and capabilities.

ghost use Rattle.std.specs.Prelude.{◌≡◌, ◌-◌, ◌^◌, ◌<◌, OnOk, OnErr};
ghost use Rattle.std.specs.Io.KnownBytes.{Appends};
ghost use Rattle.std.specs.List.{flat_map};
ghost use Rattle.image.specs.Devices.{Counts, AppendsBeginning};
ghost use Rattle.image_listing.specs.Header.{capability_line, header_line, header_text};

use arrayvec::ArrayString;
use image::{CapEntry, DeviceFailed, Image, Sink, write_all};
use texts::{pieces, text};

/// A line of at most 110 bytes: numbers in decimal have 20 digits at most.
type Line = ArrayString<110>;

/// The line of an image's version, pages, entry and mode.
fn header_line(image: &Image) -> Line
    ensures { result.bytes ≡ header_line image.now }
{
    text(&pieces![
        "# version " Decimal(u64::from(image.version())) ", pages " Decimal(u64::from(image.pages()))
        ", entry " Address(image.entry()) ", mode " Decimal(u64::from(image.mode())) "\n"
    ])
}

/// The line of a capability, in the words of the directive `.cap`.
fn capability_line(capability: &CapEntry) -> Line
    ensures { result.bytes ≡ capability_line capability.now }
{
    text(&pieces![
        "# " Address(capability.place) " .cap 0x" Address(capability.base) ", " Decimal(capability.length)
        ", 0x" Hexadecimal(5, u128::from(capability.perms)) ", " Decimal(u64::from(capability.flag)) "\n"
    ])
}

/// Writes a line for each capability.
fn write_capabilities<W: Sink>(capabilities: &[CapEntry], sink: &mut W) -> Result<(), DeviceFailed>
    requires { W.failed sink.old < 2 ^ 64 - 1 }
    ensures ok { OnOk result (Appends (W.held sink.old) (W.held sink.new) (flat_map capability_line capabilities.now)) }
    ensures err { OnErr result (AppendsBeginning (W.held sink.old) (W.held sink.new) (flat_map capability_line capabilities.now)) }
    ensures count { Counts (W.failed sink.old) (W.failed sink.new) result }
{
    for capability in capabilities {
        write_all(sink, capability_line(capability).as_bytes())?;
    }
    Ok(())
}

/// Writes what a listing may begin with, as comments: a line of the image's version, pages, entry and mode, and one for each of its
/// capabilities, in their order, with its address and the directive `.cap` that puts it there. It takes no memory.
///
/// An Err says that a call of the sink failed: it then holds a beginning of these lines.
pub fn write_header<W: Sink>(image: &Image, sink: &mut W) -> Result<(), DeviceFailed>
    requires { W.failed sink.old < 2 ^ 64 - 1 }
    ensures ok { OnOk result (Appends (W.held sink.old) (W.held sink.new) (header_text image.now)) }
    ensures err { OnErr result (AppendsBeginning (W.held sink.old) (W.held sink.new) (header_text image.now)) }
    ensures count { Counts (W.failed sink.old) (W.failed sink.new) result }
{
    write_all(sink, header_line(image).as_bytes())?;
    write_capabilities(image.capabilities(), sink)
}
