//! The command `image`.

ghost use Rattle.std.specs.Prelude.{◌≡◌, ◌&&◌, not, IfErr, OnOk, IfSome};
ghost use Rattle.image.specs.Image.{Builds, flat_fault, flat_image};
ghost use Rattle.commands.specs.Files.{bytes_of};
ghost use Rattle.commands.specs.Imaging.{default_pages, fault_for, header_number, image_for as image_for_layout};
ghost use Rattle.commands.specs.Imaging.{most_read, version_of, FailsToImage, MakesImage};
ghost use Rattle.hints.specs.Files.{is_elf};

use crate::fault::ProgramFault;
use crate::files::{Folder, read_beginning, write_image};
use base::ram;
use command_line::Layout;
use hints::is_elf;
use image::{Image, ImageFault};
use std::alloc::Global;

/// The pages of RAM of an image for which none are said and whose bytes need no more.
const DEFAULT_PAGES: u64 = 256;

/// How many bytes of a flat file are read: one more than RAM has room for, so that a file that is too large is known by it.
fn most_bytes(pages: Option<u64>) -> u64
    ensures { result ≡ most_read pages }
{
    let most = u64::from(ram::MOST_PAGES);
    pages.unwrap_or(most).min(most) * ram::PAGE_BYTES + 1
}

/// The pages of RAM where none are said: so many that a compiled program has a stack (1 MiB), or as many more as hold so many bytes from
/// an address on, but no more than there can be.
fn default_pages(at: u64, count: u64) -> u64
    ensures { result ≡ default_pages at count }
{
    let end = at.saturating_sub(ram::BASE).saturating_add(count);
    end.div_ceil(ram::PAGE_BYTES)
        .clamp(DEFAULT_PAGES, u64::from(ram::MOST_PAGES))
}

/// A number of an image's header, which has 32 bits; the greatest stands for those beyond it, which are refused as it is.
fn header_number(number: u64) -> u32
    ensures { result ≡ header_number number }
{
    u32::try_from(number).unwrap_or(u32::MAX)
}

/// An image of a section of bytes: of version 2 where version 1 cannot have so many pages.
fn image_of(
    alloc: Global,
    pages: u64,
    entry: u64,
    mode: u64,
    section: (u64, &[u8]),
) -> Result<Image, ImageFault>
    ensures { Builds (flat_fault (version_of pages) pages entry mode section.entry.0 section.entry.1.now)
        (flat_image (version_of pages) pages entry mode section.entry.0 section.entry.1.now) result }
{
    let pages = header_number(pages);
    let mode = header_number(mode);
    if pages > ram::MOST_PAGES_VERSION_1 {
        Image::build_v2(alloc, pages, entry, mode, &[section], &[])
    } else {
        Image::build(alloc, pages, entry, mode, &[section])
    }
}

/// The image of a flat file's bytes, where the layout says.
fn image_for(alloc: Global, layout: Layout, bytes: &[u8]) -> Result<Image, ImageFault>
    ensures { Builds (fault_for layout bytes.now) (image_for_layout layout bytes.now) result }
{
    let at = layout.at.unwrap_or(ram::BASE);
    let pages = match layout.pages {
        Some(pages) => pages,
        None => default_pages(at, bytes.len() as u64),
    };
    let entry = layout.entry.unwrap_or(at);
    let mode = layout.mode.unwrap_or(0);
    image_of(alloc, pages, entry, mode, (at, bytes))
}

/// Whether a file whose bytes begin so is refused: an ELF is, unless its bytes are to be taken as they stand.
fn is_refused(layout: Layout, read: &[u8]) -> bool
    ensures { result ≡ (not layout.flat_elf && is_elf read.now) }
{
    !layout.flat_elf && is_elf(read)
}

/// Makes an image of the bytes of the file `flat`, and writes it to the file `output`. An ELF is refused unless the layout says that its
/// bytes are taken as they stand.
pub fn image_file<'a, F: Folder>(
    alloc: Global,
    folder: &mut F,
    flat: &'a str,
    output: &'a str,
    layout: Layout,
) -> Result<(), ProgramFault<'a>>
    ensures ok { OnOk result (IfSome (bytes_of flat.entry.now (F.files folder.old)) (λ bytes.
        MakesImage layout output.entry.now bytes (F.files folder.old) (F.files folder.new))) }
    ensures err { IfErr result (FailsToImage layout flat.entry.now output.entry.now (F.files folder.old) (F.files folder.new)) }
{
    let bytes = read_beginning(alloc, folder, flat, most_bytes(layout.pages))?;
    let read = bytes.as_slice();
    if is_refused(layout, read) {
        return Err(ProgramFault::Elf(flat));
    }
    match image_for(alloc, layout, read) {
        Ok(image) => write_image(folder, output, &image),
        Err(fault) => Err(ProgramFault::File(flat, fault, "")),
    }
}
