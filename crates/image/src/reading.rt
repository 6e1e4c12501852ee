//! Images from a source.

ghost use Rattle.std.specs.Prelude.{◌≡◌, ◌+◌, ◌-◌, ◌^◌, ◌<◌, ◌≤◌, length, take, IfOk, IfErr, OnOk, OnErr, IfSome, vec_len, min, max};
ghost use Rattle.std.specs.Io.KnownBytes.{Consumes, IsAtEnd};
ghost use Rattle.image.specs.declared.fault.ImageFault.TheVariants.{L8, L9};
ghost use Rattle.image.specs.Devices.{Counts};
ghost use Rattle.base.specs.Ram.{ram_end};
ghost use Rattle.image.specs.Grammar.{taken, header_at, span_at, section_at, sections_at, capability_at, entries_at, count_at};
ghost use Rattle.image.specs.Grammar.{capabilities_at, image_at, reading};
ghost use Rattle.image.specs.Reads.{IsOfBytes, IsNotAtEnd, Answers, ConsumesBeginning, CountsL10, HasFewer, ReadsBehind, Takes};

use crate::cap_entry::CapEntry;
use crate::devices::{DeviceFailed, Source};
use crate::fault::ImageFault;
use crate::image::Image;
use crate::parts::{Header, Span, capability_of, count_in, header_in, span_in};
use crate::section::Section;
use std::alloc::Global;

/// Fills the beginning of `buffer` as far as the source has bytes, and answers how many.
fn fill<R: Source>(source: &mut R, buffer: &mut [u8]) -> Result<usize, DeviceFailed>
    requires { R.failed source.old < 2 ^ 64 - 1 }
    ensures within { IfOk result (λ n. n ≤ length buffer.new) }
    ensures ok { IfOk result (λ n. Consumes (R.left source.old) (R.left source.new) (take n buffer.new)) }
    ensures end { IfOk result (λ n. n < length buffer.new → IsAtEnd (R.left source.new)) }
    ensures err { OnErr result (ConsumesBeginning (R.left source.old) (R.left source.new)) }
    ensures count { Counts (R.failed source.old) (R.failed source.new) result }
{
    let mut at = 0;
    while at < buffer.len() {
        let count = source.read(&mut buffer[at..])?;
        if count == 0 {
            return Ok(at);
        }
        at += count;
    }
    Ok(at)
}

/// The next bytes of the source, or `cut_short` if it has fewer than `N`.
fn next<R: Source, const N: usize>(
    source: &mut R,
    cut_short: ImageFault,
) -> Result<[u8; N], ImageFault>
    requires count { R.failed source.old < 2 ^ 64 - 1 }
    requires fault { IsOfBytes cut_short }
    ensures part { Takes (λ bytes. bytes) (taken N cut_short) (R.left source.old) (R.left source.new) result }
    ensures count { CountsL10 (R.failed source.old) (R.failed source.new) result }
{
    let mut buffer = [0; N];
    let count = fill(source, &mut buffer)?;
    if count < N {
        return Err(cut_short);
    }
    Ok(buffer)
}

/// How many bytes of a section are asked for before the first of them is read.
const FIRST_BLOCK: usize = 65536;

/// How many bytes are read next where `held` of `size` are there: a first block, then as many again, and at most what is left.
fn next_block(held: usize, size: usize) -> usize
    requires { held < size }
    ensures { result ≡ min (max held FIRST_BLOCK) (size - held) }
{
    held.max(FIRST_BLOCK).min(size - held)
}

/// Reads `count` bytes more, after those that are there.
fn read_behind<R: Source>(
    source: &mut R,
    bytes: &mut Vec<u8>,
    count: usize,
) -> Result<(), ImageFault>
    requires count { R.failed source.old < 2 ^ 64 - 1 }
    requires room { vec_len bytes.old + count < 2 ^ 64 }
    ensures size { OnOk result (vec_len bytes.new ≡ vec_len bytes.old + count) }
    ensures ok { OnOk result (ReadsBehind (R.left source.old) (R.left source.new) bytes.old.items bytes.new.items) }
    ensures err { OnErr result (ConsumesBeginning (R.left source.old) (R.left source.new)) }
    ensures fault { IfErr result (λ fault. IsOfBytes fault → (fault ≡ L8) × HasFewer count (R.left source.old)) }
    ensures count { CountsL10 (R.failed source.old) (R.failed source.new) result }
{
    let held = bytes.len();
    bytes.reserve_exact(count)?;
    bytes.resize(held + count, 0)?;
    if fill(source, &mut bytes[held..])? < count {
        return Err(ImageFault::L8);
    }
    Ok(())
}

/// The next `size` bytes of the source. Memory is asked for in steps, so that it grows with what is read and not with what the
/// source promises.
fn body<R: Source>(alloc: Global, source: &mut R, size: u64) -> Result<Vec<u8>, ImageFault>
    requires { R.failed source.old < 2 ^ 64 - 1 }
    ensures size { IfOk result (λ v. vec_len v ≡ size) }
    ensures part { Takes (λ v. v.items) (taken size L8) (R.left source.old) (R.left source.new) result }
    ensures count { CountsL10 (R.failed source.old) (R.failed source.new) result }
{
    let size = size as usize;
    let mut bytes = Vec::new(alloc);
    while bytes.len() < size {
        let count = next_block(bytes.len(), size);
        read_behind(source, &mut bytes, count)?;
    }
    Ok(bytes)
}

/// The header in front.
#[tactic(auto, unfolding(crate::specs::Grammar::header_at))]
fn header<R: Source>(source: &mut R) -> Result<Header, ImageFault>
    requires { R.failed source.old < 2 ^ 64 - 1 }
    ensures part { Takes (λ header. header) header_at (R.left source.old) (R.left source.new) result }
    ensures count { CountsL10 (R.failed source.old) (R.failed source.new) result }
{
    let bytes = next(source, ImageFault::L1)?;
    header_in(&bytes)
}

/// Where the section in front lies, if the one before it ended at `free`.
#[tactic(auto, unfolding(crate::specs::Grammar::span_at))]
fn span<R: Source>(source: &mut R, pages: u32, free: u64) -> Result<Span, ImageFault>
    requires { R.failed source.old < 2 ^ 64 - 1 }
    ensures part { Takes (λ span. span) (span_at pages free) (R.left source.old) (R.left source.new) result }
    ensures inside { IfOk result (λ span. span.address + span.size ≤ ram_end pages) }
    ensures count { CountsL10 (R.failed source.old) (R.failed source.new) result }
{
    let bytes = next(source, ImageFault::L8)?;
    span_in(&bytes, pages, free)
}

/// The section in front, if the one before it ended at `free`. Its bytes are asked for once it is known to lie in RAM.
#[tactic(auto, unfolding(crate::specs::Grammar::section_at))]
fn section<R: Source>(
    alloc: Global,
    source: &mut R,
    pages: u32,
    free: u64,
) -> Result<Section, ImageFault>
    requires { R.failed source.old < 2 ^ 64 - 1 }
    ensures part { Takes (λ section. section) (section_at pages free) (R.left source.old) (R.left source.new) result }
    ensures inside { IfOk result (λ s. s.address + length s.bytes ≤ ram_end pages) }
    ensures count { CountsL10 (R.failed source.old) (R.failed source.new) result }
{
    let span = span(source, pages, free)?;
    let bytes = body(alloc, source, span.size)?;
    Ok(Section::new(span.address, bytes))
}

/// So many sections in order.
fn sections<R: Source>(
    alloc: Global,
    source: &mut R,
    pages: u32,
    count: u32,
) -> Result<Vec<Section>, ImageFault>
    requires { R.failed source.old < 2 ^ 64 - 1 }
    ensures part { Takes (λ v. v.items) (sections_at pages count 0) (R.left source.old) (R.left source.new) result }
    ensures count { CountsL10 (R.failed source.old) (R.failed source.new) result }
{
    let mut sections = Vec::new(alloc);
    let mut free = 0;
    for _ in 0..count {
        let section = section(alloc, source, pages, free)?;
        free = section.address() + section.bytes().len() as u64;
        sections.push(section)?;
    }
    Ok(sections)
}

/// The capability in front, if the one before it stands at `before`.
#[tactic(auto, unfolding(crate::specs::Grammar::capability_at))]
fn capability<R: Source>(source: &mut R, pages: u32, before: u64) -> Result<CapEntry, ImageFault>
    requires { R.failed source.old < 2 ^ 64 - 1 }
    ensures part { Takes (λ c. c) (capability_at pages before) (R.left source.old) (R.left source.new) result }
    ensures count { CountsL10 (R.failed source.old) (R.failed source.new) result }
{
    let bytes = next(source, ImageFault::L8)?;
    capability_of(&bytes, pages, before)
}

/// So many capabilities in order.
fn entries<R: Source>(
    alloc: Global,
    source: &mut R,
    pages: u32,
    count: u32,
) -> Result<Vec<CapEntry>, ImageFault>
    requires { R.failed source.old < 2 ^ 64 - 1 }
    ensures part { Takes (λ v. v.items) (entries_at pages count 0) (R.left source.old) (R.left source.new) result }
    ensures count { CountsL10 (R.failed source.old) (R.failed source.new) result }
{
    let mut entries = Vec::new(alloc);
    let mut before = 0;
    for _ in 0..count {
        let capability = capability(source, pages, before)?;
        before = capability.place;
        entries.push(capability)?;
    }
    Ok(entries)
}

/// The number of capabilities in front.
#[tactic(auto, unfolding(crate::specs::Grammar::count_at))]
fn count<R: Source>(source: &mut R, version: u32) -> Result<u32, ImageFault>
    requires { R.failed source.old < 2 ^ 64 - 1 }
    ensures part { Takes (λ count. count) (count_at version) (R.left source.old) (R.left source.new) result }
    ensures count { CountsL10 (R.failed source.old) (R.failed source.new) result }
{
    let bytes = next(source, ImageFault::L8)?;
    count_in(&bytes, version)
}

/// The capabilities in front, which version 1 has not.
#[tactic(auto, unfolding(crate::specs::Grammar::capabilities_at))]
fn capabilities<R: Source>(
    alloc: Global,
    source: &mut R,
    version: u32,
    pages: u32,
) -> Result<Vec<CapEntry>, ImageFault>
    requires { R.failed source.old < 2 ^ 64 - 1 }
    ensures part { Takes (λ v. v.items) (capabilities_at version pages) (R.left source.old) (R.left source.new) result }
    ensures count { CountsL10 (R.failed source.old) (R.failed source.new) result }
{
    if version == 1 {
        return Ok(Vec::new(alloc));
    }
    let count = count(source, version)?;
    entries(alloc, source, pages, count)
}

/// The image in front.
#[tactic(auto, unfolding(crate::specs::Grammar::image_at))]
fn front<R: Source>(alloc: Global, source: &mut R) -> Result<Image, ImageFault>
    requires { R.failed source.old < 2 ^ 64 - 1 }
    ensures part { Takes (λ image. image) image_at (R.left source.old) (R.left source.new) result }
    ensures count { CountsL10 (R.failed source.old) (R.failed source.new) result }
{
    let header = header(source)?;
    let sections = sections(alloc, source, header.pages, header.count)?;
    let capabilities = capabilities(alloc, source, header.version, header.pages)?;
    Ok(Image::new(
        header.version,
        header.pages,
        header.entry,
        header.mode,
        sections,
        capabilities,
    ))
}

/// That the source has no byte left, or else L9.
fn end<R: Source>(source: &mut R) -> Result<(), ImageFault>
    requires { R.failed source.old < 2 ^ 64 - 1 }
    ensures ok { OnOk result (IsAtEnd (R.left source.old)) }
    ensures end { OnOk result (IsAtEnd (R.left source.new)) }
    ensures more { IfErr result (λ fault. IsOfBytes fault → (fault ≡ L9) × IsNotAtEnd (R.left source.old)) }
    ensures beginning { ConsumesBeginning (R.left source.old) (R.left source.new) }
    ensures count { CountsL10 (R.failed source.old) (R.failed source.new) result }
{
    let mut one = [0];
    if fill(source, &mut one)? > 0 {
        return Err(ImageFault::L9);
    }
    Ok(())
}

/// Reads an image, to the end of the source.
///
/// The first of these, in this order: L1 to L5 of the header; for each section its 16 bytes L8, L6, L7 and its bytes L8; in
/// version 2 the 4 bytes of the number of capabilities L8, L15, and for each of them its 32 bytes L8, L12, L13, L14; L9.
/// L10, where a call of the source failed, and L11, no memory, may come in place of any check not yet made. A refusal has
/// taken some beginning of the bytes.
pub fn read<R: Source>(alloc: Global, source: &mut R) -> Result<Image, ImageFault>
    requires { R.failed source.old < 2 ^ 64 - 1 }
    ensures value { IfSome (R.left source.old) (λ bytes. Answers (reading bytes) result) }
    ensures end { OnOk result (IsAtEnd (R.left source.new)) }
    ensures beginning { ConsumesBeginning (R.left source.old) (R.left source.new) }
    ensures count { CountsL10 (R.failed source.old) (R.failed source.new) result }
{
    let image = front(alloc, source)?;
    end(source)?;
    Ok(image)
}
