ghost use Rattle.std.specs.Prelude.{◌≡◌, ◌⊎◌, ◌<◌, ◌≤◌, ◌+◌, IfOk, IfNone, IfSome, None, [], length};
ghost use Rattle.base.specs.Ram.{ram_end};
ghost use Rattle.image.specs.Image.{IsImage, Builds, build_fault, span_fault, image_of, lent_sections, is_good_header};
ghost use Rattle.image.specs.Image.{sections_fault, is_capability_place, capability_fault, capabilities_fault, most_pages_of};
ghost use Rattle.image.specs.Image.{most_capabilities_of};
ghost use Rattle.image.specs.Reads.{IsOfBytes};

use crate::cap_entry::{CapEntry, is_exact_range};
use crate::fault::ImageFault;
use crate::section::Section;
use base::ram;
use std::alloc::{AllocError, Global};
use std::marker::Model;

/// What a machine begins with. Every image is valid.
#[derive(Drop, Debug)]
pub struct Image {
    version: u32,
    pages: u32,
    entry: u64,
    mode: bool,
    sections: Vec<Section>,
    capabilities: Vec<CapEntry>,
}

impl Model for Image {
    ghost use Rattle.image.specs.Image as spec;

    ghost Value = { spec.Image };

    ghost view = { λ i. record {
      version = i.version;
      pages = i.pages;
      entry = i.entry;
      mode = i.mode;
      sections = i.sections.items;
      capabilities = i.capabilities.items;
    } };

    ghost invariant = { λ i. spec.IsImage (record {
      version = i.version;
      pages = i.pages;
      entry = i.entry;
      mode = i.mode;
      sections = i.sections.items;
      capabilities = i.capabilities.items;
    }) };
}

/// Where this many pages of RAM end.
fn ram_end_of(pages: u32) -> u64
    ensures { result ≡ ram_end pages }
{
    ram::BASE + ram::PAGE_BYTES * u64::from(pages)
}

/// The most pages of an image of a version.
fn most_pages(version: u32) -> u32
    ensures { result ≡ most_pages_of version }
{
    if version == 1 {
        ram::MOST_PAGES_VERSION_1
    } else {
        ram::MOST_PAGES
    }
}

/// The most capabilities of an image of a version.
pub(crate) fn most_capabilities(version: u32) -> u32
    ensures value { result ≡ most_capabilities_of version }
    ensures few { result ≤ 1024 }
{
    if version == 1 { 0 } else { 1024 }
}

/// Whether an image of a version (1 or 2) can have this header: 1 to 4096 `pages` of 4096 bytes of RAM, in version 2 to 65536,
/// an `entry` (the address of the first instruction) that is a multiple of 4 with four bytes in them, and a `mode` of 0
/// (integer mode) or 1 (capability mode).
#[tactic(auto, unfolding(crate::specs::Image::is_good_header))]
pub fn is_good_header(version: u32, pages: u32, entry: u64, mode: u32) -> bool
    ensures { result ≡ is_good_header version pages entry mode }
{
    let end = ram_end_of(pages);
    (1..=most_pages(version)).contains(&pages)
        && entry % 4 == 0
        && ram::BASE <= entry
        && entry <= end - 4
        && mode <= 1
}

/// The fault of a section at `address` with `size` bytes, where the one before it ended at `free`.
#[tactic(auto, unfolding(crate::specs::Image::span_fault))]
pub(crate) fn fault_of_span(pages: u32, free: u64, address: u64, size: u64) -> Option<ImageFault>
    ensures value { result ≡ span_fault pages free address size }
    ensures fault { IfSome result IsOfBytes }
    ensures inside { IfNone result (address + size ≤ ram_end pages) }
{
    let end = ram_end_of(pages);
    if address < ram::BASE || address > end || size > end - address {
        return Some(ImageFault::L6);
    }
    if address < free {
        return Some(ImageFault::L7);
    }
    None
}

/// The first fault of sections that nothing stands before.
#[tactic(auto, unfolding(crate::specs::Image::span_fault))]
fn fault_of_sections(pages: u32, sections: &[(u64, &[u8])]) -> Option<ImageFault>
    ensures { result ≡ sections_fault pages 0 (lent_sections sections.now) }
{
    let mut free = 0;
    for (address, bytes) in sections {
        let size = bytes.len() as u64;
        if let Some(fault) = fault_of_span(pages, free, *address, size) {
            return Some(fault);
        }
        free = *address + size;
    }
    None
}

/// Whether a capability can stand at `place`, where the one before it stands at `before`.
#[tactic(auto, unfolding(crate::specs::Image::is_capability_place))]
fn is_capability_place(pages: u32, before: u64, place: u64) -> bool
    ensures { result ≡ is_capability_place pages before place }
{
    place % 16 == 0 && place >= ram::BASE && place <= ram_end_of(pages) - 16 && place > before
}

/// The fault of a capability, where the one before it stands at `before`.
#[tactic(auto, unfolding(crate::specs::Image::capability_fault))]
pub(crate) fn fault_of_capability(
    pages: u32,
    before: u64,
    capability: CapEntry,
) -> Option<ImageFault>
    ensures value { result ≡ capability_fault pages before capability }
    ensures fault { IfSome result IsOfBytes }
{
    if !is_capability_place(pages, before, capability.place) {
        Some(ImageFault::L12)
    } else if !is_exact_range(capability.base, capability.length) {
        Some(ImageFault::L13)
    } else if capability.perms > 0xFFFF || capability.flag > 1 {
        Some(ImageFault::L14)
    } else {
        None
    }
}

/// The first fault of capabilities that nothing stands before.
fn fault_of_capabilities(pages: u32, capabilities: &[CapEntry]) -> Option<ImageFault>
    ensures { result ≡ capabilities_fault pages 0 capabilities.now }
{
    let mut before = 0;
    for capability in capabilities {
        if let Some(fault) = fault_of_capability(pages, before, *capability) {
            return Some(fault);
        }
        before = capability.place;
    }
    None
}

/// The first fault of the parts of an image of version 1 or 2.
#[tactic(auto, unfolding(crate::specs::Image::build_fault))]
fn fault_of_parts(
    version: u32,
    pages: u32,
    entry: u64,
    mode: u32,
    sections: &[(u64, &[u8])],
    capabilities: &[CapEntry],
) -> Option<ImageFault>
    requires { (version ≡ 1) ⊎ (version ≡ 2) }
    ensures { result ≡ build_fault version pages entry mode (lent_sections sections.now) capabilities.now }
{
    if !is_good_header(version, pages, entry, mode) {
        return Some(ImageFault::L4);
    }
    if sections.len() > 64 {
        return Some(ImageFault::L5);
    }
    if let Some(fault) = fault_of_sections(pages, sections) {
        return Some(fault);
    }
    if capabilities.len() > most_capabilities(version) as usize {
        return Some(ImageFault::L15);
    }
    fault_of_capabilities(pages, capabilities)
}

/// A copy of each section, in order.
fn copies(alloc: Global, sections: &[(u64, &[u8])]) -> Result<Vec<Section>, AllocError>
    ensures { IfOk result (λ v. v.items ≡ lent_sections sections.now) }
{
    let mut copied = Vec::with_capacity(alloc, sections.len())?;
    for (address, bytes) in sections {
        copied.push(Section::copied(alloc, *address, bytes)?)?;
    }
    Ok(copied)
}

impl Image {
    /// An image of these parts, which have no fault.
    pub(crate) fn new(
        version: u32,
        pages: u32,
        entry: u64,
        mode: u32,
        sections: Vec<Section>,
        capabilities: Vec<CapEntry>,
    ) -> Self
        requires { build_fault version pages entry mode sections.items capabilities.items ≡ None }
        ensures { result ≡ image_of version pages entry mode sections.items capabilities.items }
    {
        Image {
            version,
            pages,
            entry,
            mode: mode == 1,
            sections,
            capabilities,
        }
    }

    /// An image of copies of these parts, which have no fault.
    fn copied(
        alloc: Global,
        version: u32,
        pages: u32,
        entry: u64,
        mode: u32,
        sections: &[(u64, &[u8])],
        capabilities: &[CapEntry],
    ) -> Result<Self, AllocError>
        requires { build_fault version pages entry mode (lent_sections sections.now) capabilities.now ≡ None }
        ensures { IfOk result (λ image. image ≡ image_of version pages entry mode (lent_sections sections.now) capabilities.now) }
    {
        let sections = copies(alloc, sections)?;
        let capabilities = Vec::from_slice(alloc, capabilities)?;
        Ok(Image::new(version, pages, entry, mode, sections, capabilities))
    }

    /// An image of version 1, of `pages` pages (1 to 4096) that begins at `entry`, in integer mode (0) or capability mode (1),
    /// with at most 64 sections in ascending order.
    ///
    /// The first of these: L4 pages, entry or mode; L5 too many sections; for each section in order L6 outside RAM, L7 not
    /// after the one before it. L11, no memory, comes last.
    pub fn build(
        alloc: Global,
        pages: u32,
        entry: u64,
        mode: u32,
        sections: &[(u64, &[u8])],
    ) -> Result<Self, ImageFault>
        ensures { Builds (build_fault 1 pages entry mode (lent_sections sections.now) [])
            (image_of 1 pages entry mode (lent_sections sections.now) []) result }
    {
        if let Some(fault) = fault_of_parts(1, pages, entry, mode, sections, &[]) {
            return Err(fault);
        }
        match Image::copied(alloc, 1, pages, entry, mode, sections, &[]) {
            Ok(image) => Ok(image),
            Err(_) => Err(ImageFault::L11),
        }
    }

    /// An image of version 2, of `pages` pages (1 to 65536): as `build` makes it, with at most 1024 capabilities that stand
    /// over the sections, in ascending order of place.
    ///
    /// The first of these: L4 to L7 as in `build`; L15 too many capabilities; for each of them in order L12 its place, L13
    /// bounds that no capability has exactly, L14 permissions or flag. L11, no memory, comes last.
    pub fn build_v2(
        alloc: Global,
        pages: u32,
        entry: u64,
        mode: u32,
        sections: &[(u64, &[u8])],
        capabilities: &[CapEntry],
    ) -> Result<Self, ImageFault>
        ensures { Builds (build_fault 2 pages entry mode (lent_sections sections.now) capabilities.now)
            (image_of 2 pages entry mode (lent_sections sections.now) capabilities.now) result }
    {
        if let Some(fault) = fault_of_parts(2, pages, entry, mode, sections, capabilities) {
            return Err(fault);
        }
        match Image::copied(alloc, 2, pages, entry, mode, sections, capabilities) {
            Ok(image) => Ok(image),
            Err(_) => Err(ImageFault::L11),
        }
    }

    /// The version of its file: 1, or 2, which alone may have capabilities and more than 4096 pages.
    pub fn version(&self) -> u32
        ensures value { result ≡ self.now.version }
        ensures valid { IsImage self.now }
    {
        self.version
    }

    /// The number of pages of RAM, 1 to 4096, or in version 2 to 65536.
    pub fn pages(&self) -> u32
        ensures value { result ≡ self.now.pages }
        ensures valid { IsImage self.now }
    {
        self.pages
    }

    /// The address of the first instruction.
    pub fn entry(&self) -> u64
        ensures value { result ≡ self.now.entry }
        ensures valid { IsImage self.now }
    {
        self.entry
    }

    /// Whether it begins in capability mode.
    pub fn mode(&self) -> bool
        ensures value { result ≡ self.now.mode }
        ensures valid { IsImage self.now }
    {
        self.mode
    }

    /// What RAM holds, in ascending order.
    pub fn sections(&self) -> &[Section]
        ensures value { result.now ≡ self.now.sections }
        ensures valid { IsImage self.now }
    {
        &self.sections
    }

    /// The capabilities that RAM holds over its sections, in ascending order of place.
    pub fn capabilities(&self) -> &[CapEntry]
        ensures value { result.now ≡ self.now.capabilities }
        ensures valid { IsImage self.now }
    {
        &self.capabilities
    }
}
