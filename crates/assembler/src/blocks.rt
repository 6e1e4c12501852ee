//! Sections of an image that is being made.
ghost use Rattle.std.specs.Prelude.{◌≡◌, ◌≤◌, ◌<◌, ◌^◌, IsTrue, [], length, nat_lt, None, OnOk, IfOk};
ghost use Rattle.image.specs.Image.{Section, build_fault, image_of, lent_sections};
ghost use Rattle.std.specs.List.{position_or_len};
ghost use Rattle.asm_lines.specs.Seen.{seen_statement};
ghost use Rattle.assembler.specs.Bytes.{bytes_at};
ghost use Rattle.assembler.specs.Modest.{is_modest};
ghost use Rattle.assembler.specs.Sound.{IsValued, HasWords};
ghost use Rattle.assembler.specs.Blocks.{meets};
ghost use Rattle.assembler.specs.Text.{version_for};
ghost use Rattle.assembler.specs.Faults.{is_taken, inserted, closed, empty_at, filled};

use crate::bytes::append_bytes;
use crate::labels::Labels;
use asm_lines::Statement;
use base::ram;
use image::{CapEntry, Image, ImageFault};
use std::alloc::{AllocError, Global};
use std::marker::Model;

/// Bytes that stand in RAM from an address on.
#[derive(Drop)]
pub(crate) struct Block {
    address: u64,
    bytes: Vec<u8>,
}

impl Model for Block {
    ghost use Rattle.image.specs.Image as spec;

    ghost Value = { spec.Section };

    ghost view = { λ b. record { address = b.address; bytes = b.bytes.items } };
}

impl Block {
    /// A block with no bytes.
    pub(crate) fn new(alloc: Global, address: u64) -> Self
        ensures { result ≡ empty_at address }
    {
        Block {
            address,
            bytes: Vec::new(alloc),
        }
    }

    /// Where it begins.
    pub(crate) fn address(&self) -> u64
        ensures { result ≡ self.now.address }
    {
        self.address
    }

    /// Its bytes.
    pub(crate) fn bytes(&self) -> &[u8]
        ensures { result.now ≡ self.now.bytes }
    {
        &self.bytes
    }

    /// Whether it has a byte from one place on and below another.
    fn meets(&self, from: u128, to: u128) -> bool
        ensures { result ≡ meets from to self.now }
    {
        let address = u128::from(self.address);
        from < address + self.bytes.len() as u128 && address < to
    }

    /// The number of its bytes.
    pub(crate) fn len(&self) -> usize
        ensures { result ≡ length self.now.bytes }
    {
        self.bytes.len()
    }

    /// Places the bytes of a statement that has no fault after its last.
    pub(crate) fn fill(
        &mut self,
        labels: &Labels,
        here: u128,
        statement: &Statement<'_>,
    ) -> Result<(), AllocError>
        requires modest { IsTrue (is_modest (seen_statement statement.now)) }
        requires place { here < 2 ^ 100 }
        requires valued { IsValued labels.now here (seen_statement statement.now) }
        requires words { HasWords labels.now here (seen_statement statement.now) }
        ensures { OnOk result (self.new ≡ filled self.old (bytes_at labels.now here (seen_statement statement.now))) }
    {
        append_bytes(&mut self.bytes, labels, here, statement)
    }
}

/// Whether some byte from one place on and below another lies in one of the blocks.
pub(crate) fn is_taken(from: u128, to: u128, blocks: &[Block]) -> bool
    ensures { result ≡ is_taken from to blocks.now }
{
    for block in blocks {
        if block.meets(from, to) {
            return true;
        }
    }
    false
}

/// The number of blocks that begin at an address or below it, before the first that begins above.
fn rank(blocks: &[Block], address: u64) -> usize
    ensures value { result ≡ position_or_len (λ t. nat_lt address t.address) blocks.now }
    ensures bound { result ≤ length blocks.now }
{
    let mut rank = 0;
    while rank < blocks.len() && blocks[rank].address() <= address {
        rank += 1;
    }
    rank
}

/// Puts a block among blocks in ascending order.
fn insert(done: &mut Vec<Block>, block: Block) -> Result<(), AllocError>
    ensures { OnOk result (done.new.items ≡ inserted block done.old.items) }
{
    let rank = rank(done, block.address());
    done.insert(rank, block)?;
    Ok(())
}

/// Puts a block among blocks in ascending order, unless it is empty.
pub(crate) fn close(done: &mut Vec<Block>, block: Block) -> Result<(), AllocError>
    ensures { OnOk result (done.new.items ≡ closed done.old.items block) }
{
    if !block.bytes().is_empty() {
        insert(done, block)?;
    }
    Ok(())
}

/// The blocks as addresses and lent bytes.
fn lent(alloc: Global, blocks: &[Block]) -> Result<Vec<(u64, &[u8])>, AllocError>
    ensures { IfOk result (λ parts. lent_sections parts.items ≡ blocks.now) }
{
    let mut parts = Vec::with_capacity(alloc, blocks.len())?;
    for block in blocks {
        parts.push((block.address(), block.bytes()))?;
    }
    Ok(parts)
}

/// An image of version 1 of blocks that have no fault, so that only memory can be wanting.
fn built_v1(
    alloc: Global,
    pages: u32,
    entry: u64,
    mode: u32,
    blocks: &[Block],
) -> Result<Image, AllocError>
    requires { build_fault 1 pages entry mode blocks.now [] ≡ None }
    ensures { IfOk result (λ image. image ≡ image_of 1 pages entry mode blocks.now []) }
{
    let parts = lent(alloc, blocks)?;
    match Image::build(alloc, pages, entry, mode, &parts) {
        Ok(image) => Ok(image),
        Err(ImageFault::L11) => Err(AllocError),
        Err(_) => unreachable!(),
    }
}

/// An image of version 2 of blocks and capabilities that have no fault, so that only memory can be wanting.
fn built_v2(
    alloc: Global,
    pages: u32,
    entry: u64,
    mode: u32,
    blocks: &[Block],
    capabilities: &[CapEntry],
) -> Result<Image, AllocError>
    requires { build_fault 2 pages entry mode blocks.now capabilities.now ≡ None }
    ensures { IfOk result (λ image. image ≡ image_of 2 pages entry mode blocks.now capabilities.now) }
{
    let parts = lent(alloc, blocks)?;
    match Image::build_v2(alloc, pages, entry, mode, &parts, capabilities) {
        Ok(image) => Ok(image),
        Err(ImageFault::L11) => Err(AllocError),
        Err(_) => unreachable!(),
    }
}

/// An image of blocks and capabilities that have no fault, in version 1 where that serves.
#[tactic(auto, using(crate::proofs::CapabilityLemmas::none_there))]
pub(crate) fn built(
    alloc: Global,
    pages: u32,
    entry: u64,
    mode: u32,
    blocks: &[Block],
    capabilities: &[CapEntry],
) -> Result<Image, AllocError>
    requires { build_fault (version_for pages (length capabilities.now)) pages entry mode blocks.now capabilities.now ≡ None }
    ensures { IfOk result (λ image. image
        ≡ image_of (version_for pages (length capabilities.now)) pages entry mode blocks.now capabilities.now) }
{
    if capabilities.is_empty() && pages <= ram::MOST_PAGES_VERSION_1 {
        built_v1(alloc, pages, entry, mode, blocks)
    } else {
        built_v2(alloc, pages, entry, mode, blocks, capabilities)
    }
}
