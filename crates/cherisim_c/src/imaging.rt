//! The image file of a text.

ghost use Rattle.std.specs.Prelude.{◌≡◌, ◌⊎◌, ◌≤◌, ◌<◌, [], None, Some, IfOk, IfErr, length, take};
ghost use Rattle.assembler.specs.Left.{IsFaultOf};
ghost use Rattle.assembler.specs.Text.{text_fault, text_image};
ghost use Rattle.image.specs.Grammar.{spelling};
ghost use Rattle.cherisim_c.specs.Made.{IsTextRefusal};
ghost use Rattle.cherisim_c.specs.Status.{full};

use crate::status::{FULL, OK, status_of_text};
use assembler::{AsmCode, AsmFault, assemble};
use image::{DeviceFailed, Image, Sink, write};
use std::alloc::{AllocError, Global};

/// Bytes that are written into memory: a call fails where there is none.
#[derive(Drop)]
struct Written {
    bytes: Vec<u8>,
    failures: u64,
}

impl Written {
    /// No bytes.
    fn new(alloc: Global) -> Self
        ensures held { ⟦<Written as Sink>⟧.held result ≡ Some [] }
        ensures failed { ⟦<Written as Sink>⟧.failed result ≡ 0 }
    {
        Written {
            bytes: Vec::new(alloc),
            failures: 0,
        }
    }
}

impl Sink for Written {
    ghost held = { λ s. Some s.bytes.items };

    ghost failed = { λ s. s.failures };

    fn write(&mut self, bytes: &[u8]) -> Result<usize, DeviceFailed> {
        match self.bytes.extend_from_slice(bytes) {
            Ok(()) => Ok(bytes.len()),
            Err(_) => {
                self.failures += 1;
                Err(DeviceFailed)
            }
        }
    }

    fn failures(&self) -> u64 {
        self.failures
    }
}

/// The bytes of an image's file.
fn bytes_of(alloc: Global, image: &Image) -> Result<Vec<u8>, AllocError>
    ensures { IfOk result (λ bytes. bytes.items ≡ spelling image.now) }
{
    let mut sink = Written::new(alloc);
    match write(image, &mut sink) {
        Ok(()) => Ok(sink.bytes),
        Err(_) => Err(AllocError),
    }
}

/// The bytes of the image file of a text.
fn bytes_of_text(alloc: Global, text: &[u8]) -> Result<Vec<u8>, AsmFault>
    ensures ok { IfOk result (λ bytes. bytes.items ≡ spelling (text_image text.now)) }
    ensures correct { IfOk result (λ bytes. text_fault text.now ≡ None) }
    ensures err { IfErr result (IsFaultOf (text_fault text.now)) }
{
    let assembly = assemble(alloc, text)?;
    match bytes_of(alloc, assembly.image()) {
        Ok(bytes) => Ok(bytes),
        Err(_) => Err(AsmFault {
            line: 0,
            code: AsmCode::A10,
        }),
    }
}

/// Copies bytes into a buffer that is long enough, and says how many they are.
fn copy(bytes: &[u8], out: &mut [u8], size: &mut u64) -> u32
    ensures only { (result ≡ 0) ⊎ (result ≡ full) }
    ensures size { size.new ≡ length bytes.now }
    ensures ok { result ≡ 0 → take size.new out.new ≡ bytes.now }
    ensures full { result ≡ full → (length out.old < size.new) × (out.new ≡ out.old) }
{
    *size = bytes.len() as u64;
    if bytes.len() <= out.len() {
        out[..bytes.len()].copy_from_slice(bytes);
        OK
    } else {
        FULL
    }
}

/// The image file of a text: so many bytes at the beginning of `image`. Where it is too short, its length is what it takes. Where the text
/// is refused, the fault's line is written, 0 where there is no memory.
#[unsafe(no_mangle)]
pub extern "C" fn cherisim_image(
    alloc: Global,
    text: &[u8],
    image: &mut [u8],
    size: &mut u64,
    line: &mut u64,
) -> u32
    ensures ok { result ≡ 0 → (size.new ≡ length (spelling (text_image text.now)))
        × (take size.new image.new ≡ spelling (text_image text.now)) }
    ensures full { result ≡ full
        → (size.new ≡ length (spelling (text_image text.now))) × (length image.old < size.new) × (image.new ≡ image.old) }
    ensures correct { (result ≡ 0) ⊎ (result ≡ full) → (text_fault text.now ≡ None) × (line.new ≡ line.old) }
    ensures same { 1 ≤ result → result < full → (image.new ≡ image.old) × (size.new ≡ size.old) }
    ensures only { (result ≡ 0) ⊎ ((result ≡ full) ⊎ IsTextRefusal (text_fault text.now) line.new result) }
{
    match bytes_of_text(alloc, text) {
        Ok(bytes) => copy(&bytes, image, size),
        Err(fault) => {
            *line = fault.line;
            status_of_text(fault.code)
        }
    }
}
