//! A reader as a source that keeps the bytes that it began with.

ghost use Rattle.std.specs.Prelude.{◌≡◌};
ghost use Rattle.hints.specs.Printable.{IsHint};

use hints::image_hint;
use image::{DeviceFailed, ImageFault, Source};
use std::io::Read;

/// How many bytes are kept: more than an image's header has.
const KEPT: usize = 64;

/// The first bytes that were read.
#[derive(Clone, Copy)]
struct Kept {
    bytes: [u8; KEPT],
    count: usize,
}

/// What is kept once these were read too.
fn kept_with(kept: Kept, more: &[u8]) -> Kept {
    let mut kept = kept;
    for byte in more {
        if kept.count >= KEPT {
            return kept;
        }
        kept.bytes[kept.count] = *byte;
        kept.count += 1;
    }
    kept
}

/// A source that reads from a reader of std, and keeps the bytes that it began with. Each failed call of it is an Err, an interrupted one
/// too.
#[derive(Drop)]
pub struct Beginning<R> {
    reader: R,
    failures: u64,
    kept: Kept,
}

impl<R: Read> Beginning<R> {
    /// A source of the bytes that `reader` gives, with no failure yet.
    pub fn new(reader: R) -> Self
        ensures left { ⟦<Beginning<R> as Source>⟧.left result ≡ R.remaining reader }
        ensures failed { ⟦<Beginning<R> as Source>⟧.failed result ≡ 0 }
    {
        Beginning {
            reader,
            failures: 0,
            kept: Kept {
                bytes: [0; KEPT],
                count: 0,
            },
        }
    }

    /// What the file is that was read, where its bytes are refused for their header.
    pub fn hint(&self, fault: ImageFault) -> &'static str
        ensures { IsHint result.now }
    {
        match fault {
            ImageFault::L1 => image_hint(&self.kept.bytes[..self.kept.count.min(KEPT)]),
            ImageFault::L2 => image_hint(&self.kept.bytes[..self.kept.count.min(KEPT)]),
            _ => image_hint(&[]),
        }
    }
}

impl<R: Read> Source for Beginning<R> {
    ghost left = { λ s. R.remaining s.reader };

    ghost failed = { λ s. s.failures };

    fn read(&mut self, buffer: &mut [u8]) -> Result<usize, DeviceFailed> {
        if let Ok(count) = self.reader.read(buffer) {
            self.kept = kept_with(self.kept, &buffer[..count]);
            return Ok(count);
        }
        self.failures += 1;
        Err(DeviceFailed)
    }

    fn failures(&self) -> u64 {
        self.failures
    }
}
