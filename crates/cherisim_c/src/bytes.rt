//! Bytes in memory as a source.

ghost use Rattle.std.specs.Prelude.{◌≡◌, Some};

use image::{DeviceFailed, Source};
use std::io::Read;

/// Bytes in memory: no call of them fails.
#[derive(Drop)]
pub(crate) struct Bytes<'a> {
    rest: &'a [u8],
}

impl<'a> Bytes<'a> {
    /// A source of these bytes.
    pub(crate) fn new(bytes: &'a [u8]) -> Self
        ensures { result.rest.now ≡ bytes.now }
    {
        Bytes { rest: bytes }
    }
}

impl Source for Bytes<'_> {
    ghost left = { λ s. Some s.rest.now };

    ghost failed = { λ _. 0 };

    fn read(&mut self, buffer: &mut [u8]) -> Result<usize, DeviceFailed> {
        self.rest.read(buffer).map_err(|_| DeviceFailed)
    }

    fn failures(&self) -> u64 {
        0
    }
}
