//! A sink that takes no memory.

ghost use Rattle.std.specs.Prelude.{◌≡◌};

use image::{DeviceFailed, Sink};

/// Holds 256 bytes at most, and takes one a call.
#[derive(Debug, Drop)]
pub struct Paper {
    bytes: [u8; 256],
    count: usize,
    failures: u64,
}

impl Paper {
    /// One that holds nothing.
    pub fn new() -> Self
        ensures { ⟦<Paper as Sink>⟧.failed result ≡ 0 }
    {
        Paper {
            bytes: [0; 256],
            count: 0,
            failures: 0,
        }
    }

    /// What it holds.
    pub fn written(&self) -> &[u8] {
        self.bytes.get(..self.count).unwrap_or(&[])
    }
}

impl Sink for Paper {
    ghost failed = { λ s. s.failures };

    fn write(&mut self, bytes: &[u8]) -> Result<usize, DeviceFailed> {
        let Some(byte) = bytes.first() else {
            return Ok(0);
        };
        let Some(place) = self.bytes.get_mut(self.count) else {
            self.failures += 1;
            return Err(DeviceFailed);
        };
        *place = *byte;
        self.count = self.count.saturating_add(1);
        Ok(1)
    }

    fn failures(&self) -> u64 {
        self.failures
    }
}
