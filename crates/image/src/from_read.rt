//! A reader of std as a source.

ghost use Rattle.std.specs.Prelude.{◌≡◌};

use crate::devices::{DeviceFailed, Source};
use std::io::Read;

/// A source that reads from a reader of std. Each failed call of it is an Err, an interrupted one too.
#[derive(Drop)]
pub struct FromRead<R> {
    reader: R,
    failures: u64,
}

impl<R: Read> FromRead<R> {
    /// A source of the bytes that `reader` gives, with no failure yet.
    pub fn new(reader: R) -> Self
        ensures left { ⟦<FromRead<R> as Source>⟧.left result ≡ R.remaining reader }
        ensures failed { ⟦<FromRead<R> as Source>⟧.failed result ≡ 0 }
    {
        FromRead {
            reader,
            failures: 0,
        }
    }
}

impl<R: Read> Source for FromRead<R> {
    ghost left = { λ s. R.remaining s.reader };

    ghost failed = { λ s. s.failures };

    fn read(&mut self, buffer: &mut [u8]) -> Result<usize, DeviceFailed> {
        if let Ok(count) = self.reader.read(buffer) {
            return Ok(count);
        }
        self.failures += 1;
        Err(DeviceFailed)
    }

    fn failures(&self) -> u64 {
        self.failures
    }
}
