//! A writer of std as a sink.

ghost use Rattle.std.specs.Prelude.{◌≡◌};

use crate::devices::{DeviceFailed, Sink};
use std::io::Write;

/// A sink that writes to a writer of std. Each failed call of it is an Err, an interrupted one too, and so is one that writes
/// no byte of a piece that is not empty.
#[derive(Drop)]
pub struct ToWrite<W> {
    writer: W,
    failures: u64,
}

impl<W: Write> ToWrite<W> {
    /// A sink that holds what `writer` holds, with no failure yet.
    pub fn new(writer: W) -> Self
        ensures held { ⟦<ToWrite<W> as Sink>⟧.held result ≡ W.contents writer }
        ensures failed { ⟦<ToWrite<W> as Sink>⟧.failed result ≡ 0 }
    {
        ToWrite {
            writer,
            failures: 0,
        }
    }
}

impl<W: Write> Sink for ToWrite<W> {
    ghost held = { λ s. W.contents s.writer };

    ghost failed = { λ s. s.failures };

    fn write(&mut self, bytes: &[u8]) -> Result<usize, DeviceFailed> {
        if let Ok(count) = self.writer.write(bytes)
            && (count > 0 || bytes.is_empty())
        {
            return Ok(count);
        }
        self.failures += 1;
        Err(DeviceFailed)
    }

    fn failures(&self) -> u64 {
        self.failures
    }
}
