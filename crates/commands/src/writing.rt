//! A writer as a sink, and handed back.

ghost use Rattle.std.specs.Prelude.{◌≡◌};

use image::{DeviceFailed, Sink};
use std::io;
use std::io::Write;

/// A writer that is written to as a sink, and then handed back. Each failed call of it is an Err, an interrupted one too, and so is
/// one that writes no byte of a piece that is not empty.
#[derive(Drop)]
pub struct Writing<W> {
    writer: W,
    failures: u64,
}

impl<W: Write> Writing<W> {
    /// A sink that holds what `writer` holds, with no failure yet.
    pub fn new(writer: W) -> Self
        ensures held { ⟦<Writing<W> as Sink>⟧.held result ≡ W.contents writer }
        ensures failed { ⟦<Writing<W> as Sink>⟧.failed result ≡ 0 }
    {
        Writing {
            writer,
            failures: 0,
        }
    }

    /// The writer.
    pub fn into_inner(self) -> W
        ensures { W.contents result ≡ ⟦<Writing<W> as Sink>⟧.held self }
    {
        self.writer
    }
}

/// A writer that is not called again after a call of it that failed, or that wrote no byte of a piece that is not empty: so what is
/// kept in front of it isn't tried a second time when that is dropped.
#[derive(Drop)]
pub struct UntilFailure<W> {
    writer: W,
    failed: bool,
}

impl<W: Write> UntilFailure<W> {
    /// A writer that holds what `writer` holds.
    pub fn new(writer: W) -> Self
        ensures { ⟦<UntilFailure<W> as Write>⟧.contents result ≡ W.contents writer }
    {
        UntilFailure {
            writer,
            failed: false,
        }
    }

    /// The writer.
    pub fn into_inner(self) -> W
        ensures { W.contents result ≡ ⟦<UntilFailure<W> as Write>⟧.contents self }
    {
        self.writer
    }
}

impl<W: Write> Write for UntilFailure<W> {
    ghost contents = { λ s. W.contents s.writer };

    fn write(&mut self, bytes: &[u8]) -> io::Result<usize> {
        if !self.failed
            && let Ok(count) = self.writer.write(bytes)
            && (count > 0 || bytes.is_empty())
        {
            return Ok(count);
        }
        self.failed = true;
        Err(io::Error::from(io::ErrorKind::Other))
    }

    fn flush(&mut self) -> io::Result<()> {
        self.writer.flush()
    }
}

/// A writer that forgets what is written to it.
#[derive(Drop)]
pub struct Nowhere;

impl Write for Nowhere {
    fn write(&mut self, bytes: &[u8]) -> io::Result<usize> {
        Ok(bytes.len())
    }

    fn flush(&mut self) -> io::Result<()> {
        Ok(())
    }
}

impl<W: Write> Sink for Writing<W> {
    ghost held = { λ s. W.contents s.writer };

    ghost failed = { λ s. s.failures };

    fn write(&mut self, bytes: &[u8]) -> Result<usize, DeviceFailed> {
        if let Ok(count) = self.writer.write(bytes)
            && (count > 0 || bytes.is_empty())
        {
            return Ok(count);
        }
        self.failures += 1;
        Err(DeviceFailed)
    }

    fn settle(&mut self) {
        let _ = self.writer.flush();
    }

    fn failures(&self) -> u64 {
        self.failures
    }
}
