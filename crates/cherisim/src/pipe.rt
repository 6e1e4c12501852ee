//! Standard output, which nobody may read any more.

use std::io::{self, ErrorKind, Write};

/// A writer into a pipe. Once nobody reads what it writes, it takes the rest and loses it: so a command whose output goes to `head` ends
/// as it would have ended, and tells of no failure.
#[derive(Drop)]
pub struct Pipe<W> {
    writer: W,
    is_closed: bool,
}

impl<W: Write> Pipe<W> {
    /// A pipe that is open.
    pub fn new(writer: W) -> Self {
        Pipe {
            writer,
            is_closed: false,
        }
    }
}

impl<W: Write> Write for Pipe<W> {
    fn write(&mut self, bytes: &[u8]) -> io::Result<usize> {
        if self.is_closed {
            return Ok(bytes.len());
        }
        match self.writer.write(bytes) {
            Err(error) if error.kind() == ErrorKind::BrokenPipe => {
                self.is_closed = true;
                Ok(bytes.len())
            }
            result => result,
        }
    }

    fn flush(&mut self) -> io::Result<()> {
        if self.is_closed {
            return Ok(());
        }
        match self.writer.flush() {
            Err(error) if error.kind() == ErrorKind::BrokenPipe => {
                self.is_closed = true;
                Ok(())
            }
            result => result,
        }
    }
}
