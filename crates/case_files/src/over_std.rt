//! A reader and a writer of std over memory, one of whose calls fails.

use std::io;
use std::io::{Read, Write};

/// Gives one byte a call, but for the call that fails.
#[derive(Drop)]
pub struct Reader<'a> {
    bytes: &'a [u8],
    calls: u64,
    fails_at: u64,
    kind: io::ErrorKind,
}

impl<'a> Reader<'a> {
    /// Gives these bytes, and fails with an error of this kind at the call of this number, from 0.
    pub fn new(bytes: &'a [u8], fails_at: u64, kind: io::ErrorKind) -> Self {
        Reader {
            bytes,
            calls: 0,
            fails_at,
            kind,
        }
    }
}

impl Read for Reader<'_> {
    fn read(&mut self, buffer: &mut [u8]) -> io::Result<usize> {
        let call = self.calls;
        self.calls = call.saturating_add(1);
        if call == self.fails_at {
            return Err(io::Error::from(self.kind));
        }
        let (Some((byte, rest)), Some(place)) = (self.bytes.split_first(), buffer.first_mut())
        else {
            return Ok(0);
        };
        *place = *byte;
        self.bytes = rest;
        Ok(1)
    }
}

/// How a call of a writer fails.
#[derive(Clone, Copy, Debug)]
pub enum Failure {
    /// It answers an error of this kind.
    Error(io::ErrorKind),
    /// It takes no byte.
    NoByte,
}

/// Takes one byte a call, but none at one call. Each flush fails, and leaves a `!` among what is held, so that none stays unseen.
#[derive(Drop)]
pub struct Writer<'a> {
    held: &'a mut Vec<u8>,
    calls: u64,
    fails_at: u64,
    failure: Failure,
}

impl<'a> Writer<'a> {
    /// Appends bytes to those that are held, and fails so at the call of this number, from 0.
    pub fn new(held: &'a mut Vec<u8>, fails_at: u64, failure: Failure) -> Self {
        Writer {
            held,
            calls: 0,
            fails_at,
            failure,
        }
    }
}

impl Write for Writer<'_> {
    fn write(&mut self, bytes: &[u8]) -> io::Result<usize> {
        let call = self.calls;
        self.calls = call.saturating_add(1);
        if call == self.fails_at {
            return match self.failure {
                Failure::Error(kind) => Err(io::Error::from(kind)),
                Failure::NoByte => Ok(0),
            };
        }
        let taken = bytes.len().min(1);
        self.held.extend_from_slice(&bytes[..taken])?;
        Ok(taken)
    }

    fn flush(&mut self) -> io::Result<()> {
        self.held.push(b'!')?;
        Err(io::Error::from(io::ErrorKind::Interrupted))
    }
}
