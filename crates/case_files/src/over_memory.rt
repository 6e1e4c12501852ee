//! A source and a sink over memory, one of whose calls fails.

ghost use Rattle.std.specs.Prelude.{◌≡◌};

use image::{DeviceFailed, Sink, Source};

/// Gives one byte a call, but for the call that fails.
#[derive(Drop)]
pub struct Slow<'a> {
    bytes: &'a [u8],
    calls: u64,
    fails_at: u64,
    failures: u64,
}

impl<'a> Slow<'a> {
    /// Gives these bytes, and fails at the call of this number, from 0.
    pub fn new(bytes: &'a [u8], fails_at: u64) -> Self
        ensures { ⟦<Slow<'a> as Source>⟧.failed result ≡ 0 }
    {
        Slow {
            bytes,
            calls: 0,
            fails_at,
            failures: 0,
        }
    }
}

impl Source for Slow<'_> {
    ghost failed = { λ s. s.failures };

    fn read(&mut self, buffer: &mut [u8]) -> Result<usize, DeviceFailed> {
        let call = self.calls;
        self.calls = call.saturating_add(1);
        if call == self.fails_at {
            self.failures += 1;
            return Err(DeviceFailed);
        }
        let (Some((byte, rest)), Some(place)) = (self.bytes.split_first(), buffer.first_mut())
        else {
            return Ok(0);
        };
        *place = *byte;
        self.bytes = rest;
        Ok(1)
    }

    fn failures(&self) -> u64 {
        self.failures
    }
}

/// Takes so many bytes a call at most, but for the call that fails.
#[derive(Drop)]
pub struct Narrow<'a> {
    held: &'a mut Vec<u8>,
    most: usize,
    calls: u64,
    fails_at: u64,
    failures: u64,
}

impl<'a> Narrow<'a> {
    /// Appends bytes to those that are held, `most` a call but one at least, and fails at the call of this number, from 0.
    pub fn new(held: &'a mut Vec<u8>, most: usize, fails_at: u64) -> Self
        ensures { ⟦<Narrow<'a> as Sink>⟧.failed result ≡ 0 }
    {
        Narrow {
            held,
            most,
            calls: 0,
            fails_at,
            failures: 0,
        }
    }
}

impl Sink for Narrow<'_> {
    ghost failed = { λ s. s.failures };

    fn write(&mut self, bytes: &[u8]) -> Result<usize, DeviceFailed> {
        let call = self.calls;
        self.calls = call.saturating_add(1);
        let taken = bytes.len().min(self.most.max(1));
        if call == self.fails_at || self.held.extend_from_slice(&bytes[..taken]).is_err() {
            self.failures += 1;
            return Err(DeviceFailed);
        }
        Ok(taken)
    }

    fn failures(&self) -> u64 {
        self.failures
    }
}
