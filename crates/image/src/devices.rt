//! Readers and writers whose own calls may fail.

ghost use Rattle.std.specs.Prelude.{◌≡◌, ℕ, ◌-◌, ◌^◌, ◌<◌, List, Option, None, OnOk, OnErr};
ghost use Rattle.std.specs.Io.{ReadsAtMost, WritesAtMost};
ghost use Rattle.std.specs.Io.KnownBytes.{Appends, Keeps, ReadConsumes, WriteAppends};
ghost use Rattle.image.specs.Devices.{Counts, TakesSome, AppendsBeginning};

/// A device's own call failed.
#[derive(Clone, Copy, Debug, PartialEq, Eq)]
pub struct DeviceFailed;

/// What bytes come from.
pub trait Source {
    // The bytes still to come, where they are known.
    ghost left: { Self → Option (List ℕ) } = { λ _. None };

    // How often a call of it has failed.
    ghost failed: { Self → ℕ };

    /// Reads bytes into the beginning of `buffer`, and answers how many. An Ok of 0 into a buffer with room is the end.
    ///
    /// An Err has read nothing, and raises the count of failures by one.
    fn read(&mut self, buffer: &mut [u8]) -> Result<usize, DeviceFailed>
        requires { failed self.old < 2 ^ 64 - 1 }
        ensures bound { ReadsAtMost result buffer.new }
        ensures bytes { ReadConsumes (left self.old) (left self.new) result buffer.new }
        ensures count { Counts (failed self.old) (failed self.new) result };

    /// How often a call of it has failed.
    fn failures(&self) -> u64
        ensures { result ≡ failed self.now };
}

/// What bytes go to.
pub trait Sink {
    // The bytes that it holds, where they are known.
    ghost held: { Self → Option (List ℕ) } = { λ _. None };

    // How often a call of it has failed.
    ghost failed: { Self → ℕ };

    /// Writes a beginning of `bytes`, and answers how many: of a piece that is not empty one byte at least.
    ///
    /// An Err has written nothing, and raises the count of failures by one.
    fn write(&mut self, bytes: &[u8]) -> Result<usize, DeviceFailed>
        requires { failed self.old < 2 ^ 64 - 1 }
        ensures bound { WritesAtMost result bytes.now }
        ensures bytes { WriteAppends (held self.old) (held self.new) result bytes.now }
        ensures some { TakesSome result bytes.now }
        ensures count { Counts (failed self.old) (failed self.new) result };

    /// Hands on what it keeps back, so that others see it. Where that fails, a later write tells.
    fn settle(&mut self)
        ensures held { Keeps (held self.old) (held self.new) }
        ensures count { failed self.new ≡ failed self.old }
    {}

    /// How often a call of it has failed.
    fn failures(&self) -> u64
        ensures { result ≡ failed self.now };
}

/// Writes all of `bytes`, in as many pieces as the sink takes. After an Err the sink holds a beginning of them.
pub fn write_all<W: Sink>(sink: &mut W, bytes: &[u8]) -> Result<(), DeviceFailed>
    requires { W.failed sink.old < 2 ^ 64 - 1 }
    ensures ok { OnOk result (Appends (W.held sink.old) (W.held sink.new) bytes.now) }
    ensures err { OnErr result (AppendsBeginning (W.held sink.old) (W.held sink.new) bytes.now) }
    ensures count { Counts (W.failed sink.old) (W.failed sink.new) result }
{
    let mut at = 0;
    while at < bytes.len() {
        at += sink.write(&bytes[at..])?;
    }
    Ok(())
}
