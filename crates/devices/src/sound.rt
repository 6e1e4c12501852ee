//! What is true of all devices, for proofs.

ghost use Rattle.std.specs.Prelude.{ℕ, ◌^◌, ◌<◌, slice_index};
ghost use Rattle.devices.specs.Sound.{AreSound};

use crate::devices::Devices;

/// Tells proofs that each of them is below 256. It does nothing.
#[inline]
fn are_bytes(bytes: &[u8])
    ensures { (k : ℕ) → slice_index bytes.now k < 256 }
{
    let _length = bytes.len();
}

/// Tells proofs that numbers have 64 bits. It does nothing.
#[inline]
fn are_numbers(numbers: &[u64])
    ensures { (k : ℕ) → slice_index numbers.now k < 2 ^ 64 }
{
    if let [first, rest @ ..] = numbers {
        let _first = *first;
        are_numbers(rest);
    }
}

impl Devices {
    /// Tells proofs what is true of all devices: their numbers have 64 bits, and bytes wait. It does nothing.
    #[inline]
    pub fn are_sound(&self)
        ensures { AreSound self.now }
    {
        are_numbers(&self.kept);
        are_bytes(self.queue.as_slice());
        if let Some(_number) = self.halted {
            return;
        }
    }
}
