ghost use Rattle.std.specs.Prelude.{◌≡◌, ◌==◌, ◌+◌, ◌-◌, ◌^◌, ◌/◌, ◌%◌, ◌<◌, ◌≤◌, [], length, min, IfOk, OnOk};
ghost use Rattle.base.specs.Ram.{ram_base};
ghost use Rattle.base.specs.FirstFault.{unless};
ghost use Rattle.tagged_memory.specs.Memory.{place_fault, fill_fault};
ghost use Rattle.tagged_memory.specs.Layout.{memory_of, IsPlace};
ghost use Rattle.base.specs.Size.{bytes_of};

use crate::fault::MemoryFault;
use base::{Size, ram};

/// The place in RAM's bytes of the `size` bytes from `address`, or M3 outside RAM.
///
/// An address below RAM wraps to a place that is past every memory, so one test serves both ends.
#[inline]
pub fn ram_place(bytes: &[u8], address: u64, size: usize) -> Result<usize, MemoryFault>
    requires room { size ≤ length bytes.now }
    requires small { length bytes.now < 2 ^ 32 }
    ensures value { result ≡ unless (fill_fault (memory_of bytes.now []) address size) (address - ram_base) }
    ensures within { IfOk result (IsPlace address size (length bytes.now)) }
{
    let place = address.wrapping_sub(ram::BASE);
    if place > (bytes.len() - size) as u64 {
        return Err(MemoryFault::M3);
    }
    Ok(place as usize)
}

/// The place in RAM's bytes of `size` bytes from `address`: M4 where the address is not aligned, then
/// M3 outside RAM.
#[inline]
pub fn aligned_place(
    bytes: &[u8],
    address: u64,
    size: usize,
    is_aligned: bool,
) -> Result<usize, MemoryFault>
    requires test { is_aligned ≡ (address % size == 0) }
    requires room { size ≤ length bytes.now }
    requires small { length bytes.now < 2 ^ 32 }
    ensures value { result ≡ unless (place_fault (memory_of bytes.now []) address size) (address - ram_base) }
    ensures within { IfOk result (IsPlace address size (length bytes.now)) }
    ensures aligned { OnOk result (address % size ≡ 0) }
{
    if !is_aligned {
        return Err(MemoryFault::M4);
    }
    ram_place(bytes, address, size)
}

/// The place of a number of `size` bytes.
#[inline]
pub fn number_place(bytes: &[u8], address: u64, size: Size) -> Result<usize, MemoryFault>
    requires room { 16 ≤ length bytes.now }
    requires small { length bytes.now < 2 ^ 32 }
    ensures value { result ≡ unless (place_fault (memory_of bytes.now []) address (bytes_of size)) (address - ram_base) }
    ensures within { IfOk result (IsPlace address (bytes_of size) (length bytes.now)) }
    ensures aligned { OnOk result (address % bytes_of size ≡ 0) }
{
    match size {
        Size::Byte => aligned_place(bytes, address, 1, true),
        Size::Half => aligned_place(bytes, address, 2, address % 2 == 0),
        Size::Word => aligned_place(bytes, address, 4, address % 4 == 0),
        Size::Double => aligned_place(bytes, address, 8, address % 8 == 0),
    }
}

/// The place of a granule.
#[inline]
pub fn granule_place(bytes: &[u8], address: u64) -> Result<usize, MemoryFault>
    requires room { 16 ≤ length bytes.now }
    requires small { length bytes.now < 2 ^ 32 }
    ensures value { result ≡ unless (place_fault (memory_of bytes.now []) address 16) (address - ram_base) }
    ensures within { IfOk result (IsPlace address 16 (length bytes.now)) }
    ensures aligned { OnOk result (address % 16 ≡ 0) }
{
    aligned_place(bytes, address, 16, address % 16 == 0)
}

/// How many of the first `count` granules of RAM begin below an address.
pub fn granules_below(count: usize, address: u64) -> usize
    requires { count < 2 ^ 32 }
    ensures { result ≡ min count ((address - ram_base + 15) / 16) }
{
    let below = address.saturating_sub(ram::BASE);
    below.div_ceil(16).min(count as u64) as usize
}

/// The place of `size` bytes that may be any number: M3 outside RAM.
pub fn fill_place(bytes: &[u8], address: u64, size: usize) -> Result<usize, MemoryFault>
    requires { length bytes.now < 2 ^ 32 }
    ensures value { result ≡ unless (fill_fault (memory_of bytes.now []) address size) (address - ram_base) }
    ensures within { IfOk result (IsPlace address size (length bytes.now)) }
{
    if size > bytes.len() {
        return Err(MemoryFault::M3);
    }
    ram_place(bytes, address, size)
}
