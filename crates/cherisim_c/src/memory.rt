//! RAM and its tags, read and written.

ghost use Rattle.std.specs.Prelude.{◌≡◌, ◌*◌, ◌≤◌, ◌-◌, ◌^◌, ℕ, List, Some, None, IfSome, IsSome, [], ◌∷◌, length};
ghost use Rattle.base.specs.Ram.{page_bytes};
ghost use Rattle.c_types.specs.Words.{capability_of};
ghost use Rattle.cap_bounds.specs.CapValue.{value_of};
ghost use Rattle.hart.specs.Setting.{bytes_set, cap_set};
ghost use Rattle.tagged_memory.specs.Memory.{fill_fault, place_fault, bytes_at, word_at, has_tag, tagged_between};
ghost use Rattle.cherisim_c.specs.Status.{no_machine, out_of_range};

use crate::handle::Handle;
use crate::status::{NO_MACHINE, OK, RANGE};
use c_types::{CheriCap, inside, outside};
use cap_bounds::CapRep;
use machine::Machine;
use std::alloc::Global;
use tagged_memory::Memory;
use word_cap::WordCap;

/// How many pages of 4096 bytes RAM has.
#[unsafe(no_mangle)]
pub extern "C" fn cherisim_pages(alloc: Global, machine: &mut Handle, pages: &mut u32) -> u32
    ensures state { machine.new.machine ≡ machine.old.machine }
    ensures closed { machine.old.machine ≡ None → result ≡ no_machine }
    ensures ok { IfSome machine.old.machine (λ s. (result ≡ 0) × (page_bytes * pages.new ≡ length s.memory.bytes)) }
    ensures same { 1 ≤ result → pages.new ≡ pages.old }
{
    match machine.take(alloc) {
        Some(held) => {
            *pages = held.memory().pages();
            machine.put(held);
            OK
        }
        None => NO_MACHINE,
    }
}

/// Copies the bytes from an address on, where they lie in RAM.
fn copy(memory: &Memory, address: u64, out: &mut [u8]) -> u32
    ensures ok { fill_fault memory.now address (length out.old) ≡ None
        → (result ≡ 0) × (out.new ≡ bytes_at memory.now address (length out.old)) }
    ensures range { IfSome (fill_fault memory.now address (length out.old)) (λ fault. (result ≡ out_of_range) × (out.new ≡ out.old)) }
{
    match memory.bytes(address, out.len() as u64) {
        Ok(bytes) => {
            out.copy_from_slice(bytes);
            OK
        }
        Err(_) => RANGE,
    }
}

/// Reads the bytes of RAM from an address on.
#[unsafe(no_mangle)]
pub extern "C" fn cherisim_read(
    alloc: Global,
    machine: &mut Handle,
    address: u64,
    bytes: &mut [u8],
) -> u32
    ensures state { machine.new.machine ≡ machine.old.machine }
    ensures closed { machine.old.machine ≡ None → (result ≡ no_machine) × (bytes.new ≡ bytes.old) }
    ensures ok { IfSome machine.old.machine (λ s. fill_fault s.memory address (length bytes.old) ≡ None
        → (result ≡ 0) × (bytes.new ≡ bytes_at s.memory address (length bytes.old))) }
    ensures range { IfSome machine.old.machine (λ s. IfSome (fill_fault s.memory address (length bytes.old)) (λ fault.
        (result ≡ out_of_range) × (bytes.new ≡ bytes.old))) }
{
    match machine.take(alloc) {
        Some(held) => {
            let status = copy(held.memory(), address, bytes);
            machine.put(held);
            status
        }
        None => NO_MACHINE,
    }
}

/// The capability or the data in a granule, where the address is one.
fn granule(machine: &Machine<WordCap>, address: u64, value: &mut CheriCap) -> u32
    ensures ok { place_fault machine.now.memory address 16 ≡ None
        → (result ≡ 0) × (capability_of value.new ≡ value_of (word_at machine.now.memory address) (has_tag machine.now.memory address)) }
    ensures range { IfSome (place_fault machine.now.memory address 16) (λ fault. (result ≡ out_of_range) × (value.new ≡ value.old)) }
{
    match machine.memory().read_cap(address) {
        Ok((word, tag)) => {
            *value = outside(WordCap::from_word(word, tag));
            OK
        }
        Err(_) => RANGE,
    }
}

/// Reads the granule at an address.
#[unsafe(no_mangle)]
pub extern "C" fn cherisim_read_cap(
    alloc: Global,
    machine: &mut Handle,
    address: u64,
    value: &mut CheriCap,
) -> u32
    ensures state { machine.new.machine ≡ machine.old.machine }
    ensures closed { machine.old.machine ≡ None → (result ≡ no_machine) × (value.new ≡ value.old) }
    ensures ok { IfSome machine.old.machine (λ s. place_fault s.memory address 16 ≡ None
        → (result ≡ 0) × (capability_of value.new ≡ value_of (word_at s.memory address) (has_tag s.memory address))) }
    ensures range { IfSome machine.old.machine (λ s. IfSome (place_fault s.memory address 16) (λ fault.
        (result ≡ out_of_range) × (value.new ≡ value.old))) }
{
    match machine.take(alloc) {
        Some(held) => {
            let status = granule(&held, address, value);
            machine.put(held);
            status
        }
        None => NO_MACHINE,
    }
}

/// The first tagged granule at an address or above.
fn first_tagged(memory: &Memory, from: u64) -> Option<u64>
    ensures none { result ≡ None → tagged_between memory.now from (2 ^ 64 - 1) ≡ [] }
    ensures some { IfSome result (λ first. (rest : List ℕ) × (tagged_between memory.now from (2 ^ 64 - 1) ≡ first ∷ rest)) }
{
    memory.tagged(from, u64::MAX).next()
}

/// The address of the first tagged granule at `from` or above.
#[unsafe(no_mangle)]
pub extern "C" fn cherisim_next_tagged(
    alloc: Global,
    machine: &mut Handle,
    from: u64,
    address: &mut u64,
) -> u32
    ensures state { machine.new.machine ≡ machine.old.machine }
    ensures closed { machine.old.machine ≡ None → result ≡ no_machine }
    ensures ok { IfSome machine.old.machine (λ s. result ≡ 0
        → (rest : List ℕ) × (tagged_between s.memory from (2 ^ 64 - 1) ≡ address.new ∷ rest)) }
    ensures none { IfSome machine.old.machine (λ s. 1 ≤ result
        → (result ≡ out_of_range) × (tagged_between s.memory from (2 ^ 64 - 1) ≡ [])) }
    ensures same { 1 ≤ result → address.new ≡ address.old }
{
    match machine.take(alloc) {
        Some(held) => {
            let first = first_tagged(held.memory(), from);
            machine.put(held);
            match first {
                Some(found) => {
                    *address = found;
                    OK
                }
                None => RANGE,
            }
        }
        None => NO_MACHINE,
    }
}

/// Writes bytes of RAM from an address on, and takes the tag of each granule that some of them lie in.
#[unsafe(no_mangle)]
pub extern "C" fn cherisim_write(
    alloc: Global,
    machine: &mut Handle,
    address: u64,
    bytes: &[u8],
) -> u32
    ensures closed { machine.old.machine ≡ None → (result ≡ no_machine) × (machine.new.machine ≡ None) }
    ensures ok { IfSome machine.old.machine (λ s. fill_fault s.memory address (length bytes.now) ≡ None
        → (result ≡ 0) × (machine.new.machine ≡ Some (bytes_set address bytes.now s))) }
    ensures range { IfSome machine.old.machine (λ s. IfSome (fill_fault s.memory address (length bytes.now)) (λ fault.
        (result ≡ out_of_range) × (machine.new.machine ≡ Some s))) }
{
    match machine.take(alloc) {
        Some(mut held) => {
            let status = match held.set_bytes(address, bytes) {
                Ok(()) => OK,
                Err(_) => RANGE,
            };
            machine.put(held);
            status
        }
        None => NO_MACHINE,
    }
}

/// Writes the granule at an address, with the value's tag.
#[unsafe(no_mangle)]
pub extern "C" fn cherisim_write_cap(
    alloc: Global,
    machine: &mut Handle,
    address: u64,
    value: CheriCap,
) -> u32
    ensures closed { machine.old.machine ≡ None → (result ≡ no_machine) × (machine.new.machine ≡ None) }
    ensures ok { IfSome machine.old.machine (λ s. place_fault s.memory address 16 ≡ None
        → (result ≡ 0) × (machine.new.machine ≡ Some (cap_set address (capability_of value) s))) }
    ensures range { IfSome machine.old.machine (λ s. IfSome (place_fault s.memory address 16) (λ fault.
        (result ≡ out_of_range) × (machine.new.machine ≡ Some s))) }
{
    match machine.take(alloc) {
        Some(mut held) => {
            let status = match held.set_cap(address, inside(value)) {
                Ok(()) => OK,
                Err(_) => RANGE,
            };
            machine.put(held);
            status
        }
        None => NO_MACHINE,
    }
}
