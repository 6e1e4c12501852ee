//! Registers, read and written.

ghost use Rattle.std.specs.Prelude.{◌≡◌, ℕ, ◌%◌, ◌<◌, ◌≤◌, slice_index_or, Some, None, IfSome, IsTrue, false};
ghost use Rattle.base.specs.Registers.{is_scr, is_csr};
ghost use Rattle.base.specs.declared.registers.scr.TheConstants.{PCC};
ghost use Rattle.c_types.specs.Words.{capability_of};
ghost use Rattle.c_types.specs.declared.types.CheriCap.{CheriCap as Capability};
ghost use Rattle.devices.specs.Devices.{interrupts_of};
ghost use Rattle.steps.specs.Effect.{register_written};
ghost use Rattle.registers.specs.Registers.{register};
ghost use Rattle.hart.specs.Setting.{scr_set, csr_set};
ghost use Rattle.special_regs.specs.CsrValues.{csr_value};
ghost use Rattle.special_regs.specs.Scrs.{scr_value, IsAligned};
ghost use Rattle.cherisim_c.specs.Status.{no_machine, out_of_range};

use crate::handle::Handle;
use crate::status::{NO_MACHINE, OK, RANGE};
use base::{is_csr, is_scr, scr};
use c_types::{CheriCap, inside, outside};
use cap_bounds::CapRep;
use machine::Machine;
use std::alloc::Global;
use word_cap::WordCap;

/// What general register `n` holds.
#[unsafe(no_mangle)]
pub extern "C" fn cherisim_reg(
    alloc: Global,
    machine: &mut Handle,
    n: u8,
    value: &mut CheriCap,
) -> u32
    ensures state { machine.new.machine ≡ machine.old.machine }
    ensures closed { machine.old.machine ≡ None → result ≡ no_machine }
    ensures range { IfSome machine.old.machine (λ s. 32 ≤ n → result ≡ out_of_range) }
    ensures ok { IfSome machine.old.machine (λ s. n < 32 → (result ≡ 0) × (capability_of value.new ≡ register s.registers n)) }
    ensures same { 1 ≤ result → value.new ≡ value.old }
{
    match machine.take(alloc) {
        Some(held) => {
            let status = if n < 32 {
                *value = outside(held.reg(n));
                OK
            } else {
                RANGE
            };
            machine.put(held);
            status
        }
        None => NO_MACHINE,
    }
}

/// Copies what all general registers hold.
fn copy_registers(machine: &Machine<WordCap>, values: &mut [CheriCap; 32])
    ensures { (k : ℕ) (d : Capability) → k < 32 → capability_of (slice_index_or values.new k d) ≡ register machine.now.registers k }
{
    for n in 0..32u8 {
        values[n as usize] = outside(machine.reg(n));
    }
}

/// What all general registers hold.
#[unsafe(no_mangle)]
pub extern "C" fn cherisim_all_regs(
    alloc: Global,
    machine: &mut Handle,
    values: &mut [CheriCap; 32],
) -> u32
    ensures state { machine.new.machine ≡ machine.old.machine }
    ensures closed { machine.old.machine ≡ None → (result ≡ no_machine) × (values.new ≡ values.old) }
    ensures ok { IfSome machine.old.machine (λ s. result ≡ 0) }
    ensures values { IfSome machine.old.machine (λ s.
        (k : ℕ) (d : Capability) → k < 32 → capability_of (slice_index_or values.new k d) ≡ register s.registers k) }
{
    match machine.take(alloc) {
        Some(held) => {
            copy_registers(&held, values);
            machine.put(held);
            OK
        }
        None => NO_MACHINE,
    }
}

/// What special capability register `n` holds.
#[unsafe(no_mangle)]
pub extern "C" fn cherisim_scr(
    alloc: Global,
    machine: &mut Handle,
    n: u8,
    value: &mut CheriCap,
) -> u32
    ensures state { machine.new.machine ≡ machine.old.machine }
    ensures closed { machine.old.machine ≡ None → result ≡ no_machine }
    ensures range { IfSome machine.old.machine (λ s. is_scr n ≡ false → result ≡ out_of_range) }
    ensures ok { IfSome machine.old.machine
        (λ s. IsTrue (is_scr n) → (result ≡ 0) × (scr_value s.scrs n ≡ Some (capability_of value.new))) }
    ensures same { 1 ≤ result → value.new ≡ value.old }
{
    match machine.take(alloc) {
        Some(held) => {
            let status = if is_scr(n) {
                *value = outside(held.scr(n));
                OK
            } else {
                RANGE
            };
            machine.put(held);
            status
        }
        None => NO_MACHINE,
    }
}

/// What a read of control and status register `n` gives.
#[unsafe(no_mangle)]
pub extern "C" fn cherisim_csr(alloc: Global, machine: &mut Handle, n: u16, value: &mut u64) -> u32
    ensures state { machine.new.machine ≡ machine.old.machine }
    ensures closed { machine.old.machine ≡ None → result ≡ no_machine }
    ensures range { IfSome machine.old.machine (λ s. is_csr n ≡ false → result ≡ out_of_range) }
    ensures ok { IfSome machine.old.machine (λ s. IsTrue (is_csr n)
        → (result ≡ 0) × (csr_value s.csrs s.scrs (interrupts_of s.devices) n ≡ Some value.new)) }
    ensures same { 1 ≤ result → value.new ≡ value.old }
{
    match machine.take(alloc) {
        Some(held) => {
            let status = if is_csr(n) {
                *value = held.csr(n);
                OK
            } else {
                RANGE
            };
            machine.put(held);
            status
        }
        None => NO_MACHINE,
    }
}

/// Replaces general register `n`. A write to the first is lost.
#[unsafe(no_mangle)]
pub extern "C" fn cherisim_set_reg(
    alloc: Global,
    machine: &mut Handle,
    n: u8,
    value: CheriCap,
) -> u32
    ensures closed { machine.old.machine ≡ None → result ≡ no_machine }
    ensures range { IfSome machine.old.machine (λ s. 32 ≤ n → result ≡ out_of_range) }
    ensures ok { IfSome machine.old.machine (λ s. n < 32
        → (result ≡ 0) × (machine.new.machine ≡ Some (register_written n (capability_of value) s))) }
    ensures same { 1 ≤ result → machine.new.machine ≡ machine.old.machine }
{
    match machine.take(alloc) {
        Some(mut held) => {
            let status = if n < 32 {
                held.set_reg(n, inside(value));
                OK
            } else {
                RANGE
            };
            machine.put(held);
            status
        }
        None => NO_MACHINE,
    }
}

/// Whether a capability with this address may stand in special capability register `n`.
fn may_stand(n: u8, address: u64) -> bool
    ensures exists { IsTrue result → IsTrue (is_scr n) }
    ensures aligned { IsTrue result → n ≡ PCC → address % 4 ≡ 0 }
    ensures only { IsTrue (is_scr n) → (n ≡ PCC → address % 4 ≡ 0) → IsTrue result }
{
    is_scr(n) && (n != scr::PCC || address % 4 == 0)
}

/// Replaces special capability register `n`. PCC takes an address that is a multiple of 4.
#[unsafe(no_mangle)]
pub extern "C" fn cherisim_set_scr(
    alloc: Global,
    machine: &mut Handle,
    n: u8,
    value: CheriCap,
) -> u32
    ensures closed { machine.old.machine ≡ None → result ≡ no_machine }
    ensures range { IfSome machine.old.machine (λ s. 1 ≤ result → result ≡ out_of_range) }
    ensures ok { IfSome machine.old.machine (λ s. IsTrue (is_scr n) → (n ≡ PCC → IsAligned (capability_of value)) → result ≡ 0) }
    ensures state { IfSome machine.old.machine (λ s. result ≡ 0
        → IsTrue (is_scr n) × (n ≡ PCC → IsAligned (capability_of value))
        × (machine.new.machine ≡ Some (scr_set n (capability_of value) s))) }
    ensures same { 1 ≤ result → machine.new.machine ≡ machine.old.machine }
{
    match machine.take(alloc) {
        Some(mut held) => {
            let status = if may_stand(n, inside(value).address()) {
                held.set_scr(n, inside(value));
                OK
            } else {
                RANGE
            };
            machine.put(held);
            status
        }
        None => NO_MACHINE,
    }
}

/// Writes control and status register `n`, as CSRRW writes it.
#[unsafe(no_mangle)]
pub extern "C" fn cherisim_set_csr(alloc: Global, machine: &mut Handle, n: u16, value: u64) -> u32
    ensures closed { machine.old.machine ≡ None → result ≡ no_machine }
    ensures range { IfSome machine.old.machine (λ s. is_csr n ≡ false → result ≡ out_of_range) }
    ensures ok { IfSome machine.old.machine (λ s. IsTrue (is_csr n)
        → (result ≡ 0) × (machine.new.machine ≡ Some (csr_set n value s))) }
    ensures same { 1 ≤ result → machine.new.machine ≡ machine.old.machine }
{
    match machine.take(alloc) {
        Some(mut held) => {
            let status = if is_csr(n) {
                held.set_csr(n, value);
                OK
            } else {
                RANGE
            };
            machine.put(held);
            status
        }
        None => NO_MACHINE,
    }
}
