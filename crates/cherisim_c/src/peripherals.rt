//! Devices, as they stand.

ghost use Rattle.std.specs.Prelude.{◌≡◌, ◌≤◌, None, Some, IfSome, length, take, Option};
ghost use Rattle.devices.specs.Devices.{mtimecmp};
ghost use Rattle.cherisim_c.specs.Status.{no_machine};
ghost use Rattle.cherisim_c.specs.Running.{halted_of};

use crate::handle::Handle;
use crate::status::{NO_MACHINE, OK};
use crate::types::{Console, Halted, Timer};
use std::alloc::Global;

/// Whether the machine is halted, and with which number.
#[unsafe(no_mangle)]
pub extern "C" fn cherisim_halted(alloc: Global, machine: &mut Handle, halted: &mut Halted) -> u32
    ensures state { machine.new.machine ≡ machine.old.machine }
    ensures closed { machine.old.machine ≡ None → result ≡ no_machine }
    ensures ok { IfSome machine.old.machine (λ s. (result ≡ 0) × (halted.new ≡ halted_of s.devices.halted)) }
    ensures same { 1 ≤ result → halted.new ≡ halted.old }
{
    match machine.take(alloc) {
        Some(held) => {
            *halted = match held.halted() {
                Some(number) => Halted {
                    halted: true,
                    number,
                },
                None => Halted {
                    halted: false,
                    number: 0,
                },
            };
            machine.put(held);
            OK
        }
        None => NO_MACHINE,
    }
}

/// The timer's two numbers.
#[unsafe(no_mangle)]
pub extern "C" fn cherisim_timer(alloc: Global, machine: &mut Handle, timer: &mut Timer) -> u32
    ensures state { machine.new.machine ≡ machine.old.machine }
    ensures closed { machine.old.machine ≡ None → result ≡ no_machine }
    ensures ok { IfSome machine.old.machine (λ s. result ≡ 0) }
    ensures mtime { IfSome machine.old.machine (λ s. timer.new.mtime ≡ s.devices.mtime) }
    ensures mtimecmp { IfSome machine.old.machine (λ s. timer.new.mtimecmp ≡ mtimecmp s.devices) }
    ensures same { 1 ≤ result → timer.new ≡ timer.old }
{
    match machine.take(alloc) {
        Some(held) => {
            let devices = held.devices();
            *timer = Timer {
                mtime: devices.mtime(),
                mtimecmp: devices.mtimecmp(),
            };
            machine.put(held);
            OK
        }
        None => NO_MACHINE,
    }
}

/// The console, with the bytes that wait at the beginning of `queue`, the oldest first.
#[unsafe(no_mangle)]
pub extern "C" fn cherisim_console(
    alloc: Global,
    machine: &mut Handle,
    queue: &mut [u8; 64],
    console: &mut Console,
) -> u32
    ensures state { machine.new.machine ≡ machine.old.machine }
    ensures closed { machine.old.machine ≡ None → (result ≡ no_machine) × (queue.new ≡ queue.old) × (console.new ≡ console.old) }
    ensures ok { IfSome machine.old.machine (λ s. result ≡ 0) }
    ensures queue { IfSome machine.old.machine (λ s. take console.new.waiting queue.new ≡ s.devices.queue) }
    ensures few { IfSome machine.old.machine (λ s. console.new.waiting ≤ 64) }
    ensures overrun { IfSome machine.old.machine (λ s. console.new.overrun ≡ s.devices.overrun) }
    ensures control { IfSome machine.old.machine (λ s. console.new.control ≡ s.devices.control) }
{
    match machine.take(alloc) {
        Some(held) => {
            let devices = held.devices();
            let waiting = devices.waiting();
            queue[..waiting.len()].copy_from_slice(waiting);
            *console = Console {
                waiting: waiting.len() as u64,
                overrun: devices.overrun(),
                control: devices.control(),
            };
            machine.put(held);
            OK
        }
        None => NO_MACHINE,
    }
}
