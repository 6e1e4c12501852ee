//! Steps while RAM has some bytes.

ghost use Rattle.std.specs.Prelude.{◌≡◌, ℕ, ◌-◌, ◌<◌, ◌≤◌, None, Some, IfSome, IsTrue, false, bytes_eq, option_to_list, replicate};
ghost use Rattle.machine.specs.Run.{run_after, run_sent};
ghost use Rattle.steps.specs.declared.event.Event.TheVariants.{Step};
ghost use Rattle.cherisim_c.specs.Running.{sent_of};
ghost use Rattle.cherisim_c.specs.Status.{no_machine};
ghost use Rattle.cherisim_c.specs.Stepping.{byte_of, goes_on, has_bytes};

use crate::handle::Handle;
use crate::status::{NO_MACHINE, OK};
use crate::types::{Sent, Stepped};
use machine::{Advance, Event, Machine};
use std::alloc::Global;
use word_cap::WordCap;

/// Whether bytes are the same: by itself, so that its caller is proved by this one clause.
fn are_same(held: &[u8], bytes: &[u8]) -> bool
    ensures { result ≡ bytes_eq held.now bytes.now }
{
    held == bytes
}

/// Whether RAM has these bytes from an address on.
fn has_bytes(machine: &Machine<WordCap>, address: u64, bytes: &[u8]) -> bool
    ensures { result ≡ has_bytes address bytes.now machine.now }
{
    match machine.memory().bytes(address, bytes.len() as u64) {
        Ok(held) => are_same(held, bytes),
        Err(_) => false,
    }
}

/// Whether one more step is done, where so many are left.
fn goes_on(
    machine: &Machine<WordCap>,
    left: u64,
    byte: Option<u8>,
    address: u64,
    bytes: &[u8],
) -> bool
    ensures { result ≡ goes_on left byte address bytes.now machine.now }
{
    0 < left && byte.is_none() && machine.halted().is_none() && has_bytes(machine, address, bytes)
}

/// Does steps while RAM has these bytes, up to one that sends a byte or halts the machine.
fn step_while(machine: &mut Machine<WordCap>, most: u64, address: u64, bytes: &[u8]) -> Advance
    ensures few { result.steps ≤ most }
    ensures state { machine.new ≡ run_after (replicate result.steps Step) machine.old }
    ensures sent { run_sent (replicate result.steps Step) machine.old ≡ option_to_list result.byte }
    ensures held { (k : ℕ) → k < result.steps → IsTrue (has_bytes address bytes.now (run_after (replicate k Step) machine.old)) }
    ensures over { goes_on (most - result.steps) result.byte address bytes.now machine.new ≡ false }
{
    let mut steps = 0;
    let mut byte = None;
    'steps: while goes_on(machine, most - steps, byte, address, bytes) {
        byte = machine.event(Event::Step).byte;
        steps += 1;
    }
    Advance { steps, byte }
}

/// A byte as C gets it, if there is one.
pub(crate) fn sent_of(byte: Option<u8>) -> Sent
    ensures value { result ≡ sent_of byte }
    ensures byte { byte_of result ≡ byte }
{
    match byte {
        Some(byte) => Sent { sends: true, byte },
        None => Sent {
            sends: false,
            byte: 0,
        },
    }
}

/// Does steps while RAM has these bytes from an address on: up to so many, and up to one that sends a byte or halts the machine.
#[unsafe(no_mangle)]
pub extern "C" fn cherisim_step_while(
    alloc: Global,
    machine: &mut Handle,
    most: u64,
    address: u64,
    bytes: &[u8],
    stepped: &mut Stepped,
) -> u32
    ensures closed { machine.old.machine ≡ None → (result ≡ no_machine) × (machine.new.machine ≡ None) × (stepped.new ≡ stepped.old) }
    ensures ok { IfSome machine.old.machine (λ s. result ≡ 0) }
    ensures few { IfSome machine.old.machine (λ s. stepped.new.steps ≤ most) }
    ensures state { IfSome machine.old.machine (λ s. machine.new.machine ≡ Some (run_after (replicate stepped.new.steps Step) s)) }
    ensures sent { IfSome machine.old.machine (λ s.
        run_sent (replicate stepped.new.steps Step) s ≡ option_to_list (byte_of stepped.new.sent)) }
    ensures held { IfSome machine.old.machine (λ s. (k : ℕ) → k < stepped.new.steps
        → IsTrue (has_bytes address bytes.now (run_after (replicate k Step) s))) }
    ensures over { IfSome machine.new.machine (λ s.
        goes_on (most - stepped.new.steps) (byte_of stepped.new.sent) address bytes.now s ≡ false) }
{
    match machine.take(alloc) {
        Some(mut inside) => {
            let did = step_while(&mut inside, most, address, bytes);
            machine.put(inside);
            *stepped = Stepped {
                steps: did.steps,
                sent: sent_of(did.byte),
            };
            OK
        }
        None => NO_MACHINE,
    }
}
