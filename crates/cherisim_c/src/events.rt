//! Events, one at a time, and runs.

ghost use Rattle.std.specs.Prelude.{◌≡◌, ◌-◌, ◌≤◌, Some, None, IfSome, option_map, option_to_list, length, take};
ghost use Rattle.steps.specs.declared.event.Event.TheVariants.{Step, Tick, Byte};
ghost use Rattle.steps.specs.Event.{after, sent as sent_at};
ghost use Rattle.machine.specs.Run.{run_after, run_sent};
ghost use Rattle.cherisim_c.specs.Status.{no_machine};
ghost use Rattle.schedules.specs.Schedule.{steps_in};
ghost use Rattle.cherisim_c.specs.Running.{run_events, stop_at, sent_of};

use crate::handle::Handle;
use crate::running::run;
use crate::status::{NO_MACHINE, OK};
use crate::types::{RunAsked, RunDone, Sent};
use machine::Event;
use std::alloc::Global;

/// Does one step, and writes the byte that it sends.
#[unsafe(no_mangle)]
pub extern "C" fn cherisim_step(alloc: Global, machine: &mut Handle, sent: &mut Sent) -> u32
    ensures state { machine.new.machine ≡ option_map (after Step) machine.old.machine }
    ensures closed { machine.old.machine ≡ None → result ≡ no_machine }
    ensures same { machine.old.machine ≡ None → sent.new ≡ sent.old }
    ensures ok { IfSome machine.old.machine (λ s. result ≡ 0) }
    ensures byte { IfSome machine.old.machine (λ s. sent.new ≡ sent_of (sent_at Step s)) }
{
    match machine.take(alloc) {
        Some(mut inside) => {
            let out = inside.event(Event::Step);
            machine.put(inside);
            *sent = Sent {
                sends: out.byte.is_some(),
                byte: out.byte.unwrap_or(0),
            };
            OK
        }
        None => NO_MACHINE,
    }
}

/// Gives one event, for which nothing is sent.
fn meet(alloc: Global, machine: &mut Handle, event: Event) -> u32
    ensures state { machine.new.machine ≡ option_map (after event) machine.old.machine }
    ensures closed { machine.old.machine ≡ None → result ≡ no_machine }
    ensures ok { IfSome machine.old.machine (λ s. result ≡ 0) }
{
    match machine.take(alloc) {
        Some(mut inside) => {
            inside.event(event);
            machine.put(inside);
            OK
        }
        None => NO_MACHINE,
    }
}

/// The timer ticks.
#[unsafe(no_mangle)]
pub extern "C" fn cherisim_tick(alloc: Global, machine: &mut Handle) -> u32
    ensures state { machine.new.machine ≡ option_map (after Tick) machine.old.machine }
    ensures closed { machine.old.machine ≡ None → result ≡ no_machine }
    ensures ok { IfSome machine.old.machine (λ s. result ≡ 0) }
{
    meet(alloc, machine, Event::Tick)
}

/// A byte comes on the console's line.
#[unsafe(no_mangle)]
pub extern "C" fn cherisim_receive(alloc: Global, machine: &mut Handle, byte: u8) -> u32
    ensures state { machine.new.machine ≡ option_map (after (Byte byte)) machine.old.machine }
    ensures closed { machine.old.machine ≡ None → result ≡ no_machine }
    ensures ok { IfSome machine.old.machine (λ s. result ≡ 0) }
{
    meet(alloc, machine, Event::Byte(byte))
}

/// Runs as it is asked to, and puts the bytes that the steps send into the buffer.
#[unsafe(no_mangle)]
pub extern "C" fn cherisim_run(
    alloc: Global,
    machine: &mut Handle,
    asked: &RunAsked,
    buffer: &mut [u8],
    ran: &mut RunDone,
) -> u32
    ensures closed { machine.old.machine ≡ None → result ≡ no_machine }
    ensures none { machine.old.machine ≡ None → (machine.new.machine ≡ None) × (ran.new ≡ ran.old) × (buffer.new ≡ buffer.old) }
    ensures ok { IfSome machine.old.machine (λ s. result ≡ 0) }
    ensures state { IfSome machine.old.machine (λ s.
        machine.new.machine ≡ Some (run_after (run_events asked.now (length buffer.old) s) s)) }
    ensures bytes { IfSome machine.old.machine (λ s.
        take ran.new.sent buffer.new ≡ run_sent (run_events asked.now (length buffer.old) s) s) }
    ensures steps { IfSome machine.old.machine (λ s. ran.new.steps ≡ steps_in (run_events asked.now (length buffer.old) s)) }
    ensures few { IfSome machine.old.machine (λ s. ran.new.sent ≤ length buffer.new) }
    ensures stop { IfSome machine.new.machine (λ s.
        stop_at asked.now (asked.now.steps - ran.new.steps) (length buffer.old - ran.new.sent) s ≡ Some ran.new.stop) }
{
    match machine.take(alloc) {
        Some(mut inside) => {
            let did = run(&mut inside, *asked, buffer);
            machine.put(inside);
            *ran = did;
            OK
        }
        None => NO_MACHINE,
    }
}
