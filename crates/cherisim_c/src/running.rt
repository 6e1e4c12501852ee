//! Runs of steps into a buffer.

ghost use Rattle.std.specs.Prelude.{◌≡◌, ℕ, ◌+◌, ◌-◌, ◌^◌, ◌<◌, ◌≤◌, ◌++◌, length, take, replicate, option_to_list, None, Some};
ghost use Rattle.std.specs.Bool.{then_some};
ghost use Rattle.steps.specs.declared.event.Event.TheVariants.{Step};
ghost use Rattle.steps.specs.Ends.{why_of};
ghost use Rattle.steps.specs.State.{pc_of};
ghost use Rattle.machine.specs.Run.{run_after, run_sent};
ghost use Rattle.schedules.specs.Schedule.{steps_in, ticks_after};
ghost use Rattle.cherisim_c.specs.Running.{stop_at, is_at_stop, tick_after, end_code, run_events};
ghost use Rattle.cherisim_c.specs.Walks.{WalksOn, NoTicks, GoesOnFrom};

use crate::types::{RunAsked, RunDone};
use cap_bounds::CapRep;
use machine::{Advance, Event, Machine, Why};
use word_cap::WordCap;

/// The number of PCC.
const PCC: u8 = 0;

/// PCC's address.
#[tactic(auto, unfolding(special_regs::specs::Scrs::scr_value))]
pub(crate) fn pc(machine: &Machine<WordCap>) -> u64
    ensures { result ≡ pc_of machine.now }
{
    machine.scr(PCC).address()
}

/// Why a stretch ends, as a number; through doors a jump through a seal doesn't end one.
pub(crate) fn code_of_end(why: Option<Why>, doors: bool) -> Option<u32>
    ensures { result ≡ end_code doors why }
{
    match why {
        None => None,
        Some(Why::Trap) => Some(4),
        Some(Why::Unseal) => Some(5),
        Some(Why::SealedJump) => { if doors { None } else { Some(6) } }
    }
}

/// The address where a run stops, if it stops at one.
fn stop_address(asked: &RunAsked) -> Option<u64>
    ensures { result ≡ then_some asked.now.at_address asked.now.address }
{
    asked.at_address.then_some(asked.address)
}

/// Whether PCC has the address where a run stops.
fn is_at_stop(machine: &Machine<WordCap>, asked: &RunAsked) -> bool
    ensures { result ≡ is_at_stop asked.now machine.now }
{
    asked.at_address && pc(machine) == asked.address
}

/// Why a run goes no further, where so many steps are left and the buffer has room for so many bytes.
#[tactic(auto, unfolding(crate::specs::Running::stop_at))]
fn stop_of(machine: &Machine<WordCap>, asked: &RunAsked, left: u64, room: usize) -> Option<u32>
    ensures { result ≡ stop_at asked.now left room machine.now }
{
    if left == 0 {
        Some(0)
    } else if machine.halted().is_some() {
        Some(1)
    } else if room == 0 {
        Some(2)
    } else if is_at_stop(machine, asked) {
        Some(3)
    } else if asked.at_end {
        code_of_end(machine.next_ends(Event::Step), asked.doors)
    } else {
        None
    }
}

/// Whether a tick comes after the step of this number.
fn is_tick_after(asked: &RunAsked, number: u128) -> bool
    ensures { result ≡ ticks_after asked.now.tick number }
{
    asked.tick != 0 && number % u128::from(asked.tick) == 0
}

/// How many steps come after the step of a number without a tick between them; where none is to come, 2^64 - 1.
fn steps_to_tick(asked: &RunAsked, before: u128) -> u64
    ensures some { 1 ≤ result }
    ensures alone { NoTicks asked.now before result }
{
    if asked.tick != 0 {
        asked.tick - (before % u128::from(asked.tick)) as u64
    } else {
        u64::MAX
    }
}

/// Does one step.
fn one_step(machine: &mut Machine<WordCap>) -> Advance
    ensures one { result.steps ≡ 1 }
    ensures state { machine.new ≡ run_after (replicate 1 Step) machine.old }
    ensures bytes { run_sent (replicate 1 Step) machine.old ≡ option_to_list result.byte }
{
    let out = machine.event(Event::Step);
    Advance {
        steps: 1,
        byte: out.byte,
    }
}

/// Does steps of a run, one at least. Where the run may stop before a step, they are plain and short of its address, or one step.
fn some_steps(machine: &mut Machine<WordCap>, asked: &RunAsked, most: u64) -> Advance
    requires some { 1 ≤ most }
    requires running { machine.old.devices.halted ≡ None }
    ensures some { 1 ≤ result.steps }
    ensures few { result.steps ≤ most }
    ensures state { machine.new ≡ run_after (replicate result.steps Step) machine.old }
    ensures bytes { run_sent (replicate result.steps Step) machine.old ≡ option_to_list result.byte }
    ensures walks { WalksOn asked.now result.steps machine.old }
{
    if !asked.at_address && !asked.at_end {
        return machine.advance(most);
    }
    let steps = machine.advance_short_of(stop_address(asked), most);
    if steps == 0 {
        one_step(machine)
    } else {
        Advance { steps, byte: None }
    }
}

/// Gives the tick that comes after the step of a number, if one does.
fn pass(machine: &mut Machine<WordCap>, asked: &RunAsked, number: u128)
    ensures { machine.new ≡ run_after (tick_after asked.now number machine.old) machine.old }
{
    let running = machine.halted().is_none();
    if is_tick_after(asked, number) && running {
        machine.event(Event::Tick);
    }
}

/// Meets some events of a run that does not stop: steps, and the tick after the last of them if one comes.
fn meet_some(machine: &mut Machine<WordCap>, asked: &RunAsked, before: u128, left: u64) -> Advance
    requires some { 1 ≤ left }
    requires running { machine.old.devices.halted ≡ None }
    requires small { before + left < 2 ^ 128 }
    ensures some { 1 ≤ result.steps }
    ensures few { result.steps ≤ left }
    ensures on { (room : ℕ) → stop_at asked.now left room machine.old ≡ None
        → GoesOnFrom asked.now before left room result.steps result.byte machine.old machine.new }
{
    let most = left.min(steps_to_tick(asked, before));
    let met = some_steps(machine, asked, most);
    pass(machine, asked, before + u128::from(met.steps));
    met
}

/// Puts a byte, if there is one, at a place, and answers the place after it.
fn put(out: &mut [u8], at: usize, byte: Option<u8>) -> usize
    requires { at + 1 ≤ length out.old }
    ensures bytes { take result out.new ≡ take at out.old ++ option_to_list byte }
    ensures length { length out.new ≡ length out.old }
    ensures next { result ≡ at + length (option_to_list byte) }
{
    match byte {
        Some(byte) => {
            out[at] = byte;
            at + 1
        }
        None => at,
    }
}

/// Runs as it is asked to, and puts the bytes that the steps send into the buffer.
pub(crate) fn run(machine: &mut Machine<WordCap>, asked: RunAsked, out: &mut [u8]) -> RunDone
    ensures state { machine.new ≡ run_after (run_events asked (length out.old) machine.old) machine.old }
    ensures bytes { take result.sent out.new ≡ run_sent (run_events asked (length out.old) machine.old) machine.old }
    ensures steps { result.steps ≡ steps_in (run_events asked (length out.old) machine.old) }
    ensures few { result.sent ≤ length out.new }
    ensures length { length out.new ≡ length out.old }
    ensures stop { stop_at asked (asked.steps - result.steps) (length out.old - result.sent) machine.new ≡ Some result.stop }
{
    let mut left = asked.steps;
    let mut sent = 0;
    let mut stop = stop_of(machine, &asked, left, out.len());
    while stop.is_none() {
        let before = u128::from(asked.before) + u128::from(asked.steps - left);
        let met = meet_some(machine, &asked, before, left);
        sent = put(out, sent, met.byte);
        left -= met.steps;
        stop = stop_of(machine, &asked, left, out.len() - sent);
    }
    RunDone {
        steps: asked.steps - left,
        sent: sent as u64,
        stop: stop.unwrap_or(0),
    }
}
