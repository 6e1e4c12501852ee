//! Runs of a machine on a schedule.

ghost use Rattle.std.specs.Prelude.{◌≡◌, ◌≤◌, ◌<◌, ◌-◌, ◌^◌, IfOk, OnOk, OnErr, false, [], ◌∷◌, map, option_to_list, if◌then◌else◌};
ghost use Rattle.std.specs.Io.KnownBytes.{Appends};
ghost use Rattle.image.specs.Devices.{Counts};
ghost use Rattle.steps.specs.declared.event.Event.TheVariants.{Tick, Byte};
ghost use Rattle.machine.specs.Run.{run_after, run_sent, end_of};
ghost use Rattle.schedules.specs.Schedule.{first_steps, is_halted, scheduled, steps_in, up_to_halt, IsCutShort, IsInRange, IsRunnable};

use cap_bounds::CapRep;
use image::{DeviceFailed, Sink};
use machine::{End, Event, Machine};
use schedules::{How, Nobody, Output, Progress, Schedule, Walking, walk_told};

/// Gives the machine the byte that comes, if one does.
pub(crate) fn bring<C: CapRep>(machine: &mut Machine<C>, byte: Option<u8>)
    ensures { machine.new ≡ run_after (map Byte (option_to_list byte)) machine.old }
{
    if let Some(byte) = byte {
        machine.event(Event::Byte(byte));
    }
}

/// Gives the machine the tick that comes, if one does.
pub(crate) fn pass<C: CapRep>(machine: &mut Machine<C>, ticks: bool)
    ensures { machine.new ≡ run_after (if ticks then Tick ∷ [] else []) machine.old }
{
    if ticks {
        machine.event(Event::Tick);
    }
}

/// What a run came to.
#[derive(Clone, Copy, Debug, PartialEq, Eq)]
pub struct Ran {
    /// How it ended.
    pub end: End,
    /// How many steps were done, at most those of its schedule.
    pub steps: u64,
}

/// Runs a machine as `run_counted` does, and tells `progress` from time to time how many steps were done.
pub(crate) fn run_told<C: CapRep, W: Sink, P: Progress>(
    machine: &mut Machine<C>,
    schedule: Schedule,
    input: &[u8],
    sink: &mut W,
    progress: &mut P,
) -> Result<Ran, DeviceFailed>
    requires range { IsRunnable schedule }
    requires running { is_halted machine.old ≡ false }
    requires failed { W.failed sink.old < 2 ^ 64 - 1 }
    ensures state { OnOk result (machine.new ≡ run_after (scheduled schedule input.now machine.old) machine.old) }
    ensures bytes { OnOk result (Appends (W.held sink.old) (W.held sink.new)
        (run_sent (scheduled schedule input.now machine.old) machine.old)) }
    ensures end { IfOk result (λ ran. ran.end ≡ end_of machine.new) }
    ensures steps { IfOk result (λ ran. ran.steps ≡ steps_in (scheduled schedule input.now machine.old)) }
    ensures cut { OnErr result (IsCutShort (scheduled schedule input.now machine.old) machine.old machine.new
        (W.held sink.old) (W.held sink.new)) }
    ensures count { Counts (W.failed sink.old) (W.failed sink.new) result }
{
    let mut output = Output::new(sink);
    let Walking { how, steps } = walk_told(machine, schedule, input, &mut output, progress);
    match how {
        How::Done => {
            let end = End::Running;
            Ok(Ran { end, steps })
        }
        How::Halted => match machine.halted() {
            Some(number) => {
                let end = End::Halted(number);
                Ok(Ran { end, steps })
            }
            None => unreachable!(),
        },
        How::Failed(fault) => Err(fault),
        // Nothing stops that watch, or bars it, before a step.
        How::Stopped | How::Barred(_) => unreachable!(),
    }
}

/// Runs a machine as `run_scheduled` does, for a million times as many steps at most or for none, and answers with the run's end how many
/// were done.
pub fn run_counted<C: CapRep, W: Sink>(
    machine: &mut Machine<C>,
    schedule: Schedule,
    input: &[u8],
    sink: &mut W,
) -> Result<Ran, DeviceFailed>
    requires range { IsRunnable schedule }
    requires running { is_halted machine.old ≡ false }
    requires failed { W.failed sink.old < 2 ^ 64 - 1 }
    ensures state { OnOk result (machine.new ≡ run_after (scheduled schedule input.now machine.old) machine.old) }
    ensures bytes { OnOk result (Appends (W.held sink.old) (W.held sink.new)
        (run_sent (scheduled schedule input.now machine.old) machine.old)) }
    ensures end { IfOk result (λ ran. ran.end ≡ end_of machine.new) }
    ensures steps { IfOk result (λ ran. ran.steps ≡ steps_in (scheduled schedule input.now machine.old)) }
    ensures cut { OnErr result (IsCutShort (scheduled schedule input.now machine.old) machine.old machine.new
        (W.held sink.old) (W.held sink.new)) }
    ensures count { Counts (W.failed sink.old) (W.failed sink.new) result }
{
    run_told(machine, schedule, input, sink, &mut Nobody)
}

/// Does the first so many steps of a schedule.
pub(crate) fn skip<C: CapRep, W: Sink, P: Progress>(
    machine: &mut Machine<C>,
    schedule: Schedule,
    input: &[u8],
    count: u64,
    sink: &mut W,
    progress: &mut P,
) -> Result<Ran, DeviceFailed>
    requires range { IsRunnable schedule }
    requires few { count ≤ schedule.steps }
    requires running { is_halted machine.old ≡ false }
    requires failed { W.failed sink.old < 2 ^ 64 - 1 }
    ensures state { OnOk result (machine.new ≡ run_after (up_to_halt (first_steps schedule input.now count) machine.old) machine.old) }
    ensures bytes { OnOk result (Appends (W.held sink.old) (W.held sink.new)
        (run_sent (up_to_halt (first_steps schedule input.now count) machine.old) machine.old)) }
    ensures end { IfOk result (λ ran. ran.end ≡ end_of machine.new) }
    ensures steps { IfOk result (λ ran. ran.steps ≡ steps_in (up_to_halt (first_steps schedule input.now count) machine.old)) }
    ensures cut { OnErr result (IsCutShort (up_to_halt (first_steps schedule input.now count) machine.old) machine.old machine.new
        (W.held sink.old) (W.held sink.new)) }
    ensures count { Counts (W.failed sink.old) (W.failed sink.new) result }
{
    let first = schedule.first(count);
    run_told(machine, first, input, sink, progress)
}

/// Runs a machine that is not halted by a schedule, gives it the bytes of `input`, and writes each byte that it sends at once.
///
/// It ends after the schedule's steps, or with the step that halts the machine. Where a byte could not be written, it stops
/// after the step that sent it. It takes no memory.
pub fn run_scheduled<C: CapRep, W: Sink>(
    machine: &mut Machine<C>,
    schedule: Schedule,
    input: &[u8],
    sink: &mut W,
) -> Result<End, DeviceFailed>
    requires range { IsInRange schedule }
    requires running { is_halted machine.old ≡ false }
    requires failed { W.failed sink.old < 2 ^ 64 - 1 }
    ensures state { OnOk result (machine.new ≡ run_after (scheduled schedule input.now machine.old) machine.old) }
    ensures bytes { OnOk result (Appends (W.held sink.old) (W.held sink.new)
        (run_sent (scheduled schedule input.now machine.old) machine.old)) }
    ensures end { IfOk result (λ end. end ≡ end_of machine.new) }
    ensures cut { OnErr result (IsCutShort (scheduled schedule input.now machine.old) machine.old machine.new
        (W.held sink.old) (W.held sink.new)) }
    ensures count { Counts (W.failed sink.old) (W.failed sink.new) result }
{
    Ok(run_counted(machine, schedule, input, sink)?.end)
}
