//! Runs that end before a step, and how many lines a trace leaves out.

ghost use Rattle.std.specs.Prelude.{◌≡◌, ◌<◌, ◌-◌, ◌^◌, List, Some, IfOk, IfErr, IfSome, OnOk, OnErr, false};
ghost use Rattle.std.specs.Io.KnownBytes.{Appends};
ghost use Rattle.image.specs.Devices.{Counts};
ghost use Rattle.steps.specs.State.{State};
ghost use Rattle.steps.specs.declared.event.Event.{Event};
ghost use Rattle.machine.specs.Run.{run_after, run_sent, end_of};
ghost use Rattle.schedules.specs.Schedule.{is_halted, steps_in, IsCutShort, IsRunnable};
ghost use Rattle.schedules.specs.Schedule.{IsPlaceOf};
ghost use Rattle.schedules.specs.Schedule.{events_before};
ghost use Rattle.sim_run.specs.Trace.{lines_past, says_of, trace_text, CountsTraced, Says, WasCut};

use crate::run::{Ran, bring, run_told, skip};
use crate::traced::{Form, TraceFault, run_traced};
use cap_bounds::CapRep;
use image::{DeviceFailed, Sink};
use machine::Machine;
use schedules::{Progress, Schedule};

/// Runs a machine on a schedule up to the step of a number, which is not done, and gives it the byte that comes just before that step.
fn run_to<C: CapRep, W: Sink, P: Progress>(
    machine: &mut Machine<C>,
    schedule: Schedule,
    input: &[u8],
    number: u64,
    sink: &mut W,
    progress: &mut P,
) -> Result<Ran, DeviceFailed>
    requires range { IsRunnable schedule }
    requires place { IsPlaceOf schedule number }
    requires running { is_halted machine.old ≡ false }
    requires failed { W.failed sink.old < 2 ^ 64 - 1 }
    ensures state { OnOk result (machine.new ≡ run_after (events_before (Some number) schedule input.now machine.old) machine.old) }
    ensures bytes { OnOk result (Appends (W.held sink.old) (W.held sink.new)
        (run_sent (events_before (Some number) schedule input.now machine.old) machine.old)) }
    ensures end { IfOk result (λ ran. ran.end ≡ end_of machine.new) }
    ensures steps { IfOk result (λ ran. ran.steps ≡ steps_in (events_before (Some number) schedule input.now machine.old)) }
    ensures cut { OnErr result (IsCutShort (events_before (Some number) schedule input.now machine.old) machine.old machine.new
        (W.held sink.old) (W.held sink.new)) }
    ensures count { Counts (W.failed sink.old) (W.failed sink.new) result }
{
    match skip(machine, schedule, input, number - 1, sink, progress) {
        Ok(ran) => {
            bring(machine, schedule.byte_before(input, number));
            Ok(ran)
        }
        Err(fault) => Err(fault),
    }
}

/// Runs a machine as `run_counted` does up to the step of a number, which is not done, and gives it the byte that comes just before that
/// step; or all of the schedule, where no number is given. It tells `progress` from time to time how many steps were done.
pub fn run_before<C: CapRep, W: Sink, P: Progress>(
    machine: &mut Machine<C>,
    schedule: Schedule,
    input: &[u8],
    stop: Option<u64>,
    sink: &mut W,
    progress: &mut P,
) -> Result<Ran, DeviceFailed>
    requires range { IsRunnable schedule }
    requires place { IfSome stop (IsPlaceOf schedule) }
    requires running { is_halted machine.old ≡ false }
    requires failed { W.failed sink.old < 2 ^ 64 - 1 }
    ensures state { OnOk result (machine.new ≡ run_after (events_before stop schedule input.now machine.old) machine.old) }
    ensures bytes { OnOk result (Appends (W.held sink.old) (W.held sink.new)
        (run_sent (events_before stop schedule input.now machine.old) machine.old)) }
    ensures end { IfOk result (λ ran. ran.end ≡ end_of machine.new) }
    ensures steps { IfOk result (λ ran. ran.steps ≡ steps_in (events_before stop schedule input.now machine.old)) }
    ensures cut { OnErr result (IsCutShort (events_before stop schedule input.now machine.old) machine.old machine.new
        (W.held sink.old) (W.held sink.new)) }
    ensures count { Counts (W.failed sink.old) (W.failed sink.new) result }
{
    match stop {
        None => run_told(machine, schedule, input, sink, progress),
        Some(number) => run_to(machine, schedule, input, number, sink, progress),
    }
}

/// Runs a machine with a trace up to the step of a number, which is not done and has no line, and gives it the byte that comes just before
/// that step.
fn trace_to<C: CapRep, W: Sink, T: Sink, P: Progress>(
    machine: &mut Machine<C>,
    schedule: Schedule,
    input: &[u8],
    number: u64,
    form: Form<'_>,
    sink: &mut W,
    trace: &mut T,
    progress: &mut P,
) -> Result<Ran, TraceFault>
    requires range { IsRunnable schedule }
    requires place { IsPlaceOf schedule number }
    requires running { is_halted machine.old ≡ false }
    requires sink { W.failed sink.old < 2 ^ 64 - 1 }
    requires trace { T.failed trace.old < 2 ^ 64 - 1 }
    ensures state { OnOk result (machine.new ≡ run_after (events_before (Some number) schedule input.now machine.old) machine.old) }
    ensures bytes { OnOk result (Appends (W.held sink.old) (W.held sink.new)
        (run_sent (events_before (Some number) schedule input.now machine.old) machine.old)) }
    ensures lines { OnOk result (Appends (T.held trace.old) (T.held trace.new)
        (lines_past (says_of form.entry) form.entry.skipped 0 (events_before (Some number) schedule input.now machine.old) machine.old)) }
    ensures end { IfOk result (λ ran. ran.end ≡ end_of machine.new) }
    ensures steps { IfOk result (λ ran. ran.steps ≡ steps_in (events_before (Some number) schedule input.now machine.old)) }
    ensures cut { IfErr result (λ fault. WasCut (says_of form.entry) fault form.entry.skipped 0
        (events_before (Some number) schedule input.now machine.old) machine.old machine.new
        (W.held sink.old) (W.held sink.new) (T.held trace.old) (T.held trace.new)) }
    ensures count { CountsTraced result (W.failed sink.old) (W.failed sink.new) (T.failed trace.old) (T.failed trace.new) }
{
    let first = schedule.first(number - 1);
    match run_traced(machine, first, input, form, sink, trace, progress) {
        Ok(ran) => {
            bring(machine, schedule.byte_before(input, number));
            Ok(ran)
        }
        Err(fault) => Err(fault),
    }
}

/// Runs a machine as `run_traced` does up to the step of a number, which is not done and has no line, and gives it the byte that comes
/// just before that step; or all of the schedule, where no number is given.
pub fn run_traced_before<C: CapRep, W: Sink, T: Sink, P: Progress>(
    machine: &mut Machine<C>,
    schedule: Schedule,
    input: &[u8],
    stop: Option<u64>,
    form: Form<'_>,
    sink: &mut W,
    trace: &mut T,
    progress: &mut P,
) -> Result<Ran, TraceFault>
    requires range { IsRunnable schedule }
    requires place { IfSome stop (IsPlaceOf schedule) }
    requires running { is_halted machine.old ≡ false }
    requires sink { W.failed sink.old < 2 ^ 64 - 1 }
    requires trace { T.failed trace.old < 2 ^ 64 - 1 }
    ensures state { OnOk result (machine.new ≡ run_after (events_before stop schedule input.now machine.old) machine.old) }
    ensures bytes { OnOk result (Appends (W.held sink.old) (W.held sink.new)
        (run_sent (events_before stop schedule input.now machine.old) machine.old)) }
    ensures lines { OnOk result (Appends (T.held trace.old) (T.held trace.new)
        (lines_past (says_of form.entry) form.entry.skipped 0 (events_before stop schedule input.now machine.old) machine.old)) }
    ensures end { IfOk result (λ ran. ran.end ≡ end_of machine.new) }
    ensures steps { IfOk result (λ ran. ran.steps ≡ steps_in (events_before stop schedule input.now machine.old)) }
    ensures cut { IfErr result (λ fault. WasCut (says_of form.entry) fault form.entry.skipped 0
        (events_before stop schedule input.now machine.old) machine.old machine.new
        (W.held sink.old) (W.held sink.new) (T.held trace.old) (T.held trace.new)) }
    ensures count { CountsTraced result (W.failed sink.old) (W.failed sink.new) (T.failed trace.old) (T.failed trace.new) }
{
    match stop {
        None => run_traced(machine, schedule, input, form, sink, trace, progress),
        Some(number) => trace_to(
            machine, schedule, input, number, form, sink, trace, progress,
        ),
    }
}

/// A sink that forgets what is written to it.
#[derive(Drop)]
struct Nowhere;

impl Sink for Nowhere {
    ghost failed = { λ _. 0 };

    fn write(&mut self, bytes: &[u8]) -> Result<usize, DeviceFailed> {
        Ok(bytes.len())
    }

    fn failures(&self) -> u64 {
        0
    }
}

/// How many steps a run of a machine does that is run as by `run_before`. What it sends is forgotten, and it takes no memory.
pub fn count_steps<C: CapRep, P: Progress>(
    machine: &mut Machine<C>,
    schedule: Schedule,
    input: &[u8],
    stop: Option<u64>,
    progress: &mut P,
) -> u64
    requires range { IsRunnable schedule }
    requires place { IfSome stop (IsPlaceOf schedule) }
    requires running { is_halted machine.old ≡ false }
    ensures { result ≡ steps_in (events_before stop schedule input.now machine.old) }
{
    match run_before(machine, schedule, input, stop, &mut Nowhere, progress) {
        Ok(ran) => ran.steps,
        // No call of that sink fails.
        Err(_) => unreachable!(),
    }
}

/// How many lines a trace of a run of so many steps leaves out: those of the steps before the one numbered `from`, counted from 1, and all
/// but the last so many.
pub fn lines_skipped(from: u64, last: u64, steps: u64) -> u64
    ensures { (says : Says) (events : List Event) (s : State) → steps ≡ steps_in events
        → trace_text says from (Some last) events s ≡ lines_past says result 0 events s }
{
    from.saturating_sub(1).max(steps.saturating_sub(last))
}
