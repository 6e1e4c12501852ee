//! A machine that is run on a schedule, with a line of a trace for each of its steps.

ghost use Rattle.std.proofs.Common.{ap, ◌∙◌};
ghost use Rattle.std.specs.Prelude.{◌≡◌, ◌<◌, ◌+◌, ◌-◌, ◌^◌, ◌==◌, IfOk, IfErr, OnOk, OnErr, false, true, nat_lt, [], ◌∷◌, ⊤, refl};
ghost use Rattle.std.specs.Io.KnownBytes.{Appends};
ghost use Rattle.image.specs.Devices.{AppendsBeginning, Counts};
ghost use Rattle.steps.specs.Applying.{IsPlanned};
ghost use Rattle.steps.specs.Step.{step_fetched};
ghost use Rattle.steps.specs.declared.event.Event.TheVariants.{Step};
ghost use Rattle.machine.specs.Run.{run_after, run_sent, end_of};
ghost use Rattle.explain.specs.TraceLine.{trace_line as trace_line_of};
ghost use Rattle.explain.specs.TraceObject.{trace_object as trace_object_of};
ghost use Rattle.schedules.specs.Schedule.{is_halted, scheduled, steps_in, IsRunnable};
ghost use Rattle.sim_run.specs.Trace.{lines_past, says_of, CountsTraced, WasCut};
ghost use Rattle.sim_run.specs.Lines.{lines_pace, CountsLine, MissedLine, WroteLines};
ghost use Rattle.sim_run.specs.LineLaws.{missed_more, wrote_more, wrote_no_line};

use crate::run::Ran;
use cap_bounds::CapRep;
use explain::{trace_line, trace_object};
use hart::Planned;
use image::{Sink, write_all};
use machine::{End, Machine};
use schedules::{
    Both, Either, How, Output, Pace, Progress, Schedule, Speed, Walking, Watch, walk_told,
};
use std::alloc::Global;
use symbols::Symbols;

/// Which sink of a traced run failed.
#[derive(Clone, Copy, Debug, PartialEq, Eq)]
pub enum TraceFault {
    /// What the machine sends could not be written.
    Output,
    /// The trace could not be written.
    Trace,
    /// There was no memory for a line of the trace.
    Memory,
}

/// Why a line of a trace was not written.
#[derive(Clone, Copy, Debug, PartialEq, Eq)]
pub enum LineFault {
    /// A call of its sink failed.
    Device,
    /// There was no memory for it.
    Memory,
}

/// How the steps of a trace are told.
#[derive(Clone, Copy)]
pub struct Form<'a> {
    /// Where an object takes its memory.
    pub alloc: Global,
    /// What addresses are called.
    pub symbols: &'a Symbols,
    /// As objects of JSON, or in words.
    pub json: bool,
    /// How many of the first steps have no line.
    pub skipped: u64,
}

/// A watch that writes the line of each step before it is done, past the first so many. It stops before a step whose number has more
/// than 64 bits.
#[derive(Drop)]
pub struct Lines<'a, T: Sink> {
    form: Form<'a>,
    trace: &'a mut T,
    /// How many steps were done.
    number: u64,
}

impl<'a, T: Sink> Lines<'a, T> {
    /// A watch of a run from its begin.
    pub fn new(form: Form<'a>, trace: &'a mut T) -> Self
        ensures same_reference { result.trace.ghost_name ≡ trace.entry.ghost_name }
        ensures trace { result.trace.now ≡ trace.old }
        ensures form { result.form ≡ form.entry }
        ensures number { result.number ≡ 0 }
    {
        Lines {
            form,
            trace,
            number: 0,
        }
    }
}

/// Writes what is told of a step.
fn write_text<T: Sink>(trace: &mut T, text: &[u8]) -> Result<(), LineFault>
    requires { T.failed trace.old < 2 ^ 64 - 1 }
    ensures ok { OnOk result (Appends (T.held trace.old) (T.held trace.new) text.now) }
    ensures err { OnErr result (AppendsBeginning (T.held trace.old) (T.held trace.new) text.now) }
    ensures count { CountsLine (T.failed trace.old) (T.failed trace.new) result }
{
    match write_all(trace, text) {
        Ok(()) => Ok(()),
        Err(_) => Err(LineFault::Device),
    }
}

/// Writes the line of the next step of a machine, which is planned, in words.
fn write_words<C: CapRep, T: Sink>(
    symbols: &Symbols,
    trace: &mut T,
    number: u64,
    machine: &Machine<C>,
    planned: &Planned<C>,
) -> Result<(), LineFault>
    requires planned { IsPlanned C.value planned.now.effect machine.now }
    requires fetched { planned.now.fetched ≡ step_fetched machine.now }
    requires ready { T.failed trace.old < 2 ^ 64 - 1 }
    ensures ok { OnOk result (Appends (T.held trace.old) (T.held trace.new) (trace_line_of symbols.now number machine.now)) }
    ensures err { OnErr result (AppendsBeginning (T.held trace.old) (T.held trace.new) (trace_line_of symbols.now number machine.now)) }
    ensures count { CountsLine (T.failed trace.old) (T.failed trace.new) result }
{
    let line = trace_line(symbols, number, machine.hart(), planned);
    write_text(trace, line.as_bytes())
}

/// Writes the object of the next step of a machine, which is planned.
#[tactic(auto, using(crate::proofs::WatchedSteps::nothing_begun))]
fn write_object<C: CapRep, T: Sink>(
    form: Form<'_>,
    trace: &mut T,
    number: u64,
    machine: &Machine<C>,
    planned: &Planned<C>,
) -> Result<(), LineFault>
    requires planned { IsPlanned C.value planned.now.effect machine.now }
    requires fetched { planned.now.fetched ≡ step_fetched machine.now }
    requires ready { T.failed trace.old < 2 ^ 64 - 1 }
    ensures ok { OnOk result (Appends (T.held trace.old) (T.held trace.new)
        (trace_object_of form.entry.symbols.now number machine.now)) }
    ensures err { OnErr result (AppendsBeginning (T.held trace.old) (T.held trace.new)
        (trace_object_of form.entry.symbols.now number machine.now)) }
    ensures count { CountsLine (T.failed trace.old) (T.failed trace.new) result }
{
    match trace_object(form.alloc, form.symbols, number, machine.hart(), planned) {
        Ok(line) => write_text(trace, line.as_bytes()),
        Err(_) => Err(LineFault::Memory),
    }
}

/// Writes what is told of the next step of a machine, which is planned.
fn write_step<C: CapRep, T: Sink>(
    form: Form<'_>,
    trace: &mut T,
    number: u64,
    machine: &Machine<C>,
    planned: &Planned<C>,
) -> Result<(), LineFault>
    requires planned { IsPlanned C.value planned.now.effect machine.now }
    requires fetched { planned.now.fetched ≡ step_fetched machine.now }
    requires ready { T.failed trace.old < 2 ^ 64 - 1 }
    ensures ok { OnOk result (Appends (T.held trace.old) (T.held trace.new) (says_of form.entry number machine.now)) }
    ensures err { OnErr result (AppendsBeginning (T.held trace.old) (T.held trace.new) (says_of form.entry number machine.now)) }
    ensures count { CountsLine (T.failed trace.old) (T.failed trace.new) result }
{
    if form.json {
        write_object(form, trace, number, machine, planned)
    } else {
        write_words(form.symbols, trace, number, machine, planned)
    }
}

/// Writes the line of the step after so many others, which is planned, unless it is one of the first that have none.
fn write_line<C: CapRep, T: Sink>(
    form: Form<'_>,
    trace: &mut T,
    before: u64,
    machine: &Machine<C>,
    planned: &Planned<C>,
) -> Result<(), LineFault>
    requires planned { IsPlanned C.value planned.now.effect machine.now }
    requires fetched { planned.now.fetched ≡ step_fetched machine.now }
    requires ready { T.failed trace.old < 2 ^ 64 - 1 }
    ensures ok { before < 2 ^ 64 - 1 → OnOk result (Appends (T.held trace.old) (T.held trace.new)
        (lines_past (says_of form.entry) (form.entry.skipped - before) before (Step ∷ []) machine.now)) }
    ensures err { before < 2 ^ 64 - 1 → OnErr result (AppendsBeginning (T.held trace.old) (T.held trace.new)
        (lines_past (says_of form.entry) (form.entry.skipped - before) before (Step ∷ []) machine.now)) }
    ensures count { CountsLine (T.failed trace.old) (T.failed trace.new) result }
{
    if before < form.skipped {
        return Ok(());
    }
    write_step(form, trace, before.saturating_add(1), machine, planned)
}

/// Where steps are done at once: those that have no line.
fn lines_pace(skipped: u64, number: u64) -> Pace
    ensures { result ≡ lines_pace skipped number }
{
    if number < skipped {
        Pace {
            speed: Speed::Any,
            most: skipped - number,
        }
    } else {
        Pace::of(Speed::Each)
    }
}

impl<C: CapRep, T: Sink> Watch<Machine<C>> for Lines<'_, T> {
    type Fault = LineFault;

    ghost Saw = { λ events s a b. (b.trace.ghost_name ≡ a.trace.ghost_name) × (b.form ≡ a.form)
        × WroteLines (says_of a.form) a.form.skipped a.number events s (T.held a.trace.now) (T.held b.trace.now) (T.failed a.trace.now)
        (T.failed b.trace.now) b.number };

    ghost Lost = { λ _ _ _ _ _. ⊥ };

    ghost Barred = { λ fault events s a b. (b.trace.ghost_name ≡ a.trace.ghost_name)
        × MissedLine fault (says_of a.form) a.form.skipped a.number events s (T.held a.trace.now) (T.held b.trace.now)
        (T.failed a.trace.now) (T.failed b.trace.now) };

    ghost Asked = { λ s a b. (b.trace.ghost_name ≡ a.trace.ghost_name) × (b.form ≡ a.form)
        × (b.number ≡ a.number) × (a.number < 2 ^ 64 - 1)
        × Appends (T.held a.trace.now) (T.held b.trace.now)
        (lines_past (says_of a.form) (a.form.skipped - a.number) a.number (Step ∷ []) s)
        × (T.failed b.trace.now ≡ T.failed a.trace.now) };

    ghost IsReady = { λ w. (T.failed w.trace.now < 2 ^ 64 - 1) × (w.form.skipped < 2 ^ 64) × (w.number < 2 ^ 64) };

    ghost pace_of = { λ w. lines_pace w.form.skipped w.number };

    ghost stops_at = { λ w _. w.number == 18446744073709551615 };

    ghost starts = { λ s w. (
      refl,
      refl,
      wrote_no_line (says_of w.form) w.form.skipped w.number s (T.held w.trace.now)
          (T.failed w.trace.now),
    ) };

    ghost goes_on = { λ xs ys s u v w first later. (
      later.0 ∙ first.0,
      later.1 ∙ first.1,
      wrote_more xs ys s u.form v.form u.form.skipped v.form.skipped u.number v.number _ _ _ _ _ _ first.1 (ap (λ f. f.skipped) first.1)
          first.2 w.number later.2,
    ) };

    ghost fails_later = { λ fault xs ys s u v w first later. later };

    ghost bars_later = { λ fault xs ys s u v w first later. (
      later.0 ∙ first.0,
      missed_more xs ys s u.form v.form u.form.skipped v.form.skipped u.number v.number _ _ _ _ _ _ first.1 (ap (λ f. f.skipped) first.1)
          first.2 fault later.1,
    ) };

    fn pace(&self) -> Pace {
        lines_pace(self.form.skipped, self.number)
    }

    fn stops(&self, _machine: &Machine<C>, _planned: &Planned<C>) -> bool {
        self.number == u64::MAX
    }

    fn came(&mut self, _machine: &Machine<C>) {}

    fn passed(
        &mut self,
        _machine: &Machine<C>,
        steps: u64,
        _sent: Option<u8>,
    ) -> Result<(), LineFault> {
        self.number = self.number.saturating_add(steps);
        Ok(())
    }

    fn before(&mut self, machine: &Machine<C>, planned: &Planned<C>) -> Result<(), LineFault> {
        write_line(self.form, self.trace, self.number, machine, planned)
    }

    fn after(&mut self, _machine: &Machine<C>, _sent: Option<u8>) -> Result<(), LineFault> {
        self.number = self.number.saturating_add(1);
        Ok(())
    }
}

/// Runs a machine as `run_counted` does, and past the first steps that have no line step by step: of each of those steps it writes a line
/// to `trace`, with the step's number, counted from 1, PCC's address, the word of the instruction there with its text, and what the step
/// comes to; after an address stands its label. Where objects are asked for, the line is that of an object of the same values.
///
/// The line of a step is written before the step is done. Where it could not be written, the step is not done and the run ends there;
/// where a byte could not be written, it ends after the step that sent it, as an untraced run does. It takes no memory but for objects, and
/// tells `progress` from time to time how many steps were done.
pub fn run_traced<C: CapRep, W: Sink, T: Sink, P: Progress>(
    machine: &mut Machine<C>,
    schedule: Schedule,
    input: &[u8],
    form: Form<'_>,
    sink: &mut W,
    trace: &mut T,
    progress: &mut P,
) -> Result<Ran, TraceFault>
    requires range { IsRunnable schedule }
    requires running { is_halted machine.old ≡ false }
    requires sink { W.failed sink.old < 2 ^ 64 - 1 }
    requires trace { T.failed trace.old < 2 ^ 64 - 1 }
    ensures state { OnOk result (machine.new ≡ run_after (scheduled schedule input.now machine.old) machine.old) }
    ensures bytes { OnOk result (Appends (W.held sink.old) (W.held sink.new)
        (run_sent (scheduled schedule input.now machine.old) machine.old)) }
    ensures lines { OnOk result (Appends (T.held trace.old) (T.held trace.new)
        (lines_past (says_of form.entry) form.entry.skipped 0 (scheduled schedule input.now machine.old) machine.old)) }
    ensures end { IfOk result (λ ran. ran.end ≡ end_of machine.new) }
    ensures steps { IfOk result (λ ran. ran.steps ≡ steps_in (scheduled schedule input.now machine.old)) }
    ensures cut { IfErr result (λ fault. WasCut (says_of form.entry) fault form.entry.skipped 0 (scheduled schedule input.now machine.old)
        machine.old machine.new (W.held sink.old) (W.held sink.new) (T.held trace.old) (T.held trace.new)) }
    ensures count { CountsTraced result (W.failed sink.old) (W.failed sink.new) (T.failed trace.old) (T.failed trace.new) }
{
    let mut both = Both {
        first: Lines::new(form, trace),
        second: Output::new(sink),
    };
    let Walking { how, steps } = walk_told(machine, schedule, input, &mut both, progress);
    match how {
        How::Done => {
            let end = End::Running;
            Ok(Ran { end, steps })
        }
        How::Halted => match machine.halted() {
            Some(number) => {
                let end = End::Halted(number);
                Ok(Ran { end, steps })
            }
            None => unreachable!(),
        },
        // A schedule has fewer steps than have a number of 64 bits.
        How::Stopped => unreachable!(),
        // A line is written before its step, and a byte after it.
        How::Failed(fault) => match fault {
            Either::First(_) => unreachable!(),
            Either::Second(_) => Err(TraceFault::Output),
        },
        How::Barred(fault) => match fault {
            Either::First(LineFault::Device) => Err(TraceFault::Trace),
            Either::First(LineFault::Memory) => Err(TraceFault::Memory),
            Either::Second(_) => unreachable!(),
        },
    }
}
