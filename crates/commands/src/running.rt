//! The command `run`, and the run without a command.

ghost use Rattle.std.specs.Prelude.{◌≡◌, ◌⊎◌, List, [], ◌∷◌, IfErr, IfOk, IfSome, OnOk, None, false, is_some, string_bytes};
ghost use Rattle.std.specs.Io.Buffered.{line_writer_contents, writer_contents};
ghost use Rattle.std.specs.Io.KnownBytes.{Keeps};
ghost use Rattle.hart.specs.Opening.{opening};
ghost use Rattle.schedules.specs.Schedule.{IsPlaceOf, IsRunnable, steps_in};
ghost use Rattle.sim_run.specs.Trace.{lines_past, says_by, trace_text};
ghost use Rattle.symbols.specs.Symbols.{Symbol};
ghost use Rattle.commands.specs.declared.fault.ProgramFault.TheVariants as program;
ghost use Rattle.commands.specs.Files.{Closes, Gains, IsNew, IsNoMemory, IsUnfinished, IsUnsent, IsUnsentOrNoMemory, IsUnwritten, begun};
ghost use Rattle.commands.specs.Files.{changed, whole};
ghost use Rattle.commands.specs.Loading.{IsReady, events_to, run_of, state_after};
ghost use Rattle.commands.specs.RunFaults.{FailsFreely, FailsToTrace, FailsTraced, IsFirstFault};
ghost use Rattle.commands.specs.Running.{HasEnded, HasRun, Runs, RunsFreely, Sends, Traces, Writes};
ghost use Rattle.commands.specs.Running.{events_of, first_run, is_told, place_lines, place_objects, place_of, stop_at, stops, trace_of};

use crate::fault::ProgramFault;
use crate::files::{Folder, make_file};
use crate::loading::LoadedRun;
use crate::reporting::run_reported;
use crate::writing::{UntilFailure, Writing};
use command_line::{Reports, RunRequest, Why};
use image::{DeviceFailed, Image};
use machine::{End, Machine};
use schedules::{Nobody, Progress, Schedule};
use sim_run::{
    Form, Ran, StopAt, TraceFault, count_steps, ending_lines, ending_object, find_stop,
    lines_skipped, run_before, run_traced_before, stopped_lines, stopped_objects,
};
use std::alloc::{AllocError, Global};
use std::io::{BufWriter, LineWriter, Write};
use symbols::Symbols;
use word_cap::WordCap;

/// Where the first image begins.
const ENTRY: u64 = base::ram::BASE;

/// How many bytes of a trace are written at once.
const BLOCK: usize = 0x1_0000;

/// lui a1, 0x10000; addi a0, zero, 65; sb a0, 0(a1); lui a1, 0x100; sd zero, 0(a1)
const FIRST: [u8; 20] = [
    0xb7, 0x05, 0x00, 0x10, 0x13, 0x05, 0x10, 0x04, 0x23, 0x80, 0xa5, 0x00, 0xb7, 0x05, 0x10, 0x00,
    0x23, 0xb0, 0x05, 0x00,
];

/// The run of the first image: its five steps.
const FIRST_RUN: RunRequest<'static> = RunRequest {
    image: "",
    steps: 5,
    times: 1,
    gap: 1000,
    tick: 100,
    input: None,
    quiet: false,
    json: false,
    trace: None,
    trace_from: 1,
    trace_last: None,
    policy: None,
    symbols: None,
    lines: None,
};

/// The program's machine: over capabilities as 128-bit words.
pub type ProgramMachine = Machine<WordCap>;

/// How a run ended, and the lines that say where, empty where they are left out.
#[derive(Debug, Drop)]
pub struct Ended {
    pub end: End,
    pub place: String,
}

/// What a run leaves: its machine, how far it came, and its output.
pub type Left<O> = (ProgramMachine, Ran, O);

/// The lines of a trace: the file that they go to, how many of a run's first steps have none there, and before which step it ends.
#[derive(Clone, Copy)]
struct Lines<'a> {
    name: &'a str,
    skipped: u64,
    stop: Option<u64>,
}

/// Which trap a run stops before, where one is to be explained.
pub fn stop_at(why: Option<Why>) -> Option<StopAt>
    ensures { result ≡ stop_at why }
{
    match why {
        None => None,
        Some(Why::Unfetched) => Some(StopAt::Unfetched),
        Some(Why::All) => Some(StopAt::Violation),
        Some(Why::Double) => Some(StopAt::Double),
    }
}

/// Whether the lines that say where a run ended are told: not where it halted with 0, nor where they are to be left out.
fn is_told(end: End, quiet: bool) -> bool
    ensures { result ≡ is_told quiet end }
{
    !quiet && !matches!(end, End::Halted(0))
}

/// The lines that say where a run ended, which left this machine: before the step of a number, where one is given.
fn place(
    alloc: Global,
    run: &LoadedRun<'_>,
    stop: Option<u64>,
    machine: &ProgramMachine,
    ran: Ran,
) -> Result<String, AllocError>
    requires range { IsRunnable run.now.schedule }
    requires ran { HasRun (run_of run.now) (events_to stop (run_of run.now)) machine.now ran }
    ensures { IfOk result (λ text. string_bytes text
        ≡ place_lines (run_of run.now) (is_some stop) (events_to stop (run_of run.now))) }
{
    let table = &run.table;
    match stop {
        Some(_) => stopped_lines(alloc, table, machine, ran.steps),
        None => ending_lines(
            alloc,
            table,
            &run.image,
            run.schedule,
            &run.input,
            machine,
            ran.steps,
        ),
    }
}

/// The objects that say where a run ended, which left this machine: before the step of a number, where one is given.
fn place_objects(
    alloc: Global,
    run: &LoadedRun<'_>,
    stop: Option<u64>,
    machine: &ProgramMachine,
    ran: Ran,
) -> Result<String, AllocError>
    requires range { IsRunnable run.now.schedule }
    requires ran { HasRun (run_of run.now) (events_to stop (run_of run.now)) machine.now ran }
    ensures { IfOk result (λ text. string_bytes text
        ≡ place_objects (run_of run.now) (is_some stop) (events_to stop (run_of run.now))) }
{
    match stop {
        Some(_) => stopped_objects(alloc, &run.table, machine, ran),
        None => ending_object(
            alloc,
            &run.table,
            &run.image,
            run.schedule,
            &run.input,
            machine,
            ran,
        ),
    }
}

/// What is told of where a run ended, which left this machine: objects where they are asked for, else lines, unless these are left out.
fn told(
    alloc: Global,
    run: &LoadedRun<'_>,
    stop: Option<u64>,
    machine: &ProgramMachine,
    ran: Ran,
) -> Result<String, AllocError>
    requires range { IsRunnable run.now.schedule }
    requires ran { HasRun (run_of run.now) (events_to stop (run_of run.now)) machine.now ran }
    ensures { IfOk result (λ text. string_bytes text ≡ place_of (run_of run.now) run.now.request.json run.now.request.quiet
        (is_some stop) (events_to stop (run_of run.now))) }
{
    if run.request.json {
        place_objects(alloc, run, stop, machine, ran)
    } else if is_told(ran.end, run.request.quiet) {
        place(alloc, run, stop, machine, ran)
    } else {
        Ok(String::new(alloc))
    }
}

/// How a run ended, which left this machine, and where.
fn ending<'a>(
    alloc: Global,
    run: &LoadedRun<'_>,
    stop: Option<u64>,
    machine: &ProgramMachine,
    ran: Ran,
) -> Result<Ended, ProgramFault<'a>>
    requires range { IsRunnable run.now.schedule }
    requires ran { HasRun (run_of run.now) (events_to stop (run_of run.now)) machine.now ran }
    ensures ok { IfOk result (HasEnded (run_of run.now) run.now.request.json run.now.request.quiet (is_some stop)
        (events_to stop (run_of run.now))) }
    ensures err { IfErr result (λ fault. fault ≡ program.Memory) }
{
    let end = ran.end;
    match told(alloc, run, stop, machine, ran) {
        Ok(place) => Ok(Ended { end, place }),
        Err(_) => Err(ProgramFault::Memory),
    }
}

/// An output that is written a line at a time.
fn by_lines<'a, O: Write + Drop>(
    alloc: Global,
    output: O,
) -> Result<LineWriter<UntilFailure<O>>, ProgramFault<'a>>
    ensures ok { IfOk result (λ lines. Keeps (O.contents output) (line_writer_contents ⟦<UntilFailure<O> as Write>⟧.contents lines)) }
    ensures err { IfErr result IsNoMemory }
{
    match LineWriter::new(alloc, UntilFailure::new(output)) {
        Ok(lines) => Ok(lines),
        Err(_) => Err(ProgramFault::Memory),
    }
}

/// The output, with what was left of its last line.
fn whole_lines<'a, O: Write + Drop>(
    lines: LineWriter<UntilFailure<O>>,
) -> Result<O, ProgramFault<'a>>
    ensures ok { IfOk result (λ output. Keeps (line_writer_contents ⟦<UntilFailure<O> as Write>⟧.contents lines) (O.contents output)) }
    ensures err { IfErr result IsUnsent }
{
    match lines.into_inner() {
        Ok(output) => Ok(output.into_inner()),
        Err(_) => Err(ProgramFault::Write(DeviceFailed)),
    }
}

/// Runs a machine from its image, up to before the step of a number, where one is given; writes to `output` what it sends, a line at a
/// time, and what no line feed follows soon after.
fn run_machine<'a, O: Write + Drop, P: Progress>(
    alloc: Global,
    run: &LoadedRun<'_>,
    stop: Option<u64>,
    output: O,
    progress: &mut P,
) -> Result<Left<O>, ProgramFault<'a>>
    requires range { IsRunnable run.now.schedule }
    requires stop { IfSome stop (IsPlaceOf run.now.schedule) }
    ensures ran { IfOk result (λ left. HasRun (run_of run.now) (events_to stop (run_of run.now)) left.0 left.1) }
    ensures sent { IfOk result (λ left. Sends (run_of run.now) (events_to stop (run_of run.now)) (O.contents output) (O.contents left.2)) }
    ensures err { IfErr result IsUnsentOrNoMemory }
{
    let mut machine: ProgramMachine = Machine::new(alloc, &run.image)?;
    let mut sink = Writing::new(by_lines(alloc, output)?);
    let input = &run.input;
    let ran = run_before(&mut machine, run.schedule, input, stop, &mut sink, progress)?;
    let output = whole_lines(sink.into_inner())?;
    Ok((machine, ran, output))
}

/// A new file of this name, or the one that there is, emptied, that is written in blocks.
fn make_trace<'a, F: Folder>(
    alloc: Global,
    folder: &mut F,
    name: &'a str,
) -> Result<BufWriter<F::Made>, ProgramFault<'a>>
    ensures files { OnOk result (Gains (F.files folder.old) (F.files folder.new) (begun name.entry.now ∷ [])) }
    ensures empty { IfOk result (λ file. IsNew (F.files folder.old) (writer_contents F.Made.contents file)) }
    ensures err { IfErr result (λ fault. IsUnwritten name.entry.now (F.files folder.old) (F.files folder.new) fault
        ⊎ ((fault ≡ program.Memory) × Gains (F.files folder.old) (F.files folder.new) (begun name.entry.now ∷ []))) }
{
    let file = make_file(folder, name)?;
    match BufWriter::with_capacity(alloc, BLOCK, file) {
        Ok(trace) => Ok(trace),
        Err(_) => Err(ProgramFault::Memory),
    }
}

/// Closes a file of this name that was written in blocks, with what is left of them.
fn close_trace<'a, F: Folder>(
    folder: &mut F,
    name: &'a str,
    trace: BufWriter<F::Made>,
) -> Result<(), ProgramFault<'a>>
    ensures ok { OnOk result (Closes name.entry.now (writer_contents F.Made.contents trace) (F.files folder.old) (F.files folder.new)) }
    ensures err { IfErr result (IsUnfinished name.entry.now (F.files folder.old) (F.files folder.new)) }
{
    match trace.into_inner() {
        Ok(file) => {
            folder.close(name, file);
            Ok(())
        }
        Err(error) => {
            // What could not be written is not tried again.
            drop(error.into_inner().into_parts());
            Err(ProgramFault::CutShort(name))
        }
    }
}

/// Runs a machine from its image; writes to `output` what it sends, and to a file, which is made first, the lines of its trace.
fn trace_machine<'a, F: Folder, O: Write + Drop>(
    alloc: Global,
    folder: &mut F,
    run: &LoadedRun<'_>,
    trace: Lines<'a>,
    output: O,
) -> Result<Left<O>, ProgramFault<'a>>
    requires range { IsRunnable run.now.schedule }
    requires stop { IfSome trace.stop (IsPlaceOf run.now.schedule) }
    ensures ran { IfOk result (λ left. HasRun (run_of run.now) (events_to trace.entry.stop (run_of run.now)) left.0 left.1) }
    ensures sent { IfOk result (λ left.
        Sends (run_of run.now) (events_to trace.entry.stop (run_of run.now)) (O.contents output) (O.contents left.2)) }
    ensures files { OnOk result (Gains (F.files folder.old) (F.files folder.new) (whole trace.entry.name.now
        (lines_past (says_by run.now.request.json run.now.table) trace.entry.skipped 0 (events_to trace.entry.stop (run_of run.now))
        (opening run.now.image)))) }
    ensures err { IfErr result (FailsTraced trace.entry.name.now
        (lines_past (says_by run.now.request.json run.now.table) trace.entry.skipped 0 (events_to trace.entry.stop (run_of run.now))
        (opening run.now.image)) (F.files folder.old) (F.files folder.new)) }
{
    let mut machine: ProgramMachine = Machine::new(alloc, &run.image)?;
    let mut lines = Writing::new(make_trace(alloc, folder, trace.name)?);
    let mut sink = Writing::new(output);
    let form = Form {
        alloc,
        symbols: &run.table,
        json: run.request.json,
        skipped: trace.skipped,
    };
    let mut waiting = folder.waiting(run.request.quiet);
    match run_traced_before(
        &mut machine,
        run.schedule,
        &run.input,
        trace.stop,
        form,
        &mut sink,
        &mut lines,
        &mut waiting,
    ) {
        Ok(ran) => {
            close_trace(folder, trace.name, lines.into_inner())?;
            Ok((machine, ran, sink.into_inner()))
        }
        Err(TraceFault::Output) => {
            // The lines up to there are written, if they can be.
            let _ = close_trace(folder, trace.name, lines.into_inner());
            Err(ProgramFault::Write(DeviceFailed))
        }
        Err(TraceFault::Trace) => {
            drop(lines.into_inner().into_parts());
            Err(ProgramFault::CutShort(trace.name))
        }
        Err(TraceFault::Memory) => {
            drop(lines.into_inner().into_parts());
            Err(ProgramFault::Memory)
        }
    }
}

/// How many of the first steps of a run have no line in its trace: where the last lines are to be kept, the run is done for it on a
/// machine of its own.
fn skipped<'a, P: Progress>(
    alloc: Global,
    run: &LoadedRun<'_>,
    stop: Option<u64>,
    progress: &mut P,
) -> Result<u64, ProgramFault<'a>>
    requires range { IsRunnable run.now.schedule }
    requires stop { IfSome stop (IsPlaceOf run.now.schedule) }
    ensures ok { IfOk result (λ skipped. trace_of run.now.request (run_of run.now) (events_to stop (run_of run.now))
        ≡ lines_past (says_by run.now.request.json run.now.table) skipped 0 (events_to stop (run_of run.now)) (opening run.now.image)) }
    ensures err { IfErr result IsNoMemory }
{
    let from = run.request.trace_from;
    match run.request.trace_last {
        None => Ok(from.saturating_sub(1)),
        Some(last) => {
            let mut machine: ProgramMachine = Machine::new(alloc, &run.image)?;
            let steps = count_steps(&mut machine, run.schedule, &run.input, stop, progress);
            Ok(lines_skipped(from, last, steps))
        }
    }
}

/// Runs an image up to before the step of a number, where one is given; and writes the lines that are kept of its steps to a file, where
/// one is named.
pub fn run_image<'a, F: Folder, O: Write + Drop>(
    alloc: Global,
    folder: &mut F,
    run: &LoadedRun<'a>,
    stop: Option<u64>,
    output: O,
) -> Result<Left<O>, ProgramFault<'a>>
    requires range { IsRunnable run.now.schedule }
    requires stop { IfSome stop (IsPlaceOf run.now.schedule) }
    ensures ran { IfOk result (λ left. HasRun (run_of run.now) (events_to stop (run_of run.now)) left.0 left.1) }
    ensures sent { IfOk result (λ left. Sends (run_of run.now) (events_to stop (run_of run.now)) (O.contents output) (O.contents left.2)) }
    ensures files { OnOk result (Traces run.now.request.trace
        (trace_of run.now.request (run_of run.now) (events_to stop (run_of run.now))) (F.files folder.old) (F.files folder.new)) }
    ensures err { IfErr result (FailsToTrace run.now.request.trace
        (trace_of run.now.request (run_of run.now) (events_to stop (run_of run.now))) (F.files folder.old) (F.files folder.new)) }
{
    let mut waiting = folder.waiting(run.request.quiet);
    match run.request.trace {
        Some(name) => {
            let skipped = skipped(alloc, run, stop, &mut waiting)?;
            let trace = Lines {
                name,
                skipped,
                stop,
            };
            trace_machine(alloc, folder, run, trace, output)
        }
        None => run_machine(alloc, run, stop, output, &mut waiting),
    }
}

/// The number of the step that a run is to stop before, where it is to stop at a trap and meets one: the run is done for it step by step on
/// a machine of its own.
fn stop_of<'a, P: Progress>(
    alloc: Global,
    run: &LoadedRun<'_>,
    at: Option<StopAt>,
    progress: &mut P,
) -> Result<Option<u64>, ProgramFault<'a>>
    requires { IsRunnable run.now.schedule }
    ensures stops { IfOk result (λ stop. is_some stop ≡ stops at (run_of run.now)) }
    ensures events { IfOk result (λ stop. events_to stop (run_of run.now) ≡ events_of at (run_of run.now)) }
    ensures place { IfOk result (λ stop. IfSome stop (IsPlaceOf run.now.schedule)) }
    ensures err { IfErr result IsNoMemory }
{
    match at {
        None => Ok(None),
        Some(at) => {
            let mut machine: ProgramMachine = Machine::new(alloc, &run.image)?;
            let stop = find_stop(&mut machine, at, run.schedule, &run.input, progress);
            Ok(stop)
        }
    }
}

/// Runs an image with the bytes of its input on its console. It ends before the trap that it is to stop `at`, if any. The lines that are
/// kept of its trace are written to a file, where one is named, in blocks of 64 KiB, and its `reports` to files, where these are. A
/// run that is quiet doesn't say where it ended. Hands the output back.
pub fn run_freely<'a, F: Folder, O: Write + Drop>(
    alloc: Global,
    folder: &mut F,
    run: &LoadedRun<'a>,
    reports: Reports<'a>,
    at: Option<StopAt>,
    output: O,
) -> Result<(Ended, O), ProgramFault<'a>>
    requires { IsRunnable run.now.schedule }
    ensures ok { IfOk result (λ done. RunsFreely run.now.request reports.entry at (run_of run.now) done.0
        (changed (O.contents output) (O.contents done.1) (F.files folder.old) (F.files folder.new))) }
    ensures err { IfErr result (FailsFreely run.now.request reports.entry (run_of run.now) (events_of at (run_of run.now))
        (F.files folder.old) (F.files folder.new)) }
{
    let stop = stop_of(alloc, run, at, &mut folder.waiting(run.request.quiet))?;
    let (machine, ran, output) = run_reported(alloc, folder, run, reports, stop, output)?;
    let ended = ending(alloc, run, stop, &machine, ran)?;
    Ok((ended, output))
}

/// Runs an image whole, without a trace, and says how it ended and where. Hands the output back.
pub fn run_whole<'a, O: Write + Drop>(
    alloc: Global,
    run: &LoadedRun<'_>,
    output: O,
) -> Result<(Ended, O), ProgramFault<'a>>
    requires { IsRunnable run.now.schedule }
    ensures ok { IfOk result (λ done. Runs (run_of run.now) None run.now.request.json run.now.request.quiet done.0 (O.contents output)
        (O.contents done.1)) }
    ensures err { IfErr result IsUnsentOrNoMemory }
{
    let (machine, ran, output) = run_machine(alloc, run, None, output, &mut Nobody)?;
    let ended = ending(alloc, run, None, &machine, ran)?;
    Ok((ended, output))
}

/// Runs the first image for its five steps: it sends `A` and halts with 0.
pub fn run_first<'a, O: Write + Drop>(
    alloc: Global,
    output: O,
) -> Result<(Ended, O), ProgramFault<'a>>
    ensures ok { IfOk result (λ done. Runs first_run None false false done.0 (O.contents output) (O.contents done.1)) }
    ensures err { IfErr result IsFirstFault }
{
    let image = Image::build(alloc, 1, ENTRY, 0, &[(ENTRY, &FIRST)])?;
    let schedule = Schedule {
        steps: 5,
        gap: 1000,
        tick: 100,
    };
    let run = LoadedRun {
        request: FIRST_RUN,
        schedule,
        image,
        table: Symbols::new(alloc),
        rules: None,
        input: Vec::new(alloc),
    };
    run_whole(alloc, &run, output)
}
