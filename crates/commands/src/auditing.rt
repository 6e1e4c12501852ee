//! The command `audit`.

ghost use Rattle.std.specs.Prelude.{IfErr, IfOk, OnOk, None};
ghost use Rattle.std.specs.Io.KnownBytes.{Appends};
ghost use Rattle.command_line.specs.CommandLine.{AreInRange};
ghost use Rattle.schedules.specs.Schedule.{IsRunnable};
ghost use Rattle.commands.specs.Auditing.{Audits, AuditsBy, AuditsLoaded, AuditsRun, FailsLoaded, FailsToAudit, IsUntold, ListsEntries};
ghost use Rattle.commands.specs.Auditing.{told_unless};
ghost use Rattle.commands.specs.Files.{IsNoMemory, IsUnsent, changed};
ghost use Rattle.commands.specs.Loading.{events_to, run_of};
ghost use Rattle.commands.specs.RunFaults.{FailsToTrace};
ghost use Rattle.commands.specs.Running.{Traces, trace_of};

use crate::fault::ProgramFault;
use crate::files::Folder;
use crate::loading::{LoadedRun, Rules, load};
use crate::running::{ProgramMachine, run_image};
use crate::writing::{Nowhere, Writing};
use command_line::RunRequest;
use image::write_all;
use machine::Machine;
use policy_audit::{Report, audit_run, entries_run, rule_lines};
use std::alloc::Global;
use std::io::Write;

/// What an audit of a run finds: its text, and how many parts of rules are broken.
#[derive(Debug, Drop)]
struct Audited {
    text: String,
    count: usize,
}

/// Audits a run by a policy.
fn audit_policy<'a>(
    alloc: Global,
    run: &LoadedRun<'_>,
    rules: &Rules,
) -> Result<Audited, ProgramFault<'a>>
    requires { IsRunnable run.now.schedule }
    ensures ok { IfOk result (Audits run.now.request.json rules.now (run_of run.now)) }
    ensures err { IfErr result IsNoMemory }
{
    let mut machine: ProgramMachine = Machine::new(alloc, &run.image)?;
    let lines = rule_lines(alloc, &rules.text, &rules.policy.lines)?;
    let report = Report {
        symbols: &run.table,
        lines: &lines,
        json: run.request.json,
    };
    let mut text = String::new(alloc);
    let count = audit_run(
        &mut text,
        alloc,
        &report,
        &rules.policy.rules,
        &mut machine,
        run.schedule,
        &run.input,
    )?;
    Ok(Audited { text, count })
}

/// Lists what the code in each range that a run enters can do, as rules.
fn list_entries<'a>(alloc: Global, run: &LoadedRun<'_>) -> Result<Audited, ProgramFault<'a>>
    requires { IsRunnable run.now.schedule }
    ensures ok { IfOk result (ListsEntries run.now.request.json (run_of run.now)) }
    ensures err { IfErr result IsNoMemory }
{
    let mut machine: ProgramMachine = Machine::new(alloc, &run.image)?;
    let mut text = String::new(alloc);
    let json = run.request.json;
    entries_run(
        &mut text,
        alloc,
        json,
        &mut machine,
        run.schedule,
        &run.input,
    )?;
    Ok(Audited { text, count: 0 })
}

/// Audits a run by its policy, or lists its entries where it has none.
fn audit_loaded<'a>(alloc: Global, run: &LoadedRun<'_>) -> Result<Audited, ProgramFault<'a>>
    requires { IsRunnable run.now.schedule }
    ensures ok { IfOk result (AuditsBy run.now.request.json run.now.rules (run_of run.now)) }
    ensures err { IfErr result IsNoMemory }
{
    match &run.rules {
        Some(rules) => audit_policy(alloc, run, rules),
        None => list_entries(alloc, run),
    }
}

/// Writes a text to an output, and hands it back.
fn write_text<'a, O: Write + Drop>(output: O, text: &str) -> Result<O, ProgramFault<'a>>
    ensures ok { IfOk result (λ out. Appends (O.contents output) (O.contents out) text.now) }
    ensures err { IfErr result IsUnsent }
{
    let mut sink = Writing::new(output);
    write_all(&mut sink, text.as_bytes())?;
    Ok(sink.into_inner())
}

/// Writes a text to an output, unless nothing is to be told, and hands the output back.
pub(crate) fn tell<'a, O: Write + Drop>(
    output: O,
    text: &str,
    quiet: bool,
) -> Result<O, ProgramFault<'a>>
    ensures ok { IfOk result (λ out. Appends (O.contents output) (O.contents out) (told_unless quiet text.now)) }
    ensures err { IfErr result (IsUntold quiet) }
{
    if quiet {
        Ok(output)
    } else {
        write_text(output, text)
    }
}

/// Writes the lines that are kept of the trace of a run to a file, where one is named: the run is done for it once more, and what it sends
/// is forgotten.
fn trace_run<'a, F: Folder>(
    alloc: Global,
    folder: &mut F,
    run: &LoadedRun<'a>,
) -> Result<(), ProgramFault<'a>>
    requires { IsRunnable run.now.schedule }
    ensures ok { OnOk result (Traces run.now.request.trace (trace_of run.now.request (run_of run.now) (events_to None (run_of run.now)))
        (F.files folder.old) (F.files folder.new)) }
    ensures err { IfErr result (FailsToTrace run.now.request.trace
        (trace_of run.now.request (run_of run.now) (events_to None (run_of run.now))) (F.files folder.old) (F.files folder.new)) }
{
    if run.request.trace.is_some() {
        run_image(alloc, folder, run, None, Nowhere)?;
    }
    Ok(())
}

/// Audits a run on `output`: by its policy each part of a rule that is broken; or where it has none, a rule for each range of code that
/// is entered. A line for each step that is kept goes to a file, where one is named. Answers how many parts are broken, and hands the
/// output back.
fn audit_on<'a, F: Folder, O: Write + Drop>(
    alloc: Global,
    folder: &mut F,
    run: &LoadedRun<'a>,
    output: O,
) -> Result<(usize, O), ProgramFault<'a>>
    requires { IsRunnable run.now.schedule }
    ensures ok { IfOk result (λ done. AuditsLoaded run.now done.0
        (changed (O.contents output) (O.contents done.1) (F.files folder.old) (F.files folder.new))) }
    ensures err { IfErr result (FailsLoaded run.now (F.files folder.old) (F.files folder.new)) }
{
    let audited = audit_loaded(alloc, run)?;
    trace_run(alloc, folder, run)?;
    let output = tell(output, &audited.text, run.request.quiet)?;
    Ok((audited.count, output))
}

/// Audits the run of the image of a file as it is asked for. Answers how many parts of rules are broken, and hands the output back.
pub fn audit_file<'a, F: Folder, O: Write + Drop>(
    alloc: Global,
    folder: &mut F,
    request: RunRequest<'a>,
    output: O,
) -> Result<(usize, O), ProgramFault<'a>>
    requires { AreInRange request }
    ensures ok { IfOk result (λ done. AuditsRun request.entry done.0
        (changed (O.contents output) (O.contents done.1) (F.files folder.old) (F.files folder.new))) }
    ensures err { IfErr result (FailsToAudit request.entry (F.files folder.old) (F.files folder.new)) }
{
    match load(alloc, folder, request) {
        Ok(run) => audit_on(alloc, folder, &run, output),
        Err(fault) => Err(fault),
    }
}
