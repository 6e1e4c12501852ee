//! Runs that a policy watches.

ghost use Rattle.std.specs.Prelude.{◌≡◌, ◌≤◌, ◌<◌, [], true, false, length, IfErr, IfOk, string_bytes, vec_len};
ghost use Rattle.reach.specs.Reach.{members_in};
ghost use Rattle.schedules.specs.Schedule.{IsRunnable};
ghost use Rattle.commands.specs.Files.{IsNoMemory, changed};
ghost use Rattle.commands.specs.Loading.{AreNumbered, IsReady, run_of};
ghost use Rattle.commands.specs.RunFaults.{FailsBy, FailsWatched};
ghost use Rattle.commands.specs.Watching.{IsStopOf, IsWatchedRun, RunsBy, TellsRefused, is_silent, refused_by};

use crate::fault::ProgramFault;
use crate::files::Folder;
use crate::loading::{LoadedRun, Rules};
use crate::reporting::run_reported;
use crate::running::{Ended, ProgramMachine, run_freely};
use breach_texts::{RuleLine, refused_lines, refused_object};
use command_line::Reports;
use machine::Machine;
use policy::Refused;
use policy_audit::rule_line;
use policy_runs::{Breach, find_breach};
use schedules::Progress;
use sim_run::StopAt;
use std::alloc::{AllocError, Global};
use std::io::Write;
use symbols::Symbols;

/// Whether nothing is told of where a run is stopped: where it is quiet, and no object is asked for.
fn is_silent(json: bool, quiet: bool) -> bool
    ensures { result ≡ is_silent json quiet }
{
    !json && quiet
}

/// Where a rule stopped a run before its next step, after so many: as an object, or in words.
fn refused_by(
    alloc: Global,
    json: bool,
    table: &Symbols,
    machine: &ProgramMachine,
    rule: RuleLine<'_>,
    refused: Refused,
    steps: u64,
) -> Result<String, AllocError>
    requires { refused.member < length (members_in machine.now) }
    ensures { IfOk result (λ text. string_bytes text
        ≡ refused_by json table.now rule.entry.number rule.entry.text.now refused steps machine.now) }
{
    if json {
        refused_object(alloc, machine, table, rule, refused, steps)
    } else {
        refused_lines(alloc, machine, table, rule, refused, steps)
    }
}

/// The lines that say where a policy stopped a run, none where it is silent.
fn stop_lines<'a>(
    alloc: Global,
    run: &LoadedRun<'_>,
    rules: &Rules,
    machine: &ProgramMachine,
    breach: Breach,
) -> Result<String, ProgramFault<'a>>
    requires place { 1 ≤ breach.number }
    requires rule { breach.refused.rule < vec_len rules.now.policy.lines }
    requires member { breach.refused.member < length (members_in machine.now) }
    ensures silent { is_silent run.now.request.json run.now.request.quiet ≡ true → IfOk result (λ text. string_bytes text ≡ []) }
    ensures told { is_silent run.now.request.json run.now.request.quiet ≡ false → IfOk result (λ text.
        TellsRefused run.now.request.json rules.now run.now.table breach.refused breach.number machine.now (string_bytes text)) }
    ensures err { IfErr result IsNoMemory }
{
    let json = run.request.json;
    if is_silent(json, run.request.quiet) {
        return Ok(String::new(alloc));
    }
    let refused = breach.refused;
    let number = rules.policy.lines[refused.rule];
    let rule = rule_line(&rules.text, number);
    let steps = breach.number - 1;
    match refused_by(alloc, json, &run.table, machine, rule, refused, steps) {
        Ok(text) => Ok(text),
        Err(_) => Err(ProgramFault::Memory),
    }
}

/// Where a policy stops a run: the number of the step that is not done, and the lines that say so.
#[derive(Debug, Drop)]
struct Stop {
    number: u64,
    lines: String,
}

/// Where a policy stops a run, if it does: the run is done for it on a machine of its own.
fn stop_of<'a, P: Progress>(
    alloc: Global,
    run: &LoadedRun<'_>,
    rules: &Rules,
    progress: &mut P,
) -> Result<Option<Stop>, ProgramFault<'a>>
    requires numbered { AreNumbered rules.now }
    requires range { IsRunnable run.now.schedule }
    ensures ok { IfOk result (IsStopOf rules.now (run_of run.now) run.now.request.json run.now.request.quiet) }
    ensures err { IfErr result IsNoMemory }
{
    let mut machine: ProgramMachine = Machine::new(alloc, &run.image)?;
    match find_breach(
        alloc,
        &mut machine,
        &rules.policy.rules,
        run.schedule,
        &run.input,
        progress,
    ) {
        Ok(Some(breach)) => Ok(Some(Stop {
            number: breach.number,
            lines: stop_lines(alloc, run, rules, &machine, breach)?,
        })),
        Ok(None) => Ok(None),
        Err(_) => Err(ProgramFault::Memory),
    }
}

/// Runs an image, watched by a policy: it ends before the first step at which a reachable capability breaks a rule that applies there.
/// Hands the output back.
fn run_watched<'a, F: Folder, O: Write + Drop>(
    alloc: Global,
    folder: &mut F,
    run: &LoadedRun<'a>,
    rules: &Rules,
    reports: Reports<'a>,
    output: O,
) -> Result<(Ended, O), ProgramFault<'a>>
    requires numbered { AreNumbered rules.now }
    requires range { IsRunnable run.now.schedule }
    ensures ok { IfOk result (λ done. IsWatchedRun rules.now run.now.request reports.entry (run_of run.now) done.0
        (changed (O.contents output) (O.contents done.1) (F.files folder.old) (F.files folder.new))) }
    ensures err { IfErr result (FailsWatched rules.now run.now.request reports.entry (run_of run.now)
        (F.files folder.old) (F.files folder.new)) }
{
    let stop = stop_of(alloc, run, rules, &mut folder.waiting(run.request.quiet))?;
    match stop {
        Some(stop) => {
            let number = Some(stop.number);
            let (_, ran, output) = run_reported(alloc, folder, run, reports, number, output)?;
            let end = ran.end;
            let place = stop.lines;
            Ok((Ended { end, place }, output))
        }
        None => run_freely(alloc, folder, run, reports, None, output),
    }
}

/// Runs an image, watched by the rules of its policy, if it has one; else it ends before the trap that it is to stop `at`, if any. Its
/// `reports` are written, where files are named for them. Hands the output back.
pub fn run_loaded<'a, F: Folder, O: Write + Drop>(
    alloc: Global,
    folder: &mut F,
    run: &LoadedRun<'a>,
    reports: Reports<'a>,
    at: Option<StopAt>,
    output: O,
) -> Result<(Ended, O), ProgramFault<'a>>
    requires { IsReady run.now }
    ensures ok { IfOk result (λ done. RunsBy run.now.rules run.now.request reports.entry at (run_of run.now) done.0
        (changed (O.contents output) (O.contents done.1) (F.files folder.old) (F.files folder.new))) }
    ensures err { IfErr result (FailsBy run.now.rules run.now.request reports.entry at (run_of run.now)
        (F.files folder.old) (F.files folder.new)) }
{
    match &run.rules {
        None => run_freely(alloc, folder, run, reports, at, output),
        Some(rules) => run_watched(alloc, folder, run, rules, reports, output),
    }
}
