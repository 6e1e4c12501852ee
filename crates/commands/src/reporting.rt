//! Runs of which reports are written: a profile, and the calls and returns.

ghost use Rattle.std.specs.Prelude.{◌≡◌, Some, IfErr, IfOk, IfSome, OnOk, string_bytes};
ghost use Rattle.hart.specs.Opening.{opening};
ghost use Rattle.schedules.specs.Schedule.{IsPlaceOf, IsRunnable};
ghost use Rattle.sim_run.specs.Profile.{IsProfile, fetches};
ghost use Rattle.commands.specs.Files.{IsNoMemory};
ghost use Rattle.commands.specs.Loading.{events_to, run_of};
ghost use Rattle.commands.specs.RunFaults.{FailsToProfile, FailsToTell, FailsToWriteRun};
ghost use Rattle.commands.specs.Running.{HasRun, Sends, Writes, calls_of, profile_alone};

use crate::fault::ProgramFault;
use crate::files::{Folder, finish_file, make_file};
use crate::loading::LoadedRun;
use crate::running::{Left, ProgramMachine, run_image};
use command_line::Reports;
use machine::Machine;
use origin_texts::calls_before;
use schedules::Progress;
use sim_run::profile_before;
use std::alloc::Global;
use std::io::Write;

/// The profile of a run up to before the step of a number, where one is given: the run is done for it once more, on a machine of its own.
fn profile_of<'a, P: Progress>(
    alloc: Global,
    run: &LoadedRun<'_>,
    stop: Option<u64>,
    progress: &mut P,
) -> Result<String, ProgramFault<'a>>
    requires range { IsRunnable run.now.schedule }
    requires stop { IfSome stop (IsPlaceOf run.now.schedule) }
    ensures ok { IfOk result (λ text. IsProfile run.now.table (fetches (events_to stop (run_of run.now)) (opening run.now.image))
        (string_bytes text)) }
    ensures err { IfErr result IsNoMemory }
{
    let mut machine: ProgramMachine = Machine::new(alloc, &run.image)?;
    let text = profile_before(
        alloc,
        &run.table,
        &mut machine,
        run.schedule,
        &run.input,
        stop,
        progress,
    )?;
    Ok(text)
}

/// The calls and returns of a run up to before the step of a number, where one is given: the run is done for them once more, on a machine
/// of its own.
fn calls_of<'a, P: Progress>(
    alloc: Global,
    run: &LoadedRun<'_>,
    stop: Option<u64>,
    progress: &mut P,
) -> Result<String, ProgramFault<'a>>
    requires range { IsRunnable run.now.schedule }
    requires stop { IfSome stop (IsPlaceOf run.now.schedule) }
    ensures ok { IfOk result (λ text. string_bytes text ≡ calls_of (run_of run.now) (events_to stop (run_of run.now))) }
    ensures err { IfErr result IsNoMemory }
{
    let mut machine: ProgramMachine = Machine::new(alloc, &run.image)?;
    let text = calls_before(
        alloc,
        &run.table,
        &mut machine,
        run.schedule,
        &run.input,
        stop,
        progress,
    )?;
    Ok(text)
}

/// Runs an image as `run_image` does, and writes its profile to a file of this name, which is made before.
fn profile_image<'a, F: Folder, O: Write + Drop>(
    alloc: Global,
    folder: &mut F,
    run: &LoadedRun<'a>,
    name: &'a str,
    stop: Option<u64>,
    output: O,
) -> Result<Left<O>, ProgramFault<'a>>
    requires range { IsRunnable run.now.schedule }
    requires stop { IfSome stop (IsPlaceOf run.now.schedule) }
    ensures ran { IfOk result (λ left. HasRun (run_of run.now) (events_to stop (run_of run.now)) left.0 left.1) }
    ensures sent { IfOk result (λ left. Sends (run_of run.now) (events_to stop (run_of run.now)) (O.contents output) (O.contents left.2)) }
    ensures files { OnOk result (Writes run.now.request (profile_alone (Some name.entry)) (run_of run.now)
        (events_to stop (run_of run.now)) (F.files folder.old) (F.files folder.new)) }
    ensures err { IfErr result (FailsToProfile run.now.request (Some name.entry) (run_of run.now) (events_to stop (run_of run.now))
        (F.files folder.old) (F.files folder.new)) }
{
    let file = make_file(folder, name)?;
    let left = run_image(alloc, folder, run, stop, output)?;
    let text = profile_of(alloc, run, stop, &mut folder.waiting(run.request.quiet))?;
    finish_file(folder, name, file, text.as_bytes())?;
    Ok(left)
}

/// Runs an image as `run_image` does, and writes its profile to the file `profile`, if one is named.
fn run_profiled<'a, F: Folder, O: Write + Drop>(
    alloc: Global,
    folder: &mut F,
    run: &LoadedRun<'a>,
    profile: Option<&'a str>,
    stop: Option<u64>,
    output: O,
) -> Result<Left<O>, ProgramFault<'a>>
    requires range { IsRunnable run.now.schedule }
    requires stop { IfSome stop (IsPlaceOf run.now.schedule) }
    ensures ran { IfOk result (λ left. HasRun (run_of run.now) (events_to stop (run_of run.now)) left.0 left.1) }
    ensures sent { IfOk result (λ left. Sends (run_of run.now) (events_to stop (run_of run.now)) (O.contents output) (O.contents left.2)) }
    ensures files { OnOk result (Writes run.now.request (profile_alone profile.entry) (run_of run.now)
        (events_to stop (run_of run.now)) (F.files folder.old) (F.files folder.new)) }
    ensures err { IfErr result (FailsToProfile run.now.request profile.entry (run_of run.now) (events_to stop (run_of run.now))
        (F.files folder.old) (F.files folder.new)) }
{
    match profile {
        Some(name) => profile_image(alloc, folder, run, name, stop, output),
        None => run_image(alloc, folder, run, stop, output),
    }
}

/// Runs an image as `run_profiled` does, and writes its calls and returns to a file of this name, which is made before.
fn call_image<'a, F: Folder, O: Write + Drop>(
    alloc: Global,
    folder: &mut F,
    run: &LoadedRun<'a>,
    name: &'a str,
    profile: Option<&'a str>,
    stop: Option<u64>,
    output: O,
) -> Result<Left<O>, ProgramFault<'a>>
    requires range { IsRunnable run.now.schedule }
    requires stop { IfSome stop (IsPlaceOf run.now.schedule) }
    ensures ran { IfOk result (λ left. HasRun (run_of run.now) (events_to stop (run_of run.now)) left.0 left.1) }
    ensures sent { IfOk result (λ left. Sends (run_of run.now) (events_to stop (run_of run.now)) (O.contents output) (O.contents left.2)) }
    ensures files { OnOk result (Writes run.now.request (record { profile = profile.entry; calls = Some name.entry }) (run_of run.now)
        (events_to stop (run_of run.now)) (F.files folder.old) (F.files folder.new)) }
    ensures err { IfErr result (FailsToTell run.now.request profile.entry (Some name.entry) (run_of run.now)
        (events_to stop (run_of run.now)) (F.files folder.old) (F.files folder.new)) }
{
    let file = make_file(folder, name)?;
    let left = run_profiled(alloc, folder, run, profile, stop, output)?;
    let text = calls_of(alloc, run, stop, &mut folder.waiting(run.request.quiet))?;
    finish_file(folder, name, file, text.as_bytes())?;
    Ok(left)
}

/// Runs an image as `run_image` does, and writes its reports, where files are named for them.
pub fn run_reported<'a, F: Folder, O: Write + Drop>(
    alloc: Global,
    folder: &mut F,
    run: &LoadedRun<'a>,
    reports: Reports<'a>,
    stop: Option<u64>,
    output: O,
) -> Result<Left<O>, ProgramFault<'a>>
    requires range { IsRunnable run.now.schedule }
    requires stop { IfSome stop (IsPlaceOf run.now.schedule) }
    ensures ran { IfOk result (λ left. HasRun (run_of run.now) (events_to stop (run_of run.now)) left.0 left.1) }
    ensures sent { IfOk result (λ left. Sends (run_of run.now) (events_to stop (run_of run.now)) (O.contents output) (O.contents left.2)) }
    ensures files { OnOk result (Writes run.now.request reports.entry (run_of run.now) (events_to stop (run_of run.now))
        (F.files folder.old) (F.files folder.new)) }
    ensures err { IfErr result (FailsToWriteRun run.now.request reports.entry (run_of run.now) (events_to stop (run_of run.now))
        (F.files folder.old) (F.files folder.new)) }
{
    match reports.calls {
        Some(name) => call_image(alloc, folder, run, name, reports.profile, stop, output),
        None => run_profiled(alloc, folder, run, reports.profile, stop, output),
    }
}
