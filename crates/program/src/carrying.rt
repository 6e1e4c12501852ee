//! A command line carried out, and the status that it ends with.

ghost use Rattle.command_line.specs.CommandLine.{AreInRange, IsSound};
ghost use Rattle.std.specs.Prelude.{◌≡◌, ◌≤◌, ◌<◌, ◌-◌, ◌^◌, ◌⊎◌, ◌++◌, ℕ, Bool, List, [], Some, false, true};
ghost use Rattle.std.specs.Prelude.{codes, map, IfErr, IfOk, OnOk};
ghost use Rattle.std.specs.Io.KnownBytes.{Appends};
ghost use Rattle.image.specs.Devices.{Counts};
ghost use Rattle.sim_run.specs.Verdict.{status_of as status_of_run};
ghost use Rattle.program.specs.Carrying.{FailsAs, FailsToCarry, HasStatus, IsCarriedOut, IsNoPlanFault, IsSpared, IsRefused};
ghost use Rattle.program.specs.Carrying.{asks_version, status_of_done, version_line};
ghost use Rattle.program.specs.Telling.{Tells, done_text, end_text, is_quiet, same_file};
ghost use Rattle.commands.specs.FaultTexts.{fault_text};
ghost use Rattle.commands.specs.declared.fault.ProgramFault.{ProgramFault};
ghost use Rattle.commands.specs.Files.{IsUnsent, changed};
ghost use Rattle.commands.specs.RunFaults.{FailsToRun};
ghost use Rattle.commands.specs.Overwriting.{Overwrites};
ghost use Rattle.commands.specs.Watching.{RunsFile};

use crate::debugging::debug_file;
use command_line::{Plan, PlanFault, Reports, RunRequest, plan};
use commands::{
    Ended, Folder, ProgramFault, assemble_file, audit_file, image_file, list_file, load,
    overwrites, prove_file, put_fault, run_first, run_loaded, show_bounds, show_word, stop_at,
};
use image::{DeviceFailed, Sink, write_all};
use sim_run::{StopAt, verdict};
use std::alloc::Global;
use std::io::{Read, Write};

/// The status of a command line that was refused, or asks for help.
const REFUSED: u8 = 2;

/// The status of another fault.
pub const FAULT: u8 = 3;

/// What is told of a command that would write a file over another of its own.
const SAME_FILE: &str = "error: a file that is written cannot be another file of the command\n";

/// What `--version` and `-V` write.
const VERSION: &str = "cherisim 0.1.0\n";

/// What became of a command that was carried out.
#[derive(Debug, Drop)]
enum Done {
    /// All of it.
    All,
    /// A run that ended so, and whether an object tells it.
    Run(Ended, bool),
    /// An audit that found so many parts of rules that are broken.
    Audit(usize),
    /// A proof, and whether it was found.
    Proof(bool),
}

/// What a command line ends with.
#[derive(Debug, Drop)]
pub struct Answer<O> {
    /// The status.
    pub status: u8,
    /// The output, where all that was to be written to it is written.
    pub output: Option<O>,
}

/// Writes the line of how a run ended, and where.
fn put_end<E: Sink>(errors: &mut E, line: &str, place: &str) -> Result<(), DeviceFailed>
    requires { E.failed errors.old < 2 ^ 64 - 1 }
    ensures ok { OnOk result (Appends (E.held errors.old) (E.held errors.new) (line.now ++ codes "\n" ++ place.now)) }
    ensures count { Counts (E.failed errors.old) (E.failed errors.new) result }
{
    write_all(errors, line.as_bytes())?;
    write_all(errors, b"\n")?;
    write_all(errors, place.as_bytes())
}

/// Tells how a run ended, and where, by lines or by the object that says so; and answers the status.
fn tell_end<E: Sink>(errors: &mut E, json: bool, ended: &Ended) -> u8
    requires { E.failed errors.old < 2 ^ 64 - 1 }
    ensures status { result ≡ status_of_run ended.now.end }
    ensures told { Tells (E.failed errors.old) (E.failed errors.new) (E.held errors.old) (E.held errors.new) (end_text json ended.now) }
{
    let (status, line) = verdict(ended.end);
    if json {
        let _ = write_all(errors, ended.place.as_bytes());
    } else if status != 0 {
        let _ = put_end(errors, line.as_str(), ended.place.as_str());
    }
    status
}

/// Tells a fault, by its first line alone or with the lines that help, and answers the status.
pub fn tell_fault<E: Sink>(errors: &mut E, alone: bool, fault: &ProgramFault<'_>) -> u8
    requires { E.failed errors.old < 2 ^ 64 - 1 }
    ensures status { result ≡ 3 }
    ensures told { Tells (E.failed errors.old) (E.failed errors.new) (E.held errors.old) (E.held errors.new) (fault_text alone fault.now) }
{
    let _ = put_fault(errors, alone, fault);
    FAULT
}

/// Whether a plan leaves out what is told besides.
fn is_quiet(plan: Plan<'_>) -> bool
    ensures { result ≡ is_quiet plan.entry }
{
    match plan {
        Plan::Asm { quiet, .. }
        | Plan::Image { quiet, .. }
        | Plan::Dis { quiet, .. }
        | Plan::Debug { quiet, .. } => quiet,
        Plan::Go { request, .. } | Plan::Run { request, .. } | Plan::Audit(request) => {
            request.quiet
        }
        Plan::Prove(request) => request.quiet,
        Plan::Bounds { .. } | Plan::Word { .. } | Plan::First => false,
    }
}

/// Runs the image of a file as it is asked for. It ends before the trap that it is to stop `at`, if any. Its `reports` are written, where
/// files are named for them. Hands the output back.
fn run_file<'a, F: Folder, O: Write + Drop>(
    alloc: Global,
    folder: &mut F,
    request: RunRequest<'a>,
    reports: Reports<'a>,
    at: Option<StopAt>,
    output: O,
) -> Result<(Ended, O), ProgramFault<'a>>
    requires { AreInRange request }
    ensures ok { IfOk result (λ done. RunsFile request.entry reports.entry at done.0
        (changed (O.contents output) (O.contents done.1) (F.files folder.old) (F.files folder.new))) }
    ensures err { IfErr result (FailsToRun request.entry reports.entry at (F.files folder.old) (F.files folder.new)) }
{
    match load(alloc, folder, request) {
        Ok(run) => run_loaded(alloc, folder, &run, reports, at, output),
        Err(fault) => Err(fault),
    }
}

/// Does what the plan says, and hands the output back.
fn carry_out<'a, F: Folder, I: Read + Drop, O: Write + Drop>(
    alloc: Global,
    folder: &mut F,
    input: I,
    output: O,
    plan: Plan<'a>,
) -> Result<(Done, O), ProgramFault<'a>>
    requires { IsSound plan }
    ensures ok { IfOk result (λ done. HasStatus plan.entry (I.remaining input)
        (changed (O.contents output) (O.contents done.1) (F.files folder.old) (F.files folder.new))
        (done_text done.0) (status_of_done done.0)) }
    ensures err { IfErr result (FailsAs plan.entry (F.files folder.old) (F.files folder.new)) }
{
    match plan {
        Plan::First => {
            let (ended, output) = run_first(alloc, output)?;
            Ok((Done::Run(ended, false), output))
        }
        Plan::Go {
            request,
            why,
            reports,
        } => {
            let (ended, output) = run_file(alloc, folder, request, reports, stop_at(why), output)?;
            Ok((Done::Run(ended, request.json), output))
        }
        Plan::Run {
            request,
            why,
            reports,
        } => {
            let (ended, output) = run_file(alloc, folder, request, reports, stop_at(why), output)?;
            Ok((Done::Run(ended, request.json), output))
        }
        Plan::Audit(request) => {
            let (count, output) = audit_file(alloc, folder, request, output)?;
            Ok((Done::Audit(count), output))
        }
        Plan::Prove(request) => {
            let (shown, output) = prove_file(alloc, folder, request, output)?;
            Ok((Done::Proof(shown), output))
        }
        Plan::Asm {
            input: text,
            output: made,
            symbols,
            lines,
            ..
        } => {
            assemble_file(alloc, folder, text, made, symbols, lines)?;
            Ok((Done::All, output))
        }
        Plan::Image {
            flat,
            output: made,
            layout,
            ..
        } => {
            image_file(alloc, folder, flat, made, layout)?;
            Ok((Done::All, output))
        }
        Plan::Dis {
            image,
            symbols,
            header,
            ..
        } => {
            let output = list_file(alloc, folder, image, symbols, header, output)?;
            Ok((Done::All, output))
        }
        Plan::Debug {
            image,
            symbols,
            lines,
            input: typed,
            gap,
            tick,
            ..
        } => {
            let output = debug_file(
                alloc, folder, image, symbols, lines, typed, gap, tick, input, output,
            )?;
            Ok((Done::All, output))
        }
        Plan::Bounds {
            base,
            length,
            address,
            json,
        } => {
            let output = show_bounds(alloc, base, length, address, json, output)?;
            Ok((Done::All, output))
        }
        Plan::Word {
            high,
            low,
            memory,
            json,
        } => {
            let output = show_word(alloc, high, low, memory, json, output)?;
            Ok((Done::All, output))
        }
    }
}

/// Tells what became of a command that was carried out, and answers the status.
fn tell_done<E: Sink>(errors: &mut E, done: &Done) -> u8
    requires { E.failed errors.old < 2 ^ 64 - 1 }
    ensures status { result ≡ status_of_done done.now }
    ensures told { Tells (E.failed errors.old) (E.failed errors.new) (E.held errors.old) (E.held errors.new) (done_text done.now) }
{
    match done {
        Done::All | Done::Audit(0) | Done::Proof(true) => 0,
        Done::Run(ended, json) => tell_end(errors, *json, ended),
        Done::Audit(_) | Done::Proof(false) => 1,
    }
}

/// Does what the plan says, and answers the status and the output.
fn carry<'a, F: Folder, I: Read + Drop, O: Write + Drop, E: Sink>(
    alloc: Global,
    folder: &mut F,
    input: I,
    output: O,
    errors: &mut E,
    plan: Plan<'a>,
) -> Answer<O>
    requires sound { IsSound plan }
    requires failed { E.failed errors.old < 2 ^ 64 - 1 }
    ensures done { result.status ≤ 1 → (out : O) × (told : List ℕ) × (result.output ≡ Some out)
        × HasStatus plan.entry (I.remaining input)
        (changed (O.contents output) (O.contents out) (F.files folder.old) (F.files folder.new)) told result.status
        × Tells (E.failed errors.old) (E.failed errors.new) (E.held errors.old) (E.held errors.new) told }
    ensures fault { result.status ≡ 3
        → (fault : ProgramFault) × FailsAs plan.entry (F.files folder.old) (F.files folder.new) fault
        × Tells (E.failed errors.old) (E.failed errors.new) (E.held errors.old) (E.held errors.new)
        (fault_text (is_quiet plan.entry) fault) }
    ensures otherwise { (result.status ≤ 1) ⊎ (result.status ≡ 3) }
{
    match carry_out(alloc, folder, input, output, plan) {
        Ok((done, output)) => Answer {
            status: tell_done(errors, &done),
            output: Some(output),
        },
        Err(fault) => Answer {
            status: tell_fault(errors, is_quiet(plan), &fault),
            output: None,
        },
    }
}

/// Does what the plan says, unless a file would be written over another of the command, and answers the status and the output.
fn carry_apart<'a, F: Folder, I: Read + Drop, O: Write + Drop, E: Sink>(
    alloc: Global,
    folder: &mut F,
    input: I,
    output: O,
    errors: &mut E,
    plan: Plan<'a>,
) -> Answer<O>
    requires sound { IsSound plan }
    requires failed { E.failed errors.old < 2 ^ 64 - 1 }
    ensures done { result.status ≤ 1 → (out : O) × (told : List ℕ) × (result.output ≡ Some out)
        × HasStatus plan.entry (I.remaining input)
        (changed (O.contents output) (O.contents out) (F.files folder.old) (F.files folder.new)) told result.status
        × Tells (E.failed errors.old) (E.failed errors.new) (E.held errors.old) (E.held errors.new) told }
    ensures apart { result.status ≤ 1 → Overwrites (F.same folder.old) plan.entry false }
    ensures refused { result.status ≡ 2
        → Overwrites (F.same folder.old) plan.entry true × (F.files folder.new ≡ F.files folder.old)
        × Tells (E.failed errors.old) (E.failed errors.new) (E.held errors.old) (E.held errors.new) same_file }
    ensures fault { result.status ≡ 3 → Overwrites (F.same folder.old) plan.entry false
        × (fault : ProgramFault) × FailsAs plan.entry (F.files folder.old) (F.files folder.new) fault
        × Tells (E.failed errors.old) (E.failed errors.new) (E.held errors.old) (E.held errors.new)
        (fault_text (is_quiet plan.entry) fault) }
    ensures most { result.status ≤ 3 }
{
    if overwrites(folder, plan) {
        return Answer {
            status: refuse(errors, SAME_FILE),
            output: None,
        };
    }
    carry(alloc, folder, input, output, errors, plan)
}

/// Whether the words ask for the version alone.
fn asks_version(words: &[&str]) -> bool
    ensures { result ≡ asks_version (map (λ word. word.now) words.entry.now) }
{
    words.len() == 2 && (words[1] == "--version" || words[1] == "-V")
}

/// Writes a text that was asked for, and answers this status where it could be written.
fn show<O: Write + Drop, E: Sink>(
    mut output: O,
    errors: &mut E,
    text: &str,
    status: u8,
) -> Answer<O>
    requires { E.failed errors.old < 2 ^ 64 - 1 }
    ensures status { (result.status ≡ status) ⊎ (result.status ≡ 3) }
    ensures written { (result.status ≡ 3 → ⊥) → (out : O) × (result.output ≡ Some out)
        × Appends (O.contents output) (O.contents out) text.now
        × Tells (E.failed errors.old) (E.failed errors.new) (E.held errors.old) (E.held errors.new) [] }
    ensures fault { result.status ≡ 3 → (status ≡ 3 → ⊥) → (fault : ProgramFault) × IsUnsent fault
        × Tells (E.failed errors.old) (E.failed errors.new) (E.held errors.old) (E.held errors.new) (fault_text false fault) }
{
    match output.write_all(text.as_bytes()) {
        Ok(()) => Answer {
            status,
            output: Some(output),
        },
        Err(_) => Answer {
            status: tell_fault(errors, false, &ProgramFault::Write(DeviceFailed)),
            output: None,
        },
    }
}

/// Tells why a command line is refused, and answers the status.
pub fn refuse<E: Sink>(errors: &mut E, text: &str) -> u8
    requires { E.failed errors.old < 2 ^ 64 - 1 }
    ensures status { result ≡ 2 }
    ensures told { Tells (E.failed errors.old) (E.failed errors.new) (E.held errors.old) (E.held errors.new) text.now }
{
    let _ = write_all(errors, text.as_bytes());
    REFUSED
}

/// Tells why the words are no plan, or gives the help that they ask for, and answers the status.
fn tell_no_plan<O: Write + Drop, E: Sink>(output: O, errors: &mut E, fault: PlanFault) -> Answer<O>
    requires { E.failed errors.old < 2 ^ 64 - 1 }
    ensures memory { fault ≡ PlanFault.Memory → result.status ≡ 3 }
    ensures fault { result.status ≡ 3 → (told : ProgramFault) × IsNoPlanFault fault told
        × Tells (E.failed errors.old) (E.failed errors.new) (E.held errors.old) (E.held errors.new) (fault_text false told) }
    ensures otherwise { (result.status ≡ 2) ⊎ (result.status ≡ 3) }
{
    match fault {
        PlanFault::Memory => Answer {
            status: tell_fault(errors, false, &ProgramFault::Memory),
            output: None,
        },
        PlanFault::Help(text) => show(output, errors, &text, REFUSED),
        PlanFault::Refused(text) => Answer {
            status: refuse(errors, &text),
            output: None,
        },
    }
}

/// Reads the words of a command line, the program's name first, and does what they ask: with files in `folder`, what is typed
/// from `input`, what is sent, listed, answered or helped with to `output`, and what is told of refusals, faults and ends to `errors`.
///
/// Answers the status: 0 for what was done, the version shown among it, and of a run where the machine halted with 0; 1 for a run that
/// ended otherwise, an audit that found a part broken and a proof that wasn't found; 2 for a command line that was refused or asks for
/// help, and where a file would be written over another of the command; 3 for another fault. At 0 and 1 the output comes with it, which
/// has grown by exactly what was asked for. Unless a call of `errors` failed, that has grown by exactly what is told.
pub fn status_of<F: Folder, I: Read + Drop, O: Write + Drop, E: Sink>(
    alloc: Global,
    folder: &mut F,
    input: I,
    output: O,
    errors: &mut E,
    words: &[&str],
) -> Answer<O>
    requires { E.failed errors.old < 2 ^ 64 - 1 }
    ensures version { asks_version (map (λ word. word.now) words.entry.now) ≡ true
        → ((result.status ≡ 0) × (out : O) × (result.output ≡ Some out) × Appends (O.contents output) (O.contents out) version_line
        × Tells (E.failed errors.old) (E.failed errors.new) (E.held errors.old) (E.held errors.new) [])
        ⊎ (result.status ≡ 3) }
    // At 0 and 1 a plan that the words are was carried out wholly.
    ensures done { asks_version (map (λ word. word.now) words.entry.now) ≡ false → result.status ≤ 1
        → (out : O) × (told : List ℕ) × (result.output ≡ Some out)
        × IsCarriedOut (map (λ word. word.now) words.entry.now) (F.same folder.old) (I.remaining input)
        (changed (O.contents output) (O.contents out) (F.files folder.old) (F.files folder.new)) told result.status
        × Tells (E.failed errors.old) (E.failed errors.new) (E.held errors.old) (E.held errors.new) told }
    // At 2 clap doesn't take the words, or finds no sound plan in them, or a file would be written over another of the command.
    ensures refused { result.status ≡ 2 → IsRefused (map (λ word. word.now) words.entry.now)
        ⊎ (IsSpared (map (λ word. word.now) words.entry.now) (F.same folder.old) (F.files folder.old) (F.files folder.new)
        × Tells (E.failed errors.old) (E.failed errors.new) (E.held errors.old) (E.held errors.new) same_file) }
    // At 3 the version or the help can't be written, there is no memory for the words, or their plan fails.
    ensures fault { result.status ≡ 3 → (fault : ProgramFault) × (quiet : Bool)
        × FailsToCarry (map (λ word. word.now) words.entry.now) (F.same folder.old) (F.files folder.old) (F.files folder.new) quiet fault
        × Tells (E.failed errors.old) (E.failed errors.new) (E.held errors.old) (E.held errors.new) (fault_text quiet fault) }
    ensures most { result.status ≤ 3 }
{
    if asks_version(words) {
        return show(output, errors, VERSION, 0);
    }
    match plan(alloc, words) {
        Ok(plan) => carry_apart(alloc, folder, input, output, errors, plan),
        Err(fault) => tell_no_plan(output, errors, fault),
    }
}
