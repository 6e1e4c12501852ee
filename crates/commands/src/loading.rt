//! The files of a run, read: its image, its labels, its policy, and what is typed.

ghost use Rattle.std.specs.Prelude.{◌≡◌, ◌≤◌, ◌<◌, IfOk, IfErr, IfSome, IsSomeAnd, Ok, Some, length, vec_len};
ghost use Rattle.command_line.specs.CommandLine.{AreInRange};
ghost use Rattle.policy_text.specs.Policy.{policy_of};
ghost use Rattle.policy_text.specs.Seen.{seen};
ghost use Rattle.schedules.specs.Schedule.{IsRunnable};
ghost use Rattle.commands.specs.Files.{bytes_of};
ghost use Rattle.commands.specs.Loading.{AreNumbered, AreRules, FailsToLoad, IsLoaded, IsPolicyFault, IsPolicyOf, IsPolicyTextFault};
ghost use Rattle.commands.specs.Loading.{IsReady, IsRulesFault, IsTyped, IsTypedFault, schedule_of};

use crate::fault::ProgramFault;
use crate::files::{Folder, MOST_TEXT, read_at_most, read_beginning, read_text};
use crate::programs::{LoadedProgram, load_program};
use command_line::RunRequest;
use image::Image;
use policy_text::{Policy, PolicyTextFault, read_policy};
use schedules::Schedule;
use std::alloc::Global;
use symbols::Symbols;

/// How many bytes the text of a policy has at most: 1 MiB.
const MOST_POLICY: u32 = 0x10_0000;

/// A policy, and the text that says it.
#[derive(Drop)]
pub struct Rules {
    pub text: Vec<u8>,
    pub policy: Policy,
}

/// A run that is asked for, and what its files hold.
#[derive(Drop)]
pub struct LoadedRun<'a> {
    pub request: RunRequest<'a>,
    pub schedule: Schedule,
    pub image: Image,
    pub table: Symbols,
    pub rules: Option<Rules>,
    pub input: Vec<u8>,
}

/// The schedule of a run, whose numbers lie in their ranges.
fn schedule_of(request: RunRequest<'_>) -> Schedule
    requires { AreInRange request }
    ensures some_step { 1 ≤ result.steps }
    ensures range { IsRunnable result }
    ensures value { result ≡ schedule_of request.entry }
{
    let steps = request.steps * request.times;
    let gap = request.gap;
    let tick = request.tick;
    Schedule { steps, gap, tick }
}

/// The text of a policy's file.
fn policy_bytes<'a, F: Folder>(
    alloc: Global,
    folder: &F,
    name: &'a str,
) -> Result<Vec<u8>, ProgramFault<'a>>
    ensures ok { IfOk result (λ text. IfSome (bytes_of name.entry.now (F.files folder.now)) (λ bytes. text.items ≡ bytes)) }
    ensures err { IfErr result (IsPolicyTextFault name.entry.now (F.files folder.now)) }
{
    match read_at_most(alloc, folder, name, MOST_POLICY)? {
        Some(text) => Ok(text),
        None => Err(ProgramFault::LongPolicy(name)),
    }
}

/// The policy that the text of a file says.
fn policy_of<'a>(
    alloc: Global,
    name: &'a str,
    text: &[u8],
    table: &Symbols,
) -> Result<Policy, ProgramFault<'a>>
    ensures said { IfOk result (IsPolicyOf text.now table.now) }
    ensures paired { IfOk result (λ policy. vec_len policy.rules ≡ vec_len policy.lines) }
    ensures err { IfErr result (IsPolicyFault name.entry.now text.now table.now) }
{
    match read_policy(alloc, text, table) {
        Ok(policy) => Ok(policy),
        Err(PolicyTextFault::Line { line, code }) => Err(ProgramFault::Policy(name, line, code)),
        Err(PolicyTextFault::Memory) => Err(ProgramFault::Memory),
    }
}

/// The rules of the file of a name, which may name these labels.
pub(crate) fn named_rules<'a, F: Folder>(
    alloc: Global,
    folder: &F,
    name: &'a str,
    table: &Symbols,
) -> Result<Rules, ProgramFault<'a>>
    ensures rules { IfOk result (λ rules. AreRules (Some name.entry) table.now (F.files folder.now) (Some rules)) }
    ensures numbered { IfOk result AreNumbered }
    ensures err { IfErr result (IsRulesFault name.entry.now table.now (F.files folder.now)) }
{
    let text = policy_bytes(alloc, folder, name)?;
    let policy = policy_of(alloc, name, &text, table)?;
    Ok(Rules { text, policy })
}

/// The rules of the file `policy`, which may name these labels, or none where no file is named.
fn rules_of<'a, F: Folder>(
    alloc: Global,
    folder: &F,
    policy: Option<&'a str>,
    table: &Symbols,
) -> Result<Option<Rules>, ProgramFault<'a>>
    ensures rules { IfOk result (AreRules policy.entry table.now (F.files folder.now)) }
    ensures numbered { IfOk result (λ rules. IfSome rules AreNumbered) }
    ensures err { IfErr result (λ fault. IsSomeAnd policy.entry (λ policy.
        IsRulesFault policy.now table.now (F.files folder.now) fault)) }
{
    match policy {
        Some(name) => {
            let rules = named_rules(alloc, folder, name, table)?;
            Ok(Some(rules))
        }
        None => Ok(None),
    }
}

/// The bytes of the file `input` that a run by a schedule has room for, or none where no file is named. Where there is room for more than
/// 256 MiB, a file that has more is refused.
fn typed<'a, F: Folder>(
    alloc: Global,
    folder: &F,
    schedule: Schedule,
    input: Option<&'a str>,
) -> Result<Vec<u8>, ProgramFault<'a>>
    requires some_step { 1 ≤ schedule.steps }
    requires range { IsRunnable schedule }
    ensures ok { IfOk result (λ typed. IsTyped schedule input.entry (F.files folder.now) typed.items) }
    ensures err { IfErr result (λ fault. IsSomeAnd input.entry (λ input. IsTypedFault schedule input.now (F.files folder.now) fault)) }
{
    let most = schedule.most_bytes();
    match input {
        Some(file) if most <= u64::from(MOST_TEXT) => read_beginning(alloc, folder, file, most),
        Some(file) => read_text(alloc, folder, file),
        None => Ok(Vec::new(alloc)),
    }
}

/// Reads the files of a run: its image or the text that is assembled into it, then its labels, its policy, and of what is typed as
/// much as its schedule has room for.
pub fn load<'a, F: Folder>(
    alloc: Global,
    folder: &F,
    request: RunRequest<'a>,
) -> Result<LoadedRun<'a>, ProgramFault<'a>>
    requires { AreInRange request }
    ensures loaded { IfOk result (IsLoaded request.entry (F.files folder.now)) }
    ensures ready { IfOk result IsReady }
    ensures err { IfErr result (FailsToLoad request.entry (F.files folder.now)) }
{
    let schedule = schedule_of(request);
    let program = load_program(alloc, folder, request.image, request.symbols, request.lines)?;
    let LoadedProgram { image, table } = program;
    let rules = rules_of(alloc, folder, request.policy, &table)?;
    let input = typed(alloc, folder, schedule, request.input)?;
    Ok(LoadedRun {
        request,
        schedule,
        image,
        table,
        rules,
        input,
    })
}
