//! The plan that a command line asks for.

ghost use Rattle.std.specs.Prelude.{◌≡◌, List, [], IsTrue, bytes_eq, Option, IfOk, IfErr, OnOk, Some, map, option_map, codes, None};
ghost use Rattle.std.specs.Prelude.{if◌then◌else◌, ◌∷◌};
ghost use Rattle.std.specs.List.{list_all};
ghost use Rattle.clap.specs.Words.{first_of, found_of, rows_of, kind_of, subcommand_rows_of};
ghost use Rattle.clap.specs.declared.error.kind.ErrorKind.{ErrorKind};
ghost use Rattle.command_line.specs.CommandLine.{found_in, IsSound, IsTaken, IsPlanOf, NoPlanFits, asks_all, may_stand, line_of, entry_of};
ghost use Rattle.command_line.specs.CommandLine.{asks_why, names_ends};
ghost use Rattle.command_line.specs.CommandLine.{Said, AreFit, AreSaid, HasAll, Says, lines_named, commands, files_found, NothingStands};
ghost use Rattle.command_line.specs.CommandLine.{are_apart, are_two, have_one_name, is_file, is_input, is_written, run_lines};
ghost use Rattle.command_line.specs.CommandLine.{Amount, Used, name_of, said, said_of_lines};
ghost use Rattle.command_line.specs.declared.fault.PlanFault.TheVariants.{Memory};

use crate::fault::PlanFault;
use crate::layout::Layout;
use crate::misfit::{MISSING, Misfit, misfit_text};
use crate::plans::{Plan, ProveRequest, Reports, RunRequest};
use crate::program::{alone, program};
use crate::table::*;
use crate::values::{
    count, ends, flag, is_fit, is_used, its_count, its_number, number, operand, start, text,
};
use clap::error::ErrorKind;
use clap::{ArgMatches, Command, Error};
use std::alloc::{AllocError, Global};

/// A file would be written over another of the command.
const SAME_FILE: &str = "a file that is written cannot be another file of the command";

/// Standard input would be read for two files.
const READ_TWICE: &str = "- is standard input, which is read for one file alone";

/// A trace is described that isn't asked for.
const UNTRACED: &str = "--trace-from and --trace-last go with --trace";

/// A run would have two reasons to stop.
const TWO_STOPS: &str = "--policy does not go with --why";

/// An address is to be placed against no bounds.
const UNPLACED: &str = "--address goes with BASE and LENGTH";

/// What is said where an argument is not what it takes. Of `bounds` a number alone is LENGTH, with which no address goes.
fn text_told(found: &ArgMatches<'_>, line: &Argument) -> &'static str {
    if is_used(found, "LENGTH") {
        return line.4.2;
    }
    match line.0 {
        "BASE" => LENGTH.4.2,
        "address" => UNPLACED,
        _ => line.4.2,
    }
}

/// What is wrong with an argument that is not what it takes.
fn misfit_of<'a>(found: &ArgMatches<'a>, line: &Argument) -> Misfit<'a> {
    match (line.2, text(found, line.0)) {
        (Takes::Count(least, most) | Takes::Start(least, most), Some(value)) => Misfit::Value {
            id: line.0,
            name: line.4.0,
            value,
            least,
            most,
        },
        _ => Misfit::Told(text_told(found, line)),
    }
}

/// Whether something that it takes was found for each argument.
fn all_fit<'a>(found: &ArgMatches<'a>, lines: &[Argument]) -> Result<(), Misfit<'a>>
    ensures ok { IfOk result (λ _. AreFit (rows_of (found_of found.now)) (map line_of lines.now)) }
    ensures err { IfErr result (λ _. (saids : List Said) → AreSaid (rows_of (found_of found.now)) (map line_of lines.now) saids → ⊥) }
{
    match lines {
        [] => Ok(()),
        [line, rest @ ..] => {
            if is_fit(found, line) {
                all_fit(found, rest)
            } else {
                Err(misfit_of(found, line))
            }
        }
    }
}

/// Whether ends are explained.
fn asks_why(found: &ArgMatches<'_>) -> bool
    ensures { result ≡ asks_why (rows_of (found_of found.now)) }
{
    ends(found, "why").is_some()
}

/// Whether the arguments that are used go together.
fn may_stand<'a>(found: &ArgMatches<'a>) -> Result<(), Misfit<'a>>
    ensures ok { IfOk result (λ _. IsTrue (may_stand (rows_of (found_of found.now)))) }
    ensures err { IfErr result (λ _. IsTrue (may_stand (rows_of (found_of found.now))) → ⊥) }
{
    let from_or_last = is_used(found, "trace-from") || is_used(found, "trace-last");
    if from_or_last && !is_used(found, "trace") {
        return Err(Misfit::Told(UNTRACED));
    }
    if is_used(found, "policy") && asks_why(found) {
        return Err(Misfit::Told(TWO_STOPS));
    }
    if is_used(found, "address") && !is_used(found, "LENGTH") {
        return Err(Misfit::Told(UNPLACED));
    }
    Ok(())
}

/// Whether an argument names a file that is written.
fn is_written(line: &Argument) -> bool
    ensures { result ≡ is_written line.now.2 }
{
    match line.2 {
        Takes::Written => true,
        _ => false,
    }
}

/// The file that was found for an argument.
fn file_found<'a>(found: &ArgMatches<'a>, line: &Argument) -> Option<&'a str>
    ensures { option_map (λ s. s.now) result
        ≡ (if is_file line.now.2 then first_of line.now.0.now (rows_of (found_of found.now)) else None) }
{
    match line.2 {
        Takes::Read | Takes::ReadBeside | Takes::Written => text(found, line.0),
        _ => None,
    }
}

/// Whether a file is standard input.
fn is_input(name: Option<&str>) -> bool
    ensures { result ≡ is_input (option_map (λ s. s.now) name.entry) }
{
    have_one_name(name, Some("-"))
}

/// Whether two files have one name.
fn have_one_name(one: Option<&str>, other: Option<&str>) -> bool
    ensures { result ≡ have_one_name (option_map (λ s. s.now) one.entry) (option_map (λ s. s.now) other.entry) }
{
    match (one, other) {
        (Some(one), Some(other)) => one == other,
        _ => false,
    }
}

/// Whether a file is none of those of other arguments, if it or they are written or it is standard input.
fn is_apart(found: &ArgMatches<'_>, written: bool, name: Option<&str>, others: &[Argument]) -> bool
    ensures { result ≡ list_all (are_two (written, option_map (λ s. s.now) name.entry))
        (files_found (rows_of (found_of found.now)) (map line_of others.now)) }
{
    match others {
        [] => true,
        [other, rest @ ..] => {
            let alone = (written || is_written(other)) || is_input(name);
            if alone && have_one_name(name, file_found(found, other)) {
                false
            } else {
                is_apart(found, written, name, rest)
            }
        }
    }
}

/// Whether no file is written over another of the command, and standard input is read for one file at most.
fn are_apart(found: &ArgMatches<'_>, lines: &[Argument]) -> bool
    ensures { result ≡ are_apart (files_found (rows_of (found_of found.now)) (map line_of lines.now)) }
{
    match lines {
        [] => true,
        [line, rest @ ..] => {
            let name = file_found(found, line);
            is_apart(found, is_written(line), name, rest) && are_apart(found, rest)
        }
    }
}

/// How many files are standard input.
fn inputs(found: &ArgMatches<'_>, lines: &[Argument]) -> usize {
    lines
        .iter()
        .filter(|line| !is_written(line) && is_input(file_found(found, line)))
        .count()
}

/// What is said of files that are not apart.
fn shared<'a>(found: &ArgMatches<'a>, lines: &[Argument]) -> Misfit<'a> {
    Misfit::Told(if inputs(found, lines) > 1 {
        READ_TWICE
    } else {
        SAME_FILE
    })
}

/// Whether what was found of these arguments is a plan.
fn check<'a>(found: &ArgMatches<'a>, lines: &[Argument]) -> Result<(), Misfit<'a>>
    ensures fit { IfOk result (λ _. AreFit (rows_of (found_of found.now)) (map line_of lines.now)) }
    ensures stand { IfOk result (λ _. IsTrue (may_stand (rows_of (found_of found.now)))) }
    ensures apart { IfOk result (λ _. IsTrue (are_apart (files_found (rows_of (found_of found.now)) (map line_of lines.now)))) }
    ensures err { IfErr result (λ _. NothingStands (rows_of (found_of found.now)) (map line_of lines.now)) }
{
    all_fit(found, lines)?;
    may_stand(found)?;
    if are_apart(found, lines) {
        Ok(())
    } else {
        Err(shared(found, lines))
    }
}

#[tactic(auto, unfolding(crate::specs::CommandLine::commands))]
fn asm_plan<'a>(found: &ArgMatches<'a>) -> Plan<'a>
    requires { HasAll (codes "asm") (rows_of (found_of found.now)) }
    ensures { Says (codes "asm") (rows_of (found_of found.now)) result }
{
    Plan::Asm {
        input: operand(found, "IN"),
        output: operand(found, "OUT"),
        symbols: text(found, "symbols"),
        lines: text(found, "lines"),
        quiet: flag(found, "quiet"),
    }
}

#[tactic(auto, unfolding(crate::specs::CommandLine::commands))]
fn image_plan<'a>(found: &ArgMatches<'a>) -> Plan<'a>
    requires { HasAll (codes "image") (rows_of (found_of found.now)) }
    ensures { Says (codes "image") (rows_of (found_of found.now)) result }
{
    Plan::Image {
        flat: operand(found, "FLAT"),
        output: operand(found, "OUT"),
        layout: Layout {
            at: number(found, "at"),
            entry: number(found, "entry"),
            pages: number(found, "pages"),
            mode: number(found, "mode"),
            flat_elf: flag(found, "flat-elf"),
        },
        quiet: flag(found, "quiet"),
    }
}

/// The run of this file, of so many steps so many times, that the arguments ask for which `go`, `run` and `audit` share.
fn run_request<'a>(
    found: &ArgMatches<'a>,
    image: &'a str,
    steps: u64,
    times: u64,
    json: bool,
) -> RunRequest<'a>
    requires { AreFit (rows_of (found_of found.now)) run_lines }
    ensures said { AreSaid (rows_of (found_of found.now)) run_lines (said_of_lines result []) }
    ensures image { result.image ≡ image.entry }
    ensures steps { (result.steps ≡ steps) × (result.times ≡ times) }
    ensures json { result.json ≡ json }
{
    RunRequest {
        image,
        steps,
        times,
        gap: its_count(found, "gap"),
        tick: its_count(found, "tick"),
        input: text(found, "input"),
        quiet: flag(found, "quiet"),
        json,
        trace: text(found, "trace"),
        trace_from: start(found, &TRACE_FROM),
        trace_last: count(found, "trace-last"),
        policy: text(found, "policy"),
        symbols: text(found, "symbols"),
        lines: text(found, "lines"),
    }
}

#[tactic(auto, unfolding(crate::specs::CommandLine::commands))]
fn go_plan<'a>(found: &ArgMatches<'a>) -> Plan<'a>
    requires { HasAll (codes "go") (rows_of (found_of found.now)) }
    ensures { Says (codes "go") (rows_of (found_of found.now)) result }
{
    Plan::Go {
        request: run_request(
            found,
            operand(found, "FILE"),
            its_count(found, "steps"),
            its_count(found, "times"),
            flag(found, "json"),
        ),
        why: ends(found, "why"),
        reports: Reports {
            profile: text(found, "profile"),
            calls: text(found, "calls"),
        },
    }
}

#[tactic(auto, unfolding(crate::specs::CommandLine::commands))]
fn run_plan<'a>(found: &ArgMatches<'a>) -> Plan<'a>
    requires { HasAll (codes "run") (rows_of (found_of found.now)) }
    ensures { Says (codes "run") (rows_of (found_of found.now)) result }
{
    Plan::Run {
        request: run_request(
            found,
            operand(found, "IMAGE"),
            its_count(found, "STEPS"),
            its_count(found, "times"),
            flag(found, "json"),
        ),
        why: ends(found, "why"),
        reports: Reports {
            profile: text(found, "profile"),
            calls: text(found, "calls"),
        },
    }
}

#[tactic(auto, unfolding(crate::specs::CommandLine::commands))]
fn audit_plan<'a>(found: &ArgMatches<'a>) -> Plan<'a>
    requires { HasAll (codes "audit") (rows_of (found_of found.now)) }
    ensures { Says (codes "audit") (rows_of (found_of found.now)) result }
{
    let json = flag(found, "json");
    Plan::Audit(run_request(
        found,
        operand(found, "IMAGE"),
        its_count(found, "STEPS"),
        its_count(found, "times"),
        json,
    ))
}

#[tactic(auto, unfolding(crate::specs::CommandLine::commands))]
fn prove_plan<'a>(found: &ArgMatches<'a>) -> Plan<'a>
    requires { HasAll (codes "prove") (rows_of (found_of found.now)) }
    ensures { Says (codes "prove") (rows_of (found_of found.now)) result }
{
    Plan::Prove(ProveRequest {
        image: operand(found, "IMAGE"),
        policy: operand(found, "policy"),
        symbols: text(found, "symbols"),
        lines: text(found, "lines"),
        steps: its_count(found, "steps"),
        quiet: flag(found, "quiet"),
    })
}

#[tactic(auto, unfolding(crate::specs::CommandLine::commands))]
fn dis_plan<'a>(found: &ArgMatches<'a>) -> Plan<'a>
    requires { HasAll (codes "dis") (rows_of (found_of found.now)) }
    ensures { Says (codes "dis") (rows_of (found_of found.now)) result }
{
    Plan::Dis {
        image: operand(found, "IMAGE"),
        symbols: text(found, "symbols"),
        header: flag(found, "header"),
        quiet: flag(found, "quiet"),
    }
}

#[tactic(auto, unfolding(crate::specs::CommandLine::commands))]
fn debug_plan<'a>(found: &ArgMatches<'a>) -> Plan<'a>
    requires { HasAll (codes "debug") (rows_of (found_of found.now)) }
    ensures { Says (codes "debug") (rows_of (found_of found.now)) result }
{
    Plan::Debug {
        image: operand(found, "IMAGE"),
        symbols: text(found, "symbols"),
        lines: text(found, "lines"),
        input: text(found, "input"),
        gap: count(found, "gap"),
        tick: count(found, "tick"),
        quiet: flag(found, "quiet"),
    }
}

/// The plan of these numbers: the second is the length, or the first where there is no second.
fn bounds_of<'a>(first: u64, second: Option<u64>, address: Option<u64>, json: bool) -> Plan<'a>
    ensures name { name_of result ≡ codes "bounds" }
    ensures said { said result ≡ Amount (Some first) ∷ Amount second ∷ Amount address ∷ Used json ∷ [] }
{
    let (base, length) = match second {
        Some(length) => (Some(first), length),
        None => (None, first),
    };
    Plan::Bounds {
        base,
        length,
        address,
        json,
    }
}

#[tactic(auto, unfolding(crate::specs::CommandLine::commands))]
fn bounds_plan<'a>(found: &ArgMatches<'a>) -> Plan<'a>
    requires { HasAll (codes "bounds") (rows_of (found_of found.now)) }
    ensures { Says (codes "bounds") (rows_of (found_of found.now)) result }
{
    bounds_of(
        its_number(found, "BASE"),
        number(found, "LENGTH"),
        number(found, "address"),
        flag(found, "json"),
    )
}

#[tactic(auto, unfolding(crate::specs::CommandLine::commands))]
fn word_plan<'a>(found: &ArgMatches<'a>) -> Plan<'a>
    requires { HasAll (codes "word") (rows_of (found_of found.now)) }
    ensures { Says (codes "word") (rows_of (found_of found.now)) result }
{
    Plan::Word {
        high: its_number(found, "HIGH"),
        low: its_number(found, "LOW"),
        memory: flag(found, "memory"),
        json: flag(found, "json"),
    }
}

/// What was found of the command of this name, of which each argument is what it takes.
#[tactic(auto, unfolding(crate::specs::CommandLine::commands))]
fn read<'a>(name: &str, found: &ArgMatches<'a>) -> Plan<'a>
    requires { HasAll name.now (rows_of (found_of found.now)) }
    ensures { Says name.now (rows_of (found_of found.now)) result }
{
    match name {
        "asm" => asm_plan(found),
        "image" => image_plan(found),
        "go" => go_plan(found),
        "run" => run_plan(found),
        "audit" => audit_plan(found),
        "prove" => prove_plan(found),
        "dis" => dis_plan(found),
        "debug" => debug_plan(found),
        "bounds" => bounds_plan(found),
        "word" => word_plan(found),
        _ => unreachable!(),
    }
}

/// The arguments of the command of a name.
fn lines_named(name: &str, rows: &[CommandRow]) -> Option<&'static [Argument]>
    ensures { option_map (λ lines. map line_of lines.now) result ≡ lines_named name.now (map entry_of rows.now) }
{
    match rows {
        [] => None,
        [row, rest @ ..] => {
            if is_word(name, row.0) {
                Some(row.2)
            } else {
                lines_named(name, rest)
            }
        }
    }
}

/// What was found of the command of this name, whose arguments these are.
fn plan_of_lines<'a>(
    name: &str,
    found: &ArgMatches<'a>,
    lines: &[Argument],
) -> Result<Plan<'a>, Misfit<'a>>
    requires { lines_named name.now commands ≡ Some (map line_of lines.now) }
    ensures value { IfOk result (IsPlanOf (Some (name.now, (rows_of (found_of found.now))))) }
    ensures sound { IfOk result IsSound }
    ensures none { IfErr result (λ _. NoPlanFits (Some (name.now, (rows_of (found_of found.now))))) }
{
    check(found, lines)?;
    Ok(read(name, found))
}

fn plan_of_command<'a>(
    name: &str,
    found: &ArgMatches<'a>,
    rows: &[CommandRow],
) -> Result<Plan<'a>, Misfit<'a>>
    requires { map entry_of rows.now ≡ commands }
    ensures value { IfOk result (IsPlanOf (Some (name.now, (rows_of (found_of found.now))))) }
    ensures sound { IfOk result IsSound }
    ensures none { IfErr result (λ _. NoPlanFits (Some (name.now, (rows_of (found_of found.now))))) }
{
    match lines_named(name, rows) {
        None => Err(Misfit::Told(MISSING)),
        Some(lines) => plan_of_lines(name, found, lines),
    }
}

fn plan_of<'a>(matches: &ArgMatches<'a>, rows: &[CommandRow]) -> Result<Plan<'a>, Misfit<'a>>
    requires { map entry_of rows.now ≡ commands }
    ensures value { IfOk result (IsPlanOf (subcommand_rows_of matches.now)) }
    ensures sound { IfOk result IsSound }
    ensures none { IfErr result (λ _. NoPlanFits (subcommand_rows_of matches.now)) }
{
    match matches.subcommand() {
        None => Ok(Plan::First),
        Some((name, found)) => plan_of_command(name, found, rows),
    }
}

/// The text of a refusal, with the usage of a command.
fn error_text(alloc: Global, command: &mut Command<'_>, told: &str) -> Result<String, AllocError> {
    let error = command.error(ErrorKind::InvalidValue, told)?;
    format!(in alloc; "{error}")
}

/// The text of a refusal, with the usage of the command of this name.
fn refusal(
    alloc: Global,
    name: &str,
    told: &str,
    rows: &[CommandRow],
) -> Result<String, AllocError> {
    let lines = lines_named(name, rows).unwrap_or(&[]);
    let name = format!(in alloc; "cherisim {name}")?;
    let mut command = alone(alloc, &name, lines)?;
    error_text(alloc, &mut command, told)
}

/// What is told of words that clap takes, and that are no plan.
fn misfit_refusal(
    alloc: Global,
    matches: &ArgMatches<'_>,
    misfit: Misfit<'_>,
    rows: &[CommandRow],
) -> Result<String, AllocError> {
    let told = misfit_text(alloc, misfit)?;
    match matches.subcommand() {
        Some((name, _)) => refusal(alloc, name, &told, rows),
        None => Ok(told),
    }
}

/// What clap tells of the words, with the usage of the command that they name where clap shows none.
fn clap_refusal(
    alloc: Global,
    words: &[&str],
    text: String,
    rows: &[CommandRow],
) -> Result<String, AllocError> {
    if text.contains("\n\nUsage: ") || words.len() < 2 || lines_named(words[1], rows).is_none() {
        return Ok(text);
    }
    let line = text.split('\n').next().unwrap_or("");
    refusal(
        alloc,
        words[1],
        line.strip_prefix("error: ").unwrap_or(line),
        rows,
    )
}

/// The fault with the text of a refusal, if there was memory for it.
fn refused(text: Result<String, AllocError>) -> PlanFault {
    match text {
        Ok(text) => PlanFault::Refused(text),
        Err(_) => PlanFault::Memory,
    }
}

/// The fault for an error of clap's, with its text.
fn fault_of(alloc: Global, words: &[&str], error: Error, rows: &[CommandRow]) -> PlanFault
    ensures { kind_of error ≡ ErrorKind.OutOfMemory → result ≡ Memory }
{
    let kind = error.kind();
    if kind == ErrorKind::OutOfMemory {
        return PlanFault::Memory;
    }
    match format!(in alloc; "{error}") {
        Ok(text) if kind == ErrorKind::DisplayHelp => PlanFault::Help(text),
        Ok(text) => refused(clap_refusal(alloc, words, text, rows)),
        Err(_) => PlanFault::Memory,
    }
}

/// Whether a word is this one: by itself, so that its callers are proved by this one clause.
fn is_word(word: &str, this: &str) -> bool
    ensures { result ≡ bytes_eq word.now this.now }
{
    word == this
}

/// Whether a word is `--why=all` or `--why=double`.
fn names_ends(word: &str) -> bool
    ensures { result ≡ names_ends word.now }
{
    is_word(word, "--why=all") || is_word(word, "--why=double")
}

/// Whether one of the words is one of these, before any `--`.
fn asks_all(words: &[&str]) -> bool
    ensures { result ≡ asks_all (map (λ word. word.now) words.entry.now) }
{
    for word in words {
        if *word == "--" {
            return false;
        }
        if names_ends(word) {
            return true;
        }
    }
    false
}

/// The plan of what clap found.
fn planned<'a>(
    alloc: Global,
    matches: ArgMatches<'a>,
    rows: &[CommandRow],
) -> Result<Plan<'a>, PlanFault>
    requires { map entry_of rows.now ≡ commands }
    ensures value { IfOk result (IsPlanOf (subcommand_rows_of matches.entry)) }
    ensures sound { IfOk result IsSound }
    ensures none { IfErr result (λ _. NoPlanFits (subcommand_rows_of matches.entry)) }
{
    match plan_of(&matches, rows) {
        Ok(plan) => Ok(plan),
        Err(misfit) => Err(refused(misfit_refusal(alloc, &matches, misfit, rows))),
    }
}

/// Reads the words by these commands, which are those of the table. They are handed on, since whatever names the table has to build it
/// whole in its proof.
fn plan_by<'a>(
    alloc: Global,
    words: &'a [&'a str],
    rows: &[CommandRow],
) -> Result<Plan<'a>, PlanFault>
    requires { map entry_of rows.now ≡ commands }
    ensures taken { OnOk result (IsTaken (map (λ word. word.now) words.entry.now)) }
    ensures ok { IfOk result (IsPlanOf (found_in (map (λ word. word.now) words.entry.now))) }
    ensures sound { IfOk result IsSound }
    ensures err { IfErr result (λ fault. IsTaken (map (λ word. word.now) words.entry.now)
        → (NoPlanFits (found_in (map (λ word. word.now) words.entry.now)) → ⊥)
        → fault ≡ Memory) }
{
    let mut command = program(alloc, asks_all(words), rows)?;
    match command.try_get_matches_from_mut(words) {
        Ok(matches) => planned(alloc, matches, rows),
        Err(error) => Err(fault_of(alloc, words, error, rows)),
    }
}

/// Reads the words of a command line, the program's name first.
///
/// A file that is written may not bear the name of another file of the command; `--trace-from` and `--trace-last` go with `--trace`,
/// and `--policy` does not go with `--why`; with one number `bounds` has a length and no address. `-` is standard input, which is read for
/// one file at most, and for none of `debug`. A number is typed in decimal digits, or in hexadecimal digits after `0x`, and `_` may stand
/// between two digits. `Help` and `Refused` hold the text for whoever typed the words; `Memory` says that there was none.
#[tactic(auto, unfolding(crate::specs::CommandLine::commands))]
pub fn plan<'a>(alloc: Global, words: &'a [&'a str]) -> Result<Plan<'a>, PlanFault>
    ensures taken { OnOk result (IsTaken (map (λ word. word.now) words.entry.now)) }
    ensures ok { IfOk result (IsPlanOf (found_in (map (λ word. word.now) words.entry.now))) }
    ensures sound { IfOk result IsSound }
    // Where clap takes the words and finds a sound plan, only memory can be wanting.
    ensures err { IfErr result (λ fault. IsTaken (map (λ word. word.now) words.entry.now)
        → (NoPlanFits (found_in (map (λ word. word.now) words.entry.now)) → ⊥)
        → fault ≡ Memory) }
{
    plan_by(alloc, words, &COMMANDS)
}
