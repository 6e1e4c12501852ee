//! The program as clap reads it, made of the table.

ghost use Rattle.std.specs.Prelude.{◌≡◌, IfOk, false, map, option_map};
ghost use Rattle.clap.specs.Words.{app_of, rule_of, with_rule, with_subcommand};
ghost use Rattle.clap.specs.declared.builder.command.Command.TheViews.{out-Command};
ghost use Rattle.command_line.specs.declared.table.Stands.TheVariants.{Flag, Named};
ghost use Rattle.command_line.specs.CommandLine.{as_stands, by_default, line_of, entry_of};
ghost use Rattle.command_line.specs.CommandLine.{rule, with_arguments, command, commands, with_commands, program};

use crate::table::{Argument, CommandRow, Stands};
use clap::{Arg, ArgAction, Command};
use std::alloc::{AllocError, Global};

/// What the help says below the commands.
const EXAMPLE: &str = "Examples:
  cherisim go hello.s
      assembles the text hello.s, and runs it until it halts
  cherisim asm hello.s hello.img
      assembles the text hello.s, and writes the image to hello.img
  cherisim run hello.img 1000 --input keys.txt --gap 50
      runs hello.img for at most 1000 steps, and gives it a byte of keys.txt every 50 steps
  cherisim run hello.img 1000 --policy hello.policy --symbols hello.sym
      stops before a step at which the code can reach more than a rule about it allows
  cherisim prove hello.img --policy hello.policy --symbols hello.sym
      shows, if it can, that no run breaks a rule, whatever code is in the ranges of `any code`
  cherisim image hello.bin hello.img
      makes an image of the bytes of hello.bin, from RAM's first address on
  cherisim dis hello.img
      lists hello.img: for each word its address, its number and its instruction
  cherisim debug hello.img
      loads hello.img and does one command a line, as `step 5`, `regs`, `mem 0x80000000 64` or `quit`
  cherisim bounds 0x80000000 0x1001
      says what setting these bounds gives
  cherisim bounds 0x1001
      says how many bytes an allocator reserves for so many, and at which addresses
  cherisim word 0xffff1ffffc018004 0x80000000
      says what a capability means whose halves are these

Without a command the program runs a first image of five instructions, which prints A; with
--version alone it prints its version.

In place of an image `run`, `audit`, `prove`, `dis` and `debug` take a text too, if its name ends in
.s: then its labels are known without --symbols. Of the files that are read - is standard input, for
one of them alone, and not for `debug`. Numbers are decimal, or hexadecimal behind 0x,
and _ may stand between two digits.

The status is 0 where all went well, for a run where the machine halted with 0; 1 where a run ended
otherwise, where `audit` finds that a policy is broken, and where `prove` doesn't show that it is
kept; 2 for a command line that is no command; 3 for any other fault.";

/// An argument named by `--ID`, which a value follows.
fn named<'a>(id: &'a str, value: &'a str, arg: Arg<'a>) -> Arg<'a>
    ensures rule { rule_of result ≡ as_stands false Named id.entry.now (rule_of arg.entry) }
    ensures local { result.global ≡ arg.entry.global }
{
    arg.long(id).value_name(value)
}

/// An argument named by `--ID`, which no value follows.
fn flag<'a>(id: &'a str, arg: Arg<'a>) -> Arg<'a>
    ensures rule { rule_of result ≡ as_stands false Flag id.entry.now (rule_of arg.entry) }
    ensures local { result.global ≡ arg.entry.global }
{
    arg.long(id).action(ArgAction::SetTrue)
}

/// Puts an argument where it stands among the words; `all` says that the words have `--why=all` or `--why=double`.
fn as_stands<'a>(all: bool, stands: Stands, id: &'a str, value: &'a str, arg: Arg<'a>) -> Arg<'a>
    ensures rule { rule_of result ≡ as_stands all stands id.entry.now (rule_of arg.entry) }
    ensures local { result.global ≡ arg.entry.global }
{
    match stands {
        Stands::Operand => arg.required(true),
        Stands::Optional => arg,
        Stands::Named => named(id, value, arg),
        Stands::Required => named(id, value, arg.required(true)),
        Stands::Flag => flag(id, arg),
        Stands::FlagOrAll if all => named(id, value, arg),
        Stands::FlagOrAll => flag(id, arg),
    }
}

/// Gives an argument its value where it isn't used.
fn by_default<'a>(value: Option<&'a str>, arg: Arg<'a>) -> Arg<'a>
    ensures rule { rule_of result ≡ by_default (option_map (λ text. text.now) value.entry) (rule_of arg.entry) }
    ensures local { result.global ≡ arg.entry.global }
{
    match value {
        Some(value) => arg.default_value(value),
        None => arg,
    }
}

/// The argument of a line of the table.
#[tactic(auto, unfolding(crate::specs::CommandLine::rule))]
fn argument<'a>(alloc: Global, all: bool, line: &Argument) -> Arg<'a>
    ensures rule { rule_of result ≡ rule all (line_of line.now) }
    ensures local { result.global ≡ false }
{
    let arg = Arg::new(alloc, line.0).help(line.4.1);
    let arg = as_stands(all, line.1, line.0, line.4.0, arg);
    by_default(line.3, arg)
}

/// Adds an argument, which is not global, to a command.
fn with_argument<'a>(command: Command<'a>, argument: Arg<'a>) -> Result<Command<'a>, AllocError>
    requires bare { (out-Command command).has_globals ≡ false }
    requires local { argument.global ≡ false }
    ensures app { IfOk result (λ c. app_of c ≡ with_rule (app_of command.entry) (rule_of argument.entry)) }
    ensures local { IfOk result (λ c. (out-Command c).has_globals ≡ false) }
{
    command.arg(argument)
}

/// Adds the arguments of these lines to a command.
#[tactic(auto, unfolding(crate::specs::CommandLine::with_arguments))]
fn with_arguments<'a>(
    alloc: Global,
    all: bool,
    command: Command<'a>,
    lines: &[Argument],
) -> Result<Command<'a>, AllocError>
    requires { (out-Command command).has_globals ≡ false }
    ensures app { IfOk result (λ c. app_of c ≡ with_arguments all (app_of command.entry) (map line_of lines.now)) }
    ensures local { IfOk result (λ c. (out-Command c).has_globals ≡ false) }
{
    match lines {
        [] => Ok(command),
        [line, rest @ ..] => {
            let command = with_argument(command, argument(alloc, all, line))?;
            with_arguments(alloc, all, command, rest)
        }
    }
}

/// The command of a line of the table.
#[tactic(auto, unfolding(crate::specs::CommandLine::command))]
fn command<'a>(alloc: Global, all: bool, row: &CommandRow) -> Result<Command<'a>, AllocError>
    ensures app { IfOk result (λ c. app_of c ≡ command all (entry_of row.now)) }
    ensures local { IfOk result (λ c. (out-Command c).has_globals ≡ false) }
{
    with_arguments(alloc, all, Command::new(alloc, row.0).about(row.1), row.2)
}

/// A command by itself, with the arguments of these lines: its name is what its usage begins with.
pub(crate) fn alone<'a>(
    alloc: Global,
    name: &'a str,
    lines: &[Argument],
) -> Result<Command<'a>, AllocError> {
    with_arguments(alloc, false, Command::new(alloc, name), lines)
}

/// Adds a command, of which no argument is global, to the program.
fn with_command<'a>(program: Command<'a>, command: Command<'a>) -> Result<Command<'a>, AllocError>
    requires { (out-Command command).has_globals ≡ false }
    ensures { IfOk result (λ c. app_of c ≡ with_subcommand (app_of program.entry) (app_of command.entry).top) }
{
    program.subcommand(command)
}

/// Adds the command of a line to the program.
fn with_row<'a>(
    alloc: Global,
    all: bool,
    program: Command<'a>,
    row: &CommandRow,
) -> Result<Command<'a>, AllocError>
    ensures { IfOk result (λ c. app_of c ≡ with_subcommand (app_of program.entry) (command all (entry_of row.now)).top) }
{
    let made = command(alloc, all, row)?;
    with_command(program, made)
}

/// Adds the commands of these lines to the program.
#[tactic(auto, unfolding(crate::specs::CommandLine::with_commands))]
fn with_commands<'a>(
    alloc: Global,
    all: bool,
    program: Command<'a>,
    rows: &[CommandRow],
) -> Result<Command<'a>, AllocError>
    ensures { IfOk result (λ c. app_of c ≡ with_commands all (app_of program.entry) (map entry_of rows.now)) }
{
    match rows {
        [] => Ok(program),
        [row, rest @ ..] => {
            let program = with_row(alloc, all, program, row)?;
            with_commands(alloc, all, program, rest)
        }
    }
}

/// The command line of the program, of these commands, which are those of the table; `all` says that the words have `--why=all` or
/// `--why=double`.
#[tactic(auto, unfolding(crate::specs::CommandLine::program))]
pub(crate) fn program<'a>(
    alloc: Global,
    all: bool,
    rows: &[CommandRow],
) -> Result<Command<'a>, AllocError>
    requires { map entry_of rows.now ≡ commands }
    ensures { IfOk result (λ c. app_of c ≡ program all) }
{
    let program = Command::new(alloc, "cherisim")
        .about("A CHERI-RISC-V machine")
        .after_help(EXAMPLE);
    with_commands(alloc, all, program, rows)
}
