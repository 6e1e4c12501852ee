//! A CHERI-RISC-V machine on the command line.
#![tactic(auto)]

ghost use Rattle.std.specs.Prelude.{◌-◌, ◌^◌, ◌<◌};

mod disk;
mod keyboard;
mod pipe;
mod screen;
mod waiting;

use disk::Disk;
use keyboard::Keyboard;
use pipe::Pipe;
use program::{ProgramFault, Sink, Writing, refuse, status_of, tell_fault};
use screen::Screen;
use std::cell::Cell;
use std::env;
use std::io::{self, IsTerminal};
use std::process::ExitCode;

/// What is told of a word that is no text.
const NOT_UTF8: &str = "error: a word of the command line is not UTF-8\n";

/// The words of the command line, the program's name first.
fn words_of(rt: &HostRuntime) -> io::Result<Vec<String>> {
    let words = env::args(rt)?;
    Ok(words.collect(rt.alloc())?)
}

/// Tells why the words could not be read, and answers the status.
fn tell_error<E: Sink>(errors: &mut E, error: &io::Error) -> u8
    requires { E.failed errors.old < 2 ^ 64 - 1 }
{
    match error.kind() {
        io::ErrorKind::InvalidData => refuse(errors, NOT_UTF8),
        io::ErrorKind::OutOfMemory => tell_fault(errors, false, &ProgramFault::Memory),
        _ => tell_fault(errors, false, &ProgramFault::Words),
    }
}

/// Whether these words begin a session whose commands are typed at a terminal and answered on one.
fn is_at_terminal(rt: &HostRuntime, words: &[&str]) -> bool {
    words.len() > 1 && words[1] == "debug" && rt.stdin().is_terminal() && rt.stdout().is_terminal()
}

/// Does what the words of the command line ask, and answers the status.
fn status(rt: &HostRuntime, words: &[String]) -> u8 {
    let mut texts = Vec::new(rt.alloc());
    for word in words {
        if texts.push(word.as_str()).is_err() {
            let stderr = rt.stderr();
            let mut errors = Writing::new(io::writer(&stderr));
            return tell_fault(&mut errors, false, &ProgramFault::Memory);
        }
    }
    let stderr = rt.stderr();
    let mut errors = Writing::new(io::writer(&stderr));
    let mut disk = Disk::new(rt);
    let is_terminal = is_at_terminal(rt, &texts);
    let refused = Cell::new(false);
    let prompts = is_terminal.then_some(io::writer(rt));
    let input = Keyboard::new(rt.reader(), prompts, &refused);
    let pipe = Pipe::new(io::writer(rt));
    let output = Screen::new(rt.alloc(), pipe, is_terminal, &refused);
    status_of(rt.alloc(), &mut disk, input, output, &mut errors, &texts).status
}

fn main(rt: HostRuntime) -> io::Result<ExitCode> {
    let status = match words_of(&rt) {
        Ok(words) => status(&rt, &words),
        Err(error) => tell_error(&mut Writing::new(io::writer(&rt.stderr())), &error),
    };
    Ok(ExitCode::from(status))
}
