//! Tries what neither the C libraries nor the program `cherisim` show: the files of cases of `case_files`. With the word `growths` it makes
//! each call that takes memory, so that a growth of it can be refused from outside: tools/refused_growths.py refuses one after the other.
#![tactic(auto)]

mod calls;
mod sameness;
mod sessions;
mod tried;

use std::process::ExitCode;
use std::{env, io};

/// Whether the first word after the program's name is `growths`.
fn asks_for_growths(rt: &HostRuntime) -> io::Result<bool> {
    let mut words = env::args(rt)?;
    words.next();
    Ok(match words.next() {
        Some(word) => word.as_str() == "growths",
        None => false,
    })
}

fn main(rt: HostRuntime) -> io::Result<ExitCode> {
    let is_good = if asks_for_growths(&rt)? {
        calls::try_calls(&rt)?
    } else {
        case_files::try_files(&rt)?
    };
    Ok(ExitCode::from(u8::from(!is_good)))
}
