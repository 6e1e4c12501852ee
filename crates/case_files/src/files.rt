//! The files of cases, tried one after the other.

use crate::fault::CaseError;
use crate::words::Words;
use crate::{agreements, alone, failures, forms};
use std::alloc::Global;
use std::mem::size_of;
use std::{fs, io};
use word_cap::WordCap;

/// The files in the order in which they are tried.
const FILES: [&str; 11] = [
    "words.txt",
    "windows.txt",
    "requests.txt",
    "agreements.txt",
    "rights.txt",
    "capability_rows.txt",
    "accesses.txt",
    "jumps.txt",
    "invocations.txt",
    "alone.txt",
    "failures.txt",
];

/// A line of a file of cases.
#[derive(Clone, Copy)]
struct Case<'a> {
    file: &'a str,
    line: u64,
    inputs: &'a str,
    expected: &'a str,
}

impl<'a> Case<'a> {
    /// The case of a line: none where the line is empty or a comment. A line without `=>` is one that expects nothing.
    fn of(file: &'a str, line: u64, text: &'a str) -> Option<Self> {
        if text.is_empty() || text.starts_with('#') {
            return None;
        }
        let (inputs, expected) = text.split_once(" => ").unwrap_or((text, ""));
        Some(Case {
            file,
            line,
            inputs,
            expected,
        })
    }

    /// Tells what comes of its words: what the crates answer, or its own answer where both forms of capabilities agree.
    fn tell_words(
        &self,
        alloc: Global,
        told: &mut String,
        words: &mut Words,
    ) -> Result<(), CaseError> {
        let agree = match self.file {
            "words.txt" => forms::word(words),
            "windows.txt" => forms::window(words),
            "requests.txt" => forms::request(words),
            "agreements.txt" => agreements::drawn(words),
            "rights.txt" => forms::right(words),
            "capability_rows.txt" => forms::capability_row(words).ok_or(CaseError::Unreadable)?,
            "accesses.txt" => forms::access(words),
            "jumps.txt" => forms::jump(words),
            "invocations.txt" => forms::invocation(words),
            "alone.txt" => return alone::tell(alloc, told, self.inputs, words),
            _ => return failures::tell(alloc, told, words),
        };
        Ok(told.push_str(if agree { self.expected } else { "they differ" })?)
    }

    /// Tells what comes of it, or why it cannot be tried.
    fn tell(&self, alloc: Global, told: &mut String) -> Result<(), CaseError> {
        let mut words = Words::of(self.inputs);
        match self.tell_words(alloc, told, &mut words) {
            Ok(()) => words.check(),
            Err(error) => Err(error),
        }
    }

    /// Tries it, tells of it if it failed, and says whether it held. The text is to tell what came of it.
    fn holds(&self, rt: &HostRuntime, came: &mut String) -> io::Result<bool> {
        came.clear();
        if let Err(error) = self.tell(rt.alloc(), came) {
            came.clear();
            came.push_str(error.text())?;
        }
        if came.as_str() == self.expected {
            return Ok(true);
        }
        let (file, line, inputs, expected) = (self.file, self.line, self.inputs, self.expected);
        println!(rt; "{file}, line {line}: {inputs}\n  expected {expected}\n  came     {came}")?;
        Ok(false)
    }
}

/// Tries a file, prints how many cases it has, and says whether there are some and all held.
fn all_hold(rt: &HostRuntime, file: &str) -> io::Result<bool> {
    let text = fs::read_to_string(rt, file)?;
    let mut came = String::new(rt.alloc());
    let mut number: u64 = 0;
    let mut cases: u64 = 0;
    let mut failed: u64 = 0;
    for line in text.lines() {
        number = number.wrapping_add(1);
        if let Some(case) = Case::of(file, number, line) {
            cases = cases.wrapping_add(1);
            failed = failed.wrapping_add(u64::from(!case.holds(rt, &mut came)?));
        }
    }
    let name = file.strip_suffix(".txt").unwrap_or(file);
    println!(rt; "{name}: {cases} cases")?;
    Ok(failed == 0 && cases != 0)
}

/// Tries all files of the folder that the program runs in, prints of each how many cases it has and which of them failed, and then how many
/// bytes a capability has; says whether all held.
pub fn try_files(rt: &HostRuntime) -> io::Result<bool> {
    let mut all_good = true;
    for file in &FILES {
        all_good &= all_hold(rt, file)?;
    }
    let bytes = size_of::<WordCap>();
    println!(rt; "a capability of the program: {bytes} bytes")?;
    Ok(all_good)
}
