//! What is read of the values that clap found.

ghost use Rattle.std.specs.Prelude.{◌≡◌, IsSome, IsTrue, Some, None, is_some, option_and_then, option_map};
ghost use Rattle.clap.specs.Words.{found_of, rows_of, first_of};
ghost use Rattle.command_line.specs.CommandLine.{Amount, said_of};
ghost use Rattle.command_line.specs.CommandLine.{is_needed, is_start, is_true, line_of, why_of, is_used};
ghost use Rattle.command_line.specs.CommandLine.{count_in, written_number};

use crate::numbers::{count_in, written_number};
use crate::plans::Why;
use crate::table::{Line, Stands, Takes};
use clap::ArgMatches;

/// The text that was found for `id`.
pub(crate) fn text<'a>(matches: &ArgMatches<'a>, id: &str) -> Option<&'a str>
    ensures { option_map (λ s. s.now) result ≡ first_of id.now (rows_of (found_of matches.now)) }
{
    matches.get_str(id)
}

/// Whether an argument is used.
pub(crate) fn is_used(found: &ArgMatches<'_>, id: &str) -> bool
    ensures { result ≡ is_used id.now (rows_of (found_of found.now)) }
{
    text(found, id).is_some()
}

/// Whether the flag of this id is used.
pub(crate) fn flag(found: &ArgMatches<'_>, id: &str) -> bool
    ensures { result ≡ is_true (first_of id.now (rows_of (found_of found.now))) }
{
    match text(found, id) {
        Some(text) => text == "true",
        None => false,
    }
}

/// Which ends of a run a text asks for.
fn why_of(text: &str) -> Option<Why>
    ensures { result ≡ why_of text.now }
{
    match text {
        "true" => Some(Why::Unfetched),
        "all" => Some(Why::All),
        "double" => Some(Why::Double),
        _ => None,
    }
}

/// Whether an argument has a text wherever clap takes the words.
fn is_needed(line: &Line<'_>) -> bool
    ensures { result ≡ is_needed (line_of line.now) }
{
    match line.1 {
        Stands::Operand | Stands::Required => true,
        Stands::Optional | Stands::Named | Stands::Flag | Stands::FlagOrAll => line.3.is_some(),
    }
}

/// Whether what was found of an argument is what it takes.
#[tactic(auto, unfolding(crate::specs::CommandLine::said_of))]
pub(crate) fn is_fit(found: &ArgMatches<'_>, line: &Line<'_>) -> bool
    ensures { result ≡ is_some (said_of (rows_of (found_of found.now)) (line_of line.now)) }
{
    match text(found, line.0) {
        None if is_needed(line) => false,
        None => match line.2 {
            Takes::Start(least, most) => least <= most,
            Takes::Nothing
            | Takes::Ends
            | Takes::Read
            | Takes::ReadBeside
            | Takes::Written
            | Takes::Count(..)
            | Takes::Number => true,
        },
        Some(text) => match line.2 {
            Takes::Nothing | Takes::Ends | Takes::Read | Takes::Written => true,
            Takes::ReadBeside => text != "-",
            Takes::Count(least, most) | Takes::Start(least, most) => match count_in(text) {
                Some(count) => least <= count && count <= most,
                None => false,
            },
            Takes::Number => written_number(text).is_some(),
        },
    }
}

/// The text that was found for `id`, of which one was.
pub(crate) fn operand<'a>(found: &ArgMatches<'a>, id: &str) -> &'a str
    requires { IsSome (first_of id.now (rows_of (found_of found.now))) }
    ensures { Some result.now ≡ first_of id.now (rows_of (found_of found.now)) }
{
    match text(found, id) {
        Some(text) => text,
        None => unreachable!(),
    }
}

/// The number that the text of an argument says, if it says one.
pub(crate) fn number(found: &ArgMatches<'_>, id: &str) -> Option<u64>
    ensures { result ≡ option_and_then written_number (first_of id.now (rows_of (found_of found.now))) }
{
    match text(found, id) {
        Some(text) => written_number(text),
        None => None,
    }
}

/// The same of an argument with limits.
pub(crate) fn count(found: &ArgMatches<'_>, id: &str) -> Option<u64>
    ensures { result ≡ option_and_then count_in (first_of id.now (rows_of (found_of found.now))) }
{
    match text(found, id) {
        Some(text) => count_in(text),
        None => None,
    }
}

/// The number of an argument that has one.
pub(crate) fn its_number(found: &ArgMatches<'_>, id: &str) -> u64
    requires { IsSome (option_and_then written_number (first_of id.now (rows_of (found_of found.now)))) }
    ensures { Some result ≡ option_and_then written_number (first_of id.now (rows_of (found_of found.now))) }
{
    match number(found, id) {
        Some(number) => number,
        None => unreachable!(),
    }
}

/// The same of an argument with limits.
pub(crate) fn its_count(found: &ArgMatches<'_>, id: &str) -> u64
    requires { IsSome (option_and_then count_in (first_of id.now (rows_of (found_of found.now)))) }
    ensures { Some result ≡ option_and_then count_in (first_of id.now (rows_of (found_of found.now))) }
{
    match count(found, id) {
        Some(count) => count,
        None => unreachable!(),
    }
}

/// The number of an argument that has one where it isn't used too.
pub(crate) fn start(found: &ArgMatches<'_>, line: &Line<'_>) -> u64
    requires fit { IsSome (said_of (rows_of (found_of found.now)) (line_of line.now)) }
    requires kind { IsTrue (is_start line.now.2) }
    ensures { said_of (rows_of (found_of found.now)) (line_of line.now) ≡ Some (Amount (Some result)) }
{
    match line.2 {
        Takes::Start(least, _) => count(found, line.0).unwrap_or(least),
        _ => unreachable!(),
    }
}

/// Which ends of a run are explained.
pub(crate) fn ends(found: &ArgMatches<'_>, id: &str) -> Option<Why>
    ensures { result ≡ option_and_then why_of (first_of id.now (rows_of (found_of found.now))) }
{
    match text(found, id) {
        Some(text) => why_of(text),
        None => None,
    }
}
