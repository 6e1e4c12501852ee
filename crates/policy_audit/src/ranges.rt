//! Ranges of addresses, as policies write them.
ghost use Rattle.std.specs.Prelude.{◌≡◌, ◌++◌, ◌<◌, ◌≤◌, ◌^◌, IsTrue, OnOk, string_bytes};
ghost use Rattle.std.specs.List.{flat_map};
ghost use Rattle.texts.specs.Piece.{text_of, width_of, are_narrow};
ghost use Rattle.policy_audit.specs.Entries.{from_on, from_to, next_range, range_text, within_text};

use arrayvec::ArrayString;
use reach::Range;
use std::alloc::AllocError;
use texts::Piece::{self, Hexadecimal, Text};
use texts::{append, fill, text};

/// How many addresses there are.
const END: u128 = 0x1_0000_0000_0000_0000;

/// Where the second half of them begins.
const HALF: u128 = 0x8000_0000_0000_0000;

/// A range by where it begins and ends.
#[tactic(auto, unfolding(crate::specs::Entries::from_to))]
fn from_to(from: u128, to: u128) -> [Piece<'static>; 4]
    ensures text { text_of result ≡ from_to from to }
    ensures narrow { IsTrue (are_narrow result) }
    ensures within { width_of result ≤ 39 }
{
    [
        Text("0x"),
        Hexadecimal(16, from),
        Text("..0x"),
        Hexadecimal(16, to),
    ]
}

/// All addresses from one on.
#[tactic(auto, unfolding(crate::specs::Entries::from_on))]
fn from_on(from: u128) -> [Piece<'static>; 4]
    requires { from < 2 ^ 64 }
    ensures text { text_of result ≡ from_on from }
    ensures narrow { IsTrue (are_narrow result) }
    ensures within { width_of result ≤ 39 }
{
    [
        Text("0x"),
        Hexadecimal(16, from),
        Text("..+0x"),
        Hexadecimal(16, END - from),
    ]
}

/// A range.
#[tactic(auto, unfolding(crate::specs::Entries::range_text))]
pub(crate) fn range_text(range: Range) -> ArrayString<79>
    ensures { result.bytes ≡ range_text range }
{
    if range.to < END {
        return text(&from_to(u128::from(range.from), range.to));
    }
    if range.from != 0 {
        return text(&from_on(u128::from(range.from)));
    }
    let mut whole = text(&from_to(0, HALF));
    fill(&mut whole, &[Text(" ")]);
    fill(&mut whole, &from_on(HALF));
    whole
}

/// Appends ranges, one after the other.
#[tactic(auto, unfolding(crate::specs::Entries::next_range))]
fn append_each(text: &mut String, ranges: &[Range]) -> Result<(), AllocError>
    ensures { OnOk result (string_bytes text.new ≡ string_bytes text.old ++ flat_map next_range ranges.now) }
{
    for range in ranges {
        append(text, &[Text(" "), Text(range_text(*range).as_str())])?;
    }
    Ok(())
}

/// Appends that something may be done within ranges, or nowhere.
pub(crate) fn append_within(text: &mut String, ranges: &[Range]) -> Result<(), AllocError>
    ensures { OnOk result (string_bytes text.new ≡ string_bytes text.old ++ within_text ranges.now) }
{
    if ranges.is_empty() {
        append(text, &[Text(" no")])
    } else {
        append(text, &[Text(" within")])?;
        append_each(text, ranges)
    }
}
